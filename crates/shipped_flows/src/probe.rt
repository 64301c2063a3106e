ghost use Rattle.std.specs.Prelude.{◌≡◌, codes};
ghost use Rattle.std.proofs.Common.{arith};
ghost use Rattle.shipped_flows.specs.Probe.{begins, form, numbers, kept, begins_within, is_form};

use flow_forms::{End, Fields, Goes, Machine, Numbered, Then, Worded, is_peer, load_of};
use flow_machine::{Act, Place, Resumed};
use ledger_types::Value;
use net_base::{Key, PartFault, Party, Reader, Spelt, Writer};
use std::alloc::{AllocError, Global};

/// Where a probe waits: 1 until its session is open, 2 to receive.
#[derive(Clone, Copy)]
pub enum ProbePlace {
    Opening = 1,
    Receiving = 2,
}

/// The probe flow, class 10: `probe P CLASS` opens a session of the class with the counterparty P, whose first value is Unit, and returns
/// Unit once any value came. Where P knows no such class it fails with 50.
#[derive(Clone, Copy)]
pub struct Probe {
    /// The counterparty.
    pub to: Party,
    /// The class that the counterparty is asked to begin.
    pub class: u16,
    /// The session, once it is open.
    pub key: Option<Key>,
}

type Moved = Result<Goes<ProbePlace, Probe>, AllocError>;

impl Numbered for ProbePlace {
    ghost numbers = { numbers };

    fn number(self) -> u8 {
        self as u8
    }

    fn all() -> &'static [ProbePlace] {
        &[ProbePlace::Opening, ProbePlace::Receiving]
    }
}

impl Fields for Probe {
    ghost kept = { kept };

    fn read_fields(alloc: Global, from: &mut Reader) -> Result<Probe, PartFault> {
        Ok(Probe {
            to: Spelt::read_part(alloc, from)?,
            class: Spelt::read_part(alloc, from)?,
            key: Spelt::read_part(alloc, from)?,
        })
    }

    fn write_fields(&self, alloc: Global, out: &mut Writer) -> Result<(), AllocError> {
        self.to.write_part(alloc, out)?;
        self.class.write_part(alloc, out)?;
        self.key.write_part(alloc, out)
    }

    fn copy_fields(&self, _alloc: Global) -> Result<Probe, AllocError> {
        Ok(*self)
    }
}

impl Machine<ProbePlace> for Probe {
    ghost form = { form };

    ghost MACHINE = { 10 };

    ghost is_form = { is_form };

    const MACHINE: u8 = 10;

    fn start(self, _: Global, _: &Place) -> Moved {
        let (to, class, first) = (self.to, self.class, Value::Unit);
        Ok(Goes::on(ProbePlace::Opening, self, Act::Open { to, class, first }))
    }

    fn resume(self, _: Global, place: ProbePlace, with: &Resumed, _: &Place) -> Moved {
        Ok(match (place, with) {
            (ProbePlace::Opening, Resumed::Opened { key }) => {
                let fields = Probe {
                    key: Some(*key),
                    ..self
                };
                Goes::on(ProbePlace::Receiving, fields, Act::Receive { key: *key })
            }
            (ProbePlace::Receiving, Resumed::Got { .. }) => Goes::ends(self, Value::Unit),
            _ => Goes::unnamed(self, with),
        })
    }

    fn weight(&self, place: ProbePlace) -> u64 {
        match place {
            ProbePlace::Opening => 2,
            ProbePlace::Receiving => 1,
        }
    }

    fn called(&self) -> u64 {
        load_of(self.class) + 8
    }
}

impl Worded<ProbePlace> for Probe {
    ghost name = { codes "probe" };

    ghost CLASS = { 10 };

    ghost begins = { begins };

    ghost args_fit = { omega arith };

    ghost begins_within = { begins_within };

    type Args = Then<u8, Then<u16, End>>;

    const CLASS: u16 = 10;

    fn is_named(word: &str) -> bool {
        word == "probe"
    }

    fn begin(args: Then<u8, Then<u16, End>>, here: &Place) -> Option<Probe> {
        if !is_peer(args.first, here) {
            return None;
        }
        Some(Probe {
            to: Party(args.first),
            class: args.rest.first,
            key: None,
        })
    }
}
