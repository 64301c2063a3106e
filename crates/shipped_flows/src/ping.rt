ghost use Rattle.std.specs.Prelude.{◌≡◌, codes};
ghost use Rattle.std.proofs.Common.{arith};
ghost use Rattle.shipped_flows.specs.Ping.{begins, opens, receives, counts, form, numbers, kept, begins_within, is_form};

use flow_forms::{End, Fields, Goes, Machine, Numbered, Then, Worded, is_peer};
use flow_machine::{Act, Place, Resumed};
use ledger_types::Value;
use net_base::{Key, PartFault, Party, Reader, Spelt, Writer};
use std::alloc::{AllocError, Global};

/// The most numbers that a ping is made for.
const MOST_NUMBERS: u32 = 1000;

/// Where a ping waits: 1 until its session is open, 2 to receive, 3 to send.
#[derive(Clone, Copy)]
pub enum PingPlace {
    Opening = 1,
    Receiving = 2,
    Sending = 3,
}

/// The ping flow, class 2: `ping P K` opens a session with the echo of the counterparty P, sends back each number that comes, and returns
/// the K-th. K is 1 to 1,000.
#[derive(Clone, Copy)]
pub struct Ping {
    /// The counterparty.
    pub to: Party,
    /// How many numbers are still to come.
    pub left: u32,
    /// The session, once it is open.
    pub key: Option<Key>,
    /// The number that came last, 0 before.
    pub last: u64,
}

type Moved = Result<Goes<PingPlace, Ping>, AllocError>;

impl Ping {
    fn receives(self) -> Goes<PingPlace, Ping>
        ensures { result ≡ receives self }
    {
        match self.key {
            Some(key) => Goes::on(PingPlace::Receiving, self, Act::Receive { key }),
            None => Goes::stops(self, 54),
        }
    }

    fn counts(self) -> Goes<PingPlace, Ping>
        ensures { result ≡ counts self }
    {
        let value = Value::Number(self.last);
        if self.left == 0 {
            return Goes::ends(self, value);
        }
        match self.key {
            Some(key) => Goes::on(PingPlace::Sending, self, Act::Send { key, value }),
            None => Goes::stops(self, 54),
        }
    }
}

impl Numbered for PingPlace {
    ghost numbers = { numbers };

    fn number(self) -> u8 {
        self as u8
    }

    fn all() -> &'static [PingPlace] {
        &[PingPlace::Opening, PingPlace::Receiving, PingPlace::Sending]
    }
}

impl Fields for Ping {
    ghost kept = { kept };

    fn read_fields(alloc: Global, from: &mut Reader) -> Result<Ping, PartFault> {
        Ok(Ping {
            to: Spelt::read_part(alloc, from)?,
            left: Spelt::read_part(alloc, from)?,
            key: Spelt::read_part(alloc, from)?,
            last: Spelt::read_part(alloc, from)?,
        })
    }

    fn write_fields(&self, alloc: Global, out: &mut Writer) -> Result<(), AllocError> {
        self.to.write_part(alloc, out)?;
        self.left.write_part(alloc, out)?;
        self.key.write_part(alloc, out)?;
        self.last.write_part(alloc, out)
    }

    fn copy_fields(&self, _alloc: Global) -> Result<Ping, AllocError> {
        Ok(*self)
    }
}

impl Machine<PingPlace> for Ping {
    ghost form = { form };

    ghost MACHINE = { 2 };

    ghost is_form = { is_form };

    const MACHINE: u8 = 2;

    fn start(self, _: Global, _: &Place) -> Moved {
        let (to, first) = (self.to, Value::Number(0));
        let class = 2;
        Ok(Goes::on(PingPlace::Opening, self, Act::Open { to, class, first }))
    }

    fn resume(self, _: Global, place: PingPlace, with: &Resumed, _: &Place) -> Moved {
        Ok(match (place, with) {
            (PingPlace::Opening, Resumed::Opened { key }) => Ping {
                key: Some(*key),
                ..self
            }
            .receives(),
            (
                PingPlace::Receiving,
                Resumed::Got {
                    value: Value::Number(last),
                },
            ) => Ping {
                left: self.left.saturating_sub(1),
                last: *last,
                ..self
            }
            .counts(),
            (PingPlace::Sending, Resumed::Sent) => self.receives(),
            _ => Goes::unnamed(self, with),
        })
    }

    fn weight(&self, place: PingPlace) -> u64 {
        let more = 3 * u64::from(self.left.saturating_sub(1));
        match place {
            PingPlace::Receiving => more + 1,
            _ => more + 2,
        }
    }

    fn called(&self) -> u64 {
        3 * u64::from(self.left.saturating_sub(1)) + 3010
    }
}

impl Worded<PingPlace> for Ping {
    ghost name = { codes "ping" };

    ghost CLASS = { 2 };

    ghost begins = { begins };

    ghost args_fit = { omega arith };

    ghost begins_within = { begins_within };

    type Args = Then<u8, Then<u32, End>>;

    const CLASS: u16 = 2;

    fn is_named(word: &str) -> bool {
        word == "ping"
    }

    fn begin(args: Then<u8, Then<u32, End>>, here: &Place) -> Option<Ping> {
        let (to, left) = (args.first, args.rest.first);
        if !is_peer(to, here) || left < 1 || left > MOST_NUMBERS {
            return None;
        }
        Some(Ping {
            to: Party(to),
            left,
            key: None,
            last: 0,
        })
    }
}
