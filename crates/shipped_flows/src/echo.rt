ghost use Rattle.std.specs.Prelude.{◌≡◌};
ghost use Rattle.shipped_flows.specs.Echo.{answers, receives, heard, form, numbers, kept, answers_within, is_form};

use flow_forms::{Answers, Fields, Goes, Machine, Numbered};
use flow_machine::{Act, Place, Resumed};
use ledger_types::Value;
use net_base::{Key, PartFault, Reader, Spelt, Writer};
use std::alloc::{AllocError, Global};

/// The most numbers that an echo answers.
const MOST_TURNS: u32 = 1000;

/// Where an echo waits: 1 to receive, 2 to send.
#[derive(Clone, Copy)]
pub enum EchoPlace {
    Receiving = 1,
    Sending = 2,
}

/// The echo flow, which answers an Init of class 2: it sends each number that comes back, one higher, and returns Unit once the other side
/// ended. At the 1,001st number it fails with 62.
#[derive(Clone, Copy)]
pub struct Echo {
    /// The session.
    pub key: Key,
    /// The number that came last, 0 before.
    pub last: u64,
    /// How many numbers came.
    pub turns: u32,
}

type Moved = Result<Goes<EchoPlace, Echo>, AllocError>;

impl Echo {
    fn receives(self) -> Goes<EchoPlace, Echo>
        ensures { result ≡ receives self }
    {
        let key = self.key;
        Goes::on(EchoPlace::Receiving, self, Act::Receive { key })
    }

    fn heard(self) -> Goes<EchoPlace, Echo>
        ensures { result ≡ heard self }
    {
        if self.turns > MOST_TURNS {
            return Goes::stops(self, 62);
        }
        let key = self.key;
        let value = Value::Number(self.last.saturating_add(1));
        Goes::on(EchoPlace::Sending, self, Act::Send { key, value })
    }
}

impl Numbered for EchoPlace {
    ghost numbers = { numbers };

    fn number(self) -> u8 {
        self as u8
    }

    fn all() -> &'static [EchoPlace] {
        &[EchoPlace::Receiving, EchoPlace::Sending]
    }
}

impl Fields for Echo {
    ghost kept = { kept };

    fn read_fields(alloc: Global, from: &mut Reader) -> Result<Echo, PartFault> {
        Ok(Echo {
            key: Spelt::read_part(alloc, from)?,
            last: Spelt::read_part(alloc, from)?,
            turns: Spelt::read_part(alloc, from)?,
        })
    }

    fn write_fields(&self, alloc: Global, out: &mut Writer) -> Result<(), AllocError> {
        self.key.write_part(alloc, out)?;
        self.last.write_part(alloc, out)?;
        self.turns.write_part(alloc, out)
    }

    fn copy_fields(&self, _alloc: Global) -> Result<Echo, AllocError> {
        Ok(*self)
    }
}

impl Machine<EchoPlace> for Echo {
    ghost form = { form };

    ghost MACHINE = { 11 };

    ghost is_form = { is_form };

    const MACHINE: u8 = 11;

    fn start(self, _: Global, _: &Place) -> Moved {
        Ok(self.receives())
    }

    fn resume(self, _: Global, place: EchoPlace, with: &Resumed, _: &Place) -> Moved {
        Ok(match (place, with) {
            (
                EchoPlace::Receiving,
                Resumed::Got {
                    value: Value::Number(last),
                },
            ) => Echo {
                last: *last,
                turns: self.turns.saturating_add(1),
                ..self
            }
            .heard(),
            (EchoPlace::Receiving, Resumed::Ended) => Goes::ends(self, Value::Unit),
            (EchoPlace::Sending, Resumed::Sent) => self.receives(),
            _ => Goes::unnamed(self, with),
        })
    }

    fn weight(&self, place: EchoPlace) -> u64 {
        let more = 3 * u64::from(MOST_TURNS.saturating_sub(self.turns));
        match place {
            EchoPlace::Receiving => more + 1,
            EchoPlace::Sending => more + 2,
        }
    }

    fn called(&self) -> u64 {
        3 * u64::from(MOST_TURNS.saturating_sub(self.turns)) + 2
    }
}

impl Answers<EchoPlace> for Echo {
    ghost ANSWERED = { 2 };

    ghost answers = { answers };

    ghost answers_within = { answers_within };

    const ANSWERED: u16 = 2;

    fn answer(key: &Key) -> Echo {
        Echo {
            key: *key,
            last: 0,
            turns: 0,
        }
    }
}
