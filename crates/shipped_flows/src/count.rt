ghost use Rattle.std.specs.Prelude.{◌≡◌, codes};
ghost use Rattle.std.proofs.Common.{arith};
ghost use Rattle.shipped_flows.specs.Count.{begins, sleeps, form, numbers, kept, begins_within, is_form};

use flow_forms::{End, Fields, Goes, Machine, Numbered, Then, Worded};
use flow_machine::{Act, Place, Resumed};
use ledger_types::Value;
use net_base::{PartFault, Reader, Spelt, Writer};
use std::alloc::{AllocError, Global};

/// The most sleeps that a counting flow is made for.
const MOST_SLEEPS: u32 = 65534;

/// Where a counting flow waits: 1 until it wakes.
#[derive(Clone, Copy)]
pub enum CountPlace {
    Sleeping = 1,
}

/// The counting flow, class 1: `count K` sleeps K times, each until moment 0, and returns K. K is at most 65,534.
#[derive(Clone, Copy)]
pub struct Count {
    /// How many sleeps are left.
    pub left: u32,
    /// How many there are in all.
    pub all: u32,
}

type Moved = Result<Goes<CountPlace, Count>, AllocError>;

impl Count {
    fn sleeps(self) -> Goes<CountPlace, Count>
        ensures { result ≡ sleeps self }
    {
        if self.left == 0 {
            Goes::ends(self, Value::Number(u64::from(self.all)))
        } else {
            Goes::on(CountPlace::Sleeping, self, Act::Sleep { until: 0 })
        }
    }
}

impl Numbered for CountPlace {
    ghost numbers = { numbers };

    fn number(self) -> u8 {
        self as u8
    }

    fn all() -> &'static [CountPlace] {
        &[CountPlace::Sleeping]
    }
}

impl Fields for Count {
    ghost kept = { kept };

    fn read_fields(alloc: Global, from: &mut Reader) -> Result<Count, PartFault> {
        Ok(Count {
            left: Spelt::read_part(alloc, from)?,
            all: Spelt::read_part(alloc, from)?,
        })
    }

    fn write_fields(&self, alloc: Global, out: &mut Writer) -> Result<(), AllocError> {
        self.left.write_part(alloc, out)?;
        self.all.write_part(alloc, out)
    }

    fn copy_fields(&self, _alloc: Global) -> Result<Count, AllocError> {
        Ok(*self)
    }
}

impl Machine<CountPlace> for Count {
    ghost form = { form };

    ghost MACHINE = { 1 };

    ghost is_form = { is_form };

    const MACHINE: u8 = 1;

    fn start(self, _: Global, _: &Place) -> Moved {
        Ok(self.sleeps())
    }

    fn resume(self, _: Global, _place: CountPlace, with: &Resumed, _: &Place) -> Moved {
        match with {
            Resumed::Lapsed => {
                let left = self.left.saturating_sub(1);
                Ok(Count { left, ..self }.sleeps())
            }
            _ => Ok(Goes::unnamed(self, with)),
        }
    }

    fn weight(&self, _place: CountPlace) -> u64 {
        u64::from(self.left).max(1)
    }

    fn called(&self) -> u64 {
        u64::from(self.left) + 1
    }
}

impl Worded<CountPlace> for Count {
    ghost name = { codes "count" };

    ghost CLASS = { 1 };

    ghost begins = { begins };

    ghost args_fit = { omega arith };

    ghost begins_within = { begins_within };

    type Args = Then<u32, End>;

    const CLASS: u16 = 1;

    fn is_named(word: &str) -> bool {
        word == "count"
    }

    fn begin(args: Then<u32, End>, _here: &Place) -> Option<Count> {
        let left = args.first;
        if left > MOST_SLEEPS {
            return None;
        }
        Some(Count { left, all: left })
    }
}
