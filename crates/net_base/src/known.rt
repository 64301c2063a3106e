//! Types whose values are always within the limits of their spelling.

ghost use Rattle.std.specs.Prelude.{◌<◌, ◌^◌};
ghost use Rattle.std.specs.List.{AllByRecursion};

use crate::names::StateRef;
use crate::parties::PartySet;
use crate::spelt::Spelt;
use crate::values::{Hash32, Moment};

/// A type each of whose values is within the limits of its spelling.
pub trait Unlimited: Spelt {
    /// Tells a proof that the value is within the limits. It does nothing when it runs.
    fn law_known(&self)
        ensures { Self.within self.now };
}

fn law_known_u16(number: u16)
    ensures { number < 2 ^ 16 }
{
    let _ = number;
}

fn law_known_u32(number: u32)
    ensures { number < 2 ^ 32 }
{
    let _ = number;
}

fn law_known_u64(number: u64)
    ensures { number < 2 ^ 64 }
{
    let _ = number;
}

impl Unlimited for Hash32 {
    fn law_known(&self) {
        let _bytes = &self.0;
    }
}

impl Unlimited for Moment {
    fn law_known(&self) {
        law_known_u64(self.0);
    }
}

impl Unlimited for StateRef {
    fn law_known(&self) {
        self.id.law_known();
        law_known_u32(self.index);
    }
}

impl Unlimited for PartySet {
    fn law_known(&self) {
        law_known_u16(self.0);
    }
}

impl<T: Unlimited> Unlimited for Option<T> {
    fn law_known(&self) {
        if let Some(value) = self {
            value.law_known();
        }
    }
}

/// Tells a proof that each item is within the limits of its spelling.
pub fn law_known_items<T: Unlimited>(items: &[T])
    ensures { AllByRecursion T.within items.now }
{
    for item in items {
        item.law_known();
    }
}
