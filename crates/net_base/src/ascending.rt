//! Lists in strictly ascending order of a party.

ghost use Rattle.std.specs.Prelude.{◌≡◌, ◌<◌, ◌≤◌, ℕ, List, Result, IfOk};
ghost use Rattle.net_base.specs.Parts.{Gives};
ghost use Rattle.net_base.specs.Runs.{ascending_at, ascending8_at};

use crate::fault::PartFault;
use crate::list::ListOf;
use crate::part::read_below;
use crate::reader::Reader;
use crate::spelt::Spelt;
use std::alloc::Global;

/// A type whose values have a party, 0 to 15, by which lists of them ascend strictly.
pub trait ByParty: Spelt {
    ghost use Rattle.std.specs.Prelude.{◌≡◌, ◌<◌, ◌≤◌, ℕ, List, Result, IfOk};
    ghost use Rattle.net_base.specs.Laws.{Laws};
    ghost use Rattle.net_base.specs.Kinds.{IsBetween};

    /// The party.
    ghost party_of: { Self → ℕ };

    /// What reading a value gives whose party is from low up to below high.
    ghost reading_between: { ℕ → ℕ → List ℕ → Result (Self × List ℕ) ℕ };

    /// The party, 0 to 15 within the limits.
    fn party(&self) -> u8
        ensures { result ≡ party_of self.now };

    /// Reads a value whose party is from `low` up to below `high`.
    fn read_between(alloc: Global, from: &mut Reader, low: u8, high: u8) -> Result<Self, PartFault>
        ensures given { Gives (λ x. x) result from.old from.new
            (reading_between low high from.old.left) }
        ensures below { IfOk result (λ v. party_of v < high) };

    /// A value within its limits has a party.
    ghost is_party: { (v : Self) → Self.within v → party_of v < 16 };

    /// The laws of the values whose party is from low up to below high.
    ghost between: { (low high : ℕ) → low < high → high ≤ 16
        → Laws (λ v. Self.within v × IsBetween low high (party_of v)) Self.spelling
        (reading_between low high) };
}

fn read_ascending_items<T: ByParty>(
    alloc: Global,
    from: &mut Reader,
    count: u8,
) -> Result<Vec<T>, PartFault>
    requires { count ≤ 16 }
    ensures { Gives (λ x. x.items) result from.old from.new
        (ascending_at T.party_of 16 T.reading_between count from.old.left) }
{
    let mut items = Vec::with_capacity(alloc, count as usize)?;
    let mut low = 0;
    for i in 0..count {
        let high = 16 - (count - (i + 1));
        let item = T::read_between(alloc, from, low, high)?;
        low = item.party() + 1;
        items.push(item)?;
    }
    Ok(items)
}

/// A byte of count of at most 16, and as many values with strictly ascending parties. A fault is at the first
/// party that leaves too few parties for the values behind it.
#[tactic(auto, unfolding(crate::specs::Runs::ascending8_at))]
pub fn read_ascending<T: ByParty>(alloc: Global, from: &mut Reader) -> Result<ListOf<T>, PartFault>
    ensures { Gives (λ x. x) result from.old from.new
        (ascending8_at T.party_of 16 T.reading_between from.old.left) }
{
    let count = read_below(from, 17)?;
    Ok(ListOf::from_vec(read_ascending_items(alloc, from, count)?))
}
