//! Bytes and numbers that are tested where they stand.

ghost use Rattle.std.specs.Prelude.{◌<◌};
ghost use Rattle.std.specs.Int.{w32};
ghost use Rattle.net_base.specs.Parts.{Gives, TakesNoMemory};
ghost use Rattle.net_base.specs.Tested.{below_except_at, positive_at, headed_at, stamp_at};

use crate::fault::PartFault;
use crate::part::{read_u8, read_u32, read_u64};
use crate::reader::Reader;

/// A byte below the limit that isn't `other`.
#[tactic(auto, unfolding(crate::specs::Tested::below_except_at))]
pub fn read_below_except(from: &mut Reader, limit: u8, other: u8) -> Result<u8, PartFault>
    ensures given { Gives (λ x. x) result from.old from.new
        (below_except_at limit other from.old.left) }
    ensures no_memory { TakesNoMemory result }
{
    let left = from.remaining();
    let n = read_u8(from)?;
    if n < limit && n != other {
        Ok(n)
    } else {
        Err(PartFault::Left(left))
    }
}

/// A big-endian number of 4 bytes that isn't 0.
#[tactic(auto, unfolding(crate::specs::Tested::positive_at))]
pub fn read_positive(from: &mut Reader) -> Result<u32, PartFault>
    ensures given { Gives (λ x. x) result from.old from.new (positive_at w32 from.old.left) }
    ensures no_memory { TakesNoMemory result }
{
    let n = read_u32(from)?;
    if n == 0 {
        return Err(PartFault::Left(from.remaining() + 1));
    }
    Ok(n)
}

/// A stamp: a big-endian number of 8 bytes, from 1 to 2^63 - 1.
#[tactic(auto, unfolding(crate::specs::Tested::stamp_at, crate::specs::Tested::headed_at, crate::specs::Tested::positive_at))]
pub fn read_stamp(from: &mut Reader) -> Result<u64, PartFault>
    ensures given { Gives (λ x. x) result from.old from.new (stamp_at from.old.left) }
    ensures no_memory { TakesNoMemory result }
{
    let left = from.remaining();
    if read_u8(&mut from.again())? >= 128 {
        return Err(PartFault::Left(left));
    }
    let n = read_u64(from)?;
    if n == 0 {
        return Err(PartFault::Left(from.remaining() + 1));
    }
    Ok(n)
}
