//! Reading and writing the parts of a value: numbers, tested bytes, options and lists.
//!
//! A function that reads a part answers it, or a fault that tells how many bytes are left at the first
//! place where no spelling of the part goes on. After a fault the reader's place is not stated.

ghost use Rattle.std.specs.Prelude.{◌+◌, ◌<◌, ◌≤◌, Result, IfSome, IfOk, length};
ghost use Rattle.std.specs.List.{flat_map, AllByRecursion};
ghost use Rattle.std.specs.Int.{w16, w32, w64};
ghost use Rattle.net_base.specs.Forms.{byte_at, bytes_at, number_at, below_at, option_at, items_at, list8_at, option_of, list8};
ghost use Rattle.net_base.specs.Parts.{Gives, TakesNoMemory, Writes};
ghost use Rattle.net_base.specs.Kinds.{kind_at, between_at};
ghost use Rattle.net_base.specs.Framing.{list8_between_at};

use crate::fault::PartFault;
use crate::list::ListOf;
use crate::reader::Reader;
use crate::spelt::Spelt;
use crate::values::Hash32;
use crate::writer::Writer;
use std::alloc::{AllocError, Global};

/// A byte.
pub fn read_u8(from: &mut Reader) -> Result<u8, PartFault>
    ensures given { Gives (λ x. x) result from.old from.new (byte_at from.old.left) }
    ensures no_memory { TakesNoMemory result }
{
    Ok(from.u8()?)
}

/// A big-endian number of 2 bytes.
#[tactic(auto, unfolding(crate::specs::Forms::number_at))]
pub fn read_u16(from: &mut Reader) -> Result<u16, PartFault>
    ensures given { Gives (λ x. x) result from.old from.new (number_at w16 from.old.left) }
    ensures no_memory { TakesNoMemory result }
{
    Ok(from.u16()?)
}

/// A big-endian number of 4 bytes.
#[tactic(auto, unfolding(crate::specs::Forms::number_at))]
pub fn read_u32(from: &mut Reader) -> Result<u32, PartFault>
    ensures given { Gives (λ x. x) result from.old from.new (number_at w32 from.old.left) }
    ensures no_memory { TakesNoMemory result }
{
    Ok(from.u32()?)
}

/// A big-endian number of 8 bytes.
#[tactic(auto, unfolding(crate::specs::Forms::number_at))]
pub fn read_u64(from: &mut Reader) -> Result<u64, PartFault>
    ensures given { Gives (λ x. x) result from.old from.new (number_at w64 from.old.left) }
    ensures no_memory { TakesNoMemory result }
{
    Ok(from.u64()?)
}

/// A byte below a limit.
#[tactic(auto, unfolding(crate::specs::Forms::below_at))]
pub fn read_below(from: &mut Reader, limit: u8) -> Result<u8, PartFault>
    ensures given { Gives (λ x. x) result from.old from.new (below_at limit from.old.left) }
    ensures below { IfOk result (λ v. v < limit) }
    ensures no_memory { TakesNoMemory result }
{
    let left = from.remaining();
    let b = read_u8(from)?;
    if b < limit {
        Ok(b)
    } else {
        Err(PartFault::Left(left))
    }
}

/// A byte of at most `most`.
#[tactic(auto, unfolding(crate::specs::Forms::below_at))]
pub fn read_up_to(from: &mut Reader, most: u8) -> Result<u8, PartFault>
    ensures given { Gives (λ x. x) result from.old from.new (below_at (most + 1) from.old.left) }
    ensures range { IfOk result (λ v. v ≤ most) }
    ensures no_memory { TakesNoMemory result }
{
    let left = from.remaining();
    let b = read_u8(from)?;
    if b <= most {
        Ok(b)
    } else {
        Err(PartFault::Left(left))
    }
}

/// The 32 bytes of a digest.
#[tactic(auto, unfolding(crate::specs::Forms::bytes_at))]
pub fn read_hash(from: &mut Reader) -> Result<Hash32, PartFault>
    ensures given { Gives (λ x. x.0) result from.old from.new (bytes_at 32 from.old.left) }
    ensures no_memory { TakesNoMemory result }
{
    Ok(from.hash()?)
}

/// A byte 0, or a byte 1 and a value.
#[tactic(auto, unfolding(crate::specs::Forms::option_at))]
pub fn read_option<T: Spelt>(alloc: Global, from: &mut Reader) -> Result<Option<T>, PartFault>
    ensures { Gives (λ x. x) result from.old from.new (option_at T.reading from.old.left) }
{
    let flag = read_below(from, 2)?;
    if flag == 0 {
        Ok(None)
    } else {
        Ok(Some(T::read_part(alloc, from)?))
    }
}

/// Writes a byte 0, or a byte 1 and the value.
pub fn write_option<T: Spelt>(
    alloc: Global,
    value: &Option<T>,
    out: &mut Writer,
) -> Result<(), AllocError>
    requires { IfSome value.now T.within }
    ensures { Writes (option_of T.spelling value.now) result out.old out.new }
{
    match value {
        None => out.put_u8(alloc, 0),
        Some(v) => {
            out.put_u8(alloc, 1)?;
            v.write_part(alloc, out)
        }
    }
}

fn read_items<T: Spelt>(alloc: Global, from: &mut Reader, count: u8) -> Result<Vec<T>, PartFault>
    ensures given { Gives (λ x. x.items) result from.old from.new
        (items_at T.reading count from.old.left) }
    ensures few { IfOk result (λ x. length x.items ≤ count) }
{
    let mut items = Vec::with_capacity(alloc, count as usize)?;
    for _ in 0..count {
        items.push(T::read_part(alloc, from)?)?;
    }
    Ok(items)
}

/// A byte of count of at most the limit, and as many values.
#[tactic(auto, unfolding(crate::specs::Forms::list8_at))]
pub fn read_list<T: Spelt>(
    alloc: Global,
    from: &mut Reader,
    limit: u8,
) -> Result<ListOf<T>, PartFault>
    ensures given { Gives (λ x. x) result from.old from.new
        (list8_at limit T.reading from.old.left) }
    ensures few { IfOk result (λ l. length l ≤ limit) }
{
    let count = read_up_to(from, limit)?;
    Ok(ListOf::from_vec(read_items(alloc, from, count)?))
}

/// A byte of count from `least` to `limit`, and as many values.
#[tactic(auto, unfolding(crate::specs::Framing::list8_between_at))]
pub fn read_list_between<T: Spelt>(
    alloc: Global,
    from: &mut Reader,
    least: u8,
    limit: u8,
) -> Result<ListOf<T>, PartFault>
    requires { limit < 255 }
    ensures { Gives (λ x. x) result from.old from.new
        (list8_between_at least limit T.reading from.old.left) }
{
    let count = read_between(from, least, limit + 1)?;
    Ok(ListOf::from_vec(read_items(alloc, from, count)?))
}

fn write_items<T: Spelt>(alloc: Global, items: &[T], out: &mut Writer) -> Result<(), AllocError>
    requires { AllByRecursion T.within items.now }
    ensures { Writes (flat_map T.spelling items.now) result out.old out.new }
{
    for item in items {
        item.write_part(alloc, out)?;
    }
    Ok(())
}

/// Writes a byte of count and the values.
pub fn write_list<T: Spelt>(
    alloc: Global,
    list: &ListOf<T>,
    out: &mut Writer,
) -> Result<(), AllocError>
    requires few { length list.now ≤ 255 }
    requires within { AllByRecursion T.within list.now }
    ensures { Writes (list8 T.spelling list.now) result out.old out.new }
{
    out.put_u8(alloc, list.len() as u8)?;
    write_items(alloc, list.as_slice(), out)
}

/// A byte that is one of the kinds.
#[tactic(auto, unfolding(crate::specs::Kinds::kind_at))]
pub fn read_kind(from: &mut Reader, kinds: &[u8]) -> Result<u8, PartFault>
    ensures given { Gives (λ x. x) result from.old from.new (kind_at kinds.now from.old.left) }
    ensures no_memory { TakesNoMemory result }
{
    let left = from.remaining();
    let kind = read_u8(from)?;
    if kinds.contains(&kind) {
        Ok(kind)
    } else {
        Err(PartFault::Left(left))
    }
}

/// A byte from `low` up to below `high`.
#[tactic(auto, unfolding(crate::specs::Kinds::between_at))]
pub fn read_between(from: &mut Reader, low: u8, high: u8) -> Result<u8, PartFault>
    ensures given { Gives (λ x. x) result from.old from.new (between_at low high from.old.left) }
    ensures range { IfOk result (λ v. (low ≤ v) × (v < high)) }
    ensures no_memory { TakesNoMemory result }
{
    let left = from.remaining();
    let b = read_u8(from)?;
    if low <= b && b < high {
        Ok(b)
    } else {
        Err(PartFault::Left(left))
    }
}
