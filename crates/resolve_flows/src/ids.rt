//! A list of ids behind two bytes of count.

ghost use Rattle.std.specs.Prelude.{◌≡◌, ◌≤◌, ◌<◌, ◌++◌, length, not, filter, IfOk};
ghost use Rattle.std.specs.List.{flat_map, AllByRecursion};
ghost use Rattle.net_base.specs.Parts.{Gives, Writes};
ghost use Rattle.net_base.specs.Forms.{items_at, ListWithin};
ghost use Rattle.net_base.specs.Framing.{at_most_at};
ghost use Rattle.net_base.specs.Values.{IsHash};
ghost use Rattle.ledger_types.specs.Names.{has_hash};
ghost use Rattle.resolve_flows.specs.Ids.{ids, ids_at};
ghost use Rattle.resolve_flows.specs.Resolve.{widened};

use ledger_types::IdList;
use net_base::{Hash32, ListOf, PartFault, Reader, Spelt, Writer, read_u8, read_up_to};
use std::alloc::{AllocError, Global};

/// A length of at most the limit.
#[tactic(auto, unfolding(net_base::specs::Framing::at_most_at))]
fn read_at_most(from: &mut Reader, limit: u16) -> Result<u16, PartFault>
    ensures { Gives (λ x. x) result from.old from.new (at_most_at limit from.old.left) }
{
    let high = read_up_to(from, (limit / 256) as u8)?;
    let low = if high as u16 == limit / 256 {
        read_up_to(from, (limit % 256) as u8)?
    } else {
        read_u8(from)?
    };
    Ok(256 * high as u16 + low as u16)
}

/// Reads this number of values.
fn read_items<T: Spelt>(alloc: Global, from: &mut Reader, len: u16) -> Result<Vec<T>, PartFault>
    ensures { Gives (λ x. x.items) result from.old from.new (items_at T.reading len from.old.left) }
{
    let mut items = Vec::with_capacity(alloc, len as usize)?;
    for _ in 0..len {
        items.push(T::read_part(alloc, from)?)?;
    }
    Ok(items)
}

/// Writes the values.
fn write_items<T: Spelt>(alloc: Global, items: &[T], out: &mut Writer) -> Result<(), AllocError>
    requires { AllByRecursion T.within items.now }
    ensures { Writes (flat_map T.spelling items.now) result out.old out.new }
{
    for item in items {
        item.write_part(alloc, out)?;
    }
    Ok(())
}

/// Reads at most 256 ids behind their count.
#[tactic(auto, unfolding(crate::specs::Ids::ids_at))]
pub(crate) fn read_ids(alloc: Global, from: &mut Reader) -> Result<IdList, PartFault>
    ensures { Gives (λ x. x) result from.old from.new (ids_at from.old.left) }
{
    let count = read_at_most(from, 256)?;
    Ok(ListOf::from_vec(read_items(alloc, from, count)?))
}

/// Writes the count and the ids.
pub(crate) fn write_ids(alloc: Global, list: &IdList, out: &mut Writer) -> Result<(), AllocError>
    requires { ListWithin 256 IsHash list.now }
    ensures { Writes (ids list.now) result out.old out.new }
{
    out.put_u16(alloc, list.len() as u16)?;
    write_items(alloc, list.as_slice(), out)
}

/// Whether the id is one of these.
fn has(id: &Hash32, list: &[Hash32]) -> bool
    ensures { result ≡ has_hash id.now list.now }
{
    list.iter().any(|other| *other == *id)
}

/// The ids that are none of these.
fn keep_others(
    alloc: Global,
    pending: &[Hash32],
    list: &[Hash32],
) -> Result<Vec<Hash32>, AllocError>
    ensures { IfOk result (λ v. v.items ≡ filter (λ h. not (has_hash h list.now)) pending.now) }
{
    let mut kept = Vec::new(alloc);
    for id in pending {
        if !has(id, list) {
            kept.push(*id)?;
        }
    }
    Ok(kept)
}

/// The ids and these behind them.
fn joined(ids: Vec<Hash32>, list: &[Hash32]) -> Result<Vec<Hash32>, AllocError>
    ensures { IfOk result (λ v. v.items ≡ ids.items ++ list.now) }
{
    let mut all = ids;
    for id in list {
        all.push(*id)?;
    }
    Ok(all)
}

/// The ids that are lacking, with these moved to the end.
pub(crate) fn widened(alloc: Global, pending: &IdList, list: &IdList) -> Result<IdList, AllocError>
    ensures { IfOk result (λ l. l ≡ widened pending.now list.now) }
{
    let ids = keep_others(alloc, pending.as_slice(), list.as_slice())?;
    Ok(ListOf::from_vec(joined(ids, list.as_slice())?))
}
