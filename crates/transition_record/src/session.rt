//! The spelling of a change of sessions.

ghost use Rattle.std.specs.Prelude.{◌++◌, ◌<◌, Option, IfSome};
ghost use Rattle.std.specs.List.{flat_map, AllByRecursion};
ghost use Rattle.net_base.specs.Forms.{option_of, option_at, items_at, list8_at, list8, ListWithin};
ghost use Rattle.net_base.specs.Combining.{pair_at};
ghost use Rattle.net_base.specs.Parts.{Gives, Writes};
ghost use Rattle.transition_record.specs.Changes.{IsSentItem, sent_item, sent_item_at, IsSessionPart, session_text, session_at};

use net_base::{
    Key, ListOf, PartFault, Reader, Spelt, Writer, read_below, read_up_to, write_option,
};
use session_wire::{SentItem, SentList, SessionChange};
use std::alloc::{AllocError, Global};

/// A byte 0, or a byte 1 and two values.
#[tactic(auto, unfolding(net_base::specs::Forms::option_at))]
fn read_two<A: Spelt, B: Spelt>(
    alloc: Global,
    from: &mut Reader,
) -> Result<Option<(A, B)>, PartFault>
    ensures { Gives (λ x. x) result from.old from.new
        (option_at (pair_at A.reading B.reading) from.old.left) }
{
    if read_below(from, 2)? == 0 {
        return Ok(None);
    }
    let first = A::read_part(alloc, from)?;
    let second = B::read_part(alloc, from)?;
    Ok(Some((first, second)))
}

/// Writes a byte 0, or a byte 1 and the two values.
fn write_two<A: Spelt, B: Spelt>(
    alloc: Global,
    two: &Option<(A, B)>,
    out: &mut Writer,
) -> Result<(), AllocError>
    requires { IfSome two.now (λ p. A.within p.0 × B.within p.1) }
    ensures { Writes (option_of (λ p. A.spelling p.0 ++ B.spelling p.1) two.now) result out.old
        out.new }
{
    match two {
        None => out.put_u8(alloc, 0),
        Some((first, second)) => {
            out.put_u8(alloc, 1)?;
            first.write_part(alloc, out)?;
            second.write_part(alloc, out)
        }
    }
}

#[tactic(auto, unfolding(crate::specs::Changes::sent_item_at))]
fn read_sent_item(alloc: Global, from: &mut Reader) -> Result<SentItem, PartFault>
    ensures { Gives (λ x. x) result from.old from.new (sent_item_at from.old.left) }
{
    Ok(SentItem {
        key: Spelt::read_part(alloc, from)?,
        direction: Spelt::read_part(alloc, from)?,
        seq: Spelt::read_part(alloc, from)?,
        body: Spelt::read_part(alloc, from)?,
    })
}

fn write_sent_item(alloc: Global, item: &SentItem, out: &mut Writer) -> Result<(), AllocError>
    requires { IsSentItem item.now }
    ensures { Writes (sent_item item.now) result out.old out.new }
{
    item.key.write_part(alloc, out)?;
    out.put_u8(alloc, item.direction)?;
    item.seq.write_part(alloc, out)?;
    item.body.write_part(alloc, out)?;
    Ok(())
}

fn read_items(alloc: Global, from: &mut Reader, count: u8) -> Result<Vec<SentItem>, PartFault>
    ensures { Gives (λ x. x.items) result from.old from.new
        (items_at sent_item_at count from.old.left) }
{
    let mut items = Vec::with_capacity(alloc, count as usize)?;
    for _ in 0..count {
        items.push(read_sent_item(alloc, from)?)?;
    }
    Ok(items)
}

fn write_items(alloc: Global, items: &[SentItem], out: &mut Writer) -> Result<(), AllocError>
    requires { AllByRecursion IsSentItem items.now }
    ensures { Writes (flat_map sent_item items.now) result out.old out.new }
{
    for item in items {
        write_sent_item(alloc, item, out)?;
    }
    Ok(())
}

#[tactic(auto, unfolding(net_base::specs::Forms::list8_at))]
fn read_sent(alloc: Global, from: &mut Reader) -> Result<SentList, PartFault>
    ensures { Gives (λ x. x) result from.old from.new (list8_at 255 sent_item_at from.old.left) }
{
    let count = read_up_to(from, 255)?;
    Ok(ListOf::from_vec(read_items(alloc, from, count)?))
}

fn write_sent(alloc: Global, sent: &SentList, out: &mut Writer) -> Result<(), AllocError>
    requires { ListWithin 255 IsSentItem sent.now }
    ensures { Writes (list8 sent_item sent.now) result out.old out.new }
{
    out.put_u8(alloc, sent.len() as u8)?;
    write_items(alloc, sent.as_slice(), out)
}

/// What changes in the sessions, with the flow that owns a session that is made, and with the session of the accepted item: the
/// bytes don't say them.
#[tactic(auto, unfolding(crate::specs::Changes::session_at))]
pub(crate) fn read_session(
    alloc: Global,
    from: &mut Reader,
    owner: u32,
    came_key: Option<Key>,
) -> Result<SessionChange, PartFault>
    ensures { Gives (λ x. x) result from.old from.new (session_at owner came_key from.old.left) }
{
    Ok(SessionChange {
        opened: read_two(alloc, from)?,
        owner,
        sent: read_sent(alloc, from)?,
        came: Spelt::read_part(alloc, from)?,
        came_key,
        taken: read_two(alloc, from)?,
    })
}

/// Writes it. After want of memory a front of it may stand in `out`.
pub(crate) fn write_session(
    alloc: Global,
    change: &SessionChange,
    out: &mut Writer,
) -> Result<(), AllocError>
    requires { IsSessionPart change.now }
    ensures { Writes (session_text change.now) result out.old out.new }
{
    write_two(alloc, &change.opened, out)?;
    write_sent(alloc, &change.sent, out)?;
    write_option(alloc, &change.came, out)?;
    write_two(alloc, &change.taken, out)?;
    Ok(())
}
