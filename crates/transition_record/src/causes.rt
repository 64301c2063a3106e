//! The spelling of causes.

ghost use Rattle.std.specs.Prelude.{◌≡◌, ◌<◌};
ghost use Rattle.net_base.specs.Parts.{Gives, Writes};
ghost use Rattle.transition_record.specs.Causes.{IsEvent, event_text, event_at, IsCause, cause_text, cause_at, came_key_of};

use net_base::{
    Cause, Event, Key, PartFault, Reader, Spelt, Writer, read_bytes16, read_kind, write_bytes16,
};
use std::alloc::{AllocError, Global};

#[tactic(auto, unfolding(crate::specs::Causes::event_at))]
fn read_event(alloc: Global, from: &mut Reader) -> Result<Event, PartFault>
    ensures { Gives (λ x. x) result from.old from.new (event_at from.old.left) }
{
    match read_kind(from, &[1, 2, 3, 4, 5])? {
        1 => Ok(Event::Start {
            flow: Spelt::read_part(alloc, from)?,
            class: Spelt::read_part(alloc, from)?,
            args: read_bytes16(alloc, from, 65535)?,
        }),
        2 => Ok(Event::Answer {
            key: Spelt::read_part(alloc, from)?,
        }),
        3 => Ok(Event::Arrive {
            key: Spelt::read_part(alloc, from)?,
            direction: Spelt::read_part(alloc, from)?,
            number: Spelt::read_part(alloc, from)?,
        }),
        4 => Ok(Event::Move {
            flow: Spelt::read_part(alloc, from)?,
        }),
        _ => Ok(Event::Lapse {
            flow: Spelt::read_part(alloc, from)?,
        }),
    }
}

fn write_event(alloc: Global, event: &Event, out: &mut Writer) -> Result<(), AllocError>
    requires { IsEvent event.now }
    ensures { Writes (event_text event.now) result out.old out.new }
{
    match event {
        Event::Start { flow, class, args } => {
            out.put_u8(alloc, 1)?;
            flow.write_part(alloc, out)?;
            class.write_part(alloc, out)?;
            write_bytes16(alloc, args, out)?;
        }
        Event::Answer { key } => {
            out.put_u8(alloc, 2)?;
            key.write_part(alloc, out)?;
        }
        Event::Arrive {
            key,
            direction,
            number,
        } => {
            out.put_u8(alloc, 3)?;
            key.write_part(alloc, out)?;
            out.put_u8(alloc, *direction)?;
            number.write_part(alloc, out)?;
        }
        Event::Move { flow } => {
            out.put_u8(alloc, 4)?;
            flow.write_part(alloc, out)?;
        }
        Event::Lapse { flow } => {
            out.put_u8(alloc, 5)?;
            flow.write_part(alloc, out)?;
        }
    }
    Ok(())
}

/// The session of the item that an event accepts.
pub(crate) fn came_key(event: &Event) -> Option<Key>
    ensures { result ≡ came_key_of event.now }
{
    match event {
        Event::Answer { key } => Some(*key),
        Event::Arrive { key, .. } => Some(*key),
        Event::Start { .. } | Event::Move { .. } | Event::Lapse { .. } => None,
    }
}

#[tactic(auto, unfolding(crate::specs::Causes::cause_at))]
pub(crate) fn read_cause(alloc: Global, from: &mut Reader) -> Result<Cause, PartFault>
    ensures { Gives (λ x. x) result from.old from.new (cause_at from.old.left) }
{
    Ok(Cause {
        stamp: Spelt::read_part(alloc, from)?,
        moment: Spelt::read_part(alloc, from)?,
        event: read_event(alloc, from)?,
    })
}

/// Writes the cause. After want of memory a front of it may stand in `out`.
pub(crate) fn write_cause(alloc: Global, cause: &Cause, out: &mut Writer) -> Result<(), AllocError>
    requires { IsCause cause.now }
    ensures { Writes (cause_text cause.now) result out.old out.new }
{
    cause.stamp.write_part(alloc, out)?;
    cause.moment.write_part(alloc, out)?;
    write_event(alloc, &cause.event, out)?;
    Ok(())
}
