//! Which acts are enabled, and by which events they are performed.

ghost use Rattle.std.specs.Prelude.{◌≡◌, Some, None, nat_le, if◌then◌else◌};
ghost use Rattle.net_base.specs.declared.causes.Event.TheVariants.{Lapse};
ghost use Rattle.session_wire.specs.Rules.{owned, waits_for};
ghost use Rattle.net_model.specs.Enabled.{enabling};

use crate::items::owns;
use flow_machine::Act;
use net_base::{Event, Key, Moment};
use session_table::Sessions;

/// Whether a flow that receives in the session waits: the session is the flow's, and no item is there. Takes no memory.
pub fn is_waiting(sessions: &Sessions, flow: u32, key: &Key) -> bool
    ensures { result ≡ waits_for (owned flow key.now sessions.now.list) }
{
    owns(sessions, flow, key) && sessions.next_item(key).is_none()
}

/// The event by which the act of a flow is performed at a moment; `None` exactly where the act isn't enabled. Takes no memory.
pub fn enabling_event<F>(sessions: &Sessions, flow: u32, now: Moment, act: &Act<F>) -> Option<Event>
    ensures { result ≡ enabling sessions.now.list flow now.0 act.now }
{
    match act {
        Act::Sleep { until } => lapse_at(flow, now, *until),
        Act::Receive { key } if is_waiting(sessions, flow, key) => None,
        Act::ReceiveBy { key, until } if is_waiting(sessions, flow, key) => {
            lapse_at(flow, now, *until)
        }
        _ => Some(Event::Move { flow }),
    }
}

/// The event by which the act of a flow lapses, where its moment has come.
fn lapse_at(flow: u32, now: Moment, until: u64) -> Option<Event>
    ensures { result ≡ (if nat_le until now.0 then Some (Lapse flow) else None) }
{
    if until <= now.0 {
        Some(Event::Lapse { flow })
    } else {
        None
    }
}
