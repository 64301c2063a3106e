//! By which event a node goes on.

ghost use Rattle.std.specs.Prelude.{◌≡◌, ◌<◌, ◌≤◌, ℕ, None, IfSome, length, slice_index_or};
ghost use Rattle.checkpoints.specs.Tables.{IsRising, live_numbers};
ghost use Rattle.net_model.specs.Enabled.{picked};
ghost use Rattle.net_model.specs.Sound.{AreNumbered};
ghost use Rattle.flow_steps.specs.Going.{event_there, first_of, flow_in};
ghost use Rattle.flow_steps.specs.Idle.{IdleBelow};

use checkpoints::{FlowView, Flows};
use net_base::{Event, Moment};
use session_acts::enabling_event;
use session_table::Sessions;

/// The event by which a flow of the table goes on; `None` exactly where there is none.
fn event_of<F: Drop>(
    flows: &Flows<F>,
    sessions: &Sessions,
    now: Moment,
    number: u32,
) -> Option<Event>
    ensures { result ≡ event_there sessions.now.list now.0 flows.now.flows number }
{
    match flows.get(number) {
        Some(FlowView::Live(at)) => enabling_event(sessions, at.flow, now, &at.waiting),
        _ => None,
    }
}

/// The event by which the first of these flows goes on that can.
fn first_event<F: Drop>(
    flows: &Flows<F>,
    sessions: &Sessions,
    now: Moment,
    numbers: &[u32],
) -> Option<Event>
    ensures { result ≡ first_of sessions.now.list now.0 flows.now.flows numbers.now }
{
    for number in numbers {
        let event = event_of(flows, sessions, now, *number);
        if event.is_some() {
            return event;
        }
    }
    None
}

/// At which of these ascending numbers those begin that are not below `number`.
fn place_of(numbers: &[u32], number: u32) -> usize
    requires { IsRising numbers.now }
    ensures bound { result ≤ length numbers.now }
    ensures below { (k : ℕ) → k < result → slice_index_or numbers.now k 0 < number }
{
    numbers.partition_point(|n| *n < number)
}

/// The event by which the first flow goes on that can, where no flow below `idle` can. It looks at live flows alone, and at none of those.
fn first_from<F: Drop>(
    flows: &Flows<F>,
    sessions: &Sessions,
    now: Moment,
    idle: u32,
) -> Option<Event>
    requires { IdleBelow sessions.now.list now.0 flows.now.flows idle }
    ensures { result ≡ first_of sessions.now.list now.0 flows.now.flows
        (live_numbers flows.now.flows) }
{
    let numbers = flows.live();
    let place = place_of(numbers, idle);
    first_event(flows, sessions, now, &numbers[place..])
}

/// The event by which the picked flow goes on, or the one with the least number that can; `None` exactly where there is none. No flow
/// below `idle` can go on: only live flows from there on are looked at, and those before the one that goes on are idle as well.
pub fn pick_event<F: Drop>(
    flows: &Flows<F>,
    sessions: &Sessions,
    now: Moment,
    pick: Option<u32>,
    idle: u32,
) -> Option<Event>
    requires numbered { AreNumbered 0 flows.now.flows }
    requires idle { IdleBelow sessions.now.list now.0 flows.now.flows idle }
    ensures event { result ≡ picked sessions.now.list now.0 pick flows.now.flows }
    ensures idle { pick ≡ None → IfSome result
        (λ e. IdleBelow sessions.now.list now.0 flows.now.flows (flow_in e)) }
{
    match pick {
        Some(number) => event_of(flows, sessions, now, number),
        None => first_from(flows, sessions, now, idle),
    }
}

/// The number of the flow that an event changes; 0 where it accepts an item.
pub fn flow_in(event: &Event) -> u32
    ensures { result ≡ flow_in event.now }
{
    match event {
        Event::Start { flow, .. } | Event::Move { flow } | Event::Lapse { flow } => *flow,
        Event::Answer { .. } | Event::Arrive { .. } => 0,
    }
}
