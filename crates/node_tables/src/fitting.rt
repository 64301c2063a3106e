//! Which records a node takes: what they say of the cause and of the flow.

ghost use Rattle.std.specs.Prelude.{◌≡◌, ◌&&◌, ◌<◌, ◌^◌, nat_lt, nat_le, option_and_then, slice_get};
ghost use Rattle.net_model.specs.Enabled.{part_of};
ghost use Rattle.net_model.specs.Steps.{checkpoint_of};
ghost use Rattle.session_wire.specs.Rules.{is_lawful};
ghost use Rattle.flow_records.specs.Steps.{part_after};
ghost use Rattle.node_tables.specs.Fits.{is_no_flow, is_new_flow, is_next_of, goes_on, answers_by, answers_first, accepts_init, is_lawful_item, made_by};

use checkpoints::{FlowView, Flows};
use flow_machine::FlowState;
use flow_records::FlowAfter;
use net_base::{Cause, Event, Key, Moment};
use session_wire::{Body, SentItem};

/// No stamp is greater.
pub const LAST_STAMP: u64 = 9_223_372_036_854_775_807;

/// Whether the stamp rises and is none too great, and the moment doesn't fall.
pub fn rises(stamp: u64, moment: Moment, cause: &Cause) -> bool
    ensures { result ≡ (nat_lt stamp cause.now.stamp
        && (nat_lt cause.now.stamp (2 ^ 63) && nat_le moment.0 cause.now.moment.0)) }
{
    stamp < cause.stamp && (cause.stamp <= LAST_STAMP && moment.0 <= cause.moment.0)
}

/// Whether the flow is a new one of that number and class, live at step 0.
pub fn is_new_flow<F>(flow: u32, class: u16, after: &Option<FlowAfter<F>>) -> bool
    ensures { result ≡ is_new_flow flow class (part_after after.now) }
{
    match after {
        Some(
            FlowAfter {
                state: FlowState::Live(at),
                ..
            },
        ) => at.flow == flow && (at.step == 0 && at.class == class),
        _ => false,
    }
}

/// Whether the flow is the one of that number and class, at the next step.
fn is_next_of<F>(flow: u32, step: u32, class: u16, number: u32, state: &FlowState<F>) -> bool
    ensures { result ≡ is_next_of flow step class (part_of number state.now) }
{
    let next = step as u64 + 1;
    match state {
        FlowState::Live(at) => { at.flow == flow && (at.step as u64 == next && at.class == class) }
        FlowState::Ended {
            step: now,
            class: of,
            ..
        } => number == flow && (*now as u64 == next && *of == class),
        FlowState::Failed {
            step: now,
            class: of,
            ..
        } => number == flow && (*now as u64 == next && *of == class),
    }
}

/// Whether a flow goes on from a checkpoint of this step and class.
fn is_next_after<F>(flow: u32, step: u32, class: u16, after: &Option<FlowAfter<F>>) -> bool
    ensures { result ≡ is_next_of flow step class (part_after after.now) }
{
    match after {
        Some(after) => is_next_of(flow, step, class, after.number, &after.state),
        None => false,
    }
}

/// Whether the flow goes on from where it stands in the table.
pub fn goes_on<F: Drop>(flows: &Flows<F>, flow: u32, after: &Option<FlowAfter<F>>) -> bool
    ensures { result ≡ goes_on flow (option_and_then checkpoint_of (slice_get flows.now.flows flow))
        (part_after after.now) }
{
    match flows.get(flow) {
        Some(FlowView::Live(at)) => is_next_after(flow, at.step, at.class, after),
        _ => false,
    }
}

/// Whether an item answers an `Init` of the class: with `Confirm` there is a flow of that number, with `Reject` none.
fn answers_by<F>(flow: u32, class: u16, after: &Option<FlowAfter<F>>, body: &Body) -> bool
    ensures { result ≡ answers_by flow class (part_after after.now) body.now }
{
    match body {
        Body::Confirm => is_new_flow(flow, class, after),
        Body::Reject { .. } => is_no_flow(after),
        _ => false,
    }
}

/// Whether no flow changes.
pub fn is_no_flow<F>(after: &Option<FlowAfter<F>>) -> bool
    ensures { result ≡ is_no_flow (part_after after.now) }
{
    after.is_none()
}

/// Whether the first of the sent items is the first answer of the key.
fn answers_first<F>(
    flow: u32,
    key: &Key,
    class: u16,
    after: &Option<FlowAfter<F>>,
    sent: &[SentItem],
) -> bool
    ensures { result ≡ answers_first flow key.now class (part_after after.now) sent.now }
{
    match sent.first() {
        Some(item) => {
            item.key == *key
                && (item.direction == 1
                    && (item.seq == 0 && answers_by(flow, class, after, &item.body)))
        }
        None => false,
    }
}

/// Whether the accepted item is an `Init`, and is answered.
pub fn accepts_init<F>(
    flow: u32,
    key: &Key,
    after: &Option<FlowAfter<F>>,
    sent: &[SentItem],
    came: &Option<Body>,
) -> bool
    ensures { result ≡ accepts_init flow key.now (part_after after.now) sent.now came.now }
{
    match came {
        Some(Body::Init { class, .. }) => answers_first(flow, key, *class, after, sent),
        _ => false,
    }
}

/// Whether an item may stand at that number of that direction.
fn is_lawful(direction: u8, number: u32, body: &Body) -> bool
    ensures { result ≡ is_lawful direction number body.now }
{
    match body {
        Body::Init { .. } => direction == 0 && number == 0,
        Body::Confirm | Body::Reject { .. } => direction == 1 && number == 0,
        Body::Data { .. } | Body::Error { .. } | Body::End => number != 0,
    }
}

/// Whether there is an item, and it is lawful at the direction and the number.
pub fn is_lawful_item(direction: u8, number: u32, came: &Option<Body>) -> bool
    ensures { result ≡ is_lawful_item direction number came.now }
{
    match came {
        Some(body) => is_lawful(direction, number, body),
        None => false,
    }
}

/// How many sessions an event makes.
pub fn made_by(event: &Event) -> u64
    ensures { result ≡ made_by event.now }
{
    match event {
        Event::Answer { .. } => 1,
        Event::Start { .. } | Event::Arrive { .. } | Event::Move { .. } | Event::Lapse { .. } => 0,
    }
}
