//! The flows that a turn need not look at.

ghost use Rattle.std.specs.Prelude.{◌≡◌, ◌==◌, min, if◌then◌else◌};
ghost use Rattle.flow_steps.specs.Going.{flow_in};

use flow_steps::flow_in;
use net_base::{Event, Moment};

/// No flow with a number below `below` can go on at the moment `at`.
#[derive(Clone, Copy)]
pub struct Idle {
    pub at: Moment,
    pub below: u32,
}

/// The event by which a flow goes on that was picked, and the flows that were seen to be idle.
#[derive(Drop)]
pub struct Picked {
    pub event: Event,
    pub idle: Idle,
}

impl Idle {
    /// No flow is known to be idle.
    pub const NONE: Idle = Idle {
        at: Moment(0),
        below: 0,
    };

    /// A number below which no flow can go on at a moment.
    pub fn below_at(&self, now: Moment) -> u32
        ensures { result ≡ (if now.0 == self.now.at.0 then self.now.below else 0) }
    {
        if now.0 == self.at.0 { self.below } else { 0 }
    }

    /// The flows that are still idle once an event was committed: those before its flow, and none once an item was accepted.
    pub fn after(&self, event: &Event) -> Idle
        ensures at { result.at ≡ self.now.at }
        ensures below { result.below ≡ min self.now.below (flow_in event.now) }
    {
        Idle {
            at: self.at,
            below: self.below.min(flow_in(event)),
        }
    }
}
