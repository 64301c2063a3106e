//! A ping and the echo that it initiates.

ghost use Rattle.shipped_flows.specs.Meeting.{PingReturnsItsCount};

use crate::set::ShippedFlow;
use flow_machine::FlowSet;

/// The law of a ping that is made of a party and a count K: it opens a session with that party by a number, and in whichever session is opened so, the ping and the
/// flow that its Init begins hand numbers to and fro, which both send and receive in that session alone, until the ping returns K,
/// within K turns. Where and when each of the two is resumed may differ each time. It does nothing when it runs.
#[tactic(auto, using(crate::specs::MeetingLaws::ping_returns_its_count))]
pub fn a_ping_returns_its_count()
    ensures { PingReturnsItsCount ⟦<ShippedFlow as FlowSet>⟧.machine }
{}
