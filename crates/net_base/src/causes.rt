//! The causes of a node's transitions.

ghost use Rattle.std.specs.Prelude.{◌≡◌};
ghost use Rattle.net_base.specs.Order.{is_before};

use crate::list::ByteList;
use crate::names::Key;
use crate::values::{Moment, Party};

/// What happened to a node.
#[derive(Debug, Drop)]
pub enum Event {
    /// A new flow begins: its number on its node, counted from 0, its class, and its arguments, spelt in the order of
    /// the words that it was given.
    Start {
        flow: u32,
        class: u16,
        args: ByteList,
    },
    /// The first item of a session that another node opened arrives, and answers it by a new flow or a refusal.
    Answer {
        key: Key,
    },
    /// An item of a session arrives; `number` counts the items of the direction, from 0.
    Arrive {
        key: Key,
        /// 0 from the session's initiator, 1 to it.
        direction: u8,
        number: u32,
    },
    /// A flow performs the act that it waits on.
    Move {
        flow: u32,
    },
    /// The time that a flow waits for has come.
    Lapse {
        flow: u32,
    },
}

/// An event with its logical stamp and its moment.
#[derive(Debug, Drop)]
pub struct Cause {
    /// The logical stamp, 1 to 2^63 - 1; stamps rise along a node's causes (Lamport, Time, Clocks, and the
    /// Ordering of Events in a Distributed System, 1978).
    pub stamp: u64,
    pub moment: Moment,
    pub event: Event,
}

impl Cause {
    /// Whether this cause of node `mine` comes before the other, a cause of node `theirs`: by stamp,
    /// and at the same stamp by node.
    pub fn before(&self, mine: Party, other: &Cause, theirs: Party) -> bool
        ensures { result ≡ is_before self.now.stamp mine.0 other.now.stamp theirs.0 }
    {
        if self.stamp == other.stamp {
            mine.0 < theirs.0
        } else {
            self.stamp < other.stamp
        }
    }
}
