//! The rule of an inbox, and the steps that keep it.

ghost use Rattle.wire_queue.specs.Wire.{TakenAsPosted};

use crossbeam_queue::protocol::{Join, Lesson, Outcome, Protocol, Split};
use net_base::ByteList;
use std::collections::LinkedList;

/// What a pass has seen. It stands in proofs alone: no value of it is made.
pub struct Seen {
    /// Of the 32 shares of an inbox; who has all of them knows that no other pass is in use.
    pub shares: u64,
    /// The frames that it posted and had not pulled by then, in order.
    pub origins: LinkedList<ByteList>,
    /// The frames that it posted and had pulled before, in order.
    pub copies: LinkedList<ByteList>,
    /// The frames that it pulled, in order.
    pub pulled: LinkedList<ByteList>,
}

/// The rule of an inbox.
pub struct WireRule;

impl Protocol<ByteList, Seen> for WireRule {
    ghost use Rattle.std.specs.Prelude.{[]};
    ghost use Rattle.wire_queue.specs.Wire.{seen, Ours};

    ghost holds = { Ours };

    ghost first = { seen 32 [] [] [] };
}

/// A pass is split, or two are joined.
pub struct Cut;

impl Split<Seen> for Cut {
    ghost use Rattle.wire_queue.specs.Wire.{fewer, fresh};

    ghost left = { fewer };

    ghost right = { λ v. fresh };
}

impl Join<Seen> for Cut {
    ghost use Rattle.wire_queue.specs.Wire.{join_of, spent};

    ghost both = { join_of };

    ghost spent = { spent };
}

/// A frame is posted. Where the inbox is full, the pass with every share learns what it held.
pub struct Posting;

impl Outcome<ByteList, Seen> for Posting {
    ghost use Rattle.std.specs.Prelude.{◌≡◌};
    ghost use Rattle.wire_queue.specs.Wire.{posted};

    ghost then = { λ v x w. w ≡ posted v x };
}

impl Lesson<ByteList, Seen> for Posting {
    ghost use Rattle.wire_queue.specs.Wire.{Settled};

    ghost fact = { Settled };
}

/// A frame is pulled. Where the inbox is empty, the pass with every share learns that all was pulled.
pub struct Pulling;

impl Outcome<ByteList, Seen> for Pulling {
    ghost use Rattle.std.specs.Prelude.{◌≡◌};
    ghost use Rattle.wire_queue.specs.Wire.{pulled_one, FromOrigins};

    ghost then = { λ v x w. (w ≡ pulled_one v x) × FromOrigins w };
}

impl Lesson<ByteList, Seen> for Pulling {
    ghost use Rattle.wire_queue.specs.Wire.{Settled, FromOrigins};

    ghost fact = { λ v items. Settled v items × FromOrigins v };
}

/// The law of the rule: each frame that was pulled or waits is an origin, and it was pulled no more often than it was posted.
pub fn taken_as_posted()
    ensures { TakenAsPosted }
{}
