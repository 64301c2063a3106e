//! The steps of a network, and what they answer.

use super::Refusal;
use net_base::{ByteList, Moment};

/// One step of a network. Nodes are named by their places, from 0.
#[derive(Drop)]
pub enum Step {
    /// The moment becomes this one, which isn't before it.
    Clock {
        to: Moment,
    },
    /// A node starts a flow of a class with these arguments.
    Start {
        node: u8,
        class: u16,
        args: ByteList,
    },
    /// A node lets the picked flow go on, or the first that can.
    Turn {
        node: u8,
        pick: Option<u32>,
    },
    /// A node sends the messages of all its items that aren't acknowledged: each joins the frames that wait at its addressee, unless equal
    /// bytes wait there.
    Post {
        node: u8,
    },
    /// The frame at this place, from 0, of those that wait at a node is taken away and handed to the node. At a full journal it stays.
    Deliver {
        node: u8,
        at: u32,
    },
    /// A copy of that frame is handed to the node.
    Repeat {
        node: u8,
        at: u32,
    },
    /// That frame is taken away.
    Lose {
        node: u8,
        at: u32,
    },
    /// A node's disk loses its power now, where `calls` is 0, or at the write or sync that comes as that number. The outcome, 0 to 3, says
    /// what is left of what was written since the last sync.
    Cut {
        node: u8,
        calls: u64,
        outcome: u8,
    },
    /// A node that is down gets its power back, and is booted. Where it comes up and the last cause of its journal is later than the moment,
    /// the moment becomes that one's.
    Boot {
        node: u8,
    },
    /// Rounds, each of turns at the nodes that are up, then of their posts, then of deliveries, in the order of places, until one commits
    /// nothing, or a turn or a delivery meets a full journal.
    Drain,
}

/// The outcome of a step.
#[derive(Clone, Copy, PartialEq)]
pub enum Outcome {
    /// The moment is as asked.
    Fine,
    /// The flow of this number began.
    Started { flow: u32 },
    /// The flow of this number went on.
    Moved { flow: u32 },
    /// No flow, or not the picked one, can go on.
    Idle,
    /// `count` frames were new among those that wait where they go.
    Posted { count: u64 },
    /// The item is committed: `upto` items of its session have arrived.
    Took { upto: u32 },
    /// The acknowledgement is noted.
    Acked,
    /// The item had arrived before; `expected` items of its session have arrived.
    Again { expected: u32 },
    /// The frame is ahead of the node: of the item with this number, or of more than this number of items.
    Early { expected: u32 },
    /// The frame is of no session of the node with its sender.
    NoSession,
    /// The frame is taken away.
    Lost,
    /// The power will go.
    Armed,
    /// The power went, and the node is down.
    Down,
    /// The node is up.
    Booted,
    /// The disk failed, and the node is down.
    Fault,
    /// A round committed nothing, or a turn or a delivery met a full journal.
    Drained { full: bool },
    /// Nothing changed but, at a boot, the power.
    Refused { why: Refusal },
}
