//! What a node says of a frame.

use net_base::{Key, Party};
use session_wire::Body;

/// What a node says of a frame before it commits anything.
#[derive(Debug, Drop)]
pub enum Judged {
    /// The bytes are no frame.
    Garbled,
    /// The frame is addressed to another party.
    NotMine {
        to: Party,
    },
    /// The frame's sender is no node of the network; or the frame needs a session, and there is none of its key with its
    /// sender. All frames need one but the messages of a session's initiator, the first of which begins the session.
    NoSession,
    /// The frame is ahead of this node. For a message the number of the item that is expected, for an acknowledgement how
    /// many items were sent.
    Early {
        expected: u32,
    },
    /// The number of the items that this node sent in this direction of the session and that have arrived.
    Acked {
        key: Key,
        direction: u8,
        upto: u32,
    },
    /// The item had arrived before; `expected` items have, of this direction of the session. The sender is told so again.
    Again {
        from: Party,
        key: Key,
        direction: u8,
        expected: u32,
    },
    /// The item is the next one of its direction of the session, to be committed.
    Next {
        from: Party,
        key: Key,
        direction: u8,
        /// The number of the item among those of its direction, from 0.
        number: u32,
        /// The logical stamp of the transition that sent it, 1 to 2^63 - 1.
        stamp: u64,
        body: Body,
    },
}
