//! What one transition changes in a node's sessions.

use crate::body::Body;
use net_base::{Key, ListOf, Party};

/// An item that a transition sends: the `seq`-th of its direction, counted from 0.
#[derive(Debug, Drop)]
pub struct SentItem {
    /// The session in which it is sent.
    pub key: Key,
    /// 0 from the session's initiator, 1 to it.
    pub direction: u8,
    /// The number of the item among those of its direction, from 0.
    pub seq: u32,
    /// What it says.
    pub body: Body,
}

/// The items that a transition sends, in order.
pub type SentList = ListOf<SentItem>;

/// What one transition changes in a node's sessions.
#[derive(Debug, Drop)]
pub struct SessionChange {
    /// The session that was opened, with the other side.
    pub opened: Option<(Key, Party)>,
    /// The flow that owns a session which is opened or answered; 0 where no flow is named.
    pub owner: u32,
    /// The items that were sent.
    pub sent: SentList,
    /// The item that was accepted.
    pub came: Option<Body>,
    /// The session of the item that was accepted.
    pub came_key: Option<Key>,
    /// The session from which a flow took an item, and how many of its items are taken now.
    pub taken: Option<(Key, u32)>,
}
