//! Items that are sent again until they are acknowledged.

use net_base::{Key, ListOf, Party};
use session_wire::Body;

/// An item that was sent and isn't acknowledged.
#[derive(Debug, Drop)]
pub struct Item {
    /// The other side of its session.
    pub peer: Party,
    pub key: Key,
    /// 0 from the session's initiator, 1 to it.
    pub direction: u8,
    /// Which item of its direction, counted from 0.
    pub number: u32,
    /// The stamp of the transition that sent it.
    pub stamp: u64,
    pub body: Body,
}

/// Items, by session in order of making and then by number.
pub type ItemList = ListOf<Item>;
