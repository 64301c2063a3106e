//! The first frames that wait at each node of a network: copied out, so that an inbox can be made of them, and other frames put in
//! their place once the inbox is gone.
#![tactic(auto)]

mod heads;

pub use heads::{heads_of, make_rooms, put_each};
