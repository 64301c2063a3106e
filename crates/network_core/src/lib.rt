//! A network of nodes: its steps, and what each makes of the world (Corda 4 documentation, "The network", "Flows", "Checkpointing").
//!
//! A world says of each node whether it is up, its journal, which journals a power cut may leave, what of what it sent is acknowledged,
//! and which frames wait at it. It is coherent where each of these journals is one that the node's own steps make, and where, whichever of
//! them are left, they agree with each other and with the frames under way; they are then those of one run of the network, which knows
//! neither disks nor frames.
#![tactic(auto)]

mod begin;
mod laws;
mod mail;
mod net;
mod parts;
mod refusal;
mod serving;
mod steps;

pub use begin::BeginRefused;
pub use laws::{
    acknowledged_at_all_moments, acknowledged_stands_once, calls_are_ways, coherent_is_faithful,
    drains_by_turns, kept_on_ways, left_is_coherent, new_disks_are_coherent, pairs_are_both,
    rounds_are_bounded, ways_have_all_moments, ways_move_one_by_one,
};
pub use net::Net;
pub use parts::NetParts;
pub use refusal::Refusal;
pub use steps::{Outcome, Step};
