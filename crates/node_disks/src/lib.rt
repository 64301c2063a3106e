//! The two disks of a node: as a disk and as a bay they are the first one, on which the node's journal is, and the second
//! one stands beside it, untouched by every call.
#![tactic(auto)]

mod pair;

pub use pair::NodeDisks;
