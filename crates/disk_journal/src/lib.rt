//! The journal of a node: records behind gates over a disk, whose append is old or new at every moment.
//!
//! A record that was acknowledged stands in each image that a power cut may leave. One whose append failed stands or not.
#![tactic(auto)]

mod fault;
mod journal;
mod open;
mod scan;

pub use fault::{AppendFault, OpenFault};
pub use journal::{Journal, OpenRefused};
