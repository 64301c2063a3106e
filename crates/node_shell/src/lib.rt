//! The shell that runs a script over a network of 1 to 16 nodes.
//!
//! The definitions that the contracts cite stand in `specs/`, in this order: `Names`, `LedgerPrint`, `Replies`, `Loads`, `Lines`, `Responds`, `Story`, `Together`, `Runs`; those of lines and
//! words stand in `shell_words`, those of worlds, steps and ways in `network_core`.
#![tactic(auto)]

mod disks;
mod laws;
mod loads;
mod openings;
mod replies;
mod serving;
mod session;
mod statuses;
mod streams;
mod top;
mod working;

pub use laws::{lines_are_passages, scripts_are_both, scripts_are_passages};
pub use top::{Ended, run};
