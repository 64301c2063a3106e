//! The trusted edge: disks over files of the operating system, and the program's streams.
//!
//! Nothing here tells what a real file holds. What is promised is that each fault is counted,
//! and that a call answers one only where the count rose.
#![tactic(auto)]

mod file;
mod host;
mod streams;
#[cfg(test)]
mod tests;

pub use host::HostDisk;
pub use streams::{StdSink, StdSource};
