//! A disk in memory, with a fuse and the four outcomes of a power cut.
#![tactic(auto)]

mod label;
mod lay;
mod mem;

pub use mem::MemDisk;
