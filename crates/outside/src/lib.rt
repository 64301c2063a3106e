//! What lies outside the core: sources, sinks, disks and gates, by what they give and keep.
//!
//! Each is a trait whose ghost members are its meaning, so that the code above is generic and proved once.
//! A read, a write, a sync or a call for a disk's length that fails answers [`Failed`], only where the object's count of
//! faults rose in that call; one that is done leaves the count. Other calls name their refusals: [`AttachFault`],
//! [`NoFuse`], and want of memory.
#![tactic(auto)]

mod bay;
mod disk;
mod fault;
mod gate;
mod sink;
mod source;

pub use bay::{AttachFault, Bay, NoFuse};
pub use disk::{Disk, write_synced};
pub use fault::Failed;
pub use gate::{Gate, NoGate};
pub use sink::{MemSink, Sink};
pub use source::{MemSource, Source};
