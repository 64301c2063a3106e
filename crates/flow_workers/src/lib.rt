//! Nodes that workers turn side by side, each under a lock of its own, with the frames between them in ruled inboxes.
//!
//! What is known across threads is what the type behind each lock keeps: since it came, the node made just these calls, each answered as
//! its own clause says, and what it took and sent is what its passes of the inboxes pulled and posted. Once the workers have ended, all
//! that is put together (`work`). Each worker is a thread of its own where one can be made.
#![tactic(auto)]

mod board;
mod counts;
mod desk;
mod locks;
mod stage;
mod turns;
mod working;

pub use turns::Plan;
pub use working::{WorkDone, work};
