//! The step that a node is about to commit: the next one of a flow, or the answer to an item, worked out over the node's tables and
//! changing nothing (Corda 4 documentation, "Flow framework", "Flow sessions"); and the job that a flow waits for before it goes on.
#![tactic(auto)]

mod accepting;
mod acts;
mod picking;
mod ready;
mod resuming;
mod settling;
mod stepping;

pub use accepting::{answer_init, arrive_item};
pub use picking::{flow_in, pick_event};
pub use ready::{advance, begin};
pub use settling::{awaits_job, settle, take_job};
