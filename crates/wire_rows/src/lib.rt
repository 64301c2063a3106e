//! The inboxes of all nodes of a network, and rows of passes of them, one of each: how they are made, how a node posts to them and pulls
//! from them, and how passes are joined and inboxes drained at the end.
#![tactic(auto)]

mod draining;
mod joining;
mod making;
mod moving;

pub use draining::drain_all;
pub use joining::join_row;
pub use making::{make_all, rows_of};
pub use moving::{post_ack, post_back, post_first, pull_from};
