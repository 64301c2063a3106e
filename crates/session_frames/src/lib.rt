//! The frames of sessions at one node: what the node says of a frame before it commits anything, which frames it sends
//! until they are acknowledged, and the acknowledgements that it sends (Corda 4 documentation, "Flow framework", "Flow
//! sessions").
#![tactic(auto)]

mod judged;
mod judging;
mod laws;
mod sending;

pub use judged::Judged;
pub use judging::judge;
pub use laws::{
    acknowledgements_are_judged_by_number, messages_are_judged_by_number, sessions_stay_lawful,
    spellings_are_judged,
};
pub use sending::{Outgoing, OutgoingList, ack_frame, frames_to_send};
