//! Sessions between flows, as nodes speak of them: the items of a session, the frames that carry them, and what one
//! transition changes in a node's sessions (Corda 4 documentation, "Flow framework", "Flow sessions").
#![tactic(auto)]

mod body;
mod change;
mod effect;
mod frame;

pub use body::Body;
pub use change::{SentItem, SentList, SessionChange};
pub use effect::{Effect, FlowPart};
pub use frame::{FRAME_LIMIT, Frame};
