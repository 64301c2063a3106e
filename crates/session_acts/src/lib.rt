//! What the acts of flows on sessions do, and what accepting an item does, over a node's table of sessions (Corda 4
//! documentation, "Flow framework", "Flow sessions"). Each call answers what changes, and changes nothing itself.
#![tactic(auto)]

mod accepting;
mod acts;
mod enabling;
mod ends;
mod items;
mod laws;

pub use accepting::{answer, arrive};
pub use acts::{Performed, open, receive, send};
pub use enabling::{enabling_event, is_waiting};
pub use ends::end_sessions;
pub use items::unchanged;
pub use laws::{accepted_as_meant, sessions_are_sound};
