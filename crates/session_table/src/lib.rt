//! The sessions of one node: what each flow's counterparties sent and got, by session (Corda 4 documentation, "Flow
//! framework", "Flow sessions"). A session is found by its key, and sessions are kept in order of making.
#![tactic(auto)]

mod fits;
mod lines;
mod owned;
mod resent;
mod sessions;
mod standing;
mod waiting;

pub use resent::{Item, ItemList};
pub use sessions::Sessions;
