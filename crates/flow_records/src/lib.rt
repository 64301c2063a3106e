//! The records of a node's journal that change nothing of the ledger, over a flow set: their bytes, and the steps of which these tell. A
//! step is a cause, the flow after it or none, and what it changes in the sessions.
//!
//! Above this crate a journal is a list of bodies, and all that is known of a body is `record_of` (`specs/Records.antt`).
#![tactic(auto)]

mod laws;
mod reading;
mod spelling;
mod step;

pub use laws::few_values_are_short;
pub use reading::read_step;
pub use spelling::{no_ledger, spell_step, unchanged_ledger};
pub use step::{FlowAfter, Step};
