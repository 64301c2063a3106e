//! The network machine: what a cause does to a node, which causes are a run of the network, and what is printed of it.
//!
//! The definitions stand in `specs/`, in this order: `Environment`, `State`, `Steps`, `Enabled`, `Sound`, `Runs`, `Fits`, `Left`,
//! `Tags`, `Stores`, `Books`, `Print`. Each function here without a body is a law of these definitions, which is its contract;
//! `merge` lends the causes of all nodes in the order of their run.
#![tactic(auto)]

mod laws;
mod ordering;

pub use laws::{
    books_hold, came_was_sent, commits_keep, enabled_is_defined, faithful_exactly, faithful_run,
    items_stay, left_falls, merges_each, merges_in_order, notary_tags_hold, prefixes_are_runs,
    stamps_rise, step_is_its_effect, steps_fit, stored_is_signed, stores_hold,
};
pub use ordering::merge;
