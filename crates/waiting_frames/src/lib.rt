//! The frames that wait at a node of a network, each once, in the order in which they came.
#![tactic(auto)]

mod waiting;

pub use waiting::Waiting;
