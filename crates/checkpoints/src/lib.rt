//! The flows of a node: where the live ones stand, and how the others ended.
//!
//! A checkpoint is what the flow framework of the Corda 4 documentation ("Flows", "Suspending flows") writes at each suspension. The
//! flows of a node are numbered from 0, and none is ever removed.
#![tactic(auto)]

mod table;

pub use flow_machine::{Checkpoint, FlowState, Stack};
pub use table::{FlowView, Flows};
