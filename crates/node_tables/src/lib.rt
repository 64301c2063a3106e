//! The tables of a node, as the records of its journal make them: its flows, its sessions, the last stamp and the last moment. A
//! record is taken at a boot exactly where it fits (Corda 4 documentation, "Node", "Flows", "Checkpointing").
#![tactic(auto)]

mod boot;
mod fitting;
mod laws;
mod roomy;
mod table;
mod trace;

pub use boot::{RebuildFault, rebuild};
pub use laws::fits_as_ruled;
pub use table::NodeTables;
