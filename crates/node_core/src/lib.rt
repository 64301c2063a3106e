//! One node on its journal: a state machine whose every transition is one record, committed before it is answered, and rebuilt from
//! its records at a boot (Corda 4 documentation, "Node", "Flows", "Checkpointing", "Flow sessions").
//!
//! Three structs, one above the other: `Up` joins the tables of a node to its journal; `Node` is up, or down with its disk;
//! `SharedNode` keeps which flows' jobs are run beside its node.
#![tactic(auto)]

mod beside;
mod faults;
mod idle;
mod node;
mod shared;
mod taking;
mod up;

pub use faults::{
    BootFault, CutFault, SettleFault, SharedTurn, StartFault, TakeFault, Taken, TurnFault, Turned,
    UnackedFault,
};
pub use node::Node;
pub use shared::SharedNode;
