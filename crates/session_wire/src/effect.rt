//! What one transition of a node changes, as its journal records it.

use crate::change::SessionChange;
use ledger_types::{LedgerChange, Value};
use net_base::ByteList;

/// What a transition makes of a flow.
#[derive(Debug, Drop)]
pub enum FlowPart {
    /// No flow changed.
    Absent,
    /// The flow lives on, or begins.
    Live {
        /// The spelling of its checkpoint.
        checkpoint: ByteList,
    },
    /// The flow ended with a value.
    Ended {
        /// The flow's number on its node, from 0.
        flow: u32,
        /// How many steps it took.
        step: u32,
        /// The flow's class.
        class: u16,
        /// What it ended with.
        value: Value,
    },
    /// The flow failed.
    Failed {
        /// The flow's number on its node, from 0.
        flow: u32,
        /// How many steps it took.
        step: u32,
        /// The flow's class.
        class: u16,
        /// The reason, by its code.
        code: u16,
    },
}

/// What one transition of a node changes: exactly what is different afterwards.
#[derive(Debug, Drop)]
pub struct Effect {
    /// What becomes of the flow that made it.
    pub flow: FlowPart,
    /// What changes in the node's sessions.
    pub session: SessionChange,
    /// What changes in its ledger: store, vault and notary's book.
    pub ledger: LedgerChange,
}
