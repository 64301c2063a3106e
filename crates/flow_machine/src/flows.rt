use super::{Act, Stack};
use ledger_types::Value;

/// Where a live flow stands: its frames, and the act that the top one waits on.
#[derive(Drop)]
pub struct Checkpoint<F> {
    /// The flow's number at its node, counted from 0.
    pub flow: u32,
    /// How often the flow has been resumed.
    pub step: u32,
    pub class: u16,
    pub waiting: Act<F>,
    pub stack: Stack<F>,
}

/// A flow of a node.
#[derive(Drop)]
pub enum FlowState<F> {
    Live(Checkpoint<F>),
    Ended { step: u32, class: u16, value: Value },
    Failed { step: u32, class: u16, code: u16 },
}
