//! What a record tells of.

use flow_machine::FlowState;
use ledger_types::LedgerChange;
use net_base::Cause;
use session_wire::SessionChange;

/// A flow as a step leaves it.
#[derive(Drop)]
pub struct FlowAfter<F> {
    /// The flow's number at its node, counted from 0.
    pub number: u32,
    pub state: FlowState<F>,
}

/// What a record tells of: the cause, the flow after it, and what it changes in the sessions and in the ledger.
#[derive(Drop)]
pub struct Step<F> {
    pub cause: Cause,
    /// `None` where no flow changes.
    pub flow: Option<FlowAfter<F>>,
    /// Its `owner` is the flow's number, 0 where no flow changes; its `came_key` is the key of an `Answer` or `Arrive`, else `None`.
    pub session: SessionChange,
    /// Its `owner` is the flow's number, 0 where no flow changes; `ended` says whether that flow is over.
    pub ledger: LedgerChange,
}
