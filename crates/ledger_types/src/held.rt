//! What a vault holds.

use crate::state::TxState;
use net_base::{ListOf, StateRef};

/// An unconsumed state of a vault.
#[derive(Clone, Copy, Debug, PartialEq, Eq)]
pub struct Held {
    pub reference: StateRef,
    pub state: TxState,
    /// The number of the flow that has the state soft-locked.
    pub locked: Option<u32>,
}

/// What a vault holds.
pub type HeldList = ListOf<Held>;
