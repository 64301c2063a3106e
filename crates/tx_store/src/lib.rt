//! The transactions that a node has recorded, each with its whole back-chain (Corda 4 documentation, "Transactions",
//! "Transaction chains"). They are found by id, and kept in order of recording.
#![tactic(auto)]

mod fault;
mod store;

pub use fault::ResolveFault;
pub use store::Store;
