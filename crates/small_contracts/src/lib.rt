//! The contracts that govern time locks, facts and Ious.
//!
//! A contract accepts or refuses a transaction (Corda 4 documentation, "Contracts"). What the clauses of these are, and their
//! numbers, are this project's; each says by which of its clauses it refuses. No function here takes memory.
#![tactic(auto)]

mod commands;
mod facts;
mod ious;
mod locks;
mod sums;

pub use facts::Facts;
pub use ious::Ious;
pub use locks::Locks;
