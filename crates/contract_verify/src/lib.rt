//! Contracts, and the verdict that they and the structural rules give on a transaction.
//!
//! A contract says whether a transaction is acceptable to the states that it governs (Corda 4 documentation, "Contracts"). The caller makes the contracts and hands them over as boxed objects; what one of them says of a transaction
//! with the states that it names is the meaning of `LedgerContract`, and nothing here knows more. No function here takes
//! memory.
#![tactic(auto)]

mod book;
mod contract;
mod judge;
mod judging;
mod laws;

pub use book::ContractBook;
pub use contract::{BoxedContract, LedgerContract};
pub use judge::Judge;
pub use laws::accepted_names_a_notary;
