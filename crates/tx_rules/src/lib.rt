//! The structural rules of transactions, and who has to sign one.
//!
//! A transaction is well formed where none of sixteen rules is broken. Rule 1, that its salt is not zero, is this project's. The
//! others follow the Corda 4 documentation, "Transactions", with the encumbrance rules of "Encumbrances" there: the encumbered
//! outputs of a transaction and the outputs that encumber them are the same set, and a state is consumed only with the state that
//! encumbers it. No function here takes memory.
#![tactic(auto)]

mod checking;
mod encumbrances;
mod laws;
mod notaries;
mod references;
mod shape;
mod signers;

pub use checking::{Broken, check, first_true};
pub use laws::signed_where_none_is_missing;
pub use signers::{missing_tags, needed_signers};
