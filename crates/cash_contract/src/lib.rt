//! The contract that governs Cash.
//!
//! Cash is issued by its issuer, moved by its owners and exited by both (Corda 4 documentation, "Contracts", on the Cash
//! contract). No function here takes memory.
#![tactic(auto)]

mod amounts;
mod cash;
mod law;
mod value;

pub use cash::Cash;
pub use law::accepted_conserves_value;
