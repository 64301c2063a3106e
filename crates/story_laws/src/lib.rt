//! The laws of `ledger_laws` throughout a script.
//!
//! The definition stands in `specs/`. The function does nothing when it runs; its contract is the law.
#![tactic(auto)]

mod laws;

pub use laws::ledgers_hold_in_scripts;
