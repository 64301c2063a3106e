//! What contracts say of the transactions that nodes recorded.
//!
//! The definitions stand in `specs/`. Each function does nothing when it runs; its contract is the law.
#![tactic(auto)]

mod laws;

pub use laws::{
    outstanding_cash_was_issued, recorded_cash_is_conserved, recorded_cash_is_signed_for,
    recorded_debts_were_agreed, recorded_facts_were_signed_for, recorded_is_accepted_by_each,
    recorded_time_locks_were_due,
};
