//! What those who depend on a ledger may rely on, whatever its network does: the notary signs one consumer of each state; what it signed
//! is in its book; what a node recorded has its whole back-chain there, and was first signed within its time window; and no state is spent twice.
//!
//! The definitions stand in `specs/`: `Ledgers` says what holds of the ledgers of all nodes, `Windows` when the notary signed what they recorded,
//! `Places` where this holds. The functions do nothing when they run; their contracts are the laws.
#![tactic(auto)]

mod laws;

pub use laws::{
    back_chains_are_whole, each_state_has_one_consumer, no_state_is_spent_twice,
    recorded_was_signed_in_its_window, what_is_held_was_signed,
};
