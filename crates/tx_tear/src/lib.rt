//! Tear-offs of transactions: what a notary sees of a transaction that it signs (Corda 4 documentation, "Transaction
//! tear-offs"; technical white paper, "Oracles and tear-offs").
#![tactic(auto)]

mod laws;
mod making;
mod reading;
mod values;

pub use laws::{
    each_is_included, equal_roots_have_equal_leaves, good_tear_off_shows_transaction,
    good_tear_offs_agree,
};
pub use making::{tear, tear_off_shows};
pub use reading::{TearFault, visible};
