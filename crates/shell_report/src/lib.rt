//! What is printed of a node and of the network: its flows, one flow, and the causes of all nodes; its vault and balances, a notary's
//! book, and one transaction.
//!
//! The texts are those that `net_model` defines (`Print`), and for the ledger those of `specs/LedgerText.antt`.
#![tactic(auto)]

mod balances;
mod entries;
mod flows;
mod history;
mod names;
mod states;
mod transactions;

pub use balances::{balance_text, totals_text};
pub use entries::book_text;
pub use flows::{flow_text, flows_text};
pub use history::history_text;
pub use states::vault_text;
pub use transactions::{tx_text_at, tx_text_of};
