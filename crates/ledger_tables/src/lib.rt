//! A node's ledger: the recorded transactions, the vault over them, and the notary's book, changed together (Corda 4
//! documentation, "Vault", "Notaries").
#![tactic(auto)]

mod parts;
mod tables;

pub use tables::LedgerTables;
