//! The digests and the Merkle trees by which a transaction is identified.
//!
//! A transaction's components are hashed to leaves, each with a nonce of its own, so that a component can be shown
//! without the others (Corda 4 documentation, "Transaction tear-offs"; technical white paper, "Oracles and tear-offs").
//! The digest is SHA-256 of FIPS 180-4 throughout. No function here takes memory.
#![tactic(auto)]

mod digests;
mod tree;

pub use digests::{digest, leaf, nonce};
pub use tree::{group, root};
