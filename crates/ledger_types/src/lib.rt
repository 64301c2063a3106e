//! The values of the ledger: states, transactions and tear-offs, what a notary is asked and answers, and
//! what flows hand to one another, each with its one spelling in bytes; and the id of a transaction.
//!
//! A limit or an order that a type's comment names is one of its spelling and no invariant of the type: `encode` asks for it,
//! and what `decode` gives keeps it.
#![tactic(auto)]

mod change;
mod equality;
mod held;
mod id;
mod notary;
pub mod parts;
mod state;
mod torn;
mod tx;
mod value;
mod verdict;
mod wire;

pub use change::LedgerChange;
pub use equality::same_tags;
pub use held::{Held, HeldList};
pub use notary::{
    ConflictItem, ConflictList, Entry, NotaryAnswer, RefKind, Request, consumer_hash,
};
pub use state::{StateData, TxState};
pub use torn::{PartList, TornGroup, TornList, TornPart, TornTx, Visible};
pub use tx::{
    Command, CommandList, Deed, HashList, IdList, RefList, Resolved, SignedTx, StateList, TagList,
    Tx, Window,
};
pub use value::Value;
pub use verdict::Verdict;
pub use wire::{WireTx, with_id};
