//! The components of a transaction's items: an input, an output or an attachment is one, and a command two.

ghost use Rattle.net_base.specs.Parties.{party_set, IsPartySet};
ghost use Rattle.ledger_types.specs.Txs.{deed, IsDeed};

use crate::tx::Command;
use net_base::{Block, Component};

/// Which component of an item is written: its bytes, for which items, and how many bytes there are at most.
pub trait Part<T> {
    ghost use Rattle.std.specs.Prelude.{◌≡◌, ◌++◌, ◌+◌, ◌≤◌, ℕ, List, length};

    ghost text: { T → List ℕ };

    ghost limits: { T → Type 0 };

    ghost size: { ℕ };

    /// Puts the component's bytes behind those that the block holds.
    fn put(item: &T, block: &mut Block)
        requires room { length block.old + size ≤ 64 }
        requires limits { limits item.now }
        ensures { block.new ≡ block.old ++ text item.now };
}

/// The whole item.
pub struct Whole;

/// A command's deed.
pub struct ItsDeed;

/// A command's signers.
pub struct ItsSigners;

impl<T: Component> Part<T> for Whole {
    ghost text = { T.text };

    ghost limits = { T.limits };

    ghost size = { T.size };

    fn put(item: &T, block: &mut Block) {
        item.put(block);
    }
}

impl Part<Command> for ItsDeed {
    ghost text = { λ c. deed c.deed };

    ghost limits = { λ c. IsDeed c.deed };

    ghost size = { 13 };

    fn put(item: &Command, block: &mut Block) {
        item.deed.put(block);
    }
}

impl Part<Command> for ItsSigners {
    ghost text = { λ c. party_set c.signers };

    ghost limits = { λ c. IsPartySet c.signers };

    ghost size = { 17 };

    fn put(item: &Command, block: &mut Block) {
        item.signers.put(block);
    }
}
