//! Whether transactions, the states that they name, and tags are the same.

ghost use Rattle.std.specs.Prelude.{◌≡◌, ◌↔◌, IsTrue};
ghost use Rattle.ledger_types.specs.Equality.{same_tags, same_tx, same_resolved, moves_same, says_same, stands_same, tx_equality, resolved_equality};

use crate::tx::{Resolved, TagList, Tx};

/// Whether transactions consume, make and refer to the same.
fn moves_same(a: &Tx, b: &Tx) -> bool
    ensures { result ≡ moves_same a.now b.now }
{
    a.inputs.as_slice() == b.inputs.as_slice()
        && a.outputs.as_slice() == b.outputs.as_slice()
        && a.references.as_slice() == b.references.as_slice()
}

/// Whether the commands and attachments of transactions are the same.
fn says_same(a: &Tx, b: &Tx) -> bool
    ensures { result ≡ says_same a.now b.now }
{
    a.commands.as_slice() == b.commands.as_slice()
        && a.attachments.as_slice() == b.attachments.as_slice()
}

/// Whether the salts, notaries and windows of transactions are the same.
fn stands_same(a: &Tx, b: &Tx) -> bool
    ensures { result ≡ stands_same a.now b.now }
{
    a.salt == b.salt && a.notary == b.notary && a.window == b.window
}

/// Whether the transactions are the same, field by field.
fn same_tx(a: &Tx, b: &Tx) -> bool
    ensures { result ≡ same_tx a.now b.now }
{
    stands_same(a, b) && moves_same(a, b) && says_same(a, b)
}

/// Whether the states are the same, in the same order.
fn same_resolved(a: &Resolved, b: &Resolved) -> bool
    ensures { result ≡ same_resolved a.now b.now }
{
    a.inputs.as_slice() == b.inputs.as_slice() && a.references.as_slice() == b.references.as_slice()
}

impl PartialEq for Tx {
    ghost eq = { same_tx };

    ghost laws = { tx_equality };

    /// Whether the transactions are the same, field by field.
    #[tactic(auto, using(crate::specs::Equality::tx_exact))]
    fn eq(&self, other: &Tx) -> bool
        ensures as_told { result ≡ same_tx self.now other.now }
        ensures exact { IsTrue result ↔ (self.now ≡ other.now) }
    {
        same_tx(self, other)
    }
}

impl PartialEq for Resolved {
    ghost eq = { same_resolved };

    ghost laws = { resolved_equality };

    /// Whether the states are the same, in the same order.
    #[tactic(auto, using(crate::specs::Equality::resolved_exact))]
    fn eq(&self, other: &Resolved) -> bool
        ensures as_told { result ≡ same_resolved self.now other.now }
        ensures exact { IsTrue result ↔ (self.now ≡ other.now) }
    {
        same_resolved(self, other)
    }
}

/// Whether the tags are the same, in the same order.
#[tactic(auto, using(crate::specs::Equality::tags_exact))]
pub fn same_tags(a: &TagList, b: &TagList) -> bool
    ensures { IsTrue result ↔ (a.now ≡ b.now) }
{
    a.as_slice() == b.as_slice()
}
