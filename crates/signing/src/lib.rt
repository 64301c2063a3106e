//! Marks that stand for signatures, and what checks them.
//!
//! In Corda a party signs a transaction by signing its id (Corda 4 documentation, "Transactions", "Signatures"). Here a
//! signer gives each party one mark under each id, and a `Tag` is a mark with its party and its id. No function here
//! takes memory.
#![tactic(auto)]

ghost use Rattle.std.specs.Prelude.{◌≡◌, ◌↔◌, IsTrue};
ghost use Rattle.signing.specs.Marks.{key_of};

use component_merkle::digest;
use net_base::{Hash32, Party, Tag};
use sha2::{Digest, Sha256};

/// Gives each party its mark under each id.
pub trait Signer {
    ghost use Rattle.net_base.specs.declared.values.Hash32.{Hash32};
    ghost use Rattle.net_base.specs.declared.values.Party.{Party};

    /// The mark of a party under an id.
    ghost mark_of: { Self → Party → Hash32 → Hash32 };

    /// The mark of the party `by` under the id `of`.
    fn mark(&self, by: Party, of: &Hash32) -> Hash32
        ensures { result ≡ mark_of self.now by of.now };

    /// Whether the tag checks: whether its mark is the mark of its party under its id.
    fn checks(&self, tag: &Tag) -> bool
        ensures { IsTrue result ↔ (tag.now.mark ≡ mark_of self.now tag.now.by tag.now.of) };
}

/// The signer whose marks are digests under a key of each party: the mark of a party is the SHA-256 digest of its key,
/// its number as one byte and the id, and its key is the digest of the text `key` and its number as one byte. Whoever
/// knows this formula can compute each mark, so it stands for a signature only where nobody forges.
#[derive(Clone, Copy, Debug, PartialEq, Eq)]
pub struct KeyedDigest;

/// The key of the party `by`.
fn key(by: Party) -> [u8; 32]
    ensures { result ≡ key_of by }
{
    digest(&[b'k', b'e', b'y', by.0])
}

impl Signer for KeyedDigest {
    ghost use Rattle.signing.specs.Marks.{keyed_mark};

    ghost mark_of = { λ _. keyed_mark };

    fn mark(&self, by: Party, of: &Hash32) -> Hash32 {
        let mut hasher = Sha256::new();
        hasher.update(key(by));
        hasher.update([by.0]);
        hasher.update(of.0);
        Hash32(hasher.finalize())
    }

    fn checks(&self, tag: &Tag) -> bool {
        self.mark(tag.by, &tag.of) == tag.mark
    }
}
