//! The digest of bytes, and the nonce and the leaf of one component.

ghost use Rattle.std.specs.Prelude.{◌≡◌};
ghost use Rattle.component_merkle.specs.Merkle.{digest_of, nonce_of, leaf_of, node_of};

use sha2::{Digest, Sha256};

/// The SHA-256 digest of `bytes` (FIPS 180-4, section 6.2).
pub fn digest(bytes: &[u8]) -> [u8; 32]
    ensures { result ≡ digest_of bytes.now }
{
    Sha256::digest(bytes)
}

/// The nonce of the component at `place` in the component group `group` of a transaction with this salt: the digest of
/// the digest of the salt and both numbers, each as four bytes, big-endian. Groups and places count from 0.
pub fn nonce(salt: &[u8; 32], group: u32, place: u32) -> [u8; 32]
    ensures { result ≡ nonce_of salt.now group place }
{
    let mut hasher = Sha256::new();
    hasher.update(salt);
    hasher.update(group.to_be_bytes());
    hasher.update(place.to_be_bytes());
    digest(&hasher.finalize())
}

/// The leaf of a component that is spelt by `bytes`: the digest of the digest of its nonce and these bytes.
pub fn leaf(nonce: &[u8; 32], bytes: &[u8]) -> [u8; 32]
    ensures { result ≡ leaf_of nonce.now bytes.now }
{
    let mut hasher = Sha256::new();
    hasher.update(nonce);
    hasher.update(bytes);
    digest(&hasher.finalize())
}

/// The inner node above two hashes.
pub(crate) fn node(left: &[u8; 32], right: &[u8; 32]) -> [u8; 32]
    ensures { result ≡ node_of left.now right.now }
{
    let mut hasher = Sha256::new();
    hasher.update(left);
    hasher.update(right);
    hasher.finalize()
}
