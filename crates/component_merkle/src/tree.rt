//! The root over a list of leaves, folded in place.

ghost use Rattle.std.specs.Prelude.{◌≡◌, ℕ, ◌+◌, ◌*◌, ◌/◌, ◌%◌, ◌<◌, ◌≤◌, ◌^◌, [], length, slice_index_or};
ghost use Rattle.component_merkle.specs.Merkle.{root_of, group_of};
ghost use Rattle.component_merkle.specs.Levels.{tree, pair_at, IsPadAbove};

use crate::digests::node;

/// Hashes the leaves in pairs, in place: the k-th hash is the node above the leaves 2k and 2k + 1. A leaf without a
/// partner is hashed with `pad`.
fn fold_pairs(leaves: &mut [[u8; 32]], pad: &[u8; 32])
    ensures { (k : ℕ) → 2 * k < length leaves.old
        → slice_index_or leaves.new k [] ≡ pair_at pad.now leaves.old k }
{
    let count = leaves.len();
    let half = count / 2 + count % 2;
    for i in 0..half {
        let left = leaves[2 * i];
        let right = if 2 * i + 1 < count {
            leaves[2 * i + 1]
        } else {
            *pad
        };
        leaves[i] = node(&left, &right);
    }
}

/// The pad one level above: the node over two pads. Over a power of two of hashes no level lacks one, so there it is any pad.
fn pad_above(pad: &[u8; 32], half: usize) -> [u8; 32]
    ensures { IsPadAbove half pad.now result }
{
    if half.is_power_of_two() {
        *pad
    } else {
        node(pad, pad)
    }
}

/// The root of the leaves, padded by `pad` up to the next power of two. It leaves unstated bytes in the slice.
fn root_padded(leaves: &mut [[u8; 32]], pad: &[u8; 32]) -> [u8; 32]
    requires { 0 < length leaves.old }
    ensures { (d : ℕ) → length leaves.old ≤ 2 ^ d → 2 ^ d < 2 * length leaves.old
        → result ≡ tree d pad.now leaves.old }
{
    let count = leaves.len();
    if count == 1 {
        return leaves[0];
    }
    fold_pairs(leaves, pad);
    let half = count / 2 + count % 2;
    let above = pad_above(pad, half);
    root_padded(&mut leaves[..half], &above)
}

/// The Merkle root of the leaves. They are padded with hashes of 32 zero bytes up to the next power of two, and an
/// inner node is the digest of its two children. One leaf is its own root, and the root of no leaf is 32 zero bytes.
/// The tree is folded in place, so that unstated bytes are left in the slice.
pub fn root(leaves: &mut [[u8; 32]]) -> [u8; 32]
    ensures { result ≡ root_of leaves.old }
{
    let count = leaves.len();
    if count == 0 {
        return [0; 32];
    }
    root_padded(leaves, &[0; 32])
}

/// The value of a component group over its leaves: 32 bytes 0xFF where it has none, and else their `root`. It leaves
/// unstated bytes in the slice.
pub fn group(leaves: &mut [[u8; 32]]) -> [u8; 32]
    ensures { result ≡ group_of leaves.old }
{
    let count = leaves.len();
    if count == 0 {
        return [0xFF; 32];
    }
    root(leaves)
}
