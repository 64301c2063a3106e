//! The values of the groups of a tear-off.

ghost use Rattle.std.specs.Prelude.{◌≡◌, map, IfOk};
ghost use Rattle.component_merkle.specs.Merkle.{leaf_of};
ghost use Rattle.ledger_types.specs.Tears.{group_value};

use component_merkle::{group, leaf};
use ledger_types::{TornGroup, TornPart};
use std::alloc::{AllocError, Global};

fn leaves_of(alloc: Global, parts: &[TornPart]) -> Result<Vec<[u8; 32]>, AllocError>
    ensures { IfOk result (λ v. v.items ≡ map (λ p. leaf_of p.nonce.0 p.bytes) parts.now) }
{
    let mut leaves = Vec::with_capacity(alloc, parts.len())?;
    for part in parts {
        leaves.push(leaf(&part.nonce.0, part.bytes.as_slice()))?;
    }
    Ok(leaves)
}

/// The value of a group: what a hidden one tells, or that of the leaves that are shown.
pub(crate) fn group_value(alloc: Global, torn: &TornGroup) -> Result<[u8; 32], AllocError>
    ensures { IfOk result (λ v. v ≡ group_value torn.now) }
{
    match torn {
        TornGroup::Hidden { root } => Ok(root.0),
        TornGroup::Shown { parts } => {
            let mut leaves = leaves_of(alloc, parts.as_slice())?;
            Ok(group(&mut leaves))
        }
    }
}

/// The values of the groups.
pub(crate) fn group_values(alloc: Global, groups: &[TornGroup]) -> Result<Vec<[u8; 32]>, AllocError>
    ensures { IfOk result (λ v. v.items ≡ map group_value groups.now) }
{
    let mut values = Vec::with_capacity(alloc, groups.len())?;
    for torn in groups {
        values.push(group_value(alloc, torn)?)?;
    }
    Ok(values)
}
