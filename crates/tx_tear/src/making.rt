//! Making a tear-off.

ghost use Rattle.std.specs.Prelude.{◌≡◌, ◌≤◌, Some, map, length, IfOk};
ghost use Rattle.std.specs.List.{AllByRecursion};
ghost use Rattle.ledger_types.specs.Ids.{groups};
ghost use Rattle.ledger_types.specs.Txs.{IsTx};
ghost use Rattle.ledger_types.specs.Tears.{visible_of};
ghost use Rattle.ledger_types.specs.Torn.{IsTornTx};
ghost use Rattle.ledger_types.specs.declared.tx.Tx.{Tx};
ghost use Rattle.tx_tear.specs.Tearing.{part_of, shown_group, hidden_group, torn_from, tear_of, seen_of};

use crate::values::group_value;
use component_merkle::nonce;
use ledger_types::parts::{ItsDeed, ItsSigners, Part, Whole};
use ledger_types::{Command, TornGroup, TornPart, TornTx, Tx, TxState, Window, WireTx};
use net_base::{Block, ByteList, Hash32, ListOf, Party, StateRef};
use std::alloc::{AllocError, Global};

/// The component at a place of a group, with its nonce.
fn part_at<T, P: Part<T>>(
    alloc: Global,
    salt: &[u8; 32],
    ordinal: u32,
    place: u32,
    item: &T,
) -> Result<TornPart, AllocError>
    requires size { P.size ≤ 64 }
    requires limits { P.limits item.now }
    ensures { IfOk result (λ p. p ≡ part_of salt.now ordinal place (P.text item.now)) }
{
    let mut block = Block::new();
    P::put(item, &mut block);
    Ok(TornPart {
        nonce: Hash32(nonce(salt, ordinal, place)),
        bytes: ByteList::from_slice(alloc, block.bytes())?,
    })
}

/// The group with each component shown.
fn shown<T, P: Part<T>>(
    alloc: Global,
    salt: &[u8; 32],
    ordinal: u32,
    items: &[T],
) -> Result<TornGroup, AllocError>
    requires few { length items.now ≤ 64 }
    requires size { P.size ≤ 64 }
    requires limits { AllByRecursion P.limits items.now }
    ensures { IfOk result (λ g. g ≡ shown_group salt.now ordinal (map P.text items.now)) }
{
    let mut parts = Vec::with_capacity(alloc, items.len())?;
    for i in 0..items.len() {
        let part = part_at::<T, P>(alloc, salt, ordinal, i as u32, &items[i])?;
        parts.push(part)?;
    }
    Ok(TornGroup::Shown {
        parts: ListOf::from_vec(parts),
    })
}

/// The group of which its value alone is told.
#[tactic(auto, using(crate::proofs::Groups::value_shown))]
fn hidden<T, P: Part<T>>(
    alloc: Global,
    salt: &[u8; 32],
    ordinal: u32,
    items: &[T],
) -> Result<TornGroup, AllocError>
    requires few { length items.now ≤ 64 }
    requires size { P.size ≤ 64 }
    requires limits { AllByRecursion P.limits items.now }
    ensures { IfOk result (λ g. g ≡ hidden_group salt.now ordinal (map P.text items.now)) }
{
    let group = shown::<T, P>(alloc, salt, ordinal, items)?;
    Ok(TornGroup::Hidden {
        root: Hash32(group_value(alloc, &group)?),
    })
}

/// All eight groups of a transaction, torn.
fn torn_groups(alloc: Global, tx: &Tx) -> Result<Vec<TornGroup>, AllocError>
    requires { IsTx tx.now }
    ensures { IfOk result (λ v. v.items ≡ torn_from tx.now.salt.0 0 (groups tx.now)) }
{
    let salt = &tx.salt.0;
    let commands = tx.commands.as_slice();
    let mut torn = Vec::with_capacity(alloc, 8)?;
    torn.push(shown::<StateRef, Whole>(alloc, salt, 0, tx.inputs.as_slice())?)?;
    torn.push(hidden::<TxState, Whole>(alloc, salt, 1, tx.outputs.as_slice())?)?;
    torn.push(hidden::<Command, ItsDeed>(alloc, salt, 2, commands)?)?;
    torn.push(hidden::<Hash32, Whole>(alloc, salt, 3, tx.attachments.as_slice())?)?;
    torn.push(shown::<Party, Whole>(alloc, salt, 4, tx.notary.as_slice())?)?;
    torn.push(shown::<Window, Whole>(alloc, salt, 5, tx.window.as_slice())?)?;
    torn.push(hidden::<Command, ItsSigners>(alloc, salt, 6, commands)?)?;
    torn.push(shown::<StateRef, Whole>(alloc, salt, 7, tx.references.as_slice())?)?;
    Ok(torn)
}

/// The tear-off of a transaction: its id, and its component groups up to the last that has a component. It shows the
/// groups of inputs (0), notary (4), time window (5) and references (7), and hides the others. It is within the limits
/// of a tear-off: at most 9 groups, with at most 96 shown components of at most 64 bytes each.
#[tactic(auto, unfolding(crate::specs::Tearing::tear_of), using(crate::proofs::Groups::truncated))]
pub fn tear(alloc: Global, tx: &WireTx) -> Result<TornTx, AllocError>
    requires { IsTx tx.now }
    ensures torn { IfOk result (λ t. t ≡ tear_of tx.now) }
    ensures within { IfOk result IsTornTx }
{
    let mut groups = torn_groups(alloc, tx)?;
    groups.truncate(tx.group_count());
    Ok(TornTx {
        id: tx.id(),
        groups: ListOf::from_vec(groups),
    })
}

/// The tear-off of a transaction has its id, and shows its inputs, its references, its notary and its time window. It
/// does nothing when it runs; its contract is the law.
pub fn tear_off_shows()
    ensures { (tx : Tx) → IsTx tx → visible_of (tear_of tx) ≡ Some (seen_of tx) }
{}
