//! A recorded transaction.

ghost use Rattle.std.specs.Prelude.{◌≡◌, None, Some, IfOk, MatchOption, string_bytes, slice_get};
ghost use Rattle.net_base.specs.declared.values.Hash32.{Hash32 as Id};
ghost use Rattle.ledger_types.specs.declared.tx.SignedTx.{SignedTx as Stx};
ghost use Rattle.ledger_types.specs.Stores.{stored_of};
ghost use Rattle.shell_report.specs.LedgerText.{parts_text, tx_text};

use crate::names::hash_text;
use ledger_types::{SignedTx, Tx};
use net_base::Hash32;
use std::alloc::{AllocError, Global};
use tx_store::Store;

/// How many inputs, outputs and commands a transaction has.
fn parts_text(alloc: Global, tx: &Tx) -> Result<String, AllocError>
    ensures { IfOk result (λ text. string_bytes text ≡ parts_text tx.now) }
{
    let inputs = tx.inputs.len();
    let outputs = tx.outputs.len();
    let commands = tx.commands.len();
    let text = format!(in alloc; " inputs {inputs} outputs {outputs} commands {commands}")?;
    Ok(text)
}

/// The line of a transaction of this id, with its end.
fn tx_text(alloc: Global, id: &Hash32, stx: &SignedTx) -> Result<String, AllocError>
    ensures { IfOk result (λ text. string_bytes text ≡ tx_text id.now stx.now) }
{
    let id = hash_text(alloc, id)?;
    let parts = parts_text(alloc, &stx.tx)?;
    let references = stx.tx.references.len();
    let tags = stx.tags.len();
    let text = format!(in alloc; "tx {id}{parts} references {references} tags {tags}\n")?;
    Ok(text)
}

/// The line of the recorded transaction of this id, with its end; `None` where none has it.
///
/// # Errors
///
/// `AllocError` for want of memory.
pub fn tx_text_of(alloc: Global, store: &Store, id: &Hash32) -> Result<Option<String>, AllocError>
    ensures { IfOk result (λ found. MatchOption found (stored_of store.now.list id.now ≡ None)
        (λ text. (stx : Stx) × (stored_of store.now.list id.now ≡ Some stx)
        × (string_bytes text ≡ tx_text id.now stx))) }
{
    match store.get(id) {
        None => Ok(None),
        Some(stx) => Ok(Some(tx_text(alloc, id, stx)?)),
    }
}

/// The line of the transaction at a place in order of recording, from 0, with its end; `None` where there are no more.
///
/// # Errors
///
/// `AllocError` for want of memory.
pub fn tx_text_at(alloc: Global, store: &Store, place: u32) -> Result<Option<String>, AllocError>
    ensures { IfOk result (λ found. MatchOption found (slice_get store.now.list place ≡ None)
        (λ text. (p : Id × Stx) × (slice_get store.now.list place ≡ Some p)
        × (string_bytes text ≡ tx_text p.0 p.1))) }
{
    match store.at(place) {
        None => Ok(None),
        Some((id, stx)) => Ok(Some(tx_text(alloc, id, stx)?)),
    }
}
