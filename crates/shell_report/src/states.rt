//! The unconsumed states of a vault.

ghost use Rattle.std.specs.Prelude.{◌≡◌, IfOk, string_bytes, slice_get};
ghost use Rattle.std.specs.List.{AllByRecursion};
ghost use Rattle.ledger_types.specs.States.{IsStateData};
ghost use Rattle.ledger_types.specs.Vaults.{IsHeld};
ghost use Rattle.shell_report.specs.LedgerText.{ids_of, is_this, place_in, body_text, locked_text, encumbered_text, state_line, state_lines, vault_text};

use crate::names::token_text;
use ledger_types::{Held, StateData};
use net_base::Hash32;
use std::alloc::{AllocError, Global};
use std::fmt::Write;
use tx_store::Store;
use vault::Vault;

/// Whether the transaction at a place has this id.
fn stands_at(store: &Store, k: u32, id: &Hash32) -> bool
    ensures { result ≡ is_this id.now (slice_get store.now.list k) }
{
    match store.at(k) {
        Some((other, _)) => id == other,
        None => false,
    }
}

/// The place of the transaction of this id, from 0. It goes through the transactions up to that one.
fn place_in(store: &Store, id: &Hash32) -> u32
    ensures { result ≡ place_in id.now (ids_of store.now.list) }
{
    for k in 0..store.count() {
        if stands_at(store, k, id) {
            return k;
        }
    }
    store.count()
}

/// What a state says.
fn body_text(alloc: Global, body: &StateData) -> Result<String, AllocError>
    requires { IsStateData body.now }
    ensures { IfOk result (λ text. string_bytes text ≡ body_text body.now) }
{
    match body {
        StateData::Cash { token, amount, .. } => {
            let token = token_text(alloc, token)?;
            let text = format!(in alloc; "cash {token} {amount}")?;
            Ok(text)
        }
        StateData::TimeLock { until, .. } => format!(in alloc; "lock {}", until.0),
        StateData::Fact {
            issuer,
            name,
            value,
        } => {
            let text = format!(in alloc; "fact {} {name} {value}", issuer.0)?;
            Ok(text)
        }
        StateData::Iou {
            lender,
            borrower,
            token,
            amount,
        } => {
            let token = token_text(alloc, token)?;
            let text = format!(in alloc; "iou {} {} {token} {amount}", lender.0, borrower.0)?;
            Ok(text)
        }
    }
}

/// The flow that has a state soft-locked.
fn locked_text(alloc: Global, locked: &Option<u32>) -> Result<String, AllocError>
    ensures { IfOk result (λ text. string_bytes text ≡ locked_text locked.now) }
{
    match locked {
        None => Ok(String::new(alloc)),
        Some(flow) => format!(in alloc; " locked {flow}"),
    }
}

/// The output that encumbers a state.
fn encumbered_text(alloc: Global, encumbrance: &Option<u8>) -> Result<String, AllocError>
    ensures { IfOk result (λ text. string_bytes text ≡ encumbered_text encumbrance.now) }
{
    match encumbrance {
        None => Ok(String::new(alloc)),
        Some(output) => format!(in alloc; " encumbered {output}"),
    }
}

/// The line of an unconsumed state, without its end.
fn state_line(alloc: Global, store: &Store, held: &Held) -> Result<String, AllocError>
    requires { IsHeld held.now }
    ensures { IfOk result (λ text. string_bytes text
        ≡ state_line (ids_of store.now.list) held.now) }
{
    let place = place_in(store, &held.reference.id);
    let body = body_text(alloc, &held.state.body)?;
    let locked = locked_text(alloc, &held.locked)?;
    let encumbered = encumbered_text(alloc, &held.state.encumbrance)?;
    let line = format!(in alloc;
        "state {place} {} {body}{locked}{encumbered}",
        held.reference.index
    )?;
    Ok(line)
}

/// A line for each state.
fn state_lines(alloc: Global, store: &Store, states: &[Held]) -> Result<String, AllocError>
    requires { AllByRecursion IsHeld states.now }
    ensures { IfOk result (λ text. string_bytes text
        ≡ state_lines (ids_of store.now.list) states.now) }
{
    let mut out = String::new(alloc);
    for held in states {
        let line = state_line(alloc, store, held)?;
        writeln!(out, "{line}")?;
    }
    Ok(out)
}

/// A line for each unconsumed state of a vault, in its order, or the line `none`. The store is that of the transactions that the
/// vault is over. For each state it goes through the recorded transactions up to that of the state.
///
/// # Errors
///
/// `AllocError` for want of memory.
pub fn vault_text(alloc: Global, store: &Store, vault: &Vault) -> Result<String, AllocError>
    ensures { IfOk result (λ text. string_bytes text
        ≡ vault_text (ids_of store.now.list) vault.now.held) }
{
    let states = vault.unconsumed(alloc)?;
    if states.len() == 0 {
        return String::from_str(alloc, "none\n");
    }
    state_lines(alloc, store, states.as_slice())
}
