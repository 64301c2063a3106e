//! Who signs a command of a kind.

ghost use Rattle.std.specs.Prelude.{◌≡◌};
ghost use Rattle.small_contracts.specs.Signing as kind;

use ledger_types::{Deed, Tx};
use net_base::Party;

fn is_lock_make(deed: &Deed) -> bool
    ensures { result ≡ kind.is_lock_make deed.now }
{
    match deed {
        Deed::LockMake => true,
        _ => false,
    }
}

fn is_lock_open(deed: &Deed) -> bool
    ensures { result ≡ kind.is_lock_open deed.now }
{
    match deed {
        Deed::LockOpen => true,
        _ => false,
    }
}

fn is_fact_output(deed: &Deed) -> bool
    ensures { result ≡ kind.is_fact_output deed.now }
{
    match deed {
        Deed::FactIssue => true,
        Deed::FactChange => true,
        _ => false,
    }
}

fn is_fact_change(deed: &Deed) -> bool
    ensures { result ≡ kind.is_fact_change deed.now }
{
    match deed {
        Deed::FactChange => true,
        _ => false,
    }
}

fn is_iou_make(deed: &Deed) -> bool
    ensures { result ≡ kind.is_iou_make deed.now }
{
    match deed {
        Deed::IouMake => true,
        _ => false,
    }
}

fn is_iou_settle(deed: &Deed) -> bool
    ensures { result ≡ kind.is_iou_settle deed.now }
{
    match deed {
        Deed::IouSettle => true,
        _ => false,
    }
}

/// Whether the party signs a `LockMake`.
pub(crate) fn signs_lock_make(tx: &Tx, party: Party) -> bool
    ensures { result ≡ kind.signs kind.is_lock_make tx.now party }
{
    tx.commands
        .as_slice()
        .iter()
        .any(|c| is_lock_make(&c.deed) && c.signers.contains(party))
}

/// Whether the party signs a `LockOpen`.
pub(crate) fn signs_lock_open(tx: &Tx, party: Party) -> bool
    ensures { result ≡ kind.signs kind.is_lock_open tx.now party }
{
    tx.commands
        .as_slice()
        .iter()
        .any(|c| is_lock_open(&c.deed) && c.signers.contains(party))
}

/// Whether the party signs a `FactIssue` or a `FactChange`.
pub(crate) fn signs_fact_output(tx: &Tx, party: Party) -> bool
    ensures { result ≡ kind.signs kind.is_fact_output tx.now party }
{
    tx.commands
        .as_slice()
        .iter()
        .any(|c| is_fact_output(&c.deed) && c.signers.contains(party))
}

/// Whether the party signs a `FactChange`.
pub(crate) fn signs_fact_change(tx: &Tx, party: Party) -> bool
    ensures { result ≡ kind.signs kind.is_fact_change tx.now party }
{
    tx.commands
        .as_slice()
        .iter()
        .any(|c| is_fact_change(&c.deed) && c.signers.contains(party))
}

/// Whether the party signs an `IouSettle`.
pub(crate) fn signs_iou_settle(tx: &Tx, party: Party) -> bool
    ensures { result ≡ kind.signs kind.is_iou_settle tx.now party }
{
    tx.commands
        .as_slice()
        .iter()
        .any(|c| is_iou_settle(&c.deed) && c.signers.contains(party))
}

/// Whether both parties sign one `IouMake`.
pub(crate) fn both_sign_iou_make(tx: &Tx, lender: Party, borrower: Party) -> bool
    ensures { result ≡ kind.both_sign kind.is_iou_make tx.now lender borrower }
{
    tx.commands.as_slice().iter().any(|c| {
        is_iou_make(&c.deed) && (c.signers.contains(lender) && c.signers.contains(borrower))
    })
}
