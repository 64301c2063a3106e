//! The parts of one change, each in the table that it concerns.

ghost use Rattle.std.specs.Prelude.{◌≡◌, ◌≤◌, ◌<◌, ◌+◌, ◌++◌, true, not, List, length, option_to_list, IfSome, OnOk};
ghost use Rattle.std.specs.List.{list_all};
ghost use Rattle.ledger_types.specs.Names.{ref_eq, has_repeat};
ghost use Rattle.net_base.specs.declared.values.Hash32.{Hash32 as Id};
ghost use Rattle.ledger_types.specs.declared.tx.Tx.{Tx as Recorded};
ghost use Rattle.ledger_types.specs.Txs.{IsSignedTx};
ghost use Rattle.ledger_types.specs.Requests.{IsEntry};
ghost use Rattle.ledger_types.specs.Stores.{untagged, is_stored, may_record};
ghost use Rattle.ledger_types.specs.Vaults.{Lock, has_coin};
ghost use Rattle.vault.specs.Holdings.{IsVault};
ghost use Rattle.ledger_tables.specs.Ledgers.{may_lock, may_book, recorded_in, outputs_in, held_with, freed_at_end, released_at_end, HasPlace, HasRecordRoom, HasEntryRoom};

use ledger_types::{Entry, SignedTx};
use net_base::{Boxed, Hash32, Party, StateRef};
use notary_book::Book;
use std::alloc::{AllocError, Global};
use tx_store::Store;
use vault::Vault;

/// Whether no transaction of this id is stored.
pub fn is_new(store: &Store, id: &Hash32) -> bool
    ensures { result ≡ not (is_stored store.now.list id.now) }
{
    store.get(id).is_none()
}

/// Whether the references name coins once a transaction, where there is one, is recorded.
fn are_coins(vault: &Vault, recorded: &Option<Boxed<SignedTx>>, refs: &[StateRef]) -> bool
    requires { IfSome recorded.now IsSignedTx }
    ensures { result ≡ list_all (has_coin (held_with vault.now.party recorded.now vault.now.held))
        refs.now }
{
    match recorded {
        None => refs.iter().all(|r| vault.is_coin(r)),
        Some(stx) => {
            let id = stx.get().tx.id();
            let tx = stx.get().tx.get();
            refs.iter().all(|r| vault.is_coin_behind(&id, tx, r))
        }
    }
}

/// Whether a reference stands twice.
fn has_repeated(refs: &[StateRef]) -> bool
    ensures { result ≡ has_repeat ref_eq refs.now }
{
    match refs {
        [] => false,
        [first, rest @ ..] => rest.contains(first) || has_repeated(rest),
    }
}

/// Whether these states may be locked once a transaction, where there is one, is recorded.
pub fn may_lock(vault: &Vault, recorded: &Option<Boxed<SignedTx>>, refs: &[StateRef]) -> bool
    requires { IfSome recorded.now IsSignedTx }
    ensures { result ≡ may_lock vault.now.party recorded.now vault.now.held refs.now }
{
    are_coins(vault, recorded, refs) && !has_repeated(refs)
}

/// Whether an entry, where there is one, may be added to the book of a party.
pub fn may_book(book: &Book, me: Party, notary: Party, booked: &Option<Boxed<Entry>>) -> bool
    ensures { result ≡ may_book me notary book.now.entries booked.now }
{
    match booked {
        None => true,
        Some(entry) => me == notary && !book.has_answered(&entry.get().request),
    }
}

/// Makes room for a transaction, in the store and in the vault.
pub fn make_record_room(
    alloc: Global,
    store: &mut Store,
    vault: &mut Vault,
    recorded: &Option<Boxed<SignedTx>>,
) -> Result<(), AllocError>
    ensures store { store.new.list ≡ store.old.list }
    ensures party { vault.new.party ≡ vault.old.party }
    ensures held { vault.new.held ≡ vault.old.held }
    ensures room { OnOk result (HasRecordRoom recorded.now store.new vault.new) }
    ensures keeps { (store.old.room ≤ store.new.room) × (vault.old.room ≤ vault.new.room) }
{
    if let Some(stx) = recorded {
        store.make_room(alloc)?;
        vault.make_room(alloc, &stx.get().tx)?;
    }
    Ok(())
}

/// Makes room for an entry in the book.
pub fn make_entry_room(
    alloc: Global,
    book: &mut Book,
    booked: &Option<Boxed<Entry>>,
) -> Result<(), AllocError>
    ensures entries { book.new.entries ≡ book.old.entries }
    ensures room { OnOk result (HasEntryRoom booked.now book.new) }
    ensures keeps { book.old.room ≤ book.new.room }
{
    if booked.is_some() {
        book.make_room(alloc)?;
    }
    Ok(())
}

/// Stores a transaction, and notes it in the vault.
pub fn record_next(store: &mut Store, vault: &mut Vault, recorded: Option<Boxed<SignedTx>>)
    requires limits { IfSome recorded IsSignedTx }
    requires next { may_record store.old.list recorded ≡ true }
    requires few { HasPlace recorded store.old.list }
    requires room { HasRecordRoom recorded store.old vault.old }
    ensures store { store.new.list ≡ store.old.list ++ recorded_in recorded }
    ensures party { vault.new.party ≡ vault.old.party }
    ensures held { vault.new.held ≡ held_with vault.old.party recorded vault.old.held }
    ensures store_room { store.old.room ≤ store.new.room + length (recorded_in recorded) }
    ensures vault_room { vault.old.room ≤ vault.new.room + outputs_in recorded }
    ensures vault { (locks : List Lock)
        → IsVault vault.old.party (untagged store.old.list) locks vault.old.held
        → IsVault vault.old.party (untagged store.new.list) locks vault.new.held }
{
    if let Some(stx) = recorded {
        let stx = stx.into_inner();
        vault.note(&stx.tx.id(), &stx.tx);
        store.put(stx);
    }
}

/// Adds an entry to the book.
pub fn add_entry(book: &mut Book, booked: Option<Boxed<Entry>>)
    requires limits { IfSome booked IsEntry }
    requires room { HasEntryRoom booked book.old }
    ensures entries { book.new.entries ≡ book.old.entries ++ option_to_list booked }
    ensures room { book.old.room ≤ book.new.room + length (option_to_list booked) }
{
    if let Some(entry) = booked {
        book.add(entry.into_inner());
    }
}

/// Releases the locks of a flow that ends.
pub fn release_ended(vault: &mut Vault, flow: u32, ended: bool)
    ensures party { vault.new.party ≡ vault.old.party }
    ensures held { vault.new.held ≡ freed_at_end flow ended vault.old.held }
    ensures room { vault.old.room ≤ vault.new.room }
    ensures vault { (recorded : List (Id × Recorded)) (locks : List Lock)
        → IsVault vault.old.party recorded locks vault.old.held
        → IsVault vault.old.party recorded (released_at_end flow ended locks) vault.new.held }
{
    if ended {
        vault.release(flow);
    }
}
