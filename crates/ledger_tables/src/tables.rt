//! The tables of a node's ledger.

ghost use Rattle.std.specs.Prelude.{◌≡◌, ◌≤◌, [], true, false, IfSome, OnOk};
ghost use Rattle.std.specs.List.{AllByRecursion};
ghost use Rattle.ledger_types.specs.Txs.{IsTx, IsSignedTx};
ghost use Rattle.ledger_types.specs.Requests.{IsEntry};
ghost use Rattle.ledger_types.specs.Names.{ref_eq, has_repeat};
ghost use Rattle.ledger_types.specs.Stores.{untagged, may_record};
ghost use Rattle.vault.specs.Holdings.{references_of, IsVault};
ghost use Rattle.ledger_tables.specs.Ledgers.{may_apply, HasVault, HasPlace, HasRecordRoom, HasEntryRoom, IsChanged, TakesRoom};

use crate::parts::{
    add_entry, is_new, make_entry_room, make_record_room, may_book, may_lock, record_next,
    release_ended,
};
use ledger_types::{LedgerChange, SignedTx};
use net_base::{Boxed, Party};
use notary_book::Book;
use std::alloc::{AllocError, Global};
use std::marker::Model;
use tx_store::Store;
use vault::{Vault, law_holds_each_once};

/// The recorded transactions, the vault over them and the notary's book. At every moment the vault holds exactly what the
/// recorded transactions leave its party, and each entry of the book is within its limits.
#[derive(Drop)]
pub struct LedgerTables {
    store: Store,
    vault: Vault,
    book: Book,
}

impl Model for LedgerTables {
    ghost use Rattle.std.specs.List.{AllByRecursion};
    ghost use Rattle.ledger_types.specs.Requests.{IsEntry};
    ghost use Rattle.ledger_types.specs.Stores.{untagged};
    ghost use Rattle.ledger_tables.specs.Ledgers.{Ledger, HasVault};

    ghost Value = { Ledger };

    ghost view = { λ t. record { store = t.store; vault = t.vault; book = t.book } };

    ghost invariant = { λ t. HasVault t.vault.party (untagged t.store.list) t.vault.held
        × AllByRecursion IsEntry t.book.entries };
}

impl LedgerTables {
    /// The tables of a party, all without contents. Takes no memory.
    pub fn new(alloc: Global, party: Party) -> LedgerTables
        ensures store { result.store.list ≡ [] }
        ensures party { result.vault.party ≡ party }
        ensures held { result.vault.held ≡ [] }
        ensures book { result.book.entries ≡ [] }
        ensures vault { IsVault party [] [] result.vault.held }
    {
        LedgerTables {
            store: Store::new(alloc),
            vault: Vault::new(alloc, party),
            book: Book::new(alloc),
        }
    }

    /// The recorded transactions.
    pub fn store(&self) -> &Store
        ensures { result.now ≡ self.now.store }
    {
        &self.store
    }

    /// The vault, which is the party's over the recorded transactions, by some soft locks, and holds no state twice. Which locks
    /// these are is told by the changes (`apply`).
    pub fn vault(&self) -> &Vault
        ensures lent { result.now ≡ self.now.vault }
        ensures over_store { HasVault self.now.vault.party
            (untagged self.now.store.list) self.now.vault.held }
        ensures once { has_repeat ref_eq (references_of self.now.vault.held) ≡ false }
    {
        law_holds_each_once();
        &self.vault
    }

    /// The notary's book, of which each entry is within its limits.
    pub fn book(&self) -> &Book
        ensures lent { result.now ≡ self.now.book }
        ensures limits { AllByRecursion IsEntry self.now.book.entries }
    {
        &self.book
    }

    /// Whether a transaction, where there is one, may be recorded next: its id is new, and all that it depends on is recorded.
    fn may_record(&self, recorded: &Option<Boxed<SignedTx>>) -> bool
        requires { IfSome recorded.now (λ stx. IsTx stx.tx) }
        ensures { result ≡ may_record self.now.store.list recorded.now }
    {
        match recorded {
            None => true,
            Some(stx) => {
                let tx = &stx.get().tx;
                is_new(&self.store, &tx.id()) && self.store.has_dependencies(tx)
            }
        }
    }

    /// Whether a change may be applied at a party whose network has this notary: the id of its transaction is new and all that
    /// this depends on is recorded, its states are coins behind the transaction and none stands twice, and its entry is the
    /// notary's and answers a request that no entry answers. Takes no memory.
    #[tactic(auto, unfolding(crate::specs::Ledgers::may_apply))]
    pub fn may_apply(&self, notary: Party, change: &LedgerChange) -> bool
        requires { IfSome change.now.recorded IsSignedTx }
        ensures { result ≡ may_apply self.now.vault.party notary self.now.store.list
            self.now.vault.held self.now.book.entries change.now }
    {
        let LedgerChange {
            recorded,
            locked,
            booked,
            ..
        } = change;
        self.may_record(recorded)
            && (may_lock(&self.vault, recorded, locked.as_slice())
                && may_book(&self.book, self.vault.party(), notary, booked))
    }

    /// Makes room for a change in all tables. Want of memory leaves their contents as they were.
    pub fn make_room(&mut self, alloc: Global, change: &LedgerChange) -> Result<(), AllocError>
        ensures store { self.new.store.list ≡ self.old.store.list }
        ensures party { self.new.vault.party ≡ self.old.vault.party }
        ensures held { self.new.vault.held ≡ self.old.vault.held }
        ensures book { self.new.book.entries ≡ self.old.book.entries }
        ensures record_room { OnOk result (HasRecordRoom change.now.recorded self.new.store
            self.new.vault) }
        ensures entry_room { OnOk result (HasEntryRoom change.now.booked self.new.book) }
        ensures keeps { (self.old.store.room ≤ self.new.store.room)
            × (self.old.vault.room ≤ self.new.vault.room)
            × (self.old.book.room ≤ self.new.book.room) }
    {
        make_record_room(alloc, &mut self.store, &mut self.vault, &change.recorded)?;
        make_entry_room(alloc, &mut self.book, &change.booked)
    }

    /// Applies a change in the room that was made for it, and refuses nothing: its transaction is recorded and noted in the
    /// vault, its states are locked for its flow, its entry is booked, and where the flow ends its locks are released, those of
    /// this change too. It takes no memory.
    ///
    /// `may_apply` tells whether the change may be applied at a party whose network has this notary.
    pub fn apply(&mut self, notary: Party, change: LedgerChange)
        requires transaction { IfSome change.recorded IsSignedTx }
        requires entry { IfSome change.booked IsEntry }
        requires fits { may_apply self.old.vault.party notary self.old.store.list
            self.old.vault.held self.old.book.entries change ≡ true }
        requires few { HasPlace change.recorded self.old.store.list }
        requires record_room { HasRecordRoom change.recorded self.old.store self.old.vault }
        requires entry_room { HasEntryRoom change.booked self.old.book }
        ensures changed { IsChanged change self.old self.new }
        ensures room { TakesRoom change self.old self.new }
    {
        record_next(&mut self.store, &mut self.vault, change.recorded);
        self.vault.lock(change.owner, &change.locked);
        add_entry(&mut self.book, change.booked);
        release_ended(&mut self.vault, change.owner, change.ended);
    }
}
