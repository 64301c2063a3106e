//! A node's ledger, changed by records that fit.

ghost use Rattle.std.specs.Prelude.{◌≡◌, ◌<◌, ◌≤◌, ◌+◌, ◌^◌, [], true, length, IfSome, OnOk};
ghost use Rattle.std.specs.List.{AllByRecursion};
ghost use Rattle.ledger_types.specs.Txs.{IsSignedTx};
ghost use Rattle.ledger_types.specs.Requests.{IsEntry};
ghost use Rattle.ledger_tables.specs.Ledgers.{HasRecordRoom, HasEntryRoom};
ghost use Rattle.node_ledger.specs.Ledgered.{HoldsLedger, KeepsLedger, MakesLedger, takes_change};

use ledger_tables::LedgerTables;
use ledger_types::LedgerChange;
use net_base::Party;
use std::alloc::{AllocError, Global};

/// The ledger of a party to which nothing has happened. Takes no memory.
pub fn new_ledger(alloc: Global, party: Party) -> LedgerTables
    ensures { HoldsLedger party (record { stored = []; locked = []; entries = [] }) result }
{
    LedgerTables::new(alloc, party)
}

/// Whether a change fits, at a node whose network has this notary: the id of its transaction is new and all that this depends on is
/// recorded, its states are coins behind the transaction and none stands twice, and its entry is the notary's and answers a request
/// that no entry answers. Takes no memory.
pub fn change_fits(ledger: &LedgerTables, notary: Party, change: &LedgerChange) -> bool
    requires { IfSome change.now.recorded IsSignedTx }
    ensures { result ≡ takes_change notary ledger.now change.now }
{
    ledger.may_apply(notary, change)
}

/// Makes room for what a change records, locks and books. What the tables hold stays.
///
/// # Errors
///
/// Want of memory.
pub fn make_change_room(
    alloc: Global,
    ledger: &mut LedgerTables,
    change: &LedgerChange,
) -> Result<(), AllocError>
    ensures holds { KeepsLedger ledger.old ledger.new }
    ensures record_room { OnOk result (HasRecordRoom change.now.recorded ledger.new.store
        ledger.new.vault) }
    ensures entry_room { OnOk result (HasEntryRoom change.now.booked ledger.new.book) }
{
    ledger.make_room(alloc, change)
}

/// Applies a change that fits, in the room that was made. What the tables hold then is what the machine's effect makes of it: its
/// transaction is recorded, its states are locked for its flow, its entry is booked, and a flow that ends has no locks. Takes no
/// memory.
pub fn add_change<F>(ledger: &mut LedgerTables, notary: Party, change: LedgerChange)
    requires transaction { IfSome change.recorded IsSignedTx }
    requires entry { IfSome change.booked IsEntry }
    requires fits { takes_change notary ledger.old change ≡ true }
    requires few { length ledger.old.store.list + 1 < 2 ^ 32 }
    requires record_room { HasRecordRoom change.recorded ledger.old.store ledger.old.vault }
    requires entry_room { HasEntryRoom change.booked ledger.old.book }
    ensures holds { MakesLedger F change ledger.old ledger.new }
{
    ledger.apply(notary, change);
}
