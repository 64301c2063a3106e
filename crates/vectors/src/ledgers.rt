ghost use Rattle.std.specs.Prelude.{IfOk, IfSome};
ghost use Rattle.net_base.specs.Forms.{ListWithin};
ghost use Rattle.ledger_types.specs.States.{IsTxState};
ghost use Rattle.ledger_types.specs.Txs.{IsTx, IsSignedTx};
ghost use Rattle.ledger_types.specs.Requests.{IsEntry};

use super::columns::{bytes, let_go, value};
use anyhow::{Result, bail, ensure};
use ledger_tables::LedgerTables;
use ledger_types::{Entry, HeldList, LedgerChange, RefList, Resolved, SignedTx, Tx};
use net_base::{Boxed, Party, Reader, Spelt, StateRef, Token, Writer, read_list, write_list};
use std::alloc::{AllocError, Global};
use tx_store::{ResolveFault, Store};
use vault::{ReserveFault, Vault};

/// The value that a column spells, `None` where it is `-`.
fn optional<T: Spelt + Drop>(alloc: Global, column: &str) -> Result<Option<Boxed<T>>>
    ensures { IfOk result (λ value. IfSome value T.within) }
{
    if column == "-" {
        return Ok(None);
    }
    let value = value::<T>(alloc, column)?;
    Ok(Some(Boxed::new(alloc, value)?))
}

/// The references that a column spells: a byte that counts them, and each.
fn references(alloc: Global, column: &str) -> Result<RefList> {
    let bytes = bytes(alloc, column)?;
    Ok(read_list::<StateRef>(alloc, &mut Reader::new(bytes.as_slice()), 64)?)
}

/// The change that `OWNER ENDED SIGNED REFERENCES ENTRY` tells.
fn change_of(alloc: Global, values: &[&str]) -> Result<LedgerChange>
    ensures recorded { IfOk result (λ change. IfSome change.recorded IsSignedTx) }
    ensures booked { IfOk result (λ change. IfSome change.booked IsEntry) }
{
    let [owner, ended, recorded, locked, booked] = values else {
        bail!("a change has five values")
    };
    let owner = owner.parse::<u32>()?;
    let locked = references(alloc, locked)?;
    let recorded = optional::<SignedTx>(alloc, recorded)?;
    match optional::<Entry>(alloc, booked) {
        Ok(booked) => Ok(LedgerChange {
            recorded,
            locked,
            owner,
            ended: *ended == "1",
            booked,
        }),
        Err(error) => {
            let_go(recorded);
            Err(error)
        }
    }
}

/// Applies a change where it may be applied, and tells whether.
fn apply(
    alloc: Global,
    tables: &mut LedgerTables,
    notary: Party,
    change: LedgerChange,
) -> Result<bool, AllocError>
    requires recorded { IfSome change.recorded IsSignedTx }
    requires booked { IfSome change.booked IsEntry }
{
    let room = tables.make_room(alloc, &change);
    let fits = tables.may_apply(notary, &change) && tables.store().count() < 99;
    if room.is_err() || !fits {
        let_go(change);
        room?;
        return Ok(false);
    }
    tables.apply(notary, change);
    Ok(true)
}

/// `change OWNER ENDED SIGNED REFERENCES ENTRY`: whether the change was applied.
fn applied(
    alloc: Global,
    tables: &mut LedgerTables,
    notary: Party,
    values: &[&str],
) -> Result<String> {
    let change = change_of(alloc, values)?;
    let answer = if apply(alloc, tables, notary, change)? {
        "applied"
    } else {
        "refused"
    };
    Ok(String::from_str(alloc, answer)?)
}

fn reference_text(alloc: Global, reference: &StateRef) -> Result<String> {
    let id = hex::encode(alloc, reference.id.0)?;
    Ok(format!(in alloc; "{id}.{}", reference.index)?)
}

/// The references of states, with the flow that has a state locked.
fn held_text(alloc: Global, list: &HeldList) -> Result<String> {
    let mut texts = Vec::new(alloc);
    for held in list.as_slice() {
        let reference = reference_text(alloc, &held.reference)?;
        texts.push(match held.locked {
            None => reference,
            Some(flow) => format!(in alloc; "{reference}/{flow}")?,
        })?;
    }
    Ok(texts.join(alloc, "+")?)
}

/// The states of a vault.
fn unconsumed_text(alloc: Global, vault: &Vault) -> Result<String> {
    let list = vault.unconsumed(alloc)?;
    let text = held_text(alloc, &list);
    let_go(list);
    text
}

/// What a token's Cash is worth together.
fn balance_text(alloc: Global, vault: &Vault, name: &str) -> Result<String> {
    let balance = vault.balance(&value::<Token>(alloc, name)?);
    Ok(format!(in alloc; "{balance}")?)
}

/// What a reservation names.
fn reserved(alloc: Global, vault: &Vault, name: &str, amount: &str) -> Result<String> {
    let token = value::<Token>(alloc, name)?;
    match vault.reserve(alloc, &token, amount.parse::<u64>()?) {
        Ok(list) => {
            let text = held_text(alloc, &list);
            let_go(list);
            text
        }
        Err(ReserveFault::Short { have }) => Ok(format!(in alloc; "short:{have}")?),
        Err(ReserveFault::Memory) => bail!("out of memory"),
    }
}

/// The ids that a transaction names and that aren't stored.
fn missing_text(alloc: Global, store: &Store, column: &str) -> Result<String> {
    let tx = value::<Tx>(alloc, column)?;
    let missing = store.missing(alloc, &tx);
    let_go(tx);
    let mut texts = Vec::new(alloc);
    for id in missing?.as_slice() {
        texts.push(hex::encode(alloc, id.0)?)?;
    }
    Ok(texts.join(alloc, "+")?)
}

/// The bytes of states, first of the inputs.
fn states_text(alloc: Global, states: &Resolved) -> Result<String>
    requires inputs { ListWithin 255 IsTxState states.now.inputs }
    requires references { ListWithin 255 IsTxState states.now.references }
{
    let mut out = Writer::new(alloc);
    write_list(alloc, &states.inputs, &mut out)?;
    write_list(alloc, &states.references, &mut out)?;
    let bytes = out.into_bytes();
    Ok(hex::encode(alloc, bytes.as_slice())?)
}

/// What is lacking of the states that a transaction names.
fn lacking_text(alloc: Global, fault: ResolveFault) -> Result<String> {
    match fault {
        ResolveFault::Lacking { id } => {
            let id = hex::encode(alloc, id.0)?;
            Ok(format!(in alloc; "lacking:{id}")?)
        }
        ResolveFault::NoOutput { reference } => {
            let reference = reference_text(alloc, &reference)?;
            Ok(format!(in alloc; "no-output:{reference}")?)
        }
        ResolveFault::Memory => bail!("out of memory"),
    }
}

/// The states that a transaction names, or which it lacks. The calls that take no memory have to say the same.
fn states_of(alloc: Global, store: &Store, tx: &Tx) -> Result<String>
    requires { IsTx tx.now }
{
    let had = store.has_states(tx);
    match store.resolve(alloc, tx) {
        Ok(states) => {
            let same = had && store.resolves_to(tx, &states);
            let text = states_text(alloc, &states);
            let_go(states);
            ensure!(same, "whether states can be had is told twice");
            text
        }
        Err(fault) => {
            ensure!(
                !had || fault == ResolveFault::Memory,
                "whether states can be had is told twice"
            );
            lacking_text(alloc, fault)
        }
    }
}

/// The same of the transaction that a column spells.
fn resolved_text(alloc: Global, store: &Store, column: &str) -> Result<String> {
    let tx = value::<Tx>(alloc, column)?;
    let text = states_of(alloc, store, &tx);
    let_go(tx);
    text
}

/// The id of the transaction at a place of the store; `-` where none stands there.
fn stored_text(alloc: Global, store: &Store, place: &str) -> Result<String> {
    match store.at(place.parse::<u32>()?) {
        Some((id, _)) => Ok(hex::encode(alloc, id.0)?),
        None => Ok(String::from_str(alloc, "-")?),
    }
}

/// The codes of what the notary has answered.
fn entries_text(alloc: Global, entries: &[Entry]) -> Result<String> {
    let mut texts = Vec::new(alloc);
    for entry in entries {
        texts.push(format!(in alloc; "{}", entry.answer.code())?)?;
    }
    Ok(texts.join(alloc, "+")?)
}

/// What the tables tell.
fn told(alloc: Global, tables: &LedgerTables, verb: &str, values: &[&str]) -> Result<String> {
    match (verb, values) {
        ("held", []) => unconsumed_text(alloc, tables.vault()),
        ("balance", [name]) => balance_text(alloc, tables.vault(), name),
        ("reserve", [name, amount]) => reserved(alloc, tables.vault(), name, amount),
        ("missing", [tx]) => missing_text(alloc, tables.store(), tx),
        ("resolve", [tx]) => resolved_text(alloc, tables.store(), tx),
        ("stored", [place]) => stored_text(alloc, tables.store(), place),
        ("entries", []) => entries_text(alloc, tables.book().entries()),
        _ => bail!("nothing that tables tell"),
    }
}

/// What a column answers: a verb and its values, parted by `@`.
fn step(alloc: Global, tables: &mut LedgerTables, notary: Party, column: &str) -> Result<String> {
    let parts = column.split('@').collect::<Vec<&str>>(alloc)?;
    let [verb, values @ ..] = parts.as_slice() else {
        bail!("a step has a verb")
    };
    if *verb == "change" {
        return applied(alloc, tables, notary, values);
    }
    told(alloc, tables, verb, values)
}

/// The answers of the columns, one after the other.
fn steps(
    alloc: Global,
    tables: &mut LedgerTables,
    notary: Party,
    columns: &[&str],
) -> Result<String> {
    let mut answers = Vec::new(alloc);
    for column in columns {
        answers.push(step(alloc, tables, notary, column)?)?;
    }
    Ok(answers.join(alloc, " ")?)
}

/// `ledger PARTY NOTARY STEP ..`: what the ledger of a party in a network of this notary answers, one step after the other. A step is
/// `change@OWNER@ENDED@SIGNED@REFERENCES@ENTRY` (`-` for none of the two), `held`, `balance@TOKEN`, `reserve@TOKEN@AMOUNT`,
/// `missing@TRANSACTION`, `resolve@TRANSACTION`, `stored@PLACE` or `entries`.
pub fn ledger_of(alloc: Global, values: &[&str]) -> Result<String> {
    let [party, notary, columns @ ..] = values else {
        bail!("a ledger has a party and a notary")
    };
    let party = Party(party.parse::<u8>()?);
    let notary = Party(notary.parse::<u8>()?);
    let mut tables = LedgerTables::new(alloc, party);
    let answers = steps(alloc, &mut tables, notary, columns);
    let_go(tables);
    answers
}
