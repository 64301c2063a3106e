//! What is told of a node's flows and of its ledger.

use super::script::Script;
use checkpoints::{FlowView, Flows};
use ledger_tables::LedgerTables;
use ledger_types::{ConflictItem, NotaryAnswer, RefKind, Value};
use net_base::Tag;
use std::alloc::{AllocError, Global};

/// The bytes of a tag, in hexadecimal.
fn tag_text(alloc: Global, tag: &Tag) -> Result<String, AllocError> {
    let mut text = hex::encode(alloc, &[tag.by.0])?;
    text.push_str(hex::encode(alloc, &tag.of.0)?.as_str())?;
    text.push_str(hex::encode(alloc, &tag.mark.0)?.as_str())?;
    Ok(text)
}

/// A word, and the tags behind it.
fn tags_text(alloc: Global, word: &str, tags: &[Tag]) -> Result<String, AllocError> {
    let mut text = String::from_str(alloc, word)?;
    for tag in tags {
        text.push(' ')?;
        text.push_str(tag_text(alloc, tag)?.as_str())?;
    }
    Ok(text)
}

/// States that other transactions have consumed: each with its place, the hash of the consumer, and 0 for an input or 1 for a reference.
fn conflict_text(alloc: Global, list: &[ConflictItem]) -> Result<String, AllocError> {
    let mut text = String::from_str(alloc, "conflict")?;
    for item in list {
        let id = hex::encode(alloc, &item.reference.id.0)?;
        let consumer = hex::encode(alloc, &item.consumer_hash.0)?;
        let (index, kind) = (
            item.reference.index,
            u8::from(item.kind == RefKind::Reference),
        );
        text.push_str(format!(in alloc; " {id} {index} {consumer} {kind}")?.as_str())?;
    }
    Ok(text)
}

/// What a notary answered.
fn answer_text(alloc: Global, answer: &NotaryAnswer) -> Result<String, AllocError> {
    match answer {
        NotaryAnswer::Signed { tag } => tags_text(alloc, "signed", &[*tag]),
        NotaryAnswer::Conflict { list } => conflict_text(alloc, list.as_slice()),
        NotaryAnswer::OutsideWindow { now } => {
            let now = now.0;
            format!(in alloc; "outside {now}")
        }
        _ => {
            let code = answer.code();
            format!(in alloc; "refused {code}")
        }
    }
}

/// A value: of a transaction its salt and its tags.
fn value_text(alloc: Global, value: &Value) -> Result<String, AllocError> {
    match value {
        Value::Unit => String::from_str(alloc, "unit"),
        Value::Number(number) => format!(in alloc; "number {number}"),
        Value::Id(id) => hex::encode(alloc, &id.0),
        Value::Tx(stx) => {
            let salt = hex::encode(alloc, &stx.get().tx.salt.0)?;
            tags_text(alloc, salt.as_str(), stx.get().tags.as_slice())
        }
        Value::Request(_) => String::from_str(alloc, "request"),
        Value::Answer(answer) => answer_text(alloc, answer.get()),
        Value::Tags(tags) => tags_text(alloc, "tags", tags.as_slice()),
        Value::Bytes(bytes) => hex::encode(alloc, bytes.as_slice()),
    }
}

/// What a flow waits on, or what became of it.
pub fn flow_text(alloc: Global, flows: &Flows<Script>, number: u32) -> Result<String, AllocError> {
    match flows.get(number) {
        None => String::from_str(alloc, "none"),
        Some(FlowView::Live(at)) => {
            let (step, depth) = (at.step, at.stack.depth());
            format!(in alloc; "live {step} {depth}")
        }
        Some(FlowView::Ended { step, value, .. }) => {
            let value = value_text(alloc, value)?;
            format!(in alloc; "ended {step} {value}")
        }
        Some(FlowView::Failed { step, code, .. }) => format!(in alloc; "failed {step} {code}"),
    }
}

/// How many transactions are stored and how many answers are booked, and then the place of each state of the vault and its soft lock.
pub fn ledger_text(alloc: Global, ledger: &LedgerTables) -> Result<String, AllocError> {
    let (stored, booked) = (ledger.store().count(), ledger.book().entries().len());
    let mut text = format!(in alloc; "stored {stored} booked {booked}")?;
    let held = ledger.vault().unconsumed(alloc)?;
    for state in held.as_slice() {
        let place = state.reference.index;
        match state.locked {
            Some(flow) => text.push_str(format!(in alloc; " {place}:{flow}")?.as_str())?,
            None => text.push_str(format!(in alloc; " {place}")?.as_str())?,
        }
    }
    Ok(text)
}
