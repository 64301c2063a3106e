//! A notary's book.

ghost use Rattle.std.specs.Prelude.{◌≡◌, IfOk, string_bytes};
ghost use Rattle.shell_report.specs.LedgerText.{answer_text, kind_text, conflict_line, conflict_lines, conflicts_of, entry_line, entry_text, entry_lines, book_text};

use crate::names::hash_text;
use ledger_types::{ConflictItem, Entry, NotaryAnswer, RefKind};
use notary_book::Book;
use std::alloc::{AllocError, Global};
use std::fmt::Write;

fn answer_text(answer: &NotaryAnswer) -> &'static str
    ensures { result.now ≡ answer_text answer.now }
{
    match answer {
        NotaryAnswer::Signed { .. } => "signed",
        NotaryAnswer::WrongNotary => "41",
        NotaryAnswer::BadTear => "42",
        NotaryAnswer::BadRequestTag => "43",
        NotaryAnswer::Conflict { .. } => "44",
        NotaryAnswer::OutsideWindow { .. } => "45",
    }
}

fn kind_text(kind: &RefKind) -> &'static str
    ensures { result.now ≡ kind_text kind.now }
{
    match kind {
        RefKind::Input => "input",
        RefKind::Reference => "reference",
    }
}

/// The line of a state that another transaction has consumed, without its end.
fn conflict_line(alloc: Global, item: &ConflictItem) -> Result<String, AllocError>
    ensures { IfOk result (λ text. string_bytes text ≡ conflict_line item.now) }
{
    let id = hash_text(alloc, &item.reference.id)?;
    let hash = hash_text(alloc, &item.consumer_hash)?;
    let kind = kind_text(&item.kind);
    let line = format!(in alloc; "conflict {id}:{} {kind} {hash}", item.reference.index)?;
    Ok(line)
}

/// A line for each state over which a request conflicts.
fn conflict_lines(alloc: Global, list: &[ConflictItem]) -> Result<String, AllocError>
    ensures { IfOk result (λ text. string_bytes text ≡ conflict_lines list.now) }
{
    let mut out = String::new(alloc);
    for item in list {
        let line = conflict_line(alloc, item)?;
        writeln!(out, "{line}")?;
    }
    Ok(out)
}

/// The lines behind that of an entry.
fn conflicts_text(alloc: Global, answer: &NotaryAnswer) -> Result<String, AllocError>
    ensures { IfOk result (λ text. string_bytes text ≡ conflict_lines (conflicts_of answer.now)) }
{
    match answer {
        NotaryAnswer::Conflict { list } => conflict_lines(alloc, list.as_slice()),
        _ => Ok(String::new(alloc)),
    }
}

/// The line of an entry, without its end.
fn entry_line(alloc: Global, place: usize, entry: &Entry) -> Result<String, AllocError>
    ensures { IfOk result (λ text. string_bytes text ≡ entry_line place entry.now) }
{
    let request = &entry.request;
    let id = hash_text(alloc, &request.torn.id)?;
    let answer = answer_text(&entry.answer);
    let line = format!(in alloc;
        "entry {place} {} {} {id} {answer}",
        request.party.0, request.flow
    )?;
    Ok(line)
}

/// The lines of an entry.
fn entry_text(alloc: Global, place: usize, entry: &Entry) -> Result<String, AllocError>
    ensures { IfOk result (λ text. string_bytes text ≡ entry_text place entry.now) }
{
    let line = entry_line(alloc, place, entry)?;
    let conflicts = conflicts_text(alloc, &entry.answer)?;
    let text = format!(in alloc; "{line}\n{conflicts}")?;
    Ok(text)
}

/// The lines of all entries.
fn entry_lines(alloc: Global, entries: &[Entry]) -> Result<String, AllocError>
    ensures { IfOk result (λ text. string_bytes text ≡ entry_lines 0 entries.now) }
{
    let mut out = String::new(alloc);
    let mut place = 0;
    for entry in entries {
        let text = entry_text(alloc, place, entry)?;
        out.push_str(text.as_str())?;
        place += 1;
    }
    Ok(out)
}

/// How many entries a notary's book has, and the lines of each.
///
/// # Errors
///
/// `AllocError` for want of memory.
pub fn book_text(alloc: Global, book: &Book) -> Result<String, AllocError>
    ensures { IfOk result (λ text. string_bytes text ≡ book_text book.now.entries) }
{
    let entries = book.entries();
    let lines = entry_lines(alloc, entries)?;
    let text = format!(in alloc; "entries {}\n{lines}", entries.len())?;
    Ok(text)
}
