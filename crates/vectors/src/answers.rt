use super::books::replies_of;
use super::columns::columns;
use super::digests::{digest_of, group_of, leaf_of, mark_of, root_of, tag_checks};
use super::frames::{frame_of, is_frame, said_by};
use super::ledgers::ledger_of;
use super::numbers::{consumer_of, pick_of, window_of};
use super::records::{record_of, stack_of, told_by};
use super::spellings::{front_of, whole_of};
use super::tears::{id_of, tear_off_of, transaction_of};
use super::verdicts::{clause_of, missing_of, needed_of, rule_of, verdict_of};
use anyhow::{Result, bail};
use std::alloc::Global;

/// Answers a question of digests and formats.
fn answer_format(alloc: Global, kind: &str, values: &[&str]) -> Result<String> {
    match kind {
        "digest" => digest_of(alloc, values),
        "root" => root_of(alloc, values),
        "group" => group_of(alloc, values),
        "leaf" => leaf_of(alloc, values),
        "mark" => mark_of(alloc, values),
        "tag" => tag_checks(alloc, values),
        "front" => front_of(alloc, values),
        "whole" => whole_of(alloc, values),
        "frame" => frame_of(alloc, values),
        "is-frame" => is_frame(alloc, values),
        "frame-says" => said_by(alloc, values),
        "record" => record_of(alloc, values),
        "told" => told_by(alloc, values),
        "stack" => stack_of(alloc, values),
        _ => bail!("no such question"),
    }
}

/// Answers a question.
///
/// # Errors
///
/// Where there is no such question, and for want of memory.
pub fn answer(alloc: Global, question: &str) -> Result<String> {
    let (kind, values) = columns(alloc, question)?;
    let values = values.as_slice();
    match kind {
        "id" => id_of(alloc, values),
        "transaction" => transaction_of(alloc, values),
        "tear-off" => tear_off_of(alloc, values),
        "consumer" => consumer_of(alloc, values),
        "window" => window_of(alloc, values),
        "pick" => pick_of(alloc, values),
        "rule" => rule_of(alloc, values),
        "needed" => needed_of(alloc, values),
        "missing" => missing_of(alloc, values),
        "clause" => clause_of(alloc, values),
        "verdict" => verdict_of(alloc, values),
        "ledger" => ledger_of(alloc, values),
        "book" => replies_of(alloc, values),
        _ => answer_format(alloc, kind, values),
    }
}
