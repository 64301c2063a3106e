//! Asks the public calls of the formats the questions that stand on standard input, and compares what they answer with the answers
//! that stand beside them.
//!
//! A line is `KIND VALUE.. = ANSWER`, or with ` != ` where the answer is wanted to be another one. A blank line and one that begins
//! with `#` ask nothing. The README says which kinds there are. Each answer that is not the one that stands there is printed, and at
//! the end how many lines passed and how many failed.
#![tactic(auto)]

mod answers;
mod books;
mod columns;
mod digests;
mod frames;
mod ledgers;
mod numbers;
mod records;
mod rows;
mod spellings;
mod tears;
mod verdicts;

use answers::answer;
use anyhow::Result;
use rows::Row;
use std::alloc::{AllocError, Global};
use std::io;

/// What is answered to a question, or why it can't be.
fn answered(alloc: Global, question: &str) -> Result<String, AllocError> {
    match answer(alloc, question) {
        Ok(answer) => Ok(answer),
        Err(fault) => fault.to_string(alloc),
    }
}

/// Asks what a line asks, prints the answer where it is not the one that stands there, and tells whether that is as it is wanted.
fn passes(rt: &(impl Print + AllocGlobal), line: &str) -> Result<bool> {
    let Some(row) = Row::parse(line) else {
        println!(rt; "{line}: no answer stands there")?;
        return Ok(false);
    };
    let answer = answered(rt.alloc(), row.question)?;
    let same = row.is_answered_by(answer.as_str());
    if !same {
        println!(rt; "{line}")?;
        println!(rt; "    but {answer}")?;
    }
    Ok(row.passes(same))
}

/// Whether a line asks something.
fn asks(line: &str) -> bool {
    !line.is_empty() && !line.starts_with('#')
}

fn main(rt: HostRuntime) -> Result<()> {
    let text = io::read_to_string(rt.alloc(), rt.reader())?;
    let mut passed = 0u64;
    let mut failed = 0u64;
    for line in text.lines().filter(|line| asks(line)) {
        if passes(&rt, line)? {
            passed = passed.saturating_add(1);
        } else {
            failed = failed.saturating_add(1);
        }
    }
    println!(rt; "{passed} passed, {failed} failed")?;
    Ok(())
}
