//! Has nodes perform acts, one case after the other, and compares each answer with the one that stands beside it.
//!
//! A line is `COMMAND = ANSWER`, or with ` != ` where the answer is wanted to be another one. A blank line and one that begins with `#` ask
//! nothing, and `name` names bytes. The README says which commands there are. Each answer that is not the one that stands there is
//! printed, and at the end how many lines passed and how many failed.
#![tactic(auto)]

mod answers;
mod bench;
mod held;
mod lines;
mod names;
mod script;
mod telling;

use anyhow::Result;
use bench::{Bench, let_go};
use cash_contract::Cash;
use contract_verify::{BoxedContract, ContractBook, Judge};
use lines::Line;
use names::Names;
use std::alloc::{AllocError, Global};
use std::io;

/// What a line is answered, or why it can't be.
fn answered<J: Judge>(
    alloc: Global,
    bench: &mut Bench,
    command: &str,
    contracts: &J,
) -> Result<String, AllocError> {
    match bench.command(alloc, command, contracts) {
        Ok(answer) => Ok(answer),
        Err(fault) => fault.to_string(alloc),
    }
}

/// Does what a line says, prints the answer where it is not the one that stands there, and tells whether that is as it is wanted.
fn passes<J: Judge>(
    rt: &(impl Print + AllocGlobal),
    bench: &mut Bench,
    names: &Names,
    text: &str,
    contracts: &J,
) -> Result<bool> {
    let whole = names.put_in(rt.alloc(), text)?;
    let Some(line) = Line::parse(whole.as_str()) else {
        println!(rt; "{text}: no answer stands there")?;
        return Ok(false);
    };
    let answer = answered(rt.alloc(), bench, line.command, contracts)?;
    let same = line.is_answered_by(answer.as_str());
    if !same {
        println!(rt; "{text}")?;
        println!(rt; "    but {answer}")?;
    }
    Ok(line.passes(same))
}

/// Whether a line asks something.
fn asks(line: &str) -> bool {
    !line.is_empty() && !line.starts_with('#')
}

/// Goes through all lines, and tells how many passed and how many failed.
fn go_through<J: Judge>(
    rt: &(impl Print + AllocGlobal),
    bench: &mut Bench,
    text: &str,
    contracts: &J,
) -> Result<()> {
    let mut names = Names::new(rt.alloc());
    let mut passed = 0u64;
    let mut failed = 0u64;
    for line in text.lines().filter(|line| asks(line)) {
        if let Some(naming) = line.strip_prefix("name ") {
            names.add(rt.alloc(), naming)?;
        } else if passes(rt, bench, &names, line, contracts)? {
            passed = passed.saturating_add(1);
        } else {
            failed = failed.saturating_add(1);
        }
    }
    println!(rt; "{passed} passed, {failed} failed")?;
    Ok(())
}

/// Has a bench do what the lines say.
fn play<J: Judge>(rt: &(impl Print + AllocGlobal), text: &str, contracts: &J) -> Result<()> {
    let mut bench = Bench::new(rt.alloc());
    let answer = go_through(rt, &mut bench, text, contracts);
    let_go(bench);
    answer
}

fn main(rt: HostRuntime) -> Result<()> {
    let text = io::read_to_string(rt.alloc(), rt.reader())?;
    let mut contracts: Vec<BoxedContract> = Vec::new(rt.alloc());
    contracts.push(Box::new(rt.alloc(), Cash)?)?;
    play(&rt, text.as_str(), &ContractBook::new(contracts))
}
