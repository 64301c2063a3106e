//! Plays the cases that stand on standard input over networks in memory, and tells where status or answers are not the ones that stand
//! beside them.
//!
//! A case is a row of sections, each begun by a line `@WORD VALUE..`; the README says which there are. What differs is printed, and at
//! the end how many checks passed and how many failed.
#![tactic(auto)]

mod checks;
mod laws;
mod sections;
mod stage;
mod steps;

use anyhow::Result;
use cash_contract::Cash;
use checks::Check;
use contract_verify::{BoxedContract, ContractBook};
use sections::Section;
use small_contracts::{Facts, Ious, Locks};
use stage::Stage;
use std::alloc::Global;
use std::io;
use std::sync::Wait;
use std::thread::Threads;

/// Tells what a check found, and whether it passed.
fn passes(rt: &impl Print, name: &str, check: &Check) -> Result<bool> {
    if let Some(difference) = check.difference.as_ref() {
        println!(rt; "{name}: {difference}")?;
    }
    Ok(check.passes())
}

/// Makes all checks, with these contracts, and tells what differs and how many passed and failed.
fn check_all<R: Print + Threads + Wait + Sync>(
    rt: &R,
    alloc: Global,
    text: &str,
    contracts: &ContractBook,
) -> Result<()> {
    let mut stage = Stage::new(alloc);
    let mut passed = 0u64;
    let mut failed = 0u64;
    if steps::are_answered_in_order(alloc, contracts)? {
        passed = 1;
    } else {
        println!(rt; "a row of steps has other outcomes")?;
        failed = 1;
    }
    for part in text.split_inclusive("\n@") {
        let section = Section::parse(part);
        match stage.take(rt, alloc, &section, contracts) {
            Ok(None) => {}
            Ok(Some(check)) if passes(rt, stage.name(), &check)? => {
                passed = passed.saturating_add(1);
            }
            Ok(Some(_)) => failed = failed.saturating_add(1),
            Err(fault) => {
                let name = stage.name();
                println!(rt; "{name}: {fault}")?;
                failed = failed.saturating_add(1);
            }
        }
    }
    println!(rt; "{passed} passed, {failed} failed")?;
    Ok(())
}

fn main(rt: HostRuntime) -> Result<()> {
    laws::all();
    let alloc = rt.alloc();
    let text = io::read_to_string(alloc, rt.reader())?;
    let mut contracts: Vec<BoxedContract> = Vec::new(alloc);
    contracts.push(Box::new(alloc, Cash)?)?;
    contracts.push(Box::new(alloc, Locks)?)?;
    contracts.push(Box::new(alloc, Facts)?)?;
    contracts.push(Box::new(alloc, Ious)?)?;
    check_all(&rt, alloc, text.as_str(), &ContractBook::new(contracts))
}
