//! Runs a script of commands over a network of 1 to 16 nodes: `corda_net [--nodes N] [--notary N] [--dir PATH] < SCRIPT`.
//!
//! The script comes from standard input, and the answers go to standard output. With a folder the nodes' disks are files there, and else
//! they are in memory.
#![tactic(auto)]

ghost use Rattle.std.specs.Prelude.{◌≡◌, List, IfOk, OnErr, MatchResult, length, map, string_bytes, All};
ghost use Rattle.std.specs.IoError.{error_kind};
ghost use Rattle.std.specs.declared.io.ErrorKind.TheVariants.{OutOfMemory};
ghost use Rattle.net_model.specs.Environment.{meaning};
ghost use Rattle.node_disks.specs.Pair.{pair_seen};
ghost use Rattle.node_shell.specs.Runs.{IsRun};
ghost use Rattle.corda_net.specs.Book.{contracts_of, shipped_contracts, shipped_told, shipped};
ghost use Rattle.corda_net.specs.Disks.{IsEmpty, AreEmpty};
ghost use Rattle.corda_net.specs.Kept.{KeepsLedgers};

use app_flows::AppFlow;
use cash_contract::Cash;
use contract_laws::{
    outstanding_cash_was_issued, recorded_cash_is_conserved, recorded_cash_is_signed_for,
    recorded_debts_were_agreed, recorded_facts_were_signed_for, recorded_is_accepted_by_each,
    recorded_time_locks_were_due,
};
use contract_verify::{BoxedContract, ContractBook, Judge, LedgerContract};
use disk_host::{HostDisk, StdSink, StdSource};
use flow_machine::FlowSet;
use net_base::Spelt;
use node_disks::NodeDisks;
use node_shell::{Ended, run};
use outside::{Bay, NoGate, Sink, Source};
use shell_words::{Told, text_told, told_of};
use small_contracts::{Facts, Ious, Locks};
use std::alloc::{AllocError, Global};
use std::fs::File;
use std::io::{BufReader, Write};
use std::process::ExitCode;
use std::rt::Files;
use std::sync::Wait;
use std::thread::Threads;
use std::{env, io};

/// The status for words that the program refuses.
const BAD_WORDS: u8 = 2;

/// The status where the answer cannot be written.
const WRITE_FAULT: u8 = 5;

/// The status for want of memory.
const NO_MEMORY: u8 = 7;

/// The status where the program's own words can't be read: one isn't UTF-8, or there is no memory for them.
fn status_of(fault: &io::Error) -> u8
    ensures memory { error_kind fault.now ≡ OutOfMemory → result ≡ 7 }
    ensures words { (error_kind fault.now ≡ OutOfMemory → ⊥) → result ≡ 2 }
{
    match fault.kind() {
        io::ErrorKind::OutOfMemory => NO_MEMORY,
        _ => BAD_WORDS,
    }
}

/// An empty disk in memory.
fn empty_disk<'a, R: Files<File = File>>(alloc: Global, rt: &'a R) -> HostDisk<'a, R>
    ensures { IsEmpty result }
{
    HostDisk::new(alloc, rt)
}

/// The two disks of a node, empty and in memory.
fn empty_pair<'a, R: Files<File = File>>(alloc: Global, rt: &'a R) -> NodeDisks<HostDisk<'a, R>>
    ensures { AreEmpty result }
{
    NodeDisks {
        first: empty_disk(alloc, rt),
        second: empty_disk(alloc, rt),
    }
}

/// The disks of a run, all empty and in memory. A run opens those that it uses as files where the words name a folder.
fn empty_disks<'a, R: Files<File = File>>(
    alloc: Global,
    rt: &'a R,
) -> Result<Vec<NodeDisks<HostDisk<'a, R>>>, AllocError>
    ensures count { IfOk result (λ disks. length disks.items ≡ 16) }
    ensures empty { IfOk result (λ disks. All AreEmpty disks.items) }
{
    let mut disks = Vec::new(alloc);
    'disks: for _ in 0..16u8 {
        disks.push(empty_pair(alloc, rt))?;
    }
    Ok(disks)
}

/// Writes the text that the words ask for, and gives the status.
fn tell<W: Write>(alloc: Global, told: Told, out: &mut W) -> u8 {
    let Ok(text) = text_told(alloc, told) else {
        return NO_MEMORY;
    };
    match out.write_all(text.as_bytes()) {
        Ok(()) => 0,
        Err(_) => WRITE_FAULT,
    }
}

/// The law of the program's book: it judges as its contracts say. It does nothing when it runs.
fn law_shipped(book: &ContractBook)
    requires { contracts_of ⟦<BoxedContract as LedgerContract>⟧.number
        ⟦<BoxedContract as LedgerContract>⟧.says book.now.contracts.items ≡ shipped_contracts }
    ensures { ⟦<ContractBook as Judge>⟧.judges book.now ≡ shipped }
{
    let _ = book;
}

/// The laws of what nodes record that go by the program's flows and contracts. It does nothing when it runs.
fn law_of_ledgers()
    ensures { KeepsLedgers
        (meaning ⟦<AppFlow as FlowSet>⟧.machine ⟦<AppFlow as Spelt>⟧.reading shipped) shipped_told }
{
    recorded_is_accepted_by_each::<AppFlow>();
    recorded_cash_is_conserved::<AppFlow>();
    recorded_cash_is_signed_for::<AppFlow>();
    recorded_facts_were_signed_for::<AppFlow>();
    recorded_debts_were_agreed::<AppFlow>();
    recorded_time_locks_were_due::<AppFlow>();
    outstanding_cash_was_issued::<AppFlow>();
}

/// Runs a script with the flows and the contracts that the program ships, and gives what the run leaves. Its first clause is that of `run`. The
/// second speaks of no single run: it has the laws of `contract_laws` at these flows and contracts. Where there is no memory for the contracts
/// nothing was read or written.
fn run_shipped<R: Threads + Wait + Sync, S: Source, K: Sink, B: Bay + Send>(
    rt: &R,
    alloc: Global,
    words: &[String],
    source: &mut S,
    sink: &mut K,
    disks: Vec<NodeDisks<B>>,
) -> Result<Ended<B>, AllocError>
    requires { length disks.items ≡ 16 }
    ensures run { IfOk result (λ ended. IsRun
        (meaning ⟦<AppFlow as FlowSet>⟧.machine ⟦<AppFlow as Spelt>⟧.reading shipped)
        (pair_seen B.seen) (record {
          words = map (λ s. string_bytes s) words.now;
          disks = record { old = disks.items; new = ended.disks.items };
          left = record { old = S.left source.old; new = S.left source.new };
          written = record { old = K.written sink.old; new = K.written sink.new };
          source_faults = record { old = S.faults source.old; new = S.faults source.new };
          sink_faults = record { old = K.faults sink.old; new = K.faults sink.new };
          count = ended.bytes_read;
          status = ended.status;
        })) }
    ensures ledgers { KeepsLedgers
        (meaning ⟦<AppFlow as FlowSet>⟧.machine ⟦<AppFlow as Spelt>⟧.reading shipped) shipped_told }
    ensures memory { OnErr result ((source.new ≡ source.old) × (sink.new ≡ sink.old)) }
{
    law_of_ledgers();
    let mut contracts: Vec<BoxedContract> = Vec::new(alloc);
    contracts.push(Box::new(alloc, Cash)?)?;
    contracts.push(Box::new(alloc, Locks)?)?;
    contracts.push(Box::new(alloc, Facts)?)?;
    contracts.push(Box::new(alloc, Ious)?)?;
    let contracts = ContractBook::new(contracts);
    law_shipped(&contracts);
    let ended = run::<R, S, K, B, AppFlow, ContractBook, NoGate>(
        rt, alloc, words, source, sink, disks, &contracts, &NoGate,
    );
    Ok(ended)
}

/// The status of a run, or that for want of memory where there was none.
fn status_after<B: Bay>(ended: Result<Ended<B>, AllocError>) -> u8
    ensures { MatchResult ended (λ ended. result ≡ ended.status) (λ _. result ≡ 7) }
{
    match ended {
        Ok(left) => left.status,
        Err(_) => NO_MEMORY,
    }
}

fn main(rt: HostRuntime) -> ExitCode {
    let alloc = rt.alloc();
    let args = match env::args(&rt) {
        Ok(args) => args,
        Err(fault) => return ExitCode::from(status_of(&fault)),
    };
    let mut words = Vec::new(alloc);
    for word in args.skip(1) {
        if words.push(word).is_err() {
            return ExitCode::from(NO_MEMORY);
        }
    }
    if let Some(told) = told_of(&words) {
        return ExitCode::from(tell(alloc, told, &mut io::writer(&rt)));
    }
    let Ok(reader) = BufReader::new(alloc, rt.reader()) else {
        return ExitCode::from(NO_MEMORY);
    };
    let Ok(disks) = empty_disks(alloc, &rt) else {
        return ExitCode::from(NO_MEMORY);
    };
    let mut source = StdSource::new(reader);
    let mut sink = StdSink::new(io::writer(&rt));
    let ended = run_shipped(&rt, alloc, words.as_slice(), &mut source, &mut sink, disks);
    ExitCode::from(status_after(ended))
}
