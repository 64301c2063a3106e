//! Shows that workers work side by side: of two workers at one node, one is held up before it judges a transaction, outside the node's
//! lock, until two commits there were told. Prints `1 passed, 0 failed`, or before it what failed.
#![tactic(auto)]

ghost use Rattle.std.specs.Prelude.{◌≡◌, length};

mod hold;

use anyhow::Result;
use app_flows::AppFlow;
use cash_contract::Cash;
use contract_verify::{BoxedContract, ContractBook, Judge};
use disk_mem::MemDisk;
use flow_machine::FlowSet;
use hold::Hold;
use node_disks::NodeDisks;
use node_shell::run;
use outside::{Bay, Gate, MemSink, MemSource, Sink, Source};
use std::alloc::{AllocError, Global};
use std::sync::Wait;
use std::thread::Threads;

/// The flow that waits for a job, the one that goes on meanwhile, and the workers.
const SCRIPT: &str = "start 0 issue USD 5\nstart 0 count 10000\nworkers 2 10000 1\n";

/// What it is answered.
const ANSWERS: &str = "flow 0\nflow 1\nworked\n";

/// How often the script is played, at most: a worker that gets no processor comes when the other one has made all its turns, and then
/// nothing is committed while it is held up.
const TRIES: u8 = 3;

/// How many bytes of answers a run may write.
const ROOM: usize = 4096;

/// The program's words: a network of one node.
fn words(alloc: Global) -> Result<Vec<String>, AllocError> {
    "--nodes 1"
        .split_whitespace()
        .map(|word| String::from_str(alloc, word))
        .try_collect(alloc)
}

/// Empty disks of a run.
fn disks(alloc: Global) -> Result<Vec<NodeDisks<MemDisk>>, AllocError> {
    let mut disks = Vec::new(alloc);
    for _ in 0..16u8 {
        disks.push(NodeDisks {
            first: MemDisk::new(alloc),
            second: MemDisk::new(alloc),
        })?;
    }
    Ok(disks)
}

/// Runs the script that the source gives with this gate, and gives the status.
fn run_with<
    F: FlowSet + Send + Sync,
    R: Threads + Wait + Sync,
    S: Source,
    K: Sink,
    B: Bay + Send,
    J: Judge + Sync,
    G: Gate + Sync,
>(
    rt: &R,
    alloc: Global,
    words: &[String],
    source: &mut S,
    sink: &mut K,
    disks: Vec<NodeDisks<B>>,
    contracts: &J,
    gate: &G,
) -> u8
    requires { length disks.items ≡ 16 }
{
    let ended = run::<R, S, K, B, F, J, G>(rt, alloc, words, source, sink, disks, contracts, gate);
    ended.status
}

/// Plays the script with this gate, and says whether it is answered as it should be.
fn is_played<F: FlowSet + Send + Sync, R: Threads + Wait + Sync>(
    rt: &R,
    alloc: Global,
    contracts: &ContractBook,
    gate: &Hold,
) -> Result<bool> {
    let words = words(alloc)?;
    let disks = disks(alloc)?;
    let script = SCRIPT.as_bytes().to_vec(alloc)?;
    let mut source = MemSource::new(script, Vec::new(alloc));
    let mut answers = MemSink::new(alloc, ROOM, Vec::new(alloc))?;
    if disks.len() != 16 {
        return Ok(false);
    }
    let words = words.as_slice();
    let status = run_with::<F, _, _, _, _, _, _>(
        rt,
        alloc,
        words,
        &mut source,
        &mut answers,
        disks,
        contracts,
        gate,
    );
    Ok(status == 0 && answers.bytes() == ANSWERS.as_bytes())
}

/// What failed, if something did.
fn failure(is_played: bool, gate: &Hold) -> Option<&'static str> {
    if !is_played {
        Some("the script ends or is answered otherwise")
    } else if !gate.came() {
        Some("no transaction was to be judged")
    } else if !gate.saw() {
        Some("nothing was committed while a transaction was about to be judged")
    } else {
        None
    }
}

/// Plays the script until a worker that is held up sees commits, and says what failed the last time, if something did. A script that ends
/// or is answered otherwise is not played again.
fn last_failure<F: FlowSet + Send + Sync, R: Threads + Wait + Sync>(
    rt: &R,
    alloc: Global,
    contracts: &ContractBook,
) -> Result<Option<&'static str>> {
    let mut what = None;
    for _ in 0..TRIES {
        let gate = Hold::new();
        let is_played = is_played::<F, R>(rt, alloc, contracts, &gate)?;
        what = failure(is_played, &gate);
        if !is_played || gate.saw() {
            break;
        }
    }
    Ok(what)
}

fn main(rt: HostRuntime) -> Result<()> {
    let alloc = rt.alloc();
    let mut contracts: Vec<BoxedContract> = Vec::new(alloc);
    contracts.push(Box::new(alloc, Cash)?)?;
    match last_failure::<AppFlow, _>(&rt, alloc, &ContractBook::new(contracts))? {
        None => println!(rt; "1 passed, 0 failed")?,
        Some(what) => println!(rt; "{what}\n0 passed, 1 failed")?,
    }
    Ok(())
}
