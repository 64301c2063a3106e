//! Workers, and their turns.

ghost use Rattle.flow_workers.specs.Steps.{HandsOut};

use super::board::{Board, Call};
use super::counts::Turn;
use super::desk::Desk;
use contract_verify::Judge;
use flow_machine::FlowSet;
use outside::{Disk, Gate};
use rand_core::SeedableRng;
use rand_core::utils::NextWord;
use rand_pcg::Lcg64Xsh32;
use std::alloc::Global;
use std::sync::{Mutex, Wait};
use std::thread;
use std::thread::Threads;

/// How many workers there are, how many turns each of them makes, and from which seed they draw what they do: the worker of number `j`,
/// from 0, by the words of PCG32 (`Lcg64Xsh32`) from `seed + j`, the sum wrapping. Any numbers; with 0 workers or 0 turns no turn is made.
/// The shell hands 1 to 16 workers and 1 to 10,000 turns.
#[derive(Clone, Copy, Debug)]
pub struct Plan {
    pub workers: u8,
    pub turns: u32,
    pub seed: u64,
}

/// Lets a flow of a node go on, unless another worker is at the node.
fn turn_if_free<J: Call, D: Disk, F: FlowSet, C: Judge>(
    alloc: Global,
    board: &Board<J, C>,
    desk: &Mutex<Desk<J, D, F>>,
) -> Turn
    ensures { HandsOut result }
{
    match desk.try_lock() {
        Some(mut desk) => desk.turn(alloc, board),
        None => Turn::Still,
    }
}

/// Lets a flow of a node go on. A job for which one waits is run outside the lock, and then settled: for that alone the worker waits until
/// the node is free.
fn go_on<J: Call, D: Disk, F: FlowSet, C: Judge, R: Wait, G: Gate>(
    rt: &R,
    alloc: Global,
    board: &Board<J, C>,
    desk: &Mutex<Desk<J, D, F>>,
    node: u8,
    gate: &G,
) -> bool {
    let turn = turn_if_free(alloc, board, desk);
    match turn {
        Turn::Still => false,
        Turn::Committed => true,
        Turn::Waits { job } => {
            let job = job.into_inner();
            gate.before_verify(node, job.flow);
            let done = job.run(board.contracts());
            desk.lock(rt).settle(alloc, board, done)
        }
    }
}

/// One turn at a node, as the word says: of 4 two let a flow go on, one posts frames, and one pulls a frame. Where another worker is at the
/// node, nothing is done. Says whether a record was committed.
fn turn_at<J: Call, D: Disk, F: FlowSet, C: Judge, R: Wait, G: Gate>(
    rt: &R,
    alloc: Global,
    board: &Board<J, C>,
    desk: &Mutex<Desk<J, D, F>>,
    node: u8,
    word: u32,
    gate: &G,
) -> bool {
    match (word >> 8) % 4 {
        0 | 1 => go_on(rt, alloc, board, desk, node, gate),
        2 => {
            if let Some(mut desk) = desk.try_lock() {
                desk.send(rt, alloc, board);
            }
            false
        }
        _ => match desk.try_lock() {
            Some(mut desk) => desk.receive(rt, alloc, board, (word >> 16) % 8),
            None => false,
        },
    }
}

/// One worker's turns, each at the node that its word says. There are 16 nodes at most.
fn run_turns<J: Call, D: Disk, F: FlowSet, C: Judge, R: Wait, G: Gate>(
    rt: &R,
    alloc: Global,
    board: &Board<J, C>,
    desks: &[Mutex<Desk<J, D, F>>],
    turns: u32,
    seed: u64,
    gate: &G,
) {
    if desks.is_empty() {
        return;
    }
    let mut words = Lcg64Xsh32::seed_from_u64(seed);
    for _ in 0..turns {
        let word = words.next_word();
        let at = word as usize % desks.len();
        let Ok(node) = u8::try_from(at) else {
            return;
        };
        if turn_at(rt, alloc, board, &desks[at], node, word, gate) {
            gate.after_commit(node);
        }
    }
}

/// The turns of all workers, each in a thread of its own; where none can be made for a worker, its turns are made here. All have ended
/// when this returns.
pub fn run_workers<
    J: Call + Send + Sync,
    D: Disk + Send,
    F: FlowSet + Send + Sync,
    C: Judge + Sync,
    R: Threads + Wait + Sync,
    G: Gate + Sync,
>(
    rt: &R,
    alloc: Global,
    board: &Board<J, C>,
    desks: &[Mutex<Desk<J, D, F>>],
    plan: Plan,
    gate: &G,
) {
    thread::scope(thread::scope_env(), rt, |scope| {
        for worker in 0..plan.workers {
            let seed = plan.seed.wrapping_add(u64::from(worker));
            if scope
                .spawn(move || run_turns(rt, alloc, board, desks, plan.turns, seed, gate))
                .is_err()
            {
                run_turns(rt, alloc, board, desks, plan.turns, seed, gate);
            }
        }
    });
}
