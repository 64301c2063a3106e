//! The work as a whole.

ghost use Rattle.std.specs.Prelude.{◌≡◌, ◌≤◌, List, length, map, true, IfOk, IfErr};
ghost use Rattle.std.specs.List.{AllByRecursion};
ghost use Rattle.wire_queue.specs.Wire.{Frame};
ghost use Rattle.wire_rows.specs.Rows.{Spread};
ghost use Rattle.net_model.specs.Environment.{meaning};
ghost use Rattle.node_core.specs.Seen.{IsBy};
ghost use Rattle.network_core.specs.Parts.{IsNet, net_of};
ghost use Rattle.work_law.specs.Works.{Works};
ghost use Rattle.flow_workers.specs.Stages.{IsStage};
ghost use Rattle.flow_workers.specs.Ends.{WorkedOn};

use super::board::{Board, Call};
use super::locks::{fill_desks, gather};
use super::stage::{Stage, set_up};
use super::turns::{Plan, run_workers};
use contract_verify::Judge;
use flow_machine::FlowSet;
use net_base::{ByteList, Moment};
use node_core::Node;
use outside::{Disk, Gate};
use std::alloc::Global;
use std::marker::Brand;
use std::sync::Wait;
use std::thread::Threads;
use waiting_frames::Waiting;
use waiting_heads::put_each;
use wire_rows::drain_all;

/// What a call of `work` leaves.
#[derive(Drop)]
pub struct WorkDone<D: Disk, F: FlowSet> {
    /// The nodes, in the order of their places. No job is out.
    pub nodes: Vec<Node<D, F>>,
    /// The frames that wait at each node.
    pub waiting: Vec<Waiting>,
    /// How many records the nodes committed.
    pub commits: u64,
    /// Whether memory ran out before any turn was made.
    pub short: bool,
}

/// What came out once all workers had ended: the nodes, the frames that were left in each inbox, and how many records were committed.
#[derive(Drop)]
struct Finish<D: Disk, F: FlowSet> {
    nodes: Vec<Node<D, F>>,
    lists: Vec<Vec<ByteList>>,
    commits: u64,
}

/// The work, once the inboxes are there. For want of memory the nodes come back as they were.
fn work_as<
    J: Call + Send + Sync,
    D: Disk + Send,
    F: FlowSet + Send + Sync,
    C: Judge + Sync,
    R: Threads + Wait + Sync,
    G: Gate + Sync,
>(
    rt: &R,
    alloc: Global,
    stage: Stage,
    nodes: Vec<Node<D, F>>,
    now: Moment,
    contracts: &C,
    plan: Plan,
    gate: &G,
) -> Result<Finish<D, F>, Vec<Node<D, F>>>
    requires now { J.now ≡ now.0 }
    requires came { J.came ≡ nodes.items }
    requires inboxes { J.inboxes ≡ stage.inboxes.items }
    requires judge { J.judge ≡ C.judges contracts.now }
    requires by { AllByRecursion (λ n. IsBy F.reading n.journal now.0) nodes.items }
    requires few { length nodes.items ≤ 16 }
    requires stage { IsStage (length nodes.items) stage }
    ensures works { IfOk result (λ r. (waited : List (List Frame))
        → Spread waited (length nodes.items) (map (λ p. p.seen) stage.own.items)
        → length waited ≡ length nodes.items
        → Works (meaning F.machine F.reading (C.judges contracts.now)) now.0 nodes.items waited
        r.nodes.items (map (λ v. v.items) r.lists.items) r.commits) }
    ensures by { IfOk result (λ r. AllByRecursion (λ n. IsBy F.reading n.journal now.0)
        r.nodes.items) }
    ensures few { IfOk result (λ r. AllByRecursion (λ v. length v.items ≤ 1024) r.lists.items) }
    ensures same { IfErr result (λ back. back.items ≡ nodes.items) }
{
    let Ok(room) = Vec::with_capacity(alloc, nodes.len()) else {
        return Err(nodes);
    };
    let Ok(back) = Vec::with_capacity(alloc, nodes.len()) else {
        return Err(nodes);
    };
    let Stage {
        inboxes,
        mut own,
        rows,
        rooms,
        lists,
    } = stage;
    let board = Board::<J, C>::new(inboxes, now, contracts);
    let desks = fill_desks::<J, D, F>(alloc, nodes, rows, room);
    run_workers(rt, alloc, &board, &desks, plan, gate);
    let (nodes, commits) = gather(rt, &board, &mut own, desks, back);
    let lists = drain_all(rt, board.inboxes(), &mut own, rooms, lists);
    Ok(Finish {
        nodes,
        lists,
        commits,
    })
}

/// Nothing was done, for want of memory.
fn unworked<D: Disk, F: FlowSet>(nodes: Vec<Node<D, F>>, waiting: Vec<Waiting>) -> WorkDone<D, F>
    ensures nodes { result.nodes.items ≡ nodes.items }
    ensures waiting { result.waiting.items ≡ waiting.items }
    ensures commits { result.commits ≡ 0 }
    ensures short { result.short ≡ true }
{
    WorkDone {
        nodes,
        waiting,
        commits: 0,
        short: true,
    }
}

/// Workers, as many as the plan says, make turns at these nodes, and hand frames over by ruled inboxes. Each call of a node is made under
/// its lock; jobs are run outside. The inboxes begin with the first 1,024 frames that wait at each node, and what is left in them stands
/// before the others afterwards, in order, each frame once.
///
/// The condition is that these are the parts of a network (`IsNet`), as `Net::into_parts` gives them: there are 16 nodes at most, each has a
/// list of frames, and no cause of theirs is later than `now`.
///
/// Each worker makes its turns in a thread of its own; where none can be made for it, the call makes them itself. All threads have ended
/// when the call returns. Where memory runs out before any turn was made, nothing has changed (`short`). Later, a call of a node for which
/// there is no memory changes nothing; a frame that was pulled for it is lost, as on a line, and a job that was run for it is run again
/// later. The call may wait for locks, for steps of other threads at an inbox, and for its threads to end.
pub fn work<
    D: Disk + Send,
    F: FlowSet + Send + Sync,
    C: Judge + Sync,
    R: Threads + Wait + Sync,
    G: Gate + Sync,
>(
    rt: &R,
    alloc: Global,
    nodes: Vec<Node<D, F>>,
    waiting: Vec<Waiting>,
    now: Moment,
    contracts: &C,
    plan: Plan,
    gate: &G,
) -> WorkDone<D, F>
    requires { IsNet F.reading (net_of nodes.items waiting.items now.0) }
    ensures { WorkedOn (meaning F.machine F.reading (C.judges contracts.now))
        (net_of nodes.items waiting.items now.0)
        (net_of result.nodes.items result.waiting.items now.0)
        result.commits result.short }
{
    let mut waiting = waiting;
    let Ok(stage) = set_up(rt, alloc, &mut waiting) else {
        return unworked(nodes, waiting);
    };
    match work_as::<Brand, D, F, C, R, G>(rt, alloc, stage, nodes, now, contracts, plan, gate) {
        Err(nodes) => unworked(nodes, waiting),
        Ok(
            Finish {
                nodes,
                lists,
                commits,
            },
        ) => {
            put_each(&mut waiting, lists);
            WorkDone {
                nodes,
                waiting,
                commits,
                short: false,
            }
        }
    }
}
