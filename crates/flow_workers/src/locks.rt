//! How the nodes come under their locks, and out again.

ghost use Rattle.std.specs.Prelude.{◌≡◌, ◌≤◌, ◌+◌, [], length, map, vec_capacity};
ghost use Rattle.std.specs.List.{AllByRecursion};
ghost use Rattle.wire_rows.specs.Rows.{AreRows};
ghost use Rattle.net_model.specs.Environment.{meaning};
ghost use Rattle.node_core.specs.Seen.{IsBy};
ghost use Rattle.flow_workers.specs.Desks.{Kept};
ghost use Rattle.flow_workers.specs.Gathers.{Gathers};

use super::board::{Board, Call};
use super::desk::{Desk, Left};
use contract_verify::Judge;
use flow_machine::FlowSet;
use node_core::Node;
use outside::Disk;
use std::alloc::Global;
use std::sync::{Mutex, Wait};
use wire_queue::InboxPass;
use wire_rows::join_row;

/// The nodes under their locks, each with a row of passes. The list for the locks is empty, and has room.
pub fn fill_desks<J: Call, D: Disk, F: FlowSet>(
    alloc: Global,
    nodes: Vec<Node<D, F>>,
    rows: Vec<Vec<InboxPass>>,
    room: Vec<Mutex<Desk<J, D, F>>>,
) -> Vec<Mutex<Desk<J, D, F>>>
    requires came { J.came ≡ nodes.items }
    requires by { AllByRecursion (λ n. IsBy F.reading n.journal J.now) nodes.items }
    requires rows { AreRows J.inboxes rows.items }
    requires count { length rows.items ≡ length nodes.items }
    requires empty { room.items ≡ [] }
    requires room { length nodes.items ≤ vec_capacity room }
    ensures { length result.items ≡ length nodes.items }
{
    let mut desks = room;
    let mut rows = rows;
    'nodes: for node in nodes {
        let row = rows.pop().unwrap();
        let place = desks.len();
        desks
            .push(Mutex::new(Desk::new(alloc, node, place, row)))
            .unwrap();
    }
    desks
}

/// What comes out from under the lock of a place. Under the lock of another place it would wait for good; no call does that, since
/// each node's lock stands at its place.
fn of_place<J: Call, D: Disk, F: FlowSet, R: Wait>(
    rt: &R,
    lock: Mutex<Desk<J, D, F>>,
    place: usize,
) -> Left<D, F>
    ensures of { map (λ p. p.of) result.passes.items ≡ J.inboxes }
    ensures kept { Kept (meaning F.machine F.reading J.judge) J.now J.came place result.node
        (map (λ p. p.seen) result.passes.items) result.commits }
{
    let left = lock.into_inner().into_parts();
    if left.place != place {
        for _ in rt.forever() {}
    }
    left
}

/// The nodes come out from under their locks, in the order of their places, and their passes are joined to these. Gives the nodes, and
/// how many records they committed. The list for the nodes is empty, and has room.
pub fn gather<J: Call, D: Disk, F: FlowSet, C: Judge, R: Wait>(
    rt: &R,
    board: &Board<J, C>,
    own: &mut Vec<InboxPass>,
    desks: Vec<Mutex<Desk<J, D, F>>>,
    back: Vec<Node<D, F>>,
) -> (Vec<Node<D, F>>, u64)
    requires of { map (λ p. p.of) own.old.items ≡ J.inboxes }
    requires few { length desks.items ≤ 16 }
    requires empty { back.items ≡ [] }
    requires room { length desks.items ≤ vec_capacity back }
    ensures of { map (λ p. p.of) own.new.items ≡ J.inboxes }
    ensures count { length result.0.items ≡ length desks.items }
    ensures by { AllByRecursion (λ n. IsBy F.reading n.journal J.now) result.0.items }
    ensures gathered { Gathers (meaning F.machine F.reading J.judge) J.now J.came
        (map (λ p. p.seen) own.old.items) result.0.items
        (map (λ p. p.seen) own.new.items) result.1 }
{
    let mut nodes = back;
    let mut commits = 0u64;
    'desks: for desk in desks {
        let Left {
            place: _,
            node,
            passes,
            commits: more,
        } = of_place(rt, desk, nodes.len());
        join_row(board.inboxes(), own, passes);
        commits += more;
        nodes.push(node).unwrap();
    }
    (nodes, commits)
}
