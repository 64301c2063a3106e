//! What a call needs besides the nodes.

ghost use Rattle.std.specs.Prelude.{◌≡◌, ◌≤◌, ◌-◌, [], length, map, take, IfOk, OnOk};
ghost use Rattle.std.specs.List.{AllByRecursion};
ghost use Rattle.wire_queue.specs.Wire.{seen};
ghost use Rattle.wire_rows.specs.Ends.{IsRoom};
ghost use Rattle.wire_rows.specs.Rows.{Spread};
ghost use Rattle.waiting_heads.specs.Heads.{HasRoom};
ghost use Rattle.flow_workers.specs.Stages.{IsStage};

use net_base::ByteList;
use std::alloc::{AllocError, Global};
use std::sync::Wait;
use waiting_frames::Waiting;
use waiting_heads::{heads_of, make_rooms};
use wire_queue::{Inbox, InboxPass};
use wire_rows::{make_all, rows_of};

/// How many frames an inbox holds at most.
const MOST: usize = 1024;

/// What a call needs besides the nodes: an inbox for each of them, the passes of the inboxes, and room for the frames that will be left
/// in them.
#[derive(Drop)]
pub struct Stage {
    pub inboxes: Vec<Inbox>,
    /// The call's own passes, one of each inbox.
    pub own: Vec<InboxPass>,
    /// For each node a row of passes, one of each inbox.
    pub rows: Vec<Vec<InboxPass>>,
    /// For each inbox a list without items, which has room for all that an inbox may hold.
    pub rooms: Vec<Vec<ByteList>>,
    /// Without items, and with room for such lists.
    pub lists: Vec<Vec<ByteList>>,
}

/// This many lists without items, each with room for all that an inbox may hold. The only error is want of memory.
fn rooms_for(alloc: Global, count: usize) -> Result<Vec<Vec<ByteList>>, AllocError>
    ensures count { IfOk result (λ r. length r.items ≡ count) }
    ensures rooms { IfOk result (λ r. AllByRecursion IsRoom r.items) }
{
    let mut rooms = Vec::with_capacity(alloc, count)?;
    'rooms: for _ in 0..count {
        rooms.push(Vec::with_capacity(alloc, MOST)?)?;
    }
    Ok(rooms)
}

/// Inboxes of the first 1,024 frames that wait at each node, in order and no others, which still wait there; a row of passes for each
/// node; and room for what will be left. The only error is want of memory.
pub fn set_up<R: Wait>(
    rt: &R,
    alloc: Global,
    waiting: &mut Vec<Waiting>,
) -> Result<Stage, AllocError>
    requires few { length waiting.old.items ≤ 16 }
    ensures frames { map (λ w. w.frames) waiting.new.items
        ≡ map (λ w. w.frames) waiting.old.items }
    ensures room { OnOk result (AllByRecursion HasRoom waiting.new.items) }
    ensures stage { IfOk result (λ s. IsStage (length waiting.old.items) s) }
    ensures heads { IfOk result (λ s. map (λ p. p.seen) s.own.items ≡ map (λ w.
        seen (32 - length waiting.old.items) (take 1024 w.frames) [] []) waiting.old.items) }
    ensures spread { IfOk result (λ s. Spread (map (λ w. w.frames) waiting.old.items)
        (length waiting.old.items) (map (λ p. p.seen) s.own.items)) }
{
    make_rooms(waiting)?;
    let heads = heads_of(alloc, waiting)?;
    let (inboxes, own) = make_all(rt, alloc, heads)?;
    let (own, rows) = rows_of(alloc, &inboxes, own, inboxes.len())?;
    let rooms = rooms_for(alloc, inboxes.len())?;
    let lists = Vec::with_capacity(alloc, inboxes.len())?;
    Ok(Stage {
        inboxes,
        own,
        rows,
        rooms,
        lists,
    })
}
