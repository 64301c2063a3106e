//! The first frames that wait, out and back.

ghost use Rattle.std.specs.Prelude.{◌≡◌, ◌<◌, ◌≤◌, ◌+◌, length, map, take, drop, IfOk, OnOk};
ghost use Rattle.std.specs.List.{AllByRecursion};
ghost use Rattle.waiting_heads.specs.Heads.{HasRoom, PutEach, PutFirst, joined_all, turned};

use net_base::ByteList;
use std::alloc::{AllocError, Global};
use waiting_frames::Waiting;
use wire_queue::FrameList;

/// How many frames an inbox holds at most.
const MOST: usize = 1024;

/// Copies of the first 1,024 frames that wait at each node. The only error is want of memory.
pub fn heads_of(alloc: Global, waiting: &[Waiting]) -> Result<Vec<FrameList>, AllocError>
    ensures heads { IfOk result (λ r. r.items ≡ map (λ w. take 1024 w.frames) waiting.now) }
    ensures few { IfOk result (λ r. AllByRecursion (λ l. length l ≤ 1024) r.items) }
{
    let mut heads = Vec::with_capacity(alloc, waiting.len())?;
    'lists: for frames in waiting {
        heads.push(head_of(alloc, frames)?)?;
    }
    Ok(heads)
}

/// Copies of the first 1,024 frames that wait at a node. The only error is want of memory.
fn head_of(alloc: Global, waiting: &Waiting) -> Result<FrameList, AllocError>
    ensures head { IfOk result (λ l. l ≡ take 1024 waiting.now.frames) }
    ensures few { IfOk result (λ l. length l ≤ 1024) }
{
    let mut head = FrameList::new(alloc);
    'frames: for at in 0..waiting.len().min(MOST) {
        let frame = waiting.get(at).unwrap();
        head.push(ByteList::from_slice(alloc, frame)?)?;
    }
    Ok(head)
}

/// Makes room at each node for the frames of an inbox and those that wait. The only error is want of memory, which leaves the frames as they
/// were.
pub fn make_rooms(waiting: &mut Vec<Waiting>) -> Result<(), AllocError>
    ensures frames { map (λ w. w.frames) waiting.new.items ≡ map (λ w. w.frames) waiting.old.items }
    ensures room { OnOk result (AllByRecursion HasRoom waiting.new.items) }
{
    'nodes: for place in 0..waiting.len() {
        let here = &mut waiting[place];
        let Some(more) = here.len().checked_add(MOST) else {
            return Err(AllocError);
        };
        here.make_room(more)?;
    }
    Ok(())
}

/// Puts the frames of each list in the place of the first 1,024 that wait at its node: before those that stay, in order, each once, and none
/// that stays. There is room for them, and for those that wait, so it takes no memory. Where n frames stay at a node, the number of steps
/// there is of the order of n times the sum of n and 1,024.
pub fn put_each(waiting: &mut Vec<Waiting>, lists: Vec<Vec<ByteList>>)
    requires each { length lists.items ≡ length waiting.old.items }
    requires few { AllByRecursion (λ v. length v.items ≤ 1024) lists.items }
    requires room { AllByRecursion HasRoom waiting.old.items }
    ensures { PutEach (map (λ v. v.items) lists.items) waiting.old.items waiting.new.items }
{
    let mut at = 0;
    'lists: for frames in lists {
        let here = &mut waiting[at];
        put_at(here, frames);
        at += 1;
    }
}

/// Puts these frames in the place of the first 1,024 that wait at a node.
fn put_at(waiting: &mut Waiting, frames: Vec<ByteList>)
    requires few { length frames.items ≤ 1024 }
    requires room { HasRoom waiting.old }
    ensures { PutFirst frames.items (drop 1024 waiting.old.frames) waiting.new.frames }
{
    drop_head(waiting);
    put_first(waiting, frames);
}

/// Discards the first 1,024 frames, or as many as there are.
fn drop_head(waiting: &mut Waiting)
    ensures frames { waiting.new.frames ≡ drop 1024 waiting.old.frames }
    ensures room { waiting.old.room ≤ waiting.new.room }
{
    'frames: for _ in 0..MOST {
        waiting.discard(0);
    }
}

/// Puts these frames before those that wait, in order, each once, and none that waits.
fn put_first(waiting: &mut Waiting, frames: Vec<ByteList>)
    requires { length frames.items + length waiting.old.frames ≤ waiting.old.room }
    ensures { PutFirst frames.items waiting.old.frames waiting.new.frames }
{
    let behind = waiting.len();
    join_all(waiting, frames);
    'turns: for _ in 0..behind {
        turn_one(waiting);
    }
}

/// Adds these frames at the end, in order, each unless equal bytes wait.
fn join_all(waiting: &mut Waiting, frames: Vec<ByteList>)
    requires { length frames.items ≤ waiting.old.room }
    ensures frames { waiting.new.frames ≡ joined_all frames.items waiting.old.frames }
    ensures room { waiting.old.room ≤ waiting.new.room + length frames.items }
{
    'frames: for frame in frames {
        waiting.join(frame);
    }
}

/// Puts the first frame behind the others.
fn turn_one(waiting: &mut Waiting)
    requires { 0 < waiting.old.room }
    ensures frames { waiting.new.frames ≡ turned waiting.old.frames }
    ensures room { waiting.old.room ≤ waiting.new.room + 1 }
{
    waiting.law_holds_each_once();
    if let Some(frame) = waiting.remove(0) {
        waiting.join(frame);
    }
}
