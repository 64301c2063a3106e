//! The frames that wait at the nodes of a network.

ghost use Rattle.std.specs.Prelude.{◌≡◌, ◌≤◌, ◌<◌, ◌+◌, ℕ, [], if◌then◌else◌, length, map, slice_get, vec_capacity, Some, OnOk};
ghost use Rattle.std.specs.List.{AllByRecursion};
ghost use Rattle.std.specs.Option.{option_to_list};
ghost use Rattle.waiting_frames.specs.Waiting.{WaitingSeen};
ghost use Rattle.network_core.specs.Answers.{count_fresh, fresh_at, mailed, mailed_once, parted};

use session_frames::{Outgoing, OutgoingList};
use std::alloc::{AllocError, Global};
use waiting_frames::Waiting;

/// Lists without frames, one for each of `count` nodes; the list for them is empty, and has room.
pub fn no_frames(alloc: Global, count: usize, spare: Vec<Waiting>) -> Vec<Waiting>
    requires empty { spare.items ≡ [] }
    requires room { count ≤ vec_capacity spare }
    ensures count { length result.items ≡ count }
    ensures none { AllByRecursion (λ w. w.frames ≡ []) result.items }
{
    let mut waiting = spare;
    'nodes: for _ in 0..count {
        waiting.push(Waiting::new(alloc)).unwrap();
    }
    waiting
}

/// Makes room for this number of frames more at each node.
pub fn make_room(waiting: &mut Vec<Waiting>, more: usize) -> Result<(), AllocError>
    ensures frames { map (λ w. w.frames) waiting.new.items ≡ map (λ w. w.frames) waiting.old.items }
    ensures room { OnOk result (AllByRecursion (λ w. more ≤ w.room) waiting.new.items) }
{
    'nodes: for place in 0..waiting.len() {
        waiting[place].make_room(more)?;
    }
    Ok(())
}

/// A frame joins those that wait at its addressee, if there is such a node. Whether it is new there.
pub fn send(waiting: &mut Vec<Waiting>, frame: Outgoing) -> bool
    requires { AllByRecursion (λ w. 0 < w.room) waiting.old.items }
    ensures mailed { map (λ w. w.frames) waiting.new.items
        ≡ mailed_once frame (map (λ w. w.frames) waiting.old.items) }
    ensures fresh { (if result then 1 else 0)
        ≡ fresh_at frame.bytes (slice_get (map (λ w. w.frames) waiting.old.items) frame.to.0) }
    ensures room { (more : ℕ) → AllByRecursion (λ w. more + 1 ≤ w.room) waiting.old.items
        → AllByRecursion (λ w. more ≤ w.room) waiting.new.items }
{
    let Outgoing { to, bytes } = frame;
    let place = to.0 as usize;
    if place >= waiting.len() {
        return false;
    }
    waiting[place].join(bytes)
}

/// These frames join, in order, those that wait at their addressees. How many of them are new there.
pub fn send_all(waiting: &mut Vec<Waiting>, frames: OutgoingList) -> u64
    requires { AllByRecursion (λ w. length frames ≤ w.room) waiting.old.items }
    ensures mailed { map (λ w. w.frames) waiting.new.items
        ≡ mailed frames (map (λ w. w.frames) waiting.old.items) }
    ensures count { result ≡ count_fresh frames (map (λ w. w.frames) waiting.old.items) }
{
    let mut count = 0;
    'frames: for frame in frames.into_vec() {
        if send(waiting, frame) {
            count += 1;
        }
    }
    count
}

/// The frame at a place of a node is taken away, unless it waits on.
fn part(waiting: &mut Vec<Waiting>, place: usize, at: usize, waits: bool)
    requires { place < length waiting.old.items }
    ensures parted { (w : WaitingSeen) → slice_get waiting.old.items place ≡ Some w
        → map (λ w. w.frames) waiting.new.items
        ≡ parted waits place at w.frames (map (λ w. w.frames) waiting.old.items) }
    ensures room { (more : ℕ) → AllByRecursion (λ w. more ≤ w.room) waiting.old.items
        → AllByRecursion (λ w. more ≤ w.room) waiting.new.items }
{
    if !waits {
        waiting[place].discard(at);
    }
}

/// The frame at a place of a node is taken away, unless it waits on, and then its acknowledgement is sent, if there is one.
pub fn settle(
    waiting: &mut Vec<Waiting>,
    place: usize,
    at: usize,
    waits: bool,
    ack: Option<Outgoing>,
)
    requires place { place < length waiting.old.items }
    requires room { AllByRecursion (λ w. 0 < w.room) waiting.old.items }
    ensures { (w : WaitingSeen) → slice_get waiting.old.items place ≡ Some w
        → map (λ w. w.frames) waiting.new.items
        ≡ mailed (option_to_list ack) (parted waits place at w.frames
        (map (λ w. w.frames) waiting.old.items)) }
{
    part(waiting, place, at, waits);
    if let Some(frame) = ack {
        let _ = send(waiting, frame);
    }
}
