//! Inboxes that are drained.

ghost use Rattle.std.specs.Prelude.{◌≡◌, ◌<◌, ◌≤◌, ℕ, [], length, map, slice_get, Some, vec_capacity};
ghost use Rattle.std.specs.List.{AllByRecursion};
ghost use Rattle.wire_queue.specs.declared.rule.Seen.{Seen};
ghost use Rattle.wire_queue.specs.Wire.{FromOrigins, Settled};
ghost use Rattle.wire_rows.specs.Ends.{Drained, IsRoom};
ghost use Rattle.wire_rows.specs.Exchanges.{Exchanges, changed, pulled_all};

use super::moving::pull_from;
use net_base::ByteList;
use std::sync::Wait;
use wire_queue::{Inbox, InboxPass};

/// How many frames an inbox holds at most.
const MOST: usize = 1024;

/// Pulls what is left in the inbox of a place, in order, 1,024 frames at most, and gives just what it pulled. The list for it is empty, and
/// has room for all that an inbox may hold.
fn drain_one<R: Wait>(
    rt: &R,
    inboxes: &[Inbox],
    own: &mut Vec<InboxPass>,
    at: usize,
    room: Vec<ByteList>,
) -> Vec<ByteList>
    requires of { map (λ p. p.of) own.old.items ≡ inboxes.now }
    requires room { IsRoom room }
    ensures of { map (λ p. p.of) own.new.items ≡ inboxes.now }
    ensures pulled { map (λ p. p.seen) own.new.items
        ≡ changed (map (λ p. p.seen) own.old.items) at (λ s. pulled_all s result.items) }
    ensures emptied { length result.items < 1024 → (s : Seen)
        → slice_get (map (λ p. p.seen) own.new.items) at ≡ Some s → Settled s [] }
    ensures whole { (s : Seen) → slice_get (map (λ p. p.seen) own.new.items) at ≡ Some s
        → FromOrigins s }
    ensures few { length result.items ≤ 1024 }
{
    let mut left = room;
    'pulls: for _ in 0..MOST {
        match pull_from(rt, inboxes, own, at) {
            None => break,
            Some(frame) => left.push(frame).unwrap(),
        }
    }
    left
}

/// Pulls what is left in each inbox, in order, 1,024 frames at most, and gives just what it pulled, without memory. There is an empty list
/// for each, with room for all that an inbox may hold, and the list for these lists is empty and has room.
pub fn drain_all<R: Wait>(
    rt: &R,
    inboxes: &[Inbox],
    own: &mut Vec<InboxPass>,
    rooms: Vec<Vec<ByteList>>,
    room: Vec<Vec<ByteList>>,
) -> Vec<Vec<ByteList>>
    requires of { map (λ p. p.of) own.old.items ≡ inboxes.now }
    requires rooms { AllByRecursion IsRoom rooms.items }
    requires each { length rooms.items ≡ length inboxes.now }
    requires empty { room.items ≡ [] }
    requires room { length inboxes.now ≤ vec_capacity room }
    ensures of { map (λ p. p.of) own.new.items ≡ inboxes.now }
    ensures count { length result.items ≡ length inboxes.now }
    ensures few { AllByRecursion (λ v. length v.items ≤ 1024) result.items }
    ensures moves { (at : ℕ) → Exchanges at [] [] (map (λ p. p.seen) own.old.items)
        (map (λ p. p.seen) own.new.items) }
    ensures left { Drained (length inboxes.now) (map (λ v. v.items) result.items)
        (map (λ p. p.seen) own.old.items) (map (λ p. p.seen) own.new.items) }
{
    let mut lists = room;
    'lists: for list in rooms {
        let left = drain_one(rt, inboxes, own, lists.len(), list);
        lists.push(left).unwrap();
    }
    lists
}
