//! What a node does with its passes of all inboxes.

ghost use Rattle.std.specs.Prelude.{◌≡◌, ℕ, [], ◌∷◌, map, take, slice_get, Some, IfSome, IfNone};
ghost use Rattle.std.specs.Option.{option_to_list};
ghost use Rattle.wire_queue.specs.declared.rule.Seen.{Seen};
ghost use Rattle.wire_queue.specs.Wire.{IsIn, pulled_one, FromOrigins, Settled};
ghost use Rattle.wire_rows.specs.Exchanges.{Exchanges, PostedAll, PostedAt, changed};

use net_base::ByteList;
use session_frames::{Outgoing, OutgoingList};
use std::sync::Wait;
use wire_queue::{Inbox, InboxPass};

/// Posts a frame to the inbox of its addressee. It is lost where that is full, or there is none.
fn post_to<R: Wait>(rt: &R, inboxes: &[Inbox], passes: &mut Vec<InboxPass>, out: Outgoing)
    requires { map (λ p. p.of) passes.old.items ≡ inboxes.now }
    ensures of { map (λ p. p.of) passes.new.items ≡ inboxes.now }
    ensures posted { PostedAt out.to.0 out.bytes (map (λ p. p.seen) passes.old.items)
        (map (λ p. p.seen) passes.new.items) }
    ensures moves { (at : ℕ) → Exchanges at [] (out ∷ []) (map (λ p. p.seen) passes.old.items)
        (map (λ p. p.seen) passes.new.items) }
{
    let to = out.to.0 as usize;
    if to >= inboxes.len() {
        return;
    }
    let pass = &mut passes[to];
    inboxes[to].post(rt, pass, out.bytes);
}

/// Posts the first `most` of these frames, in order, each once to the inbox of its addressee, and no others. One is lost where that is
/// full, or there is none. Any number will do: with 0 none is posted, and with more than there are, all. How many are posted is bounded by
/// `most` alone.
pub fn post_first<R: Wait>(
    rt: &R,
    inboxes: &[Inbox],
    passes: &mut Vec<InboxPass>,
    frames: OutgoingList,
    most: usize,
)
    requires { map (λ p. p.of) passes.old.items ≡ inboxes.now }
    ensures of { map (λ p. p.of) passes.new.items ≡ inboxes.now }
    ensures posted { PostedAll (take most frames) (map (λ p. p.seen) passes.old.items)
        (map (λ p. p.seen) passes.new.items) }
    ensures moves { (at : ℕ) → Exchanges at [] frames (map (λ p. p.seen) passes.old.items)
        (map (λ p. p.seen) passes.new.items) }
{
    let mut first = frames.into_vec();
    first.truncate(most);
    for out in first {
        post_to(rt, inboxes, passes, out);
    }
}

/// Posts a frame, if there is one, once to the inbox of its addressee. It is lost where that is full, or there is none.
pub fn post_ack<R: Wait>(
    rt: &R,
    inboxes: &[Inbox],
    passes: &mut Vec<InboxPass>,
    ack: Option<Outgoing>,
)
    requires { map (λ p. p.of) passes.old.items ≡ inboxes.now }
    ensures of { map (λ p. p.of) passes.new.items ≡ inboxes.now }
    ensures posted { PostedAll (option_to_list ack) (map (λ p. p.seen) passes.old.items)
        (map (λ p. p.seen) passes.new.items) }
    ensures moves { (at : ℕ) → Exchanges at [] (option_to_list ack)
        (map (λ p. p.seen) passes.old.items)
        (map (λ p. p.seen) passes.new.items) }
{
    if let Some(out) = ack {
        post_to(rt, inboxes, passes, out);
    }
}

/// Pulls the front frame from the inbox of a place, and no other. After `None` nothing was pulled: there is no such inbox, or it was empty;
/// of a pass with every share contracts say that what was posted there is just what was pulled. With fewer shares, `None` may come at any
/// time.
pub fn pull_from<R: Wait>(
    rt: &R,
    inboxes: &[Inbox],
    passes: &mut Vec<InboxPass>,
    at: usize,
) -> Option<ByteList>
    requires { map (λ p. p.of) passes.old.items ≡ inboxes.now }
    ensures of { map (λ p. p.of) passes.new.items ≡ inboxes.now }
    ensures none { IfNone result (map (λ p. p.seen) passes.new.items
        ≡ map (λ p. p.seen) passes.old.items) }
    ensures empty { IfNone result ((s : Seen)
        → slice_get (map (λ p. p.seen) passes.new.items) at ≡ Some s → Settled s []) }
    ensures pulled { IfSome result (λ x. map (λ p. p.seen) passes.new.items
        ≡ changed (map (λ p. p.seen) passes.old.items) at (λ s. pulled_one s x)) }
    ensures has { IfSome result (λ x. (s : Seen)
        → slice_get (map (λ p. p.seen) passes.new.items) at ≡ Some s → IsIn x s.pulled) }
    ensures whole { (s : Seen) → slice_get (map (λ p. p.seen) passes.new.items) at ≡ Some s
        → FromOrigins s }
{
    if at >= inboxes.len() {
        return None;
    }
    let pass = &mut passes[at];
    inboxes[at].pull(rt, pass)
}

/// Posts a frame that was pulled from the inbox of a place once to that inbox again. It is lost where that is full.
pub fn post_back<R: Wait>(
    rt: &R,
    inboxes: &[Inbox],
    passes: &mut Vec<InboxPass>,
    at: usize,
    frame: ByteList,
)
    requires of { map (λ p. p.of) passes.old.items ≡ inboxes.now }
    requires had { (s : Seen) → slice_get (map (λ p. p.seen) passes.old.items) at ≡ Some s
        → IsIn frame s.pulled }
    ensures of { map (λ p. p.of) passes.new.items ≡ inboxes.now }
    ensures posted { PostedAt at frame (map (λ p. p.seen) passes.old.items)
        (map (λ p. p.seen) passes.new.items) }
    ensures moves { Exchanges at [] [] (map (λ p. p.seen) passes.old.items)
        (map (λ p. p.seen) passes.new.items) }
{
    if at >= inboxes.len() {
        return;
    }
    let pass = &mut passes[at];
    inboxes[at].post(rt, pass, frame);
}
