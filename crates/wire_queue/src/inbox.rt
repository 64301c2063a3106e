//! An inbox, and a pass of it.

ghost use Rattle.std.specs.Prelude.{◌≡◌, ◌<◌, ◌≤◌, [], length, IfOk, IfSome, IfNone};
ghost use Rattle.crossbeam_queue.specs.Fifo.{Held};
ghost use Rattle.wire_queue.specs.Wire.{seen, posted, pulled_one, fewer, fresh, join_of, FromOrigins, Settled};

use super::rule::{Cut, Posting, Pulling, Seen, WireRule};
use crossbeam_queue::{Pass, RuledArrayQueue};
use net_base::{ByteList, ListOf};
use std::alloc::{AllocError, Global};
use std::marker::Model;
use std::sync::Wait;

/// A list of frames, as bytes.
pub type FrameList = ListOf<ByteList>;

/// The inbox of one node: at most 1,024 frames, in the order in which they were posted. It is shared by reference. Contracts see which
/// one it is.
#[derive(Drop)]
pub struct Inbox {
    queue: RuledArrayQueue<ByteList, Seen, WireRule>,
}

impl Model for Inbox {
    ghost use Rattle.std.specs.Prelude.{◌≡◌};
    ghost use Rattle.atomic_table.specs.Seated.{TableId};

    ghost Value = { TableId };

    ghost view = { λ i. i.queue.table.shared.table_id };

    ghost invariant = { λ i. i.queue.cap ≡ 1024 };
}

/// What one holder has posted to an inbox and pulled from it. It has at least one share. Contracts see of which inbox it is, and what it
/// has seen. It takes no bytes.
#[derive(Drop)]
pub struct InboxPass {
    pass: Pass<ByteList, Seen>,
}

impl Model for InboxPass {
    ghost use Rattle.std.specs.Prelude.{◌≡◌, ◌<◌, []};
    ghost use Rattle.crossbeam_queue.specs.Passes.{view as known};
    ghost use Rattle.wire_queue.specs.Passes.{PassSeen};

    ghost Value = { PassSeen };

    ghost view = { λ p. record { of = p.pass.table_id; seen = known p.pass } };

    ghost invariant = { λ p. (p.pass.me.1 ≡ []) × (0 < (known p.pass).shares) };
}

impl Inbox {
    /// An inbox of these frames, and the pass with all 32 shares, whose origins they are. The only error is want of memory, after which
    /// the frames are lost.
    pub fn make<R: Wait>(
        rt: &R,
        alloc: Global,
        frames: FrameList,
    ) -> Result<(Inbox, InboxPass), AllocError>
        requires { length frames ≤ 1024 }
        ensures of { IfOk result (λ r. r.1.of ≡ r.0) }
        ensures seen { IfOk result (λ r. r.1.seen ≡ seen 32 frames [] []) }
    {
        let (inbox, mut pass) = empty(alloc)?;
        for frame in frames.into_vec() {
            inbox.post(rt, &mut pass, frame);
        }
        Ok((inbox, pass))
    }

    /// Puts the frame at the back. It comes back where the inbox was full; of a pass with every share contracts say this: 1,024 frames
    /// were posted and not pulled. With fewer shares, no clause tells a full inbox from another one.
    pub fn post<R: Wait>(&self, rt: &R, pass: &mut InboxPass, frame: ByteList) -> Option<ByteList>
        requires { pass.old.of ≡ self.now }
        ensures of { pass.new.of ≡ pass.old.of }
        ensures posted { IfNone result (pass.new.seen ≡ posted pass.old.seen frame) }
        ensures back { IfSome result (λ x. x ≡ frame) }
        ensures same { IfSome result (λ x. pass.new.seen ≡ pass.old.seen) }
        ensures full { IfSome result (λ x. Held 1024 (Settled pass.old.seen)) }
    {
        match self.queue.push_as::<Posting, R>(rt, &mut pass.pass, frame) {
            Ok(()) => None,
            Err(back) => Some(back),
        }
    }

    /// Takes the frame at the front, or `None` where the inbox was empty. Of a pass with every share contracts say this: what was pulled is
    /// among the origins, and after `None` what was posted is just what was pulled. With fewer shares, `None` may come at any time.
    pub fn pull<R: Wait>(&self, rt: &R, pass: &mut InboxPass) -> Option<ByteList>
        requires { pass.old.of ≡ self.now }
        ensures of { pass.new.of ≡ pass.old.of }
        ensures pulled { IfSome result (λ x. pass.new.seen ≡ pulled_one pass.old.seen x) }
        ensures same { IfNone result (pass.new.seen ≡ pass.old.seen) }
        ensures empty { IfNone result (Settled pass.new.seen []) }
        ensures origins { FromOrigins pass.new.seen }
    {
        self.queue.pop_as::<Pulling, R>(rt, &mut pass.pass)
    }

    /// Splits a new pass off, with one share, which has seen nothing.
    pub fn split(&self, pass: &mut InboxPass) -> InboxPass
        requires of { pass.old.of ≡ self.now }
        requires shares { 1 < pass.old.seen.shares }
        ensures of { (pass.new.of ≡ pass.old.of) × (result.of ≡ pass.old.of) }
        ensures left { pass.new.seen ≡ fewer pass.old.seen }
        ensures right { result.seen ≡ fresh }
    {
        let other = self.queue.another::<Cut>(&mut pass.pass);
        InboxPass { pass: other }
    }

    /// Joins another pass to this one, which then has the shares of both and has seen what both have.
    pub fn join(&self, pass: &mut InboxPass, other: InboxPass)
        requires of { pass.old.of ≡ self.now }
        requires other { other.of ≡ self.now }
        ensures of { pass.new.of ≡ pass.old.of }
        ensures both { pass.new.seen ≡ join_of pass.old.seen other.seen }
    {
        let InboxPass { pass: theirs } = other;
        self.queue.absorb::<Cut>(&mut pass.pass, theirs);
    }
}

/// An empty inbox, and the pass with all 32 shares.
fn empty(alloc: Global) -> Result<(Inbox, InboxPass), AllocError>
    ensures of { IfOk result (λ r. r.1.of ≡ r.0) }
    ensures seen { IfOk result (λ r. r.1.seen ≡ seen 32 [] [] []) }
{
    let (queue, pass) = RuledArrayQueue::<ByteList, Seen, WireRule>::ruled(alloc, 1024)?;
    Ok((Inbox { queue }, InboxPass { pass }))
}
