//! Inboxes, and their first passes.

ghost use Rattle.std.specs.Prelude.{◌≡◌, ◌≤◌, ◌<◌, List, [], length, map, IfOk};
ghost use Rattle.std.specs.List.{AllByRecursion};
ghost use Rattle.wire_queue.specs.Wire.{Frame, seen, fewer, fresh};
ghost use Rattle.wire_rows.specs.Rows.{AreRows, Spread, given_of};

use std::alloc::{AllocError, Global};
use std::sync::Wait;
use wire_queue::{FrameList, Inbox, InboxPass};

/// An inbox of the frames of each list, and the passes with all shares, one of each inbox. The only error is want of memory, after which
/// the frames are lost.
pub fn make_all<R: Wait>(
    rt: &R,
    alloc: Global,
    waiting: Vec<FrameList>,
) -> Result<(Vec<Inbox>, Vec<InboxPass>), AllocError>
    requires { AllByRecursion (λ frames. length frames ≤ 1024) waiting.items }
    ensures count { IfOk result (λ r. length r.0.items ≡ length waiting.items) }
    ensures of { IfOk result (λ r. map (λ p. p.of) r.1.items ≡ r.0.items) }
    ensures seen { IfOk result (λ r. map (λ p. p.seen) r.1.items
        ≡ map (λ l. seen 32 l [] []) waiting.items) }
{
    let mut inboxes = Vec::with_capacity(alloc, waiting.len())?;
    let mut own = Vec::with_capacity(alloc, waiting.len())?;
    'lists: for frames in waiting {
        let (inbox, pass) = Inbox::make(rt, alloc, frames)?;
        inboxes.push(inbox)?;
        own.push(pass)?;
    }
    Ok((inboxes, own))
}

/// Splits one share of each pass off. The only error is want of memory.
fn split_all(
    alloc: Global,
    inboxes: &[Inbox],
    own: Vec<InboxPass>,
) -> Result<(Vec<InboxPass>, Vec<InboxPass>), AllocError>
    requires of { map (λ p. p.of) own.items ≡ inboxes.now }
    requires shares { AllByRecursion (λ p. 1 < p.seen.shares) own.items }
    ensures own { IfOk result (λ r. map (λ p. p.of) r.0.items ≡ inboxes.now) }
    ensures row { IfOk result (λ r. map (λ p. p.of) r.1.items ≡ inboxes.now) }
    ensures fewer { IfOk result (λ r. map (λ p. p.seen) r.0.items
        ≡ map (λ p. fewer p.seen) own.items) }
    ensures fresh { IfOk result (λ r. AllByRecursion (λ p. p.seen ≡ fresh) r.1.items) }
{
    let mut kept = Vec::with_capacity(alloc, own.len())?;
    let mut row = Vec::with_capacity(alloc, own.len())?;
    'own: for pass in own {
        let mut mine = pass;
        let other = inboxes[kept.len()].split(&mut mine);
        kept.push(mine)?;
        row.push(other)?;
    }
    Ok((kept, row))
}

/// This number of rows of passes, with one share of each inbox in each, and what is left of the passes with all shares. The only error is want of
/// memory.
pub fn rows_of(
    alloc: Global,
    inboxes: &[Inbox],
    own: Vec<InboxPass>,
    count: usize,
) -> Result<(Vec<InboxPass>, Vec<Vec<InboxPass>>), AllocError>
    requires of { map (λ p. p.of) own.items ≡ inboxes.now }
    requires shares { AllByRecursion (λ p. p.seen.shares ≡ 32) own.items }
    requires few { count ≤ 16 }
    ensures of { IfOk result (λ r. map (λ p. p.of) r.0.items ≡ inboxes.now) }
    ensures count { IfOk result (λ r. length r.1.items ≡ count) }
    ensures rows { IfOk result (λ r. AreRows inboxes.now r.1.items) }
    ensures kept { IfOk result (λ r. map (λ p. p.seen) r.0.items
        ≡ map (λ p. given_of count p.seen) own.items) }
    ensures spread { IfOk result (λ r. (waited : List (List Frame))
        → Spread waited 0 (map (λ p. p.seen) own.items)
        → Spread waited count (map (λ p. p.seen) r.0.items)) }
{
    let mut kept = own;
    let mut rows = Vec::with_capacity(alloc, count)?;
    'rows: for _ in 0..count {
        let (rest, row) = split_all(alloc, inboxes, kept)?;
        kept = rest;
        rows.push(row)?;
    }
    Ok((kept, rows))
}
