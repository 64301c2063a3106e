//! Passes that are joined, one of each inbox.

ghost use Rattle.std.specs.Prelude.{◌≡◌, map};
ghost use Rattle.wire_rows.specs.Ends.{Joined};

use wire_queue::{Inbox, InboxPass};

/// Joins the passes of one row, one of each inbox, to these.
pub fn join_row(inboxes: &[Inbox], own: &mut Vec<InboxPass>, row: Vec<InboxPass>)
    requires own { map (λ p. p.of) own.old.items ≡ inboxes.now }
    requires row { map (λ p. p.of) row.items ≡ inboxes.now }
    ensures of { map (λ p. p.of) own.new.items ≡ inboxes.now }
    ensures joined { Joined (map (λ p. p.seen) own.old.items) (map (λ p. p.seen) row.items)
        (map (λ p. p.seen) own.new.items) }
{
    let mut at = 0;
    'row: for pass in row {
        let mine = &mut own[at];
        inboxes[at].join(mine, pass);
        at += 1;
    }
}
