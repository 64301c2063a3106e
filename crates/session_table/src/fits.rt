//! Whether a change is one that a transition may make.

ghost use Rattle.std.specs.Prelude.{◌≡◌, ◌==◌, ◌+◌, ◌↔◌, ◌||◌, ℕ, true, IsTrue, length, option_map};
ghost use Rattle.std.specs.List.{list_any};
ghost use Rattle.session_wire.specs.Sessions.{session_of, sent_on};
ghost use Rattle.session_wire.specs.Rules.{is_lawful, is_init_of, OpensNext, Continues, FitsSent, TakesUpTo, FitsTaken};
ghost use Rattle.session_table.specs.Changes.{AnswersFirst, AcceptsInit, AcceptsNext, AcceptsItem, FitsCame, FitsOpened, IsFitting, begun_on, is_answered, is_opened, count_of};

use crate::sessions::Sessions;
use crate::standing::{is_init, is_lawful, is_opened_by};
use net_base::{Key, Party};
use session_wire::{Body, SentItem, SessionChange};

impl Sessions {
    /// Whether this is a change that `apply` may make: the item that is accepted fits, the session that is opened, each item that
    /// is sent, and the number of taken items. The cause's stamp plays no part. It takes no memory. Each session is looked up, so
    /// the cost doesn't grow with the table; it grows with the square of the number of items that the change sends.
    pub fn fits(&self, change: &SessionChange) -> bool
        ensures { (stamp : ℕ) → IsTrue result ↔ IsFitting self.now.party stamp self.now.list
            change.now }
    {
        if !self.fits_came(change) {
            return false;
        }
        self.fits_opened(change) && self.fits_sent(change) && self.fits_taken(change)
    }

    /// Whether the item that is accepted fits, if there is one.
    fn fits_came(&self, change: &SessionChange) -> bool
        ensures { IsTrue result ↔ FitsCame self.now.party self.now.list change.now
            change.now.came_key change.now.came }
    {
        match &change.came_key {
            None => change.came.is_none(),
            Some(key) => {
                match &change.came {
                    None => false,
                    Some(body) => self.accepts(change, key, body),
                }
            }
        }
    }

    /// Whether this item of the session may be accepted.
    fn accepts(&self, change: &SessionChange, key: &Key, body: &Body) -> bool
        ensures { IsTrue result ↔ AcceptsItem self.now.party self.now.list change.now key.now
            body.now }
    {
        if is_init(body) {
            self.accepts_init(change, key)
        } else {
            self.accepts_next(change, key, body)
        }
    }

    /// Whether an `Init` of the session may be accepted: its key is new, another party opened it, and the change answers it.
    fn accepts_init(&self, change: &SessionChange, key: &Key) -> bool
        ensures { IsTrue result ↔ AcceptsInit self.now.party self.now.list change.now key.now }
    {
        self.sent(key).is_none()
            && !is_opened_by(self.party(), key)
            && answers_first(key, change.sent.as_slice())
    }

    /// Whether an item that is no `Init` may be accepted as the next one of its session. The change does nothing else then.
    fn accepts_next(&self, change: &SessionChange, key: &Key, body: &Body) -> bool
        ensures { IsTrue result ↔ AcceptsNext self.now.party self.now.list change.now key.now
            body.now }
    {
        match self.arrived(key) {
            None => false,
            Some(number) => {
                is_lawful(self.incoming(key), number, body)
                    && change.opened.is_none()
                    && change.sent.len() == 0
                    && change.taken.is_none()
            }
        }
    }

    /// Whether the session that is opened fits, if there is one.
    fn fits_opened(&self, change: &SessionChange) -> bool
        ensures { IsTrue result ↔ FitsOpened self.now.party self.now.list change.now.sent
            change.now.opened }
    {
        match &change.opened {
            None => true,
            Some((key, peer)) => self.opens_next(change.sent.as_slice(), key, *peer),
        }
    }

    /// Whether this node opens the session next: it is its next one, with another party, and its `Init` is among the items.
    fn opens_next(&self, sent: &[SentItem], key: &Key, peer: Party) -> bool
        ensures { IsTrue result ↔ OpensNext self.now.party self.now.list sent.now key.now peer }
    {
        is_opened_by(self.party(), key)
            && key.number == self.next_number()
            && peer.0 != self.party().0
            && has_init(key, sent)
    }

    /// Whether the items that are sent fit, one after the other.
    fn fits_sent(&self, change: &SessionChange) -> bool
        ensures { (stamp : ℕ) → IsTrue result ↔ FitsSent self.now.party stamp
            (begun_on change.now self.now.list) change.now.sent }
    {
        let items = change.sent.as_slice();
        for k in 0..items.len() {
            if !self.continues(change, &items[..k], &items[k]) {
                return false;
            }
        }
        true
    }

    /// Whether the item is the next one that the node sends in its session, once these items of the change were sent, and lawful
    /// there.
    fn continues(&self, change: &SessionChange, done: &[SentItem], item: &SentItem) -> bool
        ensures { (stamp : ℕ) → IsTrue result ↔ Continues self.now.party item.now
            (sent_on stamp done.now (begun_on change.now self.now.list)) }
    {
        match self.sent_begun(change, &item.key) {
            None => false,
            Some(first) => {
                is_placed(
                    item,
                    self.outgoing(&item.key),
                    first,
                    count_of(&item.key, done),
                )
            }
        }
    }

    /// How many items the node sent in the session before those of the change; none in one that the change makes.
    fn sent_begun(&self, change: &SessionChange, key: &Key) -> Option<u32>
        ensures { result ≡ option_map (λ s. length s.sent)
            (session_of key.now (begun_on change.now self.now.list)) }
    {
        match self.sent(key) {
            Some(count) => Some(count),
            None => { if is_made(key, change) { Some(0) } else { None } }
        }
    }

    /// Whether the number of taken items fits, if there is one: its session stands before the change, which makes none that it
    /// takes from.
    fn fits_taken(&self, change: &SessionChange) -> bool
        ensures { IsTrue result ↔ FitsTaken self.now.list change.now.taken }
    {
        match &change.taken {
            None => true,
            Some((key, number)) => self.takes_up_to(key, *number),
        }
    }

    /// Whether this number of the session's items may be received: no fewer than were, and no more than arrived.
    fn takes_up_to(&self, key: &Key, number: u32) -> bool
        ensures { IsTrue result ↔ TakesUpTo self.now.list key.now number }
    {
        match self.taken_and_came(key) {
            None => false,
            Some((taken, came)) => taken <= number && number <= came,
        }
    }
}

/// Whether the first of the items answers the session's `Init`: it is `Confirm` or `Reject`.
fn answers_first(key: &Key, items: &[SentItem]) -> bool
    ensures { IsTrue result ↔ AnswersFirst key.now items.now }
{
    match items.first() {
        None => false,
        Some(item) => {
            item.key == *key && item.direction == 1 && item.seq == 0 && is_lawful(1, 0, &item.body)
        }
    }
}

/// Whether the session's `Init` is among the items.
fn has_init(key: &Key, items: &[SentItem]) -> bool
    ensures { result ≡ list_any (is_init_of key.now) items.now }
{
    items.iter().any(|item| is_init_of(key, item))
}

/// Whether the item is the session's `Init`.
fn is_init_of(key: &Key, item: &SentItem) -> bool
    ensures { result ≡ is_init_of key.now item.now }
{
    *key == item.key && item.direction == 0 && item.seq == 0 && is_init(&item.body)
}

/// Whether the change accepts the session's `Init`.
fn is_answered(key: &Key, change: &SessionChange) -> bool
    ensures { result ≡ is_answered key.now change.now.came_key change.now.came }
{
    match &change.came_key {
        None => false,
        Some(other) => {
            match &change.came {
                None => false,
                Some(body) => key == other && is_init(body),
            }
        }
    }
}

/// Whether the change opens the session.
fn is_opened(key: &Key, change: &SessionChange) -> bool
    ensures { result ≡ is_opened key.now change.now.opened }
{
    match &change.opened {
        None => false,
        Some((other, _)) => key == other,
    }
}

/// Whether the change makes the session: it accepts its `Init`, or opens it.
fn is_made(key: &Key, change: &SessionChange) -> bool
    ensures { result ≡ (is_answered key.now change.now.came_key change.now.came
        || is_opened key.now change.now.opened) }
{
    is_answered(key, change) || is_opened(key, change)
}

/// How many of the items are of the session.
fn count_of(key: &Key, items: &[SentItem]) -> usize
    ensures { result ≡ count_of key.now items.now }
{
    items.iter().filter(|item| *key == item.key).count()
}

/// Whether the item has the direction and the number, which is the sum of the first one and the count, and is lawful there.
fn is_placed(item: &SentItem, direction: u8, first: u32, count: usize) -> bool
    ensures { IsTrue result ↔ ((item.now.direction ≡ direction) × (item.now.seq ≡ first + count)
        × (is_lawful item.now.direction item.now.seq item.now.body ≡ true)) }
{
    item.direction == direction
        && is_past(item.seq, first, count)
        && is_lawful(item.direction, item.seq, &item.body)
}

/// Whether the number is the sum of the first one and the count.
fn is_past(number: u32, first: u32, count: usize) -> bool
    ensures { result ≡ (number == first + count) }
{
    number >= first && (number - first) as usize == count
}
