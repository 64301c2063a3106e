//! The table of sessions.

ghost use Rattle.std.specs.Prelude.{◌≡◌, ◌<◌, ◌≤◌, ◌+◌, ◌-◌, ◌^◌, ◌++◌, ◌∷◌, [], List, ℕ, length, drop, OnOk, IfOk, Option, Some, None, is_some, true, false, option_copied, option_map, if◌then◌else◌, ◌==◌, nat_lt};
ghost use Rattle.std.specs.List.{list_all};
ghost use Rattle.std.specs.Option.{option_and_then};
ghost use Rattle.session_wire.specs.Sessions.{Session, session_of, changed_at, new_session, with_came, with_taken, opened_on, sent_on, taken_on, next_item, first_item, ending_at};
ghost use Rattle.session_wire.specs.Rules.{is_opened_by, opened_by, direction_out, direction_in, is_init, Continues, FitsSent, sessions_of};
ghost use Rattle.session_table.specs.Changes.{IsFitting, FitsCame, FitsOpened, AcceptsItem, answered_for, came_on, changed_by, acks_of_came, acks_of_opened, acks_after, arrived_in, room_for, taken_and_came};
ghost use Rattle.session_wire.specs.declared.change.SessionChange.{SessionChange as Change};
ghost use Rattle.net_base.specs.declared.names.Key.{Key as SessionKey};
ghost use Rattle.session_wire.specs.declared.change.SentItem.{SentItem as Sending};
ghost use Rattle.session_table.specs.Tables.{numbered, arrived_at, item_there, raised, of_flow, unacked, unacked_at, items_from};

use crate::lines::{count_came, count_sent, put_item, put_line, raise_acked, set_taken};
use crate::owned::Owned;
use crate::resent::{Item, ItemList};
use crate::standing::{Place, Posted, Standing, ending_of, is_confirm, is_init};
use crate::waiting::{Waiting, note_acked, note_sent};
use indexmap::IndexMap;
use net_base::{Key, ListOf, Party};
use session_wire::{Body, SentItem, SentList, SessionChange};
use std::alloc::{AllocError, Global};
use std::marker::Model;

/// The sessions of one node. Contracts see the node's party, the sessions in order of making, how many items of each
/// are acknowledged, and for how many more sessions and items there is room.
#[derive(Drop)]
pub struct Sessions {
    party: Party,
    /// How many sessions this node opened.
    opened: u32,
    lines: IndexMap<Key, Standing>,
    sent: IndexMap<Place, Posted>,
    came: IndexMap<Place, Body>,
    owned: Owned,
    /// The sessions that have an item that isn't acknowledged.
    waiting: Waiting,
}

impl Model for Sessions {
    ghost use Rattle.std.specs.Prelude.{◌≡◌, map, min};
    ghost use Rattle.indexmap.specs.IndexMap.{spare};
    ghost use Rattle.session_table.specs.Tables.{Table};
    ghost use Rattle.session_table.specs.Owned.{owners};
    ghost use Rattle.session_table.specs.Kept.{session_at, owner_of, IsKept};
    ghost use Rattle.session_table.specs.Waiting.{IsListed};

    ghost Value = { Table };

    ghost view = { λ s. record {
      party = s.party;
      list = map (session_at s.sent.entries s.came.entries) s.lines.entries;
      acked = map (λ e. e.1.acked) s.lines.entries;
      room = min (spare s.lines) (min (spare s.sent)
          (min (spare s.came) (min s.owned.room s.waiting.room)));
    } };

    ghost invariant = { λ s. IsKept s.party s.opened s.lines.entries s.sent.entries s.came.entries
        × (s.owned.list ≡ owners (map owner_of s.lines.entries))
        × IsListed s.lines.entries s.waiting.list };
}

impl Sessions {
    /// The sessions of a party that has none. Takes no memory.
    pub fn new(alloc: Global, party: Party) -> Sessions
        ensures party { result.party ≡ party }
        ensures list { result.list ≡ [] }
        ensures acked { result.acked ≡ [] }
    {
        Sessions {
            party,
            opened: 0,
            lines: IndexMap::new(alloc),
            sent: IndexMap::new(alloc),
            came: IndexMap::new(alloc),
            owned: Owned::new(alloc),
            waiting: Waiting::new(alloc),
        }
    }

    /// The node's party.
    pub(crate) fn party(&self) -> Party
        ensures { result ≡ self.now.party }
    {
        self.party
    }

    /// The number of the next session that this node opens: how many it opened.
    pub fn next_number(&self) -> u32
        ensures { result ≡ opened_by self.now.party self.now.list }
    {
        self.opened
    }

    /// The other side of the session, where it stands.
    pub fn peer(&self, key: &Key) -> Option<Party>
        ensures { result ≡ option_map (λ s. s.peer) (session_of key.now self.now.list) }
    {
        Some(self.lines.get(key)?.peer)
    }

    /// The flow that owns the session; `None` also for a session without a flow.
    pub fn owner(&self, key: &Key) -> Option<u32>
        ensures { result ≡ option_and_then (λ s. s.owner) (session_of key.now self.now.list) }
    {
        self.lines.get(key)?.owner
    }

    /// How many items this node sent in the session.
    pub fn sent(&self, key: &Key) -> Option<u32>
        ensures { result ≡ option_map (λ s. length s.sent) (session_of key.now self.now.list) }
    {
        Some(self.lines.get(key)?.sent)
    }

    /// How many items arrived in the session.
    pub(crate) fn arrived(&self, key: &Key) -> Option<u32>
        ensures { result ≡ option_map (λ s. length s.came) (session_of key.now self.now.list) }
    {
        Some(self.lines.get(key)?.came)
    }

    /// How many of the items that arrived in the session were taken.
    pub fn taken(&self, key: &Key) -> Option<u32>
        ensures { result ≡ option_map (λ s. s.taken) (session_of key.now self.now.list) }
    {
        Some(self.lines.get(key)?.taken)
    }

    /// How many items of the session were taken, and how many arrived.
    pub(crate) fn taken_and_came(&self, key: &Key) -> Option<(u32, u32)>
        ensures { result ≡ option_map taken_and_came (session_of key.now self.now.list) }
    {
        let standing = self.lines.get(key)?;
        Some((standing.taken, standing.came))
    }

    /// The number of the item that is expected next: how many arrived in the session. `None` where there is no such
    /// session, or where nothing arrives in that direction.
    pub fn expected(&self, key: &Key, direction: u8) -> Option<u32>
        ensures { result ≡ arrived_at self.now.party key.now direction self.now.list }
    {
        if direction != self.incoming(key) {
            return None;
        }
        Some(self.lines.get(key)?.came)
    }

    /// The direction of what this node sends in the session.
    pub(crate) fn outgoing(&self, key: &Key) -> u8
        ensures { result ≡ direction_out self.now.party key.now }
    {
        if key.initiator.0 == self.party.0 {
            0
        } else {
            1
        }
    }

    /// The direction of what arrives in the session.
    pub(crate) fn incoming(&self, key: &Key) -> u8
        ensures { result ≡ direction_in self.now.party key.now }
    {
        if key.initiator.0 == self.party.0 {
            1
        } else {
            0
        }
    }

    /// The item that is there for the flow: the first that arrived, isn't taken and isn't a `Confirm`. Once an ending
    /// (`Reject`, `Error` or `End`) was taken it is that one for good.
    pub fn next_item(&self, key: &Key) -> Option<&Body>
        ensures { option_copied result ≡ option_map (λ found. found.1)
            (item_there key.now self.now.list) }
    {
        match &self.lines.get(key)?.ending {
            Some(ending) => Some(ending),
            None => Some(self.untaken(key)?.1),
        }
    }

    /// The number of the item that `next_item` gives; `None` also where an ending was taken.
    pub fn item_place(&self, key: &Key) -> Option<u32>
        ensures { result ≡ option_and_then (λ found. found.0) (item_there key.now self.now.list) }
    {
        match &self.lines.get(key)?.ending {
            Some(_) => None,
            None => Some(self.untaken(key)?.0),
        }
    }

    /// The flow's `k`-th session in order of making, counted from 0. It is looked up, whatever the table holds.
    pub fn of_flow(&self, flow: u32, k: u32) -> Option<Key>
        ensures { result ≡ of_flow flow k self.now.list }
    {
        self.owned.get(flow, k)
    }

    /// How many sessions the flow owns. It is looked up, whatever the table holds.
    pub fn count_of_flow(&self, flow: u32) -> u32
        ensures { result ≡ length (sessions_of flow self.now.list) }
    {
        self.owned.count(flow)
    }

    /// The first item that arrived, isn't taken and isn't a `Confirm`, with its number. A `Confirm` is the first item
    /// at most, so this looks at two items.
    fn untaken(&self, key: &Key) -> Option<(u32, &Body)>
        ensures { option_map numbered result
            ≡ option_and_then (λ s. first_item s.taken (drop s.taken s.came))
            (session_of key.now self.now.list) }
    {
        let standing = self.lines.get(key)?;
        for number in standing.taken..standing.came {
            let body = self.came.get(&Place { key: *key, number })?;
            if !is_confirm(body) {
                return Some((number, body));
            }
        }
        None
    }

    /// The items that were sent and aren't acknowledged, by session in order of making and then by number. Of n items it makes
    /// n log n steps at most, however many sessions and acknowledged items there are: the sessions that have some are sorted,
    /// and of each the items that aren't acknowledged are looked up.
    pub fn unacked(&self, alloc: Global) -> Result<ItemList, AllocError>
        ensures { IfOk result (λ list. list ≡ unacked self.now.party self.now.list self.now.acked) }
    {
        let places = self.waiting.in_order(alloc)?;
        let mut items = Vec::new(alloc);
        for place in &places {
            self.add_unacked(alloc, *place, &mut items)?;
        }
        Ok(ListOf::from_vec(items))
    }

    /// Adds the items of a session that aren't acknowledged; the session is named by its place in order of making. After want
    /// of memory some may have been added.
    fn add_unacked(
        &self,
        alloc: Global,
        place: usize,
        items: &mut Vec<Item>,
    ) -> Result<(), AllocError>
        ensures { OnOk result (items.new.items
            ≡ items.old.items ++ unacked_at self.now.party self.now.list self.now.acked place) }
    {
        match self.lines.get_index(place) {
            Some((key, standing)) => {
                self.add_sent_items(
                    alloc,
                    key,
                    standing.peer,
                    standing.acked,
                    standing.sent,
                    items,
                )
            }
            None => Ok(()),
        }
    }

    /// Adds the items that were sent in a session from a number on. After want of memory some may have been added.
    fn add_sent_items(
        &self,
        alloc: Global,
        key: &Key,
        peer: Party,
        from: u32,
        count: u32,
        items: &mut Vec<Item>,
    ) -> Result<(), AllocError>
        requires { (s : Session) × (session_of key.now self.now.list ≡ Some s) × (s.peer ≡ peer)
            × (length s.sent ≡ count) }
        ensures { OnOk result ((s : Session) → session_of key.now self.now.list ≡ Some s
            → items.new.items ≡ items.old.items
            ++ items_from self.now.party s from (drop from s.sent)) }
    {
        let direction = self.outgoing(key);
        for number in from..count {
            let posted = self.sent.get(&Place { key: *key, number }).unwrap();
            let body = posted.body.copy(alloc)?;
            items.push(Item {
                peer,
                key: *key,
                direction,
                number,
                stamp: posted.stamp,
                body,
            })?;
        }
        Ok(())
    }

    /// Makes room for a change. Want of memory leaves the sessions as they were.
    pub fn make_room(&mut self, _alloc: Global, change: &SessionChange) -> Result<(), AllocError>
        ensures party { self.new.party ≡ self.old.party }
        ensures list { self.new.list ≡ self.old.list }
        ensures acked { self.new.acked ≡ self.old.acked }
        ensures room { OnOk result (room_for change.now ≤ self.new.room) }
        ensures keeps { self.old.room ≤ self.new.room }
    {
        let items = change.sent.len().checked_add(3).ok_or(AllocError)?;
        self.lines.reserve(items)?;
        self.sent.reserve(items)?;
        self.came.reserve(items)?;
        self.owned.make_room(items)?;
        self.waiting.make_room(items)
    }

    /// Makes a change, for which there is room: it takes no memory. First the item is accepted, then the session opened,
    /// then items are sent, each with the stamp of the change's cause, and last the number of taken items is set.
    pub fn apply(&mut self, change: SessionChange, stamp: u64)
        requires fits { IsFitting self.old.party stamp self.old.list change }
        requires room { room_for change ≤ self.old.room }
        requires few_sessions { length self.old.list + 2 < 2 ^ 32 }
        requires few_came { arrived_in change.came_key self.old.list + 1 < 2 ^ 32 }
        requires few_sent { list_all (λ item. nat_lt (item.seq + 1) (2 ^ 32)) change.sent ≡ true }
        ensures party { self.new.party ≡ self.old.party }
        ensures list { self.new.list ≡ changed_by stamp change self.old.list }
        ensures acked { self.new.acked ≡ acks_after change self.old.acked }
        ensures room { self.old.room ≤ self.new.room + room_for change }
    {
        let owner = owner_of_answer(change.sent.as_slice(), change.owner);
        self.accept(change.came_key, change.came, owner);
        self.open(change.opened, change.owner);
        self.send(change.sent, stamp);
        self.take(change.taken);
    }

    /// Accepts an item, if there is one. An `Init` makes its session, any other item joins those of its session.
    fn accept(&mut self, came_key: Option<Key>, came: Option<Body>, owner: Option<u32>)
        requires fits { (change : Change) × FitsCame self.old.party self.old.list change came_key
            came }
        requires room { 2 ≤ self.old.room }
        requires few { length self.old.list + 1 < 2 ^ 32 }
        requires few_came { arrived_in came_key self.old.list + 1 < 2 ^ 32 }
        ensures party { self.new.party ≡ self.old.party }
        ensures list { self.new.list ≡ came_on came_key came owner self.old.list }
        ensures acked { self.new.acked ≡ self.old.acked ++ acks_of_came came_key came }
        ensures room { self.old.room ≤ self.new.room + (1 + length (acks_of_came came_key came)) }
        ensures few { length self.new.list ≤ length self.old.list + 1 }
    {
        if let Some(body) = came {
            self.accept_item(came_key.unwrap(), body, owner);
        }
    }

    fn accept_item(&mut self, key: Key, body: Body, owner: Option<u32>)
        requires fits { (change : Change) × AcceptsItem self.old.party self.old.list change key
            body }
        requires room { 2 ≤ self.old.room }
        requires few { length self.old.list + 1 < 2 ^ 32 }
        requires few_came { arrived_in (Some key) self.old.list + 1 < 2 ^ 32 }
        ensures party { self.new.party ≡ self.old.party }
        ensures list { self.new.list ≡ came_on (Some key) (Some body) owner self.old.list }
        ensures acked { self.new.acked ≡ self.old.acked ++ acks_of_came (Some key) (Some body) }
        ensures room { self.old.room ≤ self.new.room
            + (1 + length (acks_of_came (Some key) (Some body))) }
        ensures few { length self.new.list ≤ length self.old.list + 1 }
    {
        if is_init(&body) {
            self.begin(key, key.initiator, owner);
            self.add_came(key, body);
            return;
        }
        self.add_came(key, body);
    }

    /// Opens a session, if there is one to be opened.
    fn open(&mut self, opened: Option<(Key, Party)>, owner: u32)
        requires fits { (sent : List Sending)
            × FitsOpened self.old.party self.old.list sent opened }
        requires room { 0 < self.old.room }
        requires few { length self.old.list + 1 < 2 ^ 32 }
        ensures party { self.new.party ≡ self.old.party }
        ensures list { self.new.list ≡ opened_on opened (Some owner) self.old.list }
        ensures acked { self.new.acked ≡ self.old.acked ++ acks_of_opened opened }
        ensures room { self.old.room ≤ self.new.room + length (acks_of_opened opened) }
    {
        if let Some((key, peer)) = opened {
            self.begin(key, peer, Some(owner));
        }
    }

    /// Sends items, one after the other.
    fn send(&mut self, items: SentList, stamp: u64)
        requires fits { FitsSent self.old.party stamp self.old.list items }
        requires room { length items ≤ self.old.room }
        requires few { list_all (λ item. nat_lt (item.seq + 1) (2 ^ 32)) items ≡ true }
        ensures party { self.new.party ≡ self.old.party }
        ensures list { self.new.list ≡ sent_on stamp items self.old.list }
        ensures acked { self.new.acked ≡ self.old.acked }
        ensures room { self.old.room ≤ self.new.room + length items }
    {
        for item in items.into_vec() {
            self.add_sent(item, stamp);
        }
    }

    /// Takes items, if some are to be taken.
    fn take(&mut self, taken: Option<(Key, u32)>)
        requires { (key : SessionKey) (n : ℕ) → taken ≡ Some (key, n)
            → is_some (session_of key self.old.list) ≡ true }
        ensures party { self.new.party ≡ self.old.party }
        ensures list { self.new.list ≡ taken_on taken self.old.list }
        ensures acked { self.new.acked ≡ self.old.acked }
        ensures room { self.old.room ≤ self.new.room }
    {
        if let Some((key, number)) = taken {
            self.set_taken(key, number);
        }
    }

    /// Makes a session without items. Its number is the next one where this node opens it, else its key is new.
    fn begin(&mut self, key: Key, peer: Party, owner: Option<u32>)
        requires new { is_opened_by self.old.party key ≡ false
            → session_of key self.old.list ≡ None }
        requires next { is_opened_by self.old.party key ≡ true
            → key.number ≡ opened_by self.old.party self.old.list }
        requires room { 0 < self.old.room }
        requires few { length self.old.list + 1 < 2 ^ 32 }
        ensures party { self.new.party ≡ self.old.party }
        ensures list { self.new.list ≡ self.old.list ++ new_session key peer owner [] ∷ [] }
        ensures acked { self.new.acked ≡ self.old.acked ++ 0 ∷ [] }
        ensures room { self.old.room ≤ self.new.room + 1 }
    {
        self.opened += one_if_own(self.party, &key);
        let standing = Standing {
            peer,
            owner,
            sent: 0,
            came: 0,
            taken: 0,
            ending: None,
            acked: 0,
        };
        put_line(&mut self.lines, key, standing);
        self.owned.note(key, owner);
    }

    /// Adds an item to those that arrived in its session.
    fn add_came(&mut self, key: Key, body: Body)
        requires stands { is_some (session_of key self.old.list) ≡ true }
        requires room { 0 < self.old.room }
        requires few { (s : Session) → session_of key self.old.list ≡ Some s
            → length s.came + 1 < 2 ^ 32 }
        ensures party { self.new.party ≡ self.old.party }
        ensures list { self.new.list ≡ changed_at key (with_came (body ∷ [])) self.old.list }
        ensures acked { self.new.acked ≡ self.old.acked }
        ensures room { self.old.room ≤ self.new.room + 1 }
    {
        let number = count_came(&mut self.lines, &key);
        put_item(&mut self.came, Place { key, number }, body);
    }

    /// Adds an item to those that were sent in its session.
    fn add_sent(&mut self, item: SentItem, stamp: u64)
        requires continues { Continues self.old.party item self.old.list }
        requires room { 0 < self.old.room }
        requires few { item.seq + 1 < 2 ^ 32 }
        ensures party { self.new.party ≡ self.old.party }
        ensures list { self.new.list ≡ sent_on stamp (item ∷ []) self.old.list }
        ensures acked { self.new.acked ≡ self.old.acked }
        ensures room { self.old.room ≤ self.new.room + 1 }
    {
        count_sent(&mut self.lines, &item.key);
        note_sent(&self.lines, &mut self.waiting, &item.key);
        let place = Place {
            key: item.key,
            number: item.seq,
        };
        let posted = Posted {
            body: item.body,
            stamp,
        };
        put_item(&mut self.sent, place, posted);
    }

    /// Sets how many of the items that arrived in a session are taken.
    fn set_taken(&mut self, key: Key, taken: u32)
        requires { is_some (session_of key self.old.list) ≡ true }
        ensures party { self.new.party ≡ self.old.party }
        ensures list { self.new.list ≡ changed_at key (with_taken taken) self.old.list }
        ensures acked { self.new.acked ≡ self.old.acked }
        ensures room { self.old.room ≤ self.new.room }
    {
        let ending = self.ending_at(key, taken);
        set_taken(&mut self.lines, &key, taken, ending);
    }

    /// The last of the first `taken` items that arrived, where it ends the session.
    fn ending_at(&self, key: Key, taken: u32) -> Option<Body>
        ensures { (s : Session) → session_of key self.now.list ≡ Some s
            → result ≡ ending_at s.came taken }
    {
        if taken == 0 {
            return None;
        }
        let number = taken - 1;
        ending_of(self.came.get(&Place { key, number })?)
    }

    /// Raises the number of acknowledged items of the session to `upto`, and never lowers it. Items of the direction in
    /// which this node sends nothing are never acknowledged, nor are those of a session that doesn't stand.
    pub fn acknowledge(&mut self, key: &Key, direction: u8, upto: u32)
        requires { (s : Session) → session_of key.now self.old.list ≡ Some s
            → upto ≤ length s.sent }
        ensures party { self.new.party ≡ self.old.party }
        ensures list { self.new.list ≡ self.old.list }
        ensures acked { self.new.acked ≡ raised self.old.party key.now direction upto self.old.list
            self.old.acked }
        ensures room { self.old.room ≤ self.new.room }
    {
        if direction != self.outgoing(key) {
            return;
        }
        raise_acked(&mut self.lines, key, upto);
        note_acked(&self.lines, &mut self.waiting, key);
    }
}

/// The flow that owns an answered session: the one that is named where the first item says `Confirm`, else none.
fn owner_of_answer(sent: &[SentItem], owner: u32) -> Option<u32>
    ensures { result ≡ answered_for owner sent.now }
{
    match sent.first() {
        Some(item) if is_confirm(&item.body) => Some(owner),
        _ => None,
    }
}

/// 1 where the party opened the session of this key, else 0.
fn one_if_own(party: Party, key: &Key) -> u32
    ensures { result ≡ (if is_opened_by party key.now then 1 else 0) }
{
    if key.initiator.0 == party.0 { 1 } else { 0 }
}
