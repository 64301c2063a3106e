//! The book.

ghost use Rattle.std.specs.Prelude.{◌≡◌, ◌<◌, ◌≤◌, ◌+◌, ◌++◌, ◌∷◌, [], false, is_some, find, slice_get, length, OnOk, IfSome};
ghost use Rattle.std.specs.Option.{option_copied};
ghost use Rattle.std.specs.List.{list_any};
ghost use Rattle.ledger_types.specs.Notary.{signs, repeats, consumes};
ghost use Rattle.ledger_types.specs.Requests.{IsNotaryAnswer};

use crate::index::{RequestKey, note, note_signed};
use indexmap::IndexMap;
use ledger_types::{Entry, Request};
use net_base::{Hash32, StateRef};
use std::alloc::{AllocError, Global};
use std::marker::Model;

/// What a notary has answered, in the order in which it was added.
#[derive(Drop)]
pub struct Book {
    entries: Vec<Entry>,
    by_request: IndexMap<RequestKey, usize>,
    by_id: IndexMap<Hash32, usize>,
    by_reference: IndexMap<StateRef, usize>,
}

impl Model for Book {
    ghost use Rattle.std.specs.Prelude.{◌-◌, ◌/◌, min, vec_len, vec_capacity};
    ghost use Rattle.indexmap.specs.IndexMap.{spare};
    ghost use Rattle.notary_book.specs.Booked.{Booked};
    ghost use Rattle.notary_book.specs.Indexed.{IsIndexed};

    ghost Value = { Booked };

    // An entry takes one place of the list, one of each of two indices, and one for each input of the third.
    ghost view = { λ b. record {
      entries = b.entries.items;
      room = min (vec_capacity b.entries - vec_len b.entries)
          (min (spare b.by_request) (min (spare b.by_id) (spare b.by_reference / 64)));
    } };

    ghost invariant = { λ b. IsIndexed b.entries.items b.by_request.entries b.by_id.entries
        b.by_reference.entries };
}

impl Book {
    /// A book without entries. Takes no memory.
    pub fn new(alloc: Global) -> Book
        ensures { result.entries ≡ [] }
    {
        Book {
            entries: Vec::new(alloc),
            by_request: IndexMap::new(alloc),
            by_id: IndexMap::new(alloc),
            by_reference: IndexMap::new(alloc),
        }
    }

    /// The entries, in the order in which they were added.
    pub fn entries(&self) -> &[Entry]
        ensures { result.now ≡ self.now.entries }
    {
        self.entries.as_slice()
    }

    /// Makes room for one more entry, of as many as 64 inputs. Want of memory changes nothing.
    pub fn make_room(&mut self, _alloc: Global) -> Result<(), AllocError>
        ensures entries { self.new.entries ≡ self.old.entries }
        ensures room { OnOk result (0 < self.new.room) }
        ensures keeps { self.old.room ≤ self.new.room }
    {
        self.entries.reserve(1)?;
        self.by_request.reserve(1)?;
        self.by_id.reserve(1)?;
        self.by_reference.reserve(64)
    }

    /// Adds an entry at the end, in the room that was made. An entry within the limits of its spelling has at most 64
    /// inputs and an answer within its own limits.
    pub fn add(&mut self, entry: Entry)
        requires room { 0 < self.old.room }
        requires inputs { length entry.inputs ≤ 64 }
        requires answer { IsNotaryAnswer entry.answer }
        ensures entries { self.new.entries ≡ self.old.entries ++ entry ∷ [] }
        ensures room { self.old.room ≤ self.new.room + 1 }
    {
        let place = self.entries.len();
        note(&mut self.by_request, RequestKey::of(&entry.request), place);
        note_signed(&mut self.by_id, &mut self.by_reference, &entry, place);
        self.entries.push(entry).unwrap();
    }

    /// Whether an entry signed the id.
    pub(crate) fn is_signed(&self, id: &Hash32) -> bool
        ensures { result ≡ list_any (signs id.now) self.now.entries }
    {
        self.by_id.contains_key(id)
    }

    /// Whether an entry answers the same request: one party, one flow, one id.
    pub fn has_answered(&self, request: &Request) -> bool
        ensures { result ≡ is_some (find (repeats request.now) self.now.entries) }
    {
        self.find_repeated(request).is_some()
    }

    fn entry_at(&self, place: usize) -> Option<&Entry>
        ensures { option_copied result ≡ slice_get self.now.entries place }
    {
        self.entries.get(place)
    }

    /// The first entry that answers the same request.
    pub(crate) fn find_repeated(&self, request: &Request) -> Option<&Entry>
        ensures entry { option_copied result ≡ find (repeats request.now) self.now.entries }
        ensures limits { IfSome result (λ e. IsNotaryAnswer e.now.answer) }
    {
        let place = self.by_request.get(&RequestKey::of(request))?;
        self.entry_at(*place)
    }

    /// The first entry that signed another id and has the reference among its inputs. Where no entry signed this id,
    /// it is the first that signed any.
    pub(crate) fn find_consumer(&self, id: &Hash32, reference: &StateRef) -> Option<&Entry>
        requires { list_any (signs id.now) self.now.entries ≡ false }
        ensures { option_copied result ≡ find (consumes id.now reference.now) self.now.entries }
    {
        let place = self.by_reference.get(reference)?;
        self.entry_at(*place)
    }
}
