//! The sessions that have an item that isn't acknowledged, found without going through all sessions.

ghost use Rattle.std.specs.Prelude.{◌≡◌, ◌<◌, ◌≤◌, ◌+◌, [], ℕ, true, false, OnOk, IfOk, if◌then◌else◌, nat_eq};
ghost use Rattle.session_table.specs.Waiting.{has_place, IsInOrder, Joins, Leaves};

use crate::standing::Standing;
use indexmap::{IndexMap, IndexSet};
use net_base::Key;
use std::alloc::{AllocError, Global};
use std::marker::Model;

/// The places, in order of making, of the sessions that have an item that isn't acknowledged. Contracts see them in no
/// order, and for how many more there is room.
#[derive(Drop)]
pub(crate) struct Waiting {
    places: IndexSet<usize>,
}

impl Model for Waiting {
    ghost use Rattle.indexmap.specs.IndexSet.{spare};
    ghost use Rattle.session_table.specs.Waiting.{Places};

    ghost Value = { Places };

    ghost view = { λ w. record { list = w.places.keys; room = spare w.places } };
}

impl Waiting {
    /// No places. Takes no memory.
    pub(crate) fn new(alloc: Global) -> Waiting
        ensures { result.list ≡ [] }
    {
        Waiting {
            places: IndexSet::new(alloc),
        }
    }

    /// Makes room for this number of places. Want of memory leaves all as it was.
    pub(crate) fn make_room(&mut self, places: usize) -> Result<(), AllocError>
        ensures list { self.new.list ≡ self.old.list }
        ensures room { OnOk result (places ≤ self.new.room) }
        ensures keeps { self.old.room ≤ self.new.room }
    {
        self.places.reserve(places)
    }

    /// Adds a place, if it isn't there. There is room, so it takes no memory.
    fn add(&mut self, place: usize)
        requires { 0 < self.old.room }
        ensures list { (n : ℕ) → has_place self.new.list n
            ≡ (if nat_eq place n then true else has_place self.old.list n) }
        ensures room { self.old.room ≤ self.new.room + 1 }
    {
        self.places.insert(place).unwrap();
    }

    /// Takes a place out, if it is there. The order of the others may change.
    fn remove(&mut self, place: usize)
        ensures list { (n : ℕ) → has_place self.new.list n
            ≡ (if nat_eq place n then false else has_place self.old.list n) }
        ensures room { self.old.room ≤ self.new.room }
    {
        self.places.swap_remove(&place);
    }

    /// The places in order of making. Of n places it makes n log n steps.
    pub(crate) fn in_order(&self, alloc: Global) -> Result<Vec<usize>, AllocError>
        ensures { IfOk result (λ places. IsInOrder self.now.list places.items) }
    {
        let mut places = Vec::from_slice(alloc, self.places.as_slice())?;
        places.sort_unstable();
        Ok(places)
    }
}

/// Adds the session of the key, if it has an item that isn't acknowledged. There is room, so it takes no memory.
pub(crate) fn note_sent(lines: &IndexMap<Key, Standing>, waiting: &mut Waiting, key: &Key)
    requires { 0 < waiting.old.room }
    ensures list { Joins key.now lines.now.entries waiting.old.list waiting.new.list }
    ensures room { waiting.old.room ≤ waiting.new.room + 1 }
{
    if let Some((place, _, standing)) = lines.get_full(key) {
        if standing.acked < standing.sent {
            waiting.add(place);
        }
    }
}

/// Takes the session of the key out, if all of its items are acknowledged.
pub(crate) fn note_acked(lines: &IndexMap<Key, Standing>, waiting: &mut Waiting, key: &Key)
    ensures list { Leaves key.now lines.now.entries waiting.old.list waiting.new.list }
    ensures room { waiting.old.room ≤ waiting.new.room }
{
    if let Some((place, _, standing)) = lines.get_full(key) {
        if standing.acked >= standing.sent {
            waiting.remove(place);
        }
    }
}
