//! The sessions of each flow, found by the flow and the number among its sessions.

ghost use Rattle.std.specs.Prelude.{◌≡◌, ◌<◌, ◌≤◌, ◌+◌, ◌^◌, ◌++◌, ◌∷◌, [], ℕ, Some, None, OnOk, length, slice_get, nat_eq, if◌then◌else◌};
ghost use Rattle.std.specs.Option.{unwrap_or};
ghost use Rattle.std.specs.Map.{lookup};
ghost use Rattle.indexmap.specs.IndexMap.{spare};
ghost use Rattle.session_table.specs.Owned.{flow_place_eq, keys_owned, owner_pair};

use indexmap::IndexMap;
use net_base::Key;
use std::alloc::{AllocError, Global};
use std::marker::Model;

/// Which of a flow's sessions, in order of making and from 0.
#[derive(Clone, Copy, PartialEq, Eq, Hash)]
pub(crate) struct FlowPlace {
    pub flow: u32,
    pub number: u32,
}

/// The sessions that flows own. Contracts see them in order of making, each with its flow, and for how many more there is
/// room.
#[derive(Drop)]
pub(crate) struct Owned {
    keys: IndexMap<FlowPlace, Key>,
    counts: IndexMap<u32, u32>,
}

impl Model for Owned {
    ghost use Rattle.std.specs.Prelude.{map, min};
    ghost use Rattle.indexmap.specs.IndexMap.{spare};
    ghost use Rattle.session_table.specs.Owned.{Owners, pair_of, IsFlowIndex};

    ghost Value = { Owners };

    ghost view = { λ o. record {
      list = map pair_of o.keys.entries;
      room = min (spare o.keys) (spare o.counts);
    } };

    ghost invariant = { λ o. IsFlowIndex o.keys.entries o.counts.entries };
}

/// Counts one more session of a flow, and gives its number. There is room, so it takes no memory.
fn count_one(counts: &mut IndexMap<u32, u32>, flow: u32) -> u32
    requires room { 0 < spare counts.old }
    requires few { unwrap_or (lookup (nat_eq flow) counts.old.entries) 0 + 1 < 2 ^ 32 }
    ensures number { result ≡ unwrap_or (lookup (nat_eq flow) counts.old.entries) 0 }
    ensures counts { (q : ℕ) → lookup (nat_eq q) counts.new.entries
        ≡ (if nat_eq flow q then Some (result + 1) else lookup (nat_eq q) counts.old.entries) }
    ensures room { spare counts.old ≤ spare counts.new + 1 }
{
    let number = counts.get(&flow).copied().unwrap_or(0);
    counts.insert(flow, number + 1).unwrap();
    number
}

/// Puts a session into its place, which is free. There is room, so it takes no memory.
fn put_key(keys: &mut IndexMap<FlowPlace, Key>, place: FlowPlace, key: Key)
    requires room { 0 < spare keys.old }
    requires free { lookup (flow_place_eq place) keys.old.entries ≡ None }
    ensures entries { keys.new.entries ≡ keys.old.entries ++ (place, key) ∷ [] }
    ensures room { spare keys.old ≤ spare keys.new + 1 }
{
    keys.insert(place, key).unwrap();
}

impl Owned {
    /// No sessions. Takes no memory.
    pub(crate) fn new(alloc: Global) -> Owned
        ensures { result.list ≡ [] }
    {
        Owned {
            keys: IndexMap::new(alloc),
            counts: IndexMap::new(alloc),
        }
    }

    /// The flow's session of this number.
    pub(crate) fn get(&self, flow: u32, number: u32) -> Option<Key>
        ensures { result ≡ slice_get (keys_owned flow self.now.list) number }
    {
        self.keys.get(&FlowPlace { flow, number }).copied()
    }

    /// How many sessions the flow owns.
    pub(crate) fn count(&self, flow: u32) -> u32
        ensures { result ≡ length (keys_owned flow self.now.list) }
    {
        self.counts.get(&flow).copied().unwrap_or(0)
    }

    /// Makes room for this number of sessions. Want of memory leaves all as it was.
    pub(crate) fn make_room(&mut self, sessions: usize) -> Result<(), AllocError>
        ensures list { self.new.list ≡ self.old.list }
        ensures room { OnOk result (sessions ≤ self.new.room) }
        ensures keeps { self.old.room ≤ self.new.room }
    {
        self.keys.reserve(sessions)?;
        self.counts.reserve(sessions)
    }

    /// Adds a session of a flow behind all others.
    fn push(&mut self, flow: u32, key: Key)
        requires room { 0 < self.old.room }
        requires few { length self.old.list + 1 < 2 ^ 32 }
        ensures list { self.new.list ≡ self.old.list ++ (flow, key) ∷ [] }
        ensures room { self.old.room ≤ self.new.room + 1 }
    {
        let number = count_one(&mut self.counts, flow);
        put_key(&mut self.keys, FlowPlace { flow, number }, key);
    }

    /// Adds a session behind all others, if a flow owns it.
    pub(crate) fn note(&mut self, key: Key, owner: Option<u32>)
        requires room { 0 < self.old.room }
        requires few { length self.old.list + 1 < 2 ^ 32 }
        ensures list { self.new.list ≡ self.old.list ++ owner_pair key owner }
        ensures room { self.old.room ≤ self.new.room + 1 }
    {
        if let Some(flow) = owner {
            self.push(flow, key);
        }
    }
}
