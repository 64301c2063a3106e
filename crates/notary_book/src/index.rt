//! Indices of a book: from a key to the place of the first entry that has it.

ghost use Rattle.std.specs.Prelude.{◌≡◌, ◌<◌, ◌≤◌, ◌+◌, length};
ghost use Rattle.std.specs.List.{list_any};
ghost use Rattle.indexmap.specs.IndexMap.{get, spare};
ghost use Rattle.ledger_types.specs.Notary.{is_signature, signs};
ghost use Rattle.net_base.specs.declared.values.Hash32.{Hash32 as Id};
ghost use Rattle.net_base.specs.declared.names.StateRef.{StateRef as Reference};
ghost use Rattle.std.specs.Map.{lookup};
ghost use Rattle.ledger_types.specs.Names.{hash_eq, ref_eq};
ghost use Rattle.notary_book.specs.Indexed.{key_of, takes, first_of};

use indexmap::IndexMap;
use ledger_types::{Entry, NotaryAnswer, Request};
use net_base::{Hash32, Party, StateRef};
use std::hash::Hash;

/// What two requests have in common where they are the same.
#[derive(Clone, Copy, Debug, PartialEq, Eq, Hash)]
pub(crate) struct RequestKey {
    party: Party,
    flow: u32,
    id: Hash32,
}

impl RequestKey {
    pub(crate) fn of(request: &Request) -> RequestKey
        ensures { result ≡ key_of request.now }
    {
        RequestKey {
            party: request.party,
            flow: request.flow,
            id: request.torn.id,
        }
    }
}

/// Notes the place under the key, unless another is there already. Takes no memory.
pub(crate) fn note<K: Eq + Hash + Drop>(index: &mut IndexMap<K, usize>, key: K, place: usize)
    requires { 0 < spare index.old }
    ensures places { (k : K) → get K.eq index.new k
        ≡ first_of (get K.eq index.old k) (K.eq k key) place }
    ensures room { spare index.old ≤ spare index.new + 1 }
{
    if !index.contains_key(&key) {
        index.insert(key, place).unwrap();
    }
}

/// Notes the place under each of the keys. Takes no memory.
pub(crate) fn note_each<K: Eq + Hash + Copy + Drop>(
    index: &mut IndexMap<K, usize>,
    keys: &[K],
    place: usize,
)
    requires { length keys.now ≤ spare index.old }
    ensures places { (k : K) → get K.eq index.new k
        ≡ first_of (get K.eq index.old k) (list_any (λ l. K.eq l k) keys.now) place }
    ensures room { spare index.old ≤ spare index.new + length keys.now }
{
    for key in keys {
        note(index, *key, place);
    }
}

fn is_signature(answer: &NotaryAnswer) -> bool
    ensures { result ≡ is_signature answer.now }
{
    match answer {
        NotaryAnswer::Signed { .. } => true,
        _ => false,
    }
}

/// Notes the place of an entry that signed an id, under the id and under each input. Takes no memory.
pub(crate) fn note_signed(
    by_id: &mut IndexMap<Hash32, usize>,
    by_reference: &mut IndexMap<StateRef, usize>,
    entry: &Entry,
    place: usize,
)
    requires id { 0 < spare by_id.old }
    requires inputs { length entry.now.inputs ≤ spare by_reference.old }
    ensures ids { (id : Id) → lookup (hash_eq id) by_id.new.entries
        ≡ first_of (lookup (hash_eq id) by_id.old.entries) (signs id entry.now) place }
    ensures references { (r : Reference)
        → lookup (ref_eq r) by_reference.new.entries
        ≡ first_of (lookup (ref_eq r) by_reference.old.entries) (takes r entry.now) place }
    ensures id_room { spare by_id.old ≤ spare by_id.new + 1 }
    ensures reference_room { spare by_reference.old
        ≤ spare by_reference.new + length entry.now.inputs }
{
    if is_signature(&entry.answer) {
        note(by_id, entry.request.torn.id, place);
        note_each(by_reference, entry.inputs.as_slice(), place);
    }
}
