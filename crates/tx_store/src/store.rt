//! The store.

ghost use Rattle.std.specs.Prelude.{◌≡◌, ◌↔◌, ◌<◌, ◌≤◌, ◌+◌, ◌^◌, ◌++◌, ◌∷◌, [], List, length, OnOk, IfOk, IfErr, IfSome, IsTrue, is_some, Some, None, not, true, false, option_copied, option_map, slice_get, map, if◌then◌else◌};
ghost use Rattle.std.specs.List.{list_all};
ghost use Rattle.std.specs.Map.Iter.{deref_pair};
ghost use Rattle.net_base.specs.declared.values.Hash32.{Hash32 as Id};
ghost use Rattle.ledger_types.specs.Txs.{IsSignedTx};
ghost use Rattle.ledger_types.specs.Signatures.{tx_id};
ghost use Rattle.ledger_types.specs.Stores.{stored_of, is_stored, refs_of, all_stored, has_dependencies, state_of, states_of, resolved_of, missing_ids};
ghost use Rattle.tx_store.specs.Stored.{AreWithin, IsResolved, HasEach, is_in_order, leads_back, found_with, found_in};
ghost use Rattle.tx_store.specs.Faults.{fault_of, state_or_fault, Misses, Lacks};

use crate::fault::ResolveFault;
use indexmap::IndexMap;
use ledger_types::{IdList, Resolved, SignedTx, StateList, Tx, TxState};
use net_base::{Hash32, ListOf, StateRef};
use std::alloc::{AllocError, Global};
use std::marker::Model;

/// The recorded transactions. Contracts see them as a list of ids and transactions in order of recording: each
/// stands under its own id, once, behind all that it depends on, so that its whole back-chain is stored, and is within its
/// limits.
#[derive(Drop)]
pub struct Store {
    map: IndexMap<Hash32, SignedTx>,
}

impl Model for Store {
    ghost use Rattle.std.specs.Prelude.{◌≡◌, ◌<◌, ◌^◌, true, length};
    ghost use Rattle.indexmap.specs.IndexMap.{spare};
    ghost use Rattle.tx_store.specs.Stored.{Stored, is_in_order, AreWithin};

    ghost Value = { Stored };

    ghost view = { λ s. record { list = s.map.entries; room = spare s.map } };

    ghost invariant = { λ s. (is_in_order s.map.entries ≡ true) × (length s.map.entries < 2 ^ 32)
        × AreWithin s.map.entries };
}

impl Store {
    /// A store without transactions. Takes no memory.
    pub fn new(alloc: Global) -> Store
        ensures { result.list ≡ [] }
    {
        Store {
            map: IndexMap::new(alloc),
        }
    }

    /// How many transactions are stored.
    pub fn count(&self) -> u32
        ensures { result ≡ length self.now.list }
    {
        self.map.len() as u32
    }

    /// The transaction of this id, where it is stored.
    pub fn get(&self, id: &Hash32) -> Option<&SignedTx>
        ensures stored { option_copied result ≡ stored_of self.now.list id.now }
        ensures limits { IfSome result (λ stx. IsSignedTx stx.now) }
    {
        self.map.get(id)
    }

    /// The transaction at place `k` in order of recording, counted from 0, with its id.
    pub fn at(&self, k: u32) -> Option<(&Hash32, &SignedTx)>
        ensures stored { option_map deref_pair result ≡ slice_get self.now.list k }
        ensures limits { IfSome result (λ p. IsSignedTx p.1.now) }
    {
        self.map.get_index(k as usize)
    }

    fn has(&self, id: &Hash32) -> bool
        ensures { result ≡ is_stored self.now.list id.now }
    {
        self.map.contains_key(id)
    }

    fn has_all(&self, refs: &[StateRef]) -> bool
        ensures { result ≡ all_stored self.now.list refs.now }
    {
        for r in refs {
            if !self.has(&r.id) {
                return false;
            }
        }
        true
    }

    /// Whether every transaction that the inputs and references of `tx` name is stored. It is the condition of `put`.
    pub fn has_dependencies(&self, tx: &Tx) -> bool
        ensures { result ≡ has_dependencies self.now.list tx.now }
    {
        self.has_all(tx.inputs.as_slice()) && self.has_all(tx.references.as_slice())
    }

    /// The ids that the inputs and then the references of `tx` name and that aren't stored, each once, in the order
    /// of their first places.
    pub fn missing(&self, alloc: Global, tx: &Tx) -> Result<IdList, AllocError>
        ensures { IfOk result (λ ids. ids ≡ missing_ids self.now.list tx.now) }
    {
        let mut found = ListOf::new(alloc);
        self.find_missing(tx.inputs.as_slice(), &mut found)?;
        self.find_missing(tx.references.as_slice(), &mut found)?;
        Ok(found)
    }

    #[tactic(auto, using(std::proofs::lemmas::List::Sums::fold_more))]
    fn find_missing(&self, refs: &[StateRef], found: &mut IdList) -> Result<(), AllocError>
        ensures { OnOk result (found.new ≡ found_in self.now.list found.old refs.now) }
    {
        for r in refs {
            self.note_missing(r, found)?;
        }
        Ok(())
    }

    fn note_missing(&self, reference: &StateRef, found: &mut IdList) -> Result<(), AllocError>
        ensures { OnOk result (found.new ≡ found_with self.now.list found.old reference.now) }
    {
        if self.has(&reference.id) || found.as_slice().contains(&reference.id) {
            return Ok(());
        }
        found.push(reference.id)
    }

    /// The states that the inputs and the references of `tx` name.
    ///
    /// # Errors
    ///
    /// At the first of the inputs and then the references whose state can't be had: `Lacking` with its id where the
    /// transaction isn't stored, and `NoOutput` where that has no such output. `Memory` may come at any time.
    pub fn resolve(&self, alloc: Global, tx: &Tx) -> Result<Resolved, ResolveFault>
        ensures resolved { IfOk result (λ states. resolved_of self.now.list tx.now ≡ Some states) }
        ensures fault { IfErr result (Lacks self.now.list tx.now) }
        ensures limits { IfOk result IsResolved }
        ensures lengths { IfOk result (HasEach tx.now) }
    {
        self.law_keeps_limits();
        Ok(Resolved {
            inputs: self.states(alloc, tx.inputs.as_slice())?,
            references: self.states(alloc, tx.references.as_slice())?,
        })
    }

    fn states(&self, alloc: Global, refs: &[StateRef]) -> Result<StateList, ResolveFault>
        ensures had { IfOk result (λ states. states_of self.now.list refs.now ≡ Some states) }
        ensures fault { IfErr result (Misses self.now.list refs.now) }
    {
        let mut states = ListOf::new(alloc);
        for r in refs {
            states.push(self.state(r)?)?;
        }
        Ok(states)
    }

    /// Whether `resolve` can have every state that the inputs and the references of `tx` name. Takes no memory.
    #[tactic(auto, using(crate::proofs::Resolving::both_had))]
    pub fn has_states(&self, tx: &Tx) -> bool
        ensures { result ≡ is_some (resolved_of self.now.list tx.now) }
    {
        self.has_all_states(tx.inputs.as_slice()) && self.has_all_states(tx.references.as_slice())
    }

    fn has_all_states(&self, refs: &[StateRef]) -> bool
        ensures { result ≡ is_some (states_of self.now.list refs.now) }
    {
        self.has_each(refs)
    }

    fn has_each(&self, refs: &[StateRef]) -> bool
        ensures { result ≡ list_all (λ r. is_some (state_of self.now.list r)) refs.now }
    {
        refs.iter().all(|r| self.state_at(r).is_some())
    }

    /// Whether the states that the inputs and the references of `tx` name are exactly these. Takes no memory.
    #[tactic(auto, using(crate::proofs::Resolving::resolves))]
    pub fn resolves_to(&self, tx: &Tx, resolved: &Resolved) -> bool
        ensures { IsTrue result ↔ (resolved_of self.now.list tx.now ≡ Some resolved.now) }
    {
        self.are_states(tx.inputs.as_slice(), resolved.inputs.as_slice())
            && self.are_states(tx.references.as_slice(), resolved.references.as_slice())
    }

    #[tactic(auto, using(crate::proofs::Resolving::joins, crate::proofs::Resolving::some_states, crate::proofs::Resolving::no_states))]
    fn are_states(&self, refs: &[StateRef], states: &[TxState]) -> bool
        ensures { IsTrue result ↔ (states_of self.now.list refs.now ≡ Some states.now) }
    {
        match refs {
            [] => states.is_empty(),
            [r, rs @ ..] => match states {
                [] => false,
                [s, ss @ ..] => is_there(self.state_at(r), s) && self.are_states(rs, ss),
            },
        }
    }

    fn state_at(&self, reference: &StateRef) -> Option<&TxState>
        ensures { option_copied result ≡ state_of self.now.list reference.now }
    {
        let stx = self.get(&reference.id)?;
        stx.tx.outputs.as_slice().get(reference.index as usize)
    }

    fn state(&self, reference: &StateRef) -> Result<TxState, ResolveFault>
        ensures { result ≡ state_or_fault self.now.list reference.now }
    {
        let Some(stx) = self.get(&reference.id) else {
            return Err(ResolveFault::Lacking { id: reference.id });
        };
        match output_at(stx.tx.outputs.as_slice(), reference.index) {
            Some(state) => Ok(state),
            None => Err(ResolveFault::NoOutput {
                reference: *reference,
            }),
        }
    }

    /// Makes room for one more transaction. Want of memory leaves the store as it was.
    pub fn make_room(&mut self, _alloc: Global) -> Result<(), AllocError>
        ensures list { self.new.list ≡ self.old.list }
        ensures room { OnOk result (0 < self.new.room) }
        ensures keeps { self.old.room ≤ self.new.room }
    {
        self.map.reserve(1)
    }

    /// Records a transaction behind all others and answers `true`, or answers `false` and changes nothing where its
    /// id is stored already. It takes no memory.
    pub fn put(&mut self, stx: SignedTx) -> bool
        requires room { 0 < self.old.room }
        requires limits { IsSignedTx stx }
        requires dependencies { has_dependencies self.old.list stx.tx ≡ true }
        requires few { length self.old.list + 1 < 2 ^ 32 }
        ensures fresh { result ≡ not (is_stored self.old.list (tx_id stx.tx)) }
        ensures list { self.new.list ≡ (if result then self.old.list ++ (tx_id stx.tx, stx) ∷ []
            else self.old.list) }
        ensures room { self.old.room ≤ self.new.room + (if result then 1 else 0) }
    {
        let id = stx.tx.id();
        if self.has(&id) {
            return false;
        }
        self.map.insert(id, stx).unwrap();
        true
    }

    /// The law of the store, which takes no work: its transactions were recorded in order, and all ids that lead back
    /// along the back-chain of a stored transaction are stored.
    pub fn law_keeps_back_chains(&self)
        ensures in_order { is_in_order self.now.list ≡ true }
        ensures back_chains { (id : Id) (ids : List Id)
            → leads_back self.now.list (stored_of self.now.list id) ids ≡ true
            → list_all (is_stored self.now.list) ids ≡ true }
    {
        let _ = &self.map;
    }

    /// The law that each transaction of the store is within its limits, with its tags, so that it can be spelt. It takes no
    /// work.
    pub fn law_keeps_limits(&self)
        ensures { AreWithin self.now.list }
    {
        let _ = &self.map;
    }
}

fn output_at(outputs: &[TxState], index: u32) -> Option<TxState>
    ensures { result ≡ slice_get outputs.now index }
{
    outputs.get(index as usize).copied()
}

/// Whether a state is the one there, if there is one.
fn is_there(found: Option<&TxState>, state: &TxState) -> bool
    ensures { IsTrue result ↔ (option_copied found.entry ≡ Some state.now) }
{
    match found {
        Some(found) => *found == *state,
        None => false,
    }
}
