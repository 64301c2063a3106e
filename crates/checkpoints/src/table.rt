//! The table of a node's flows.

ghost use Rattle.std.specs.Prelude.{◌≡◌, ◌+◌, ◌-◌, ◌^◌, ◌++◌, ◌∷◌, ◌<◌, ◌≤◌, ℕ, suc, List, [], Bool, take, drop, length, option_map, slice_get, vec_len, vec_capacity, if◌then◌else◌, Result, Ok, Err, OnOk, IfSome, MatchResult, min};
ghost use Rattle.std.specs.List.{AllByRecursion};
ghost use Rattle.checkpoints.specs.Tables.{is_live, live_numbers, where_true, IsNumbered, with_flow, IsRising};
ghost use Rattle.checkpoints.specs.Views.{state_of};

use flow_machine::{Checkpoint, FlowState};
use ledger_types::Value;
use std::alloc::{AllocError, Global};
use std::marker::Model;

/// A flow of a table, lent.
#[derive(Drop)]
pub enum FlowView<'a, F> {
    Live(&'a Checkpoint<F>),
    Ended {
        step: u32,
        class: u16,
        value: &'a Value,
    },
    Failed {
        step: u32,
        class: u16,
        code: u16,
    },
}

/// The live, ended and failed flows of a node, by number, counted from 0. Contracts see them in order, and the room for more.
#[derive(Drop)]
pub struct Flows<F> {
    states: Vec<FlowState<F>>,
    // the numbers of the live ones, ascending
    live: Vec<u32>,
}

impl<F> Model for Flows<F> {
    ghost use Rattle.std.specs.Prelude.{◌≡◌, ◌-◌, ◌<◌, ◌^◌, length, vec_len, vec_capacity, min};
    ghost use Rattle.checkpoints.specs.Tables.{Table, live_numbers, AreNumberedFrom};

    ghost Value = { Table F };

    ghost view = { λ t. record {
      flows = t.states.items;
      room = min (vec_capacity t.states - vec_len t.states)
          (vec_capacity t.live - vec_len t.live);
    } };

    ghost invariant = { λ t. (t.live.items ≡ live_numbers t.states.items)
        × (AreNumberedFrom 0 t.states.items × (length t.states.items < 2 ^ 32)) };
}

impl<F: Drop> Flows<F> {
    /// The table of no flow. Takes no memory.
    pub fn new(alloc: Global) -> Flows<F>
        ensures { result.flows ≡ [] }
    {
        Flows {
            states: Vec::new(alloc),
            live: Vec::new(alloc),
        }
    }

    /// How many flows there are, which is the number of the next one.
    pub fn count(&self) -> u32
        ensures { result ≡ length self.now.flows }
    {
        self.states.len() as u32
    }

    /// The flow of the number, `None` where there is none yet.
    pub fn get(&self, flow: u32) -> Option<FlowView<'_, F>>
        ensures flow { option_map state_of result ≡ slice_get self.now.flows flow }
        ensures own { IfSome result (λ view. IsNumbered flow (state_of view)) }
    {
        Some(lent(self.states.get(flow as usize)?))
    }

    /// The numbers of the live flows, ascending.
    pub fn live(&self) -> &[u32]
        ensures { result.now ≡ live_numbers self.now.flows }
    {
        self.live.as_slice()
    }

    /// Makes room to set a flow.
    ///
    /// # Errors
    ///
    /// `AllocError` for want of memory. The flows stay.
    pub fn make_room(&mut self) -> Result<(), AllocError>
        ensures flows { self.new.flows ≡ self.old.flows }
        ensures room { OnOk result (0 < self.new.room) }
        ensures keeps { self.old.room ≤ self.new.room }
    {
        self.states.reserve(1)?;
        self.live.reserve(1)
    }

    /// The flow of the number is now this one. The number is at most `count()`; there it is a new flow. It is below 2^32 - 1, so that the flows
    /// can be counted then. A live one has it as its own.
    pub fn set(&mut self, flow: u32, state: FlowState<F>)
        requires room { 0 < self.old.room }
        requires place { flow ≤ length self.old.flows }
        requires last { flow < 2 ^ 32 - 1 }
        requires own { IsNumbered flow state }
        ensures flows { self.new.flows ≡ with_flow flow state self.old.flows }
        ensures room { self.old.room ≤ self.new.room + 1 }
    {
        let live = goes_on(&state);
        mark(&mut self.live, flow, live);
        put_at(&mut self.states, flow as usize, state);
    }
}

/// Whether the flow is live.
fn goes_on<F>(state: &FlowState<F>) -> bool
    ensures { result ≡ is_live state.now }
{
    match state {
        FlowState::Live(_) => true,
        FlowState::Ended { .. } | FlowState::Failed { .. } => false,
    }
}

/// The item in place of the one that stands there, or at the end.
#[tactic(auto, using(crate::proofs::Items::set_parts, crate::proofs::Items::push_parts))]
fn put_at<T: Drop>(items: &mut Vec<T>, place: usize, item: T)
    requires room { vec_len items.old < vec_capacity items.old }
    requires place { place ≤ length items.old.items }
    ensures items { items.new.items ≡ take place items.old.items ++ item
        ∷ drop (suc place) items.old.items }
    ensures capacity { vec_capacity items.old ≤ vec_capacity items.new }
    ensures len { vec_len items.new ≤ vec_len items.old + 1 }
{
    if place < items.len() {
        items[place] = item;
    } else {
        items.push(item).unwrap();
    }
}

/// The flow, lent.
fn lent<F>(state: &FlowState<F>) -> FlowView<'_, F>
    ensures { state_of result ≡ state.now }
{
    match state {
        FlowState::Live(at) => FlowView::Live(at),
        FlowState::Ended { step, class, value } => FlowView::Ended {
            step: *step,
            class: *class,
            value,
        },
        FlowState::Failed { step, class, code } => FlowView::Failed {
            step: *step,
            class: *class,
            code: *code,
        },
    }
}

/// Where the number stands in the numbers below it and those above it, or where it belongs.
fn place_of(live: &[u32], flow: u32) -> Result<usize, usize>
    requires { IsRising live.now }
    ensures range { MatchResult result (λ at. at < length live.now) (λ at. at ≤ length live.now) }
    ensures place { (lower upper : List ℕ) (there : Bool)
        → live.now ≡ lower ++ (where_true there flow ++ upper)
        → AllByRecursion (λ n. n < flow) lower → AllByRecursion (λ n. flow < n) upper
        → result ≡ (if there then Ok (length lower) else Err (length lower)) }
{
    live.binary_search(&flow)
}

/// Puts the number among the ascending ones where the flow is live, and else takes it out.
fn mark(live: &mut Vec<u32>, flow: u32, is_live: bool)
    requires room { vec_len live.old < vec_capacity live.old }
    requires rising { IsRising live.old.items }
    ensures marked { (lower upper : List ℕ) (there : Bool)
        → live.old.items ≡ lower ++ (where_true there flow ++ upper)
        → AllByRecursion (λ n. n < flow) lower → AllByRecursion (λ n. flow < n) upper
        → live.new.items ≡ lower ++ (where_true is_live flow ++ upper) }
    ensures capacity { vec_capacity live.old ≤ vec_capacity live.new }
    ensures len { vec_len live.new ≤ vec_len live.old + 1 }
{
    match place_of(live.as_slice(), flow) {
        Ok(at) => {
            if !is_live {
                live.remove(at);
            }
        }
        Err(at) => {
            if is_live {
                live.insert(at, flow).unwrap();
            }
        }
    }
}
