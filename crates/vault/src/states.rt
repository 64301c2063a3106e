//! Tests of single states, and what the calls of a vault do to its list of states.

ghost use Rattle.std.specs.Prelude.{◌≡◌, ◌≤◌, ◌<◌, ◌+◌, ◌-◌, ◌^◌, ◌++◌, ◌∷◌, [], not, vec_len, vec_capacity, length, map, filter, take, IfOk, if◌then◌else◌};
ghost use Rattle.std.specs.List.{list_any};
ghost use Rattle.ledger_types.specs.Names.{has_ref};
ghost use Rattle.ledger_types.specs.Vaults.{is_relevant, is_cash, is_cash_of, cash_amount, is_free, has_coin, coins_of, balance_of, outputs_from};
ghost use Rattle.vault.specs.Holdings.{locked_in, freed_of, becomes_coin, gains};

use coin_select::Coin;
use ledger_types::{Held, StateData, TxState};
use net_base::{Hash32, Party, StateRef, Token};
use std::alloc::{AllocError, Global};

/// How many coins of a token one reservation looks at.
const LIMIT: usize = 64;

/// Whether a state is relevant to a party: Cash and TimeLocks that it owns, Facts that it issued, and Ious in which it is
/// lender or borrower.
fn is_relevant(me: Party, state: &StateData) -> bool
    ensures { result ≡ is_relevant me state.now }
{
    match state {
        StateData::Cash { owner, .. } => *owner == me,
        StateData::TimeLock { owner, .. } => *owner == me,
        StateData::Fact { issuer, .. } => *issuer == me,
        StateData::Iou {
            lender,
            borrower,
            ..
        } => *lender == me || *borrower == me,
    }
}

fn is_cash(state: &StateData) -> bool
    ensures { result ≡ is_cash state.now }
{
    matches!(state, StateData::Cash { .. })
}

fn is_cash_of(token: &Token, state: &StateData) -> bool
    ensures { result ≡ is_cash_of token.now state.now }
{
    match state {
        StateData::Cash { token: other, .. } => token == other,
        _ => false,
    }
}

fn cash_amount(state: &StateData) -> u64
    ensures { result ≡ cash_amount state.now }
{
    match state {
        StateData::Cash { amount, .. } => *amount,
        _ => 0,
    }
}

/// Whether nothing encumbers the state and no flow has it locked.
fn is_free(held: &Held) -> bool
    ensures { result ≡ is_free held.now }
{
    held.state.encumbrance.is_none() && held.locked.is_none()
}

/// Whether the reference names a coin of some token. It goes through the states.
pub fn has_coin(states: &[Held], reference: &StateRef) -> bool
    ensures { result ≡ has_coin states.now reference.now }
{
    for held in states {
        if held.reference == *reference && is_cash(&held.state.body) && is_free(held) {
            return true;
        }
    }
    false
}

/// The sum of the Cash of a token. It goes through the states.
pub fn balance(states: &[Held], token: &Token) -> u128
    ensures { result ≡ balance_of token.now states.now }
{
    let mut sum: u128 = 0;
    for held in states {
        if is_cash_of(token, &held.state.body) {
            let amount = cash_amount(&held.state.body);
            sum += amount as u128;
        }
    }
    sum
}

/// The first 64 coins of a token. It goes through the states, until it has found as many.
pub fn first_coins(alloc: Global, states: &[Held], token: &Token) -> Result<Vec<Held>, AllocError>
    ensures { IfOk result (λ coins. coins.items ≡ take 64 (coins_of token.now states.now)) }
{
    let mut coins = Vec::new(alloc);
    for held in states {
        if coins.len() == LIMIT {
            return Ok(coins);
        }
        if is_cash_of(token, &held.state.body) && is_free(held) {
            coins.push(*held)?;
        }
    }
    Ok(coins)
}

/// What coins are worth, in their order.
pub fn amounts(alloc: Global, coins: &[Held]) -> Result<Vec<Coin>, AllocError>
    requires { length coins.now ≤ 64 }
    ensures { IfOk result (λ list. map (λ c. c.amount) list.items
        ≡ map (λ h. cash_amount h.state.body) coins.now) }
{
    let mut list = Vec::with_capacity(alloc, coins.len())?;
    for i in 0..coins.len() {
        list.push(Coin {
            place: i as u32,
            amount: cash_amount(&coins[i].state.body),
        })?;
    }
    Ok(list)
}

/// Takes the states that are consumed out of the list. It goes through the states.
pub fn remove_consumed(states: &mut Vec<Held>, inputs: &[StateRef])
    ensures items { states.new.items ≡ filter
        (λ h. not (has_ref h.reference inputs.now)) states.old.items }
    ensures bound { vec_len states.new ≤ vec_len states.old }
    ensures capacity { vec_capacity states.new ≡ vec_capacity states.old }
{
    states.retain(|held| !inputs.contains(&held.reference));
}

/// Adds a state where it is relevant to a party.
fn add_if_relevant(states: &mut Vec<Held>, me: Party, held: Held)
    requires { vec_len states.old < vec_capacity states.old }
    ensures items { states.new.items ≡ states.old.items
        ++ (if is_relevant me held.state.body then held ∷ [] else []) }
    ensures bound { vec_len states.new ≤ vec_len states.old + 1 }
    ensures capacity { vec_capacity states.old ≤ vec_capacity states.new }
{
    if is_relevant(me, &held.state.body) {
        states.push(held).unwrap();
    }
}

/// Adds the outputs of a transaction that are relevant to a party.
pub fn add_relevant(states: &mut Vec<Held>, me: Party, id: &Hash32, outputs: &[TxState])
    requires few { length outputs.now ≤ 64 }
    requires room { length outputs.now ≤ vec_capacity states.old - vec_len states.old }
    ensures items { states.new.items ≡ states.old.items
        ++ filter (λ h. is_relevant me h.state.body) (outputs_from [] id.now 0 outputs.now) }
    ensures bound { vec_len states.new ≤ vec_len states.old + length outputs.now }
    ensures capacity { vec_capacity states.old ≤ vec_capacity states.new }
{
    for i in 0..outputs.len() {
        let reference = StateRef {
            id: *id,
            index: i as u32,
        };
        let held = Held {
            reference,
            state: outputs[i],
            locked: None,
        };
        add_if_relevant(states, me, held);
    }
}

/// Locks a state for a flow where it is one of the references.
fn lock_if_named(held: &mut Held, flow: u32, refs: &[StateRef])
    ensures { held.new ≡ locked_in flow refs.now held.old }
{
    if refs.contains(&held.reference) {
        held.locked = Some(flow);
    }
}

/// Locks the states that the references name, for a flow. It goes through the states.
pub fn lock_each(states: &mut [Held], flow: u32, refs: &[StateRef])
    ensures { states.new ≡ map (locked_in flow refs.now) states.old }
{
    for held in states.iter_mut() {
        lock_if_named(held, flow, refs);
    }
}

/// Takes the lock of a flow from a state.
fn free_if_locked(held: &mut Held, flow: u32)
    ensures { held.new ≡ freed_of flow held.old }
{
    if held.locked == Some(flow) {
        held.locked = None;
    }
}

/// Takes the locks of a flow away. It goes through the states.
pub fn free_each(states: &mut [Held], flow: u32)
    ensures { states.new ≡ map (freed_of flow) states.old }
{
    for held in states.iter_mut() {
        free_if_locked(held, flow);
    }
}

/// Whether an output is a coin of the party once its transaction is noted: relevant Cash that nothing encumbers.
fn is_new_coin(me: Party, state: &TxState) -> bool
    ensures { result ≡ becomes_coin me state.now }
{
    is_relevant(me, &state.body) && (is_cash(&state.body) && state.encumbrance.is_none())
}

/// Whether the reference names a coin of the party among these outputs of a transaction, the first of which stands at place `n`.
#[tactic(auto, using(crate::proofs::Gaining::gains_one))]
pub fn gains_coin(me: Party, id: &Hash32, n: u32, outputs: &[TxState], reference: &StateRef) -> bool
    requires { n + length outputs.now < 2 ^ 32 }
    ensures { result ≡ list_any (gains me reference.now) (outputs_from [] id.now n outputs.now) }
{
    match outputs {
        [] => false,
        [first, rest @ ..] => {
            let here = StateRef { id: *id, index: n };
            (is_new_coin(me, first) && here == *reference)
                || gains_coin(me, id, n + 1, rest, reference)
        }
    }
}
