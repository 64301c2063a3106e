//! The contract of facts.

ghost use Rattle.std.specs.Prelude.{◌≡◌};
ghost use Rattle.small_contracts.specs.Facts as clause;

use crate::commands::{signs_fact_change, signs_fact_output};
use contract_verify::LedgerContract;
use ledger_types::{Resolved, StateData, Tx, TxState};
use tx_rules::first_true;

/// The contract of `Fact` states, number 3. It refuses, by the first of these clauses that applies:
///
/// 1. The issuer of an output signs neither `FactIssue` nor `FactChange`.
/// 2. The issuer of an input signs no `FactChange`.
/// 3. Two outputs have the same issuer and name.
#[derive(Clone, Copy, Debug, PartialEq, Eq)]
pub struct Facts;

fn is_unclaimed(tx: &Tx, body: &StateData) -> bool
    ensures { result ≡ clause.is_unclaimed tx.now body.now }
{
    match body {
        StateData::Fact { issuer, .. } => !signs_fact_output(tx, *issuer),
        _ => false,
    }
}

fn is_replaced(tx: &Tx, body: &StateData) -> bool
    ensures { result ≡ clause.is_replaced tx.now body.now }
{
    match body {
        StateData::Fact { issuer, .. } => !signs_fact_change(tx, *issuer),
        _ => false,
    }
}

fn same_fact(one: &StateData, other: &StateData) -> bool
    ensures { result ≡ clause.same_fact one.now other.now }
{
    match (*one, *other) {
        (
            StateData::Fact { issuer, name, .. },
            StateData::Fact {
                issuer: other_issuer,
                name: other_name,
                ..
            },
        ) => issuer.0 == other_issuer.0 && name == other_name,
        _ => false,
    }
}

fn is_told_twice(outputs: &[TxState], place: usize, state: &TxState) -> bool
    ensures { result ≡ clause.is_told_twice outputs.now (place, state.now) }
{
    outputs.iter().enumerate().any(|(other, output)| other != place
        && same_fact(&output.body, &state.body))
}

fn has_unclaimed_fact(tx: &Tx) -> bool
    ensures { result ≡ clause.has_unclaimed_fact tx.now }
{
    tx.outputs
        .as_slice()
        .iter()
        .any(|state| is_unclaimed(tx, &state.body))
}

fn replaces_fact(tx: &Tx, resolved: &Resolved) -> bool
    ensures { result ≡ clause.replaces_fact tx.now resolved.now }
{
    resolved
        .inputs
        .as_slice()
        .iter()
        .any(|state| is_replaced(tx, &state.body))
}

fn tells_twice(tx: &Tx) -> bool
    ensures { result ≡ clause.tells_twice tx.now }
{
    let outputs = tx.outputs.as_slice();
    outputs
        .iter()
        .enumerate()
        .any(|(place, state)| is_told_twice(outputs, place, state))
}

fn outcomes(tx: &Tx, resolved: &Resolved) -> [(u8, bool); 3]
    ensures { result ≡ clause.fact_clauses tx.now resolved.now }
{
    [
        (1, has_unclaimed_fact(tx)),
        (2, replaces_fact(tx, resolved)),
        (3, tells_twice(tx)),
    ]
}

#[tactic(auto, unfolding(crate::specs::Facts::facts_say))]
impl LedgerContract for Facts {
    ghost use Rattle.small_contracts.specs.Facts.{facts_say};

    ghost number = { λ _. 3 };

    ghost says = { λ _. facts_say };

    fn id(&self) -> u8 {
        3
    }

    fn verdict(&self, tx: &Tx, resolved: &Resolved) -> Option<u8> {
        first_true(&outcomes(tx, resolved))
    }
}
