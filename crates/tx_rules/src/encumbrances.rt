//! The rules on encumbrances, over the pairs of an encumbered output and the output that encumbers it.

ghost use Rattle.std.specs.Prelude.{◌≡◌, ◌==◌, map};
ghost use Rattle.std.specs.List.{list_all};
ghost use Rattle.ledger_types.specs.Rules as rule;
ghost use Rattle.ledger_types.specs.Names.{has_number};

use crate::references::contains;
use ledger_types::{Resolved, Tx, TxState};
use net_base::StateRef;

fn pair_at(place: usize, state: &TxState) -> Option<(usize, usize)>
    ensures { result ≡ rule.encumbrance_at (place, state.now) }
{
    match state.encumbrance {
        None => None,
        Some(other) => Some((place, other as usize)),
    }
}

/// Whether an output's encumbrance is at least the number of outputs.
pub(crate) fn has_encumbrance_out_of_range(tx: &Tx) -> bool
    ensures { result ≡ rule.has_encumbrance_out_of_range tx.now }
{
    let outputs = tx.outputs.as_slice();
    let count = outputs.len();
    outputs
        .iter()
        .enumerate()
        .filter_map(|(place, state)| pair_at(place, state))
        .any(|pair| count <= pair.1)
}

/// Whether an output encumbers itself.
pub(crate) fn has_self_encumbrance(tx: &Tx) -> bool
    ensures { result ≡ rule.has_self_encumbrance tx.now }
{
    tx.outputs
        .as_slice()
        .iter()
        .enumerate()
        .filter_map(|(place, state)| pair_at(place, state))
        .any(|pair| pair.0 == pair.1)
}

fn shares(outputs: &[TxState], pair: (usize, usize)) -> bool
    ensures { result ≡ rule.shares_encumbrance outputs.now pair }
{
    outputs
        .iter()
        .enumerate()
        .filter_map(|(place, state)| pair_at(place, state))
        .any(|other| other.0 != pair.0 && other.1 == pair.1)
}

/// Whether two outputs name the same encumbrance.
pub(crate) fn has_shared_encumbrance(tx: &Tx) -> bool
    ensures { result ≡ rule.has_shared_encumbrance tx.now }
{
    let outputs = tx.outputs.as_slice();
    outputs
        .iter()
        .enumerate()
        .filter_map(|(place, state)| pair_at(place, state))
        .any(|pair| shares(outputs, pair))
}

fn is_encumbered(outputs: &[TxState], place: usize) -> bool
    ensures { result ≡ has_number place (rule.encumbered outputs.now) }
{
    outputs
        .iter()
        .enumerate()
        .filter_map(|(place, state)| pair_at(place, state))
        .map(|pair| pair.0)
        .any(|encumbered| encumbered == place)
}

fn is_encumbering(outputs: &[TxState], place: usize) -> bool
    ensures { result ≡ has_number place (rule.encumbering outputs.now) }
{
    outputs
        .iter()
        .enumerate()
        .filter_map(|(place, state)| pair_at(place, state))
        .map(|pair| pair.1)
        .any(|encumbering| encumbering == place)
}

fn all_encumbered_encumber(outputs: &[TxState]) -> bool
    ensures { result ≡ list_all (λ n. has_number n (rule.encumbering outputs.now))
        (rule.encumbered outputs.now) }
{
    outputs
        .iter()
        .enumerate()
        .filter_map(|(place, state)| pair_at(place, state))
        .map(|pair| pair.0)
        .all(|place| is_encumbering(outputs, place))
}

fn all_encumbering_are_encumbered(outputs: &[TxState]) -> bool
    ensures { result ≡ list_all (λ n. has_number n (rule.encumbered outputs.now))
        (rule.encumbering outputs.now) }
{
    outputs
        .iter()
        .enumerate()
        .filter_map(|(place, state)| pair_at(place, state))
        .map(|pair| pair.1)
        .all(|place| is_encumbered(outputs, place))
}

/// Whether the set of encumbered outputs differs from the set of encumbering ones.
pub(crate) fn has_open_encumbrance(tx: &Tx) -> bool
    ensures { result ≡ rule.has_open_encumbrance tx.now }
{
    let outputs = tx.outputs.as_slice();
    !(all_encumbered_encumber(outputs) && all_encumbering_are_encumbered(outputs))
}

fn lacks_encumbrance(inputs: &[StateRef], input: &StateRef, encumbrance: Option<u8>) -> bool
    ensures { result ≡ rule.lacks_encumbrance inputs.now input.now encumbrance }
{
    match encumbrance {
        None => false,
        Some(other) => {
            let wanted = StateRef {
                id: input.id,
                index: other as u32,
            };
            !contains(inputs, &wanted)
        }
    }
}

/// Whether the state of an input names an encumbrance, and that output of the same transaction isn't an input.
pub(crate) fn leaves_encumbrance(tx: &Tx, resolved: &Resolved) -> bool
    ensures { result ≡ rule.leaves_encumbrance tx.now resolved.now }
{
    let inputs = tx.inputs.as_slice();
    inputs.iter().zip(resolved.inputs.as_slice().iter()).any(|(input, state)| lacks_encumbrance(
        inputs,
        input,
        state.encumbrance,
    ))
}
