//! The contract of Ious.

ghost use Rattle.std.specs.Prelude.{◌≡◌};
ghost use Rattle.small_contracts.specs.Ious as clause;

use crate::commands::{both_sign_iou_make, signs_iou_settle};
use crate::sums::{owed_in, paid_in};
use contract_verify::LedgerContract;
use ledger_types::{Resolved, StateData, Tx};
use tx_rules::first_true;

/// The contract of `Iou` states, number 4. It refuses, by the first of these clauses that applies:
///
/// 1. An output has amount 0, or its lender is its borrower.
/// 2. No one `IouMake` is signed by both lender and borrower of an output.
/// 3. The lender of an input signs no `IouSettle`.
/// 4. For some lender and token the output Cash of that lender is less than the amounts of its input Ious.
#[derive(Clone, Copy, Debug, PartialEq, Eq)]
pub struct Ious;

fn is_senseless(body: &StateData) -> bool
    ensures { result ≡ clause.is_senseless body.now }
{
    match body {
        StateData::Iou {
            lender,
            borrower,
            amount,
            ..
        } => *amount == 0 || lender.0 == borrower.0,
        _ => false,
    }
}

fn is_disputed(tx: &Tx, body: &StateData) -> bool
    ensures { result ≡ clause.is_disputed tx.now body.now }
{
    match body {
        StateData::Iou {
            lender,
            borrower,
            ..
        } => !both_sign_iou_make(tx, *lender, *borrower),
        _ => false,
    }
}

fn is_forgotten(tx: &Tx, body: &StateData) -> bool
    ensures { result ≡ clause.is_forgotten tx.now body.now }
{
    match body {
        StateData::Iou { lender, .. } => !signs_iou_settle(tx, *lender),
        _ => false,
    }
}

fn is_unpaid(tx: &Tx, resolved: &Resolved, body: &StateData) -> bool
    ensures { result ≡ clause.is_unpaid tx.now resolved.now body.now }
{
    match body {
        StateData::Iou { lender, token, .. } => {
            paid_in(*lender, token, tx.outputs.as_slice())
                < owed_in(*lender, token, resolved.inputs.as_slice())
        }
        _ => false,
    }
}

fn has_senseless_iou(tx: &Tx) -> bool
    ensures { result ≡ clause.has_senseless_iou tx.now }
{
    tx.outputs
        .as_slice()
        .iter()
        .any(|state| is_senseless(&state.body))
}

fn has_disputed_iou(tx: &Tx) -> bool
    ensures { result ≡ clause.has_disputed_iou tx.now }
{
    tx.outputs
        .as_slice()
        .iter()
        .any(|state| is_disputed(tx, &state.body))
}

fn forgets_iou(tx: &Tx, resolved: &Resolved) -> bool
    ensures { result ≡ clause.forgets_iou tx.now resolved.now }
{
    resolved
        .inputs
        .as_slice()
        .iter()
        .any(|state| is_forgotten(tx, &state.body))
}

fn underpays(tx: &Tx, resolved: &Resolved) -> bool
    ensures { result ≡ clause.underpays tx.now resolved.now }
{
    resolved
        .inputs
        .as_slice()
        .iter()
        .any(|state| is_unpaid(tx, resolved, &state.body))
}

fn outcomes(tx: &Tx, resolved: &Resolved) -> [(u8, bool); 4]
    ensures { result ≡ clause.iou_clauses tx.now resolved.now }
{
    [
        (1, has_senseless_iou(tx)),
        (2, has_disputed_iou(tx)),
        (3, forgets_iou(tx, resolved)),
        (4, underpays(tx, resolved)),
    ]
}

#[tactic(auto, unfolding(crate::specs::Ious::ious_say))]
impl LedgerContract for Ious {
    ghost use Rattle.small_contracts.specs.Ious.{ious_say};

    ghost number = { λ _. 4 };

    ghost says = { λ _. ious_say };

    fn id(&self) -> u8 {
        4
    }

    fn verdict(&self, tx: &Tx, resolved: &Resolved) -> Option<u8> {
        first_true(&outcomes(tx, resolved))
    }
}
