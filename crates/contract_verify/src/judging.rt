//! Verdicts by any contracts.

ghost use Rattle.std.specs.Prelude.{◌≡◌, ◌||◌, length, filter};
ghost use Rattle.ledger_types.specs.Verdicts.{contract_of, governs, told_by, judged_by, verdict_of};
ghost use Rattle.contract_verify.specs.Refusals.{refusal_of};

use crate::contract::LedgerContract;
use ledger_types::{Resolved, StateData, Tx, TxState, Verdict};
use tx_rules::check;

/// The number of the contract that governs the state.
fn contract_number(body: &StateData) -> u8
    ensures { result ≡ contract_of body.now }
{
    match body {
        StateData::Cash { .. } => 1,
        StateData::TimeLock { .. } => 2,
        StateData::Fact { .. } => 3,
        StateData::Iou { .. } => 4,
    }
}

fn is_governed(states: &[TxState], id: u8) -> bool
    ensures { result ≡ governs states.now id }
{
    states
        .iter()
        .any(|state| contract_number(&state.body) == id)
}

/// What the first contract of this number says, and nothing where there is none.
#[tactic(auto, using(crate::proofs::Skips::skip_one))]
fn ask<C: LedgerContract>(
    contracts: &[C],
    id: u8,
    tx: &Tx,
    resolved: &Resolved,
) -> Option<Option<u8>>
    ensures { result ≡ told_by C.number C.says contracts.now id tx.now resolved.now }
{
    match contracts {
        [] => None,
        [first, rest @ ..] => {
            if first.id() == id {
                Some(first.verdict(tx, resolved))
            } else {
                ask(rest, id, tx, resolved)
            }
        }
    }
}

/// What comes of the contract of this number, unless it accepts or governs no input and no output.
fn refusal<C: LedgerContract>(
    contracts: &[C],
    id: u8,
    tx: &Tx,
    resolved: &Resolved,
) -> Option<Verdict>
    ensures { result ≡ refusal_of (governs resolved.now.inputs id || governs tx.now.outputs id) id
        (told_by C.number C.says contracts.now id tx.now resolved.now) }
{
    if !is_governed(resolved.inputs.as_slice(), id) && !is_governed(tx.outputs.as_slice(), id) {
        return None;
    }
    match ask(contracts, id, tx, resolved) {
        None => Some(Verdict::NoContract { id }),
        Some(None) => None,
        Some(Some(clause)) => Some(Verdict::Refused {
            contract: id,
            clause,
        }),
    }
}

/// What the contracts of these numbers say, of those that govern an input or an output.
#[tactic(auto, using(crate::proofs::Skips::judged_at))]
fn judge<C: LedgerContract>(contracts: &[C], ids: &[u8], tx: &Tx, resolved: &Resolved) -> Verdict
    ensures { result ≡ judged_by (λ id.
        told_by C.number C.says contracts.now id tx.now resolved.now)
        (filter (λ id. governs resolved.now.inputs id || governs tx.now.outputs id) ids.now) }
{
    for id in ids {
        if let Some(verdict) = refusal(contracts, *id, tx, resolved) {
            return verdict;
        }
    }
    Verdict::Accepted
}

/// The verdict of the rules and these contracts.
#[tactic(auto, unfolding(ledger_types::specs::Verdicts::verdict_of))]
pub(crate) fn verdict_among<C: LedgerContract>(
    contracts: &[C],
    tx: &Tx,
    resolved: &Resolved,
) -> Verdict
    requires inputs { length resolved.now.inputs ≡ length tx.now.inputs }
    requires references { length resolved.now.references ≡ length tx.now.references }
    ensures { result ≡ verdict_of (told_by C.number C.says contracts.now) tx.now resolved.now }
{
    match check(tx, resolved) {
        Err(broken) => Verdict::Broken { rule: broken.rule },
        Ok(()) => judge(contracts, &[1, 2, 3, 4], tx, resolved),
    }
}
