//! The Cash contract.

ghost use Rattle.std.specs.Prelude.{◌≡◌};
ghost use Rattle.cash_contract.specs.Clauses as clause;

use crate::amounts::{is_unbacked, is_unsigned_exit, is_void, is_worthless, spends};
use crate::value::loses_value;
use contract_verify::LedgerContract;
use ledger_types::{Resolved, StateData, Tx};
use net_base::{Party, Token};
use tx_rules::first_true;

/// The contract of Cash states, number 1. It refuses, by the first of these clauses that applies:
///
/// 1. An output Cash has amount 0.
/// 2. A `CashIssue` or a `CashExit` has amount 0.
/// 3. For some token the sum of the Cash inputs and what is issued differs from the sum of the Cash outputs and what is exited.
/// 4. A `CashIssue` isn't signed by the token's issuer.
/// 5. A `CashExit` isn't signed by the issuer and by every owner of a Cash input of its token.
/// 6. The owner of a Cash input signs neither a `CashMove` nor a `CashExit` of its token.
#[derive(Clone, Copy, Debug, PartialEq, Eq)]
pub struct Cash;

fn has_worthless_output(tx: &Tx) -> bool
    ensures { result ≡ clause.has_worthless_output tx.now }
{
    tx.outputs
        .as_slice()
        .iter()
        .any(|state| is_worthless(&state.body))
}

fn has_void_deed(tx: &Tx) -> bool
    ensures { result ≡ clause.has_void_deed tx.now }
{
    tx.commands
        .as_slice()
        .iter()
        .any(|command| is_void(&command.deed))
}

fn has_unbacked_issue(tx: &Tx) -> bool
    ensures { result ≡ clause.has_unbacked_issue tx.now }
{
    tx.commands
        .as_slice()
        .iter()
        .any(|command| is_unbacked(command.signers, &command.deed))
}

fn has_unsigned_exit(tx: &Tx, resolved: &Resolved) -> bool
    ensures { result ≡ clause.has_unsigned_exit tx.now resolved.now }
{
    let inputs = resolved.inputs.as_slice();
    tx.commands.as_slice().iter().any(|command| is_unsigned_exit(
        inputs,
        command.signers,
        &command.deed,
    ))
}

fn signs_spending(tx: &Tx, token: &Token, owner: Party) -> bool
    ensures { result ≡ clause.signs_spending tx.now token.now owner }
{
    tx.commands.as_slice().iter().any(|command| spends(token, &command.deed)
        && command.signers.contains(owner))
}

fn is_taken(tx: &Tx, body: &StateData) -> bool
    ensures { result ≡ clause.is_taken tx.now body.now }
{
    match body {
        StateData::Cash { token, owner, .. } => !signs_spending(tx, token, *owner),
        _ => false,
    }
}

fn takes_cash(tx: &Tx, resolved: &Resolved) -> bool
    ensures { result ≡ clause.takes_cash tx.now resolved.now }
{
    resolved
        .inputs
        .as_slice()
        .iter()
        .any(|state| is_taken(tx, &state.body))
}

fn outcomes(tx: &Tx, resolved: &Resolved) -> [(u8, bool); 6]
    ensures { result ≡ clause.clauses tx.now resolved.now }
{
    [
        (1, has_worthless_output(tx)),
        (2, has_void_deed(tx)),
        (3, loses_value(tx, resolved)),
        (4, has_unbacked_issue(tx)),
        (5, has_unsigned_exit(tx, resolved)),
        (6, takes_cash(tx, resolved)),
    ]
}

#[tactic(auto, unfolding(crate::specs::Clauses::cash_says))]
impl LedgerContract for Cash {
    ghost use Rattle.cash_contract.specs.Clauses.{cash_says};

    ghost number = { λ _. 1 };

    ghost says = { λ _. cash_says };

    fn id(&self) -> u8 {
        1
    }

    fn verdict(&self, tx: &Tx, resolved: &Resolved) -> Option<u8> {
        first_true(&outcomes(tx, resolved))
    }
}
