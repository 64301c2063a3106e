//! Sums over states and commands, in 128 bits.

ghost use Rattle.std.specs.Prelude.{◌≡◌, ◌++◌, not};
ghost use Rattle.std.specs.List.{list_any};
ghost use Rattle.cash_contract.specs.Clauses.{value_in, value_issued, value_exited, is_conserved, tokens_of_states, tokens_of_commands, loses_value};

use crate::amounts::{amount_in, exited_by, issued_by, token_in, token_of};
use ledger_types::{Resolved, Tx, TxState};
use net_base::Token;

/// The value of the token in the states.
fn value_in(token: &Token, states: &[TxState]) -> u128
    ensures { result ≡ value_in token.now states.now }
{
    let mut value: u128 = 0;
    for state in states {
        value += amount_in(token, &state.body) as u128;
    }
    value
}

/// The value of the token that the transaction's commands issue.
fn value_issued(token: &Token, tx: &Tx) -> u128
    ensures { result ≡ value_issued token.now tx.now }
{
    let commands = tx.commands.as_slice();
    let mut value: u128 = 0;
    for command in commands {
        value += issued_by(token, &command.deed) as u128;
    }
    value
}

/// The value of the token that the transaction's commands exit.
fn value_exited(token: &Token, tx: &Tx) -> u128
    ensures { result ≡ value_exited token.now tx.now }
{
    let commands = tx.commands.as_slice();
    let mut value: u128 = 0;
    for command in commands {
        value += exited_by(token, &command.deed) as u128;
    }
    value
}

/// Whether the token is conserved. A sum is compared with its carry, so that none is too large.
fn is_conserved(tx: &Tx, resolved: &Resolved, token: &Token) -> bool
    ensures { result ≡ is_conserved tx.now resolved.now token.now }
{
    let gained = value_in(token, resolved.inputs.as_slice()).overflowing_add(value_issued(
        token, tx,
    ));
    let spent = value_in(token, tx.outputs.as_slice()).overflowing_add(value_exited(token, tx));
    gained.0 == spent.0 && gained.1 == spent.1
}

fn loses_of_states(states: &[TxState], tx: &Tx, resolved: &Resolved) -> bool
    ensures { result ≡ list_any (λ token. not (is_conserved tx.now resolved.now token))
        (tokens_of_states states.now) }
{
    states
        .iter()
        .filter_map(|state| token_in(&state.body))
        .any(|token| !is_conserved(tx, resolved, &token))
}

fn loses_of_any_state(tx: &Tx, resolved: &Resolved) -> bool
    ensures { result ≡ list_any (λ token. not (is_conserved tx.now resolved.now token))
        (tokens_of_states resolved.now.inputs ++ tokens_of_states tx.now.outputs) }
{
    loses_of_states(resolved.inputs.as_slice(), tx, resolved)
        || loses_of_states(tx.outputs.as_slice(), tx, resolved)
}

fn loses_of_commands(tx: &Tx, resolved: &Resolved) -> bool
    ensures { result ≡ list_any (λ token. not (is_conserved tx.now resolved.now token))
        (tokens_of_commands tx.now) }
{
    tx.commands
        .as_slice()
        .iter()
        .filter_map(|command| token_of(&command.deed))
        .any(|token| !is_conserved(tx, resolved, &token))
}

/// Whether for some token what goes in and is issued differs from what goes out and is exited.
pub(crate) fn loses_value(tx: &Tx, resolved: &Resolved) -> bool
    ensures { result ≡ loses_value tx.now resolved.now }
{
    loses_of_any_state(tx, resolved) || loses_of_commands(tx, resolved)
}
