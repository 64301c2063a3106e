//! The balances of a vault, and the totals of several.

ghost use Rattle.std.specs.Prelude.{◌≡◌, ◌≤◌, IfOk, OnOk, MatchOption, string_bytes, length, insert};
ghost use Rattle.std.specs.List.{AllByRecursion};
ghost use Rattle.net_base.specs.Names.{IsToken};
ghost use Rattle.ledger_types.specs.Vaults.{IsHeld, is_cash_of, cash_amount, balance_of};
ghost use Rattle.shell_report.specs.LedgerText.{token_order, with_token, with_body, tokens_of, balance_line, balance_lines, balance_text, total_line, total_lines, totals_text};

use crate::names::token_text;
use ledger_types::{Held, StateData};
use net_base::Token;
use std::alloc::{AllocError, Global};
use std::cmp::Ordering;
use std::fmt::Write;
use vault::Vault;

/// By issuer, and then by code.
fn token_order(a: &Token, b: &Token) -> Ordering
    ensures { result ≡ token_order a.now b.now }
{
    a.issuer.0.cmp(&b.issuer.0).then(a.code.cmp(&b.code))
}

/// Where a token goes among ascending ones; `None` where it is one of them.
fn place_for(tokens: &[Token], token: &Token) -> Option<usize>
    ensures { MatchOption result (with_token token.now tokens.now ≡ tokens.now)
        (λ place. (place ≤ length tokens.now)
        × (with_token token.now tokens.now ≡ insert tokens.now place token.now)) }
{
    let mut place = 0;
    for other in tokens {
        match token_order(token, other) {
            Ordering::Less => return Some(place),
            Ordering::Equal => return None,
            Ordering::Greater => place += 1,
        }
    }
    Some(place)
}

/// Adds a token to ascending ones, if it is none of them.
fn add_token(tokens: &mut Vec<Token>, token: &Token) -> Result<(), AllocError>
    ensures { OnOk result (tokens.new.items ≡ with_token token.now tokens.old.items) }
{
    if let Some(place) = place_for(tokens.as_slice(), token) {
        tokens.insert(place, *token)?;
    }
    Ok(())
}

/// Adds the token of a state to ascending ones, if it is Cash.
fn add_body(tokens: &mut Vec<Token>, body: &StateData) -> Result<(), AllocError>
    ensures { OnOk result (tokens.new.items ≡ with_body body.now tokens.old.items) }
{
    match body {
        StateData::Cash { token, .. } => add_token(tokens, token),
        _ => Ok(()),
    }
}

/// The tokens of the Cash among states, each once and ascending.
fn tokens_of(alloc: Global, states: &[Held]) -> Result<Vec<Token>, AllocError>
    ensures { IfOk result (λ tokens. tokens.items ≡ tokens_of states.now) }
{
    let mut tokens = Vec::new(alloc);
    for held in states {
        add_body(&mut tokens, &held.state.body)?;
    }
    Ok(tokens)
}

/// The line of a token, without its end.
fn balance_line(alloc: Global, vault: &Vault, token: &Token) -> Result<String, AllocError>
    requires { IsToken token.now }
    ensures { IfOk result (λ text. string_bytes text ≡ balance_line vault.now.held token.now) }
{
    let name = token_text(alloc, token)?;
    let sum = vault.balance(token);
    let line = format!(in alloc; "balance {name} {sum}")?;
    Ok(line)
}

/// A line for each of these tokens.
fn balance_lines(alloc: Global, vault: &Vault, tokens: &[Token]) -> Result<String, AllocError>
    requires { AllByRecursion IsToken tokens.now }
    ensures { IfOk result (λ text. string_bytes text ≡ balance_lines vault.now.held tokens.now) }
{
    let mut out = String::new(alloc);
    for token in tokens {
        let line = balance_line(alloc, vault, token)?;
        writeln!(out, "{line}")?;
    }
    Ok(out)
}

/// A line for each token of which a vault holds Cash, locked or not, ascending by issuer and by code, or the line `none`. For each
/// token it goes through the states.
///
/// # Errors
///
/// `AllocError` for want of memory.
pub fn balance_text(alloc: Global, vault: &Vault) -> Result<String, AllocError>
    ensures { IfOk result (λ text. string_bytes text ≡ balance_text vault.now.held) }
{
    let states = vault.unconsumed(alloc)?;
    let tokens = tokens_of(alloc, states.as_slice())?;
    if tokens.len() == 0 {
        return String::from_str(alloc, "none\n");
    }
    balance_lines(alloc, vault, tokens.as_slice())
}

fn is_cash_of(token: &Token, state: &StateData) -> bool
    ensures { result ≡ is_cash_of token.now state.now }
{
    match state {
        StateData::Cash { token: other, .. } => token == other,
        _ => false,
    }
}

fn cash_amount(state: &StateData) -> u64
    ensures { result ≡ cash_amount state.now }
{
    match state {
        StateData::Cash { amount, .. } => *amount,
        _ => 0,
    }
}

/// The sum of the Cash of a token among states.
fn total_of(states: &[Held], token: &Token) -> u128
    ensures { result ≡ balance_of token.now states.now }
{
    let mut sum: u128 = 0;
    for held in states {
        if is_cash_of(token, &held.state.body) {
            sum += cash_amount(&held.state.body) as u128;
        }
    }
    sum
}

/// The line of a token among states, without its end.
fn total_line(alloc: Global, states: &[Held], token: &Token) -> Result<String, AllocError>
    requires { IsToken token.now }
    ensures { IfOk result (λ text. string_bytes text ≡ total_line states.now token.now) }
{
    let name = token_text(alloc, token)?;
    let sum = total_of(states, token);
    let line = format!(in alloc; "total {name} {sum}")?;
    Ok(line)
}

/// A line for each of these tokens.
fn total_lines(alloc: Global, states: &[Held], tokens: &[Token]) -> Result<String, AllocError>
    requires { AllByRecursion IsToken tokens.now }
    ensures { IfOk result (λ text. string_bytes text ≡ total_lines states.now tokens.now) }
{
    let mut out = String::new(alloc);
    for token in tokens {
        let line = total_line(alloc, states, token)?;
        writeln!(out, "{line}")?;
    }
    Ok(out)
}

/// A line for each token of which there is Cash among the states of several vaults, locked or not, ascending by issuer and by code;
/// no line where there is none. For each token it goes through the states, each of which is as a vault holds it.
///
/// # Errors
///
/// `AllocError` for want of memory.
pub fn totals_text(alloc: Global, states: &[Held]) -> Result<String, AllocError>
    requires { AllByRecursion IsHeld states.now }
    ensures { IfOk result (λ text. string_bytes text ≡ totals_text states.now) }
{
    let tokens = tokens_of(alloc, states)?;
    total_lines(alloc, states, tokens.as_slice())
}
