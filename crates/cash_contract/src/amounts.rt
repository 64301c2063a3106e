//! What is said of single states and commands.

ghost use Rattle.std.specs.Prelude.{◌≡◌};
ghost use Rattle.cash_contract.specs.Clauses.{is_worthless, is_void, amount_in, issued_by, exited_by, token_in, token_of, is_unbacked, is_unsigned_cash, is_unsigned_exit, spends};
ghost use Rattle.std.specs.List.{list_any};

use ledger_types::{Deed, StateData, TxState};
use net_base::{PartySet, Token};

/// Whether the state is Cash of amount 0.
pub(crate) fn is_worthless(body: &StateData) -> bool
    ensures { result ≡ is_worthless body.now }
{
    match body {
        StateData::Cash { amount, .. } => *amount == 0,
        _ => false,
    }
}

/// Whether the deed issues or exits an amount of 0.
pub(crate) fn is_void(deed: &Deed) -> bool
    ensures { result ≡ is_void deed.now }
{
    match deed {
        Deed::CashIssue { amount, .. } => *amount == 0,
        Deed::CashExit { amount, .. } => *amount == 0,
        _ => false,
    }
}

/// The amount of the token in the state.
pub(crate) fn amount_in(token: &Token, body: &StateData) -> u64
    ensures { result ≡ amount_in token.now body.now }
{
    match body {
        StateData::Cash {
            token: other,
            amount,
            ..
        } if other == token => *amount,
        _ => 0,
    }
}

/// The amount of the token that the deed issues.
pub(crate) fn issued_by(token: &Token, deed: &Deed) -> u64
    ensures { result ≡ issued_by token.now deed.now }
{
    match deed {
        Deed::CashIssue {
            token: other,
            amount,
        } if other == token => *amount,
        _ => 0,
    }
}

/// The amount of the token that the deed exits.
pub(crate) fn exited_by(token: &Token, deed: &Deed) -> u64
    ensures { result ≡ exited_by token.now deed.now }
{
    match deed {
        Deed::CashExit {
            token: other,
            amount,
        } if other == token => *amount,
        _ => 0,
    }
}

/// The token of the state.
pub(crate) fn token_in(body: &StateData) -> Option<Token>
    ensures { result ≡ token_in body.now }
{
    match body {
        StateData::Cash { token, .. } => Some(*token),
        _ => None,
    }
}

/// The token that the deed issues or exits.
pub(crate) fn token_of(deed: &Deed) -> Option<Token>
    ensures { result ≡ token_of deed.now }
{
    match deed {
        Deed::CashIssue { token, .. } => Some(*token),
        Deed::CashExit { token, .. } => Some(*token),
        _ => None,
    }
}

/// Whether the deed, with these signers, issues a token without its issuer.
pub(crate) fn is_unbacked(signers: PartySet, deed: &Deed) -> bool
    ensures { result ≡ is_unbacked signers deed.now }
{
    match deed {
        Deed::CashIssue { token, .. } => !signers.contains(token.issuer),
        _ => false,
    }
}

fn is_unsigned_cash(token: &Token, signers: PartySet, body: &StateData) -> bool
    ensures { result ≡ is_unsigned_cash token.now signers body.now }
{
    match body {
        StateData::Cash {
            token: other,
            owner,
            ..
        } => other == token && !signers.contains(*owner),
        _ => false,
    }
}

fn has_unsigned_cash(token: &Token, signers: PartySet, inputs: &[TxState]) -> bool
    ensures { result ≡ list_any (λ s. is_unsigned_cash token.now signers s.body) inputs.now }
{
    inputs
        .iter()
        .any(|state| is_unsigned_cash(token, signers, &state.body))
}

/// Whether the deed, with these signers, exits a token without its issuer, or without an owner of an input of it.
pub(crate) fn is_unsigned_exit(inputs: &[TxState], signers: PartySet, deed: &Deed) -> bool
    ensures { result ≡ is_unsigned_exit inputs.now signers deed.now }
{
    match deed {
        Deed::CashExit { token, .. } => {
            !signers.contains(token.issuer) || has_unsigned_cash(token, signers, inputs)
        }
        _ => false,
    }
}

/// Whether the deed lets its signers spend the token.
pub(crate) fn spends(token: &Token, deed: &Deed) -> bool
    ensures { result ≡ spends token.now deed.now }
{
    match deed {
        Deed::CashMove => true,
        Deed::CashExit { token: other, .. } => other == token,
        _ => false,
    }
}
