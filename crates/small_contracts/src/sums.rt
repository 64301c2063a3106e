//! What a lender is owed and paid, in 128 bits.

ghost use Rattle.std.specs.Prelude.{◌≡◌};
ghost use Rattle.small_contracts.specs.Ious.{paid_by, owed_by, paid_in, owed_in};

use ledger_types::{StateData, TxState};
use net_base::{Party, Token};

fn paid_by(party: Party, token: &Token, body: &StateData) -> u64
    ensures { result ≡ paid_by party token.now body.now }
{
    match body {
        StateData::Cash {
            token: other,
            amount,
            owner,
        } if owner.0 == party.0 && other == token => *amount,
        _ => 0,
    }
}

fn owed_by(party: Party, token: &Token, body: &StateData) -> u64
    ensures { result ≡ owed_by party token.now body.now }
{
    match body {
        StateData::Iou {
            lender,
            token: other,
            amount,
            ..
        } if lender.0 == party.0 && other == token => *amount,
        _ => 0,
    }
}

/// The Cash of the token that the states give the party.
pub(crate) fn paid_in(party: Party, token: &Token, states: &[TxState]) -> u128
    ensures { result ≡ paid_in party token.now states.now }
{
    let mut sum: u128 = 0;
    for state in states {
        sum += paid_by(party, token, &state.body) as u128;
    }
    sum
}

/// What the states say that the party is owed of the token.
pub(crate) fn owed_in(party: Party, token: &Token, states: &[TxState]) -> u128
    ensures { result ≡ owed_in party token.now states.now }
{
    let mut sum: u128 = 0;
    for state in states {
        sum += owed_by(party, token, &state.body) as u128;
    }
    sum
}
