//! What the transactions of these flows are made of.

ghost use Rattle.std.specs.Prelude.{◌≡◌, ◌++◌, IfOk, map};
ghost use Rattle.ledger_types.specs.Vaults.{cash_amount};
ghost use Rattle.cash_flows.specs.Making.{own, cash, worth, left_of, rest_of};

use flow_machine::Place;
use flow_txs::{Code, plain};
use ledger_types::{Held, RefList, StateData, StateList, TxState};
use net_base::{ListOf, Party, Token};
use std::alloc::{AllocError, Global};

/// The token of this party and the code.
pub(crate) fn own(here: &Place, code: Code) -> Token
    ensures { result ≡ own here.entry.now code }
{
    let code = code.0;
    Token {
        issuer: here.me,
        code,
    }
}

/// Cash under the network's notary.
pub(crate) fn cash(here: &Place, token: Token, amount: u64, owner: Party) -> TxState
    ensures { result ≡ cash here.entry.now token amount owner }
{
    plain(
        here,
        StateData::Cash {
            token,
            amount,
            owner,
        },
    )
}

fn cash_amount(state: &StateData) -> u64
    ensures { result ≡ cash_amount state.now }
{
    match state {
        StateData::Cash { amount, .. } => *amount,
        _ => 0,
    }
}

/// The sum of the coins.
pub(crate) fn worth(coins: &[Held]) -> u128
    ensures { result ≡ worth coins.now }
{
    let mut sum: u128 = 0;
    for held in coins {
        let amount = cash_amount(&held.state.body);
        sum += amount as u128;
    }
    sum
}

/// What is left of the sum, at most the greatest `u64`.
fn left_of(sum: u128, amount: u64) -> u64
    ensures { result ≡ left_of sum amount }
{
    let left = sum.saturating_sub(amount as u128);
    if left < 18_446_744_073_709_551_615 {
        left as u64
    } else {
        u64::MAX
    }
}

/// The references of the coins, in their order.
pub(crate) fn references(alloc: Global, coins: &[Held]) -> Result<RefList, AllocError>
    ensures { IfOk result (λ l. l ≡ map (λ h. h.reference) coins.now) }
{
    let mut list = Vec::with_capacity(alloc, coins.len())?;
    for held in coins {
        list.push(held.reference)?;
    }
    Ok(ListOf::from_vec(list))
}

/// These outputs, and behind them the rest for this party where the sum is greater than the amount.
pub(crate) fn with_rest(
    alloc: Global,
    paid: &[TxState],
    token: Token,
    amount: u64,
    sum: u128,
    here: &Place,
) -> Result<StateList, AllocError>
    ensures { IfOk result (λ l. l ≡ paid.now ++ rest_of here.entry.now token amount sum) }
{
    let mut list = ListOf::from_slice(alloc, paid)?;
    if (amount as u128) < sum {
        list.push(cash(here, token, left_of(sum, amount), here.me))?;
    }
    Ok(list)
}
