//! Selecting coins for a payment: unconsumed states whose sum reaches an amount (Corda 4 documentation, "Vault", "soft
//! locking"). The order in which they are taken and the limit of 64 are this project's. No function here takes memory.
#![tactic(auto)]

ghost use Rattle.std.specs.Prelude.{◌≡◌, ◌<◌, IfOk, IfErr};
ghost use Rattle.coin_select.specs.Picking.{worth_of, candidates, IsLeastPrefix};

use thiserror::Error;

/// How many coins one payment looks at, and so takes at most.
const LIMIT: usize = 64;

/// A coin that may be spent.
#[derive(Clone, Copy, Debug, PartialEq, Eq)]
pub struct Coin {
    /// Where its owner finds it: a number that means nothing here.
    pub place: u32,
    /// What it is worth, in the token's smallest unit.
    pub amount: u64,
}

/// The coins looked at don't reach the amount.
#[derive(Clone, Copy, Debug, PartialEq, Eq, Error)]
#[error("the coins are worth {have} together")]
pub struct PickShort {
    /// What they are worth together.
    pub have: u128,
}

/// The least number of first coins whose sum reaches `amount`, in the order in which they stand. Only the first 64 are
/// looked at; where these don't reach the amount, the answer is `PickShort` with their sum.
pub fn pick(coins: &[Coin], amount: u64) -> Result<usize, PickShort>
    ensures picked { IfOk result (IsLeastPrefix coins.now amount) }
    ensures short { IfErr result (λ e. (e.have ≡ worth_of (candidates coins.now))
        × (e.have < amount)) }
{
    let looked = coins.len().min(LIMIT);
    let mut have: u128 = 0;
    for i in 0..looked {
        if have >= amount as u128 {
            return Ok(i);
        }
        let next = coins[i].amount;
        have += next as u128;
    }
    if have < amount as u128 {
        return Err(PickShort { have });
    }
    Ok(looked)
}
