use super::columns::hash;
use anyhow::{Result, bail};
use coin_select::{Coin, PickShort, pick};
use ledger_types::{Window, consumer_hash};
use net_base::Moment;
use std::alloc::Global;

/// `consumer ID`: the hash by which a conflict names the transaction that consumed.
pub fn consumer_of(alloc: Global, values: &[&str]) -> Result<String> {
    let [id] = values else {
        bail!("a consumer has one value")
    };
    Ok(hex::encode(alloc, consumer_hash(&hash(id)?).0)?)
}

/// A bound of a window; `-` is none.
fn bound(column: &str) -> Result<Option<Moment>> {
    if column == "-" {
        return Ok(None);
    }
    Ok(Some(Moment(column.parse::<u64>()?)))
}

/// `window FROM UNTIL NOW`: whether the moment is in the window, `inside` or `outside`.
pub fn window_of(alloc: Global, values: &[&str]) -> Result<String> {
    let [from, until, now] = values else {
        bail!("a window has three values")
    };
    let window = Window {
        from: bound(from)?,
        until: bound(until)?,
    };
    let answer = if window.holds(Moment(now.parse::<u64>()?)) {
        "inside"
    } else {
        "outside"
    };
    Ok(String::from_str(alloc, answer)?)
}

/// `pick AMOUNT COIN..`: how many of the coins are taken, or `short HAVE`; `-` is no coin.
pub fn pick_of(alloc: Global, values: &[&str]) -> Result<String> {
    let [amount, coins @ ..] = values else {
        bail!("a pick has an amount")
    };
    let mut worth = Vec::new(alloc);
    for coin in coins.iter().filter(|coin| **coin != "-") {
        worth.push(Coin {
            place: 0,
            amount: coin.parse::<u64>()?,
        })?;
    }
    match pick(worth.as_slice(), amount.parse::<u64>()?) {
        Ok(count) => Ok(format!(in alloc; "{count}")?),
        Err(PickShort { have }) => Ok(format!(in alloc; "short {have}")?),
    }
}
