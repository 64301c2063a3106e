//! The transaction that a payment makes.

ghost use Rattle.std.specs.Prelude.{◌≡◌, IfOk};
ghost use Rattle.cash_flows.specs.Payment.{outputs_of, listed, payment};

use crate::making::{cash, references, with_rest, worth};
use crate::pay::Pay;
use flow_machine::Place;
use flow_txs::{alone, made};
use ledger_types::{Deed, Held, RefList, StateList, Tx};
use net_base::{ListOf, StateRef};
use std::alloc::{AllocError, Global};

/// The amount for the payee, and the rest for this party where there is one.
fn outputs(alloc: Global, pay: &Pay, sum: u128, here: &Place) -> Result<StateList, AllocError>
    ensures { IfOk result (λ l. l ≡ outputs_of pay.now sum here.entry.now) }
{
    let paid = cash(here, pay.token, pay.amount, pay.to);
    with_rest(alloc, &[paid], pay.token, pay.amount, sum, here)
}

fn listed(alloc: Global, reference: Option<StateRef>) -> Result<RefList, AllocError>
    ensures { IfOk result (λ l. l ≡ listed reference) }
{
    match reference {
        None => Ok(RefList::new(alloc)),
        Some(reference) => ListOf::from_slice(alloc, &[reference]),
    }
}

/// The payment of the coins.
pub(crate) fn payment(
    alloc: Global,
    pay: &Pay,
    coins: &[Held],
    here: &Place,
) -> Result<Tx, AllocError>
    ensures { IfOk result (λ t. t ≡ payment pay.now coins.now here.entry.now) }
{
    let inputs = references(alloc, coins)?;
    let outputs = outputs(alloc, pay, worth(coins), here)?;
    let mut tx = made(alloc, inputs, outputs, Deed::CashMove, alone(here.me), here)?;
    tx.window = pay.window;
    tx.references = listed(alloc, pay.reference)?;
    Ok(tx)
}
