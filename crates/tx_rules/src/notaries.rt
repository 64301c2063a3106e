//! The rules on the notaries of states.

ghost use Rattle.std.specs.Prelude.{◌≡◌, not};
ghost use Rattle.std.specs.List.{list_any};
ghost use Rattle.ledger_types.specs.Rules as rule;
ghost use Rattle.ledger_types.specs.Names.{is_party};

use ledger_types::{Resolved, Tx, TxState};
use net_base::Party;

fn is_other(named: Option<Party>, notary: Party) -> bool
    ensures { result ≡ rule.is_other_notary named notary }
{
    match named {
        None => false,
        Some(named) => named.0 != notary.0,
    }
}

/// Whether the party is this one, if one is named.
pub(crate) fn is_named(party: Party, named: Option<Party>) -> bool
    ensures { result ≡ is_party party named }
{
    match named {
        None => false,
        Some(named) => party.0 == named.0,
    }
}

/// Whether there is a notary and an output names another.
pub(crate) fn has_foreign_output(tx: &Tx) -> bool
    ensures { result ≡ rule.has_foreign_output tx.now }
{
    let notary = tx.notary;
    tx.outputs
        .as_slice()
        .iter()
        .any(|state| is_other(notary, state.notary))
}

fn has_foreign(notary: Option<Party>, states: &[TxState]) -> bool
    ensures { result ≡ list_any (λ s. not (is_party s.notary notary)) states.now }
{
    states.iter().any(|state| !is_named(state.notary, notary))
}

/// Whether the state of an input or reference has another notary than the transaction.
pub(crate) fn has_foreign_state(tx: &Tx, resolved: &Resolved) -> bool
    ensures { result ≡ rule.has_foreign_state tx.now resolved.now }
{
    has_foreign(tx.notary, resolved.inputs.as_slice())
        || has_foreign(tx.notary, resolved.references.as_slice())
}
