//! The rules on state references.

ghost use Rattle.std.specs.Prelude.{◌≡◌};
ghost use Rattle.ledger_types.specs.Rules as rule;
ghost use Rattle.ledger_types.specs.Names.{ref_eq, has_ref, has_repeat};

use ledger_types::Tx;
use net_base::StateRef;

/// Whether the reference is one of these.
pub(crate) fn contains(references: &[StateRef], reference: &StateRef) -> bool
    ensures { result ≡ has_ref reference.now references.now }
{
    references.contains(reference)
}

#[tactic(auto, using(crate::proofs::Repeats::repeat_at))]
fn has_repeated(references: &[StateRef]) -> bool
    ensures { result ≡ has_repeat ref_eq references.now }
{
    for i in 0..references.len() {
        if contains(&references[i + 1..], &references[i]) {
            return true;
        }
    }
    false
}

/// Whether two inputs are equal.
pub(crate) fn repeats_input(tx: &Tx) -> bool
    ensures { result ≡ rule.repeats_input tx.now }
{
    has_repeated(tx.inputs.as_slice())
}

/// Whether two references are equal.
pub(crate) fn repeats_reference(tx: &Tx) -> bool
    ensures { result ≡ rule.repeats_reference tx.now }
{
    has_repeated(tx.references.as_slice())
}

/// Whether one state reference is input and reference.
pub(crate) fn refers_to_input(tx: &Tx) -> bool
    ensures { result ≡ rule.refers_to_input tx.now }
{
    let references = tx.references.as_slice();
    tx.inputs
        .as_slice()
        .iter()
        .any(|input| contains(references, input))
}
