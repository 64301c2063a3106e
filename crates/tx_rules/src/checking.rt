//! The first structural rule that a transaction breaks.

ghost use Rattle.std.specs.Prelude.{◌≡◌, OnOk, IfErr, Some, None, length, find};
ghost use Rattle.ledger_types.specs.Rules.{first_broken, first_true, rules};

use crate::encumbrances::{
    has_encumbrance_out_of_range, has_open_encumbrance, has_self_encumbrance,
    has_shared_encumbrance, leaves_encumbrance,
};
use crate::notaries::{has_foreign_output, has_foreign_state};
use crate::references::{refers_to_input, repeats_input, repeats_reference};
use crate::shape::{
    has_endless_window, has_no_command, has_no_state, has_unsigned_command, has_zero_salt,
    lacks_notary,
};
use ledger_types::{Resolved, Tx};
use thiserror::Error;

/// A transaction is not well formed.
#[derive(Clone, Copy, Debug, PartialEq, Eq, Error)]
#[error("rule {rule} of transactions is broken")]
pub struct Broken {
    /// The number of the first rule that is broken, 1 to 16.
    pub rule: u8,
}

fn outcomes(tx: &Tx, resolved: &Resolved) -> [(u8, bool); 16]
    ensures { result ≡ rules tx.now resolved.now }
{
    [
        (1, has_zero_salt(tx)),
        (2, has_no_state(tx)),
        (3, has_no_command(tx)),
        (4, has_unsigned_command(tx)),
        (5, repeats_input(tx)),
        (6, repeats_reference(tx)),
        (7, refers_to_input(tx)),
        (8, lacks_notary(tx)),
        (9, has_foreign_output(tx)),
        (10, has_endless_window(tx)),
        (11, has_foreign_state(tx, resolved)),
        (12, has_encumbrance_out_of_range(tx)),
        (13, has_self_encumbrance(tx)),
        (14, has_shared_encumbrance(tx)),
        (15, has_open_encumbrance(tx)),
        (16, leaves_encumbrance(tx, resolved)),
    ]
}

fn find_true(outcomes: &[(u8, bool)]) -> Option<(u8, bool)>
    ensures { result ≡ find (λ p. p.1) outcomes.now }
{
    outcomes.iter().copied().find(|outcome| outcome.1)
}

/// The number of the first outcome that is true.
pub fn first_true(outcomes: &[(u8, bool)]) -> Option<u8>
    ensures { result ≡ first_true outcomes.now }
{
    match find_true(outcomes) {
        None => None,
        Some((number, _)) => Some(number),
    }
}

/// Whether the transaction keeps the structural rules, with the states that its inputs and references name.
///
/// # Errors
///
/// `Broken` exactly where a rule is broken, with the first one in their order.
#[tactic(auto, unfolding(ledger_types::specs::Rules::first_broken))]
pub fn check(tx: &Tx, resolved: &Resolved) -> Result<(), Broken>
    requires inputs { length resolved.now.inputs ≡ length tx.now.inputs }
    requires references { length resolved.now.references ≡ length tx.now.references }
    ensures kept { OnOk result (first_broken tx.now resolved.now ≡ None) }
    ensures broken { IfErr result (λ b. first_broken tx.now resolved.now ≡ Some b.rule) }
{
    match first_true(&outcomes(tx, resolved)) {
        None => Ok(()),
        Some(rule) => Err(Broken { rule }),
    }
}
