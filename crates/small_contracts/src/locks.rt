//! The contract of time locks.

ghost use Rattle.std.specs.Prelude.{◌≡◌};
ghost use Rattle.small_contracts.specs.Locks as clause;

use crate::commands::{signs_lock_make, signs_lock_open};
use contract_verify::LedgerContract;
use ledger_types::{Resolved, StateData, Tx, Window};
use net_base::Moment;
use tx_rules::first_true;

/// The contract of `TimeLock` states, number 2. It refuses, by the first of these clauses that applies:
///
/// 1. The end of an input lock is later than the start of the time window, or there is no start.
/// 2. The owner of an input lock signs no `LockOpen`.
/// 3. The owner of an output lock signs no `LockMake`.
#[derive(Clone, Copy, Debug, PartialEq, Eq)]
pub struct Locks;

fn start_of(window: Option<Window>) -> Option<Moment>
    ensures { result ≡ clause.start_of window }
{
    match window {
        None => None,
        Some(window) => window.from,
    }
}

fn is_later(start: Option<Moment>, until: Moment) -> bool
    ensures { result ≡ clause.is_later start until }
{
    match start {
        None => true,
        Some(start) => start.0 < until.0,
    }
}

fn is_closed(tx: &Tx, body: &StateData) -> bool
    ensures { result ≡ clause.is_closed tx.now body.now }
{
    match body {
        StateData::TimeLock { until, .. } => is_later(start_of(tx.window), *until),
        _ => false,
    }
}

fn is_forced(tx: &Tx, body: &StateData) -> bool
    ensures { result ≡ clause.is_forced tx.now body.now }
{
    match body {
        StateData::TimeLock { owner, .. } => !signs_lock_open(tx, *owner),
        _ => false,
    }
}

fn is_imposed(tx: &Tx, body: &StateData) -> bool
    ensures { result ≡ clause.is_imposed tx.now body.now }
{
    match body {
        StateData::TimeLock { owner, .. } => !signs_lock_make(tx, *owner),
        _ => false,
    }
}

fn opens_early(tx: &Tx, resolved: &Resolved) -> bool
    ensures { result ≡ clause.opens_early tx.now resolved.now }
{
    resolved
        .inputs
        .as_slice()
        .iter()
        .any(|state| is_closed(tx, &state.body))
}

fn forces_lock(tx: &Tx, resolved: &Resolved) -> bool
    ensures { result ≡ clause.forces_lock tx.now resolved.now }
{
    resolved
        .inputs
        .as_slice()
        .iter()
        .any(|state| is_forced(tx, &state.body))
}

fn imposes_lock(tx: &Tx) -> bool
    ensures { result ≡ clause.imposes_lock tx.now }
{
    tx.outputs
        .as_slice()
        .iter()
        .any(|state| is_imposed(tx, &state.body))
}

fn outcomes(tx: &Tx, resolved: &Resolved) -> [(u8, bool); 3]
    ensures { result ≡ clause.lock_clauses tx.now resolved.now }
{
    [
        (1, opens_early(tx, resolved)),
        (2, forces_lock(tx, resolved)),
        (3, imposes_lock(tx)),
    ]
}

#[tactic(auto, unfolding(crate::specs::Locks::locks_say))]
impl LedgerContract for Locks {
    ghost use Rattle.small_contracts.specs.Locks.{locks_say};

    ghost number = { λ _. 2 };

    ghost says = { λ _. locks_say };

    fn id(&self) -> u8 {
        2
    }

    fn verdict(&self, tx: &Tx, resolved: &Resolved) -> Option<u8> {
        first_true(&outcomes(tx, resolved))
    }
}
