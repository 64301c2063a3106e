//! Reading a tear-off.

ghost use Rattle.std.specs.Prelude.{◌≡◌, option_and_then, IfOk, IfSome};
ghost use Rattle.std.specs.List.{AllByRecursion};
ghost use Rattle.net_base.specs.Forms.{ListWithin};
ghost use Rattle.ledger_types.specs.Torn.{IsTornTx};
ghost use Rattle.tx_tear.specs.declared.reading.TearFault.TheVariants.{Memory};
ghost use Rattle.tx_tear.specs.Telling.{Tells};
ghost use Rattle.tx_tear.specs.Limits.{IsVisible};
ghost use Rattle.ledger_types.specs.Tears.{whole, spelt_by, parts_at, at_most_one, visible_of};

use crate::values::group_values;
use component_merkle::root;
use ledger_types::{TornGroup, TornPart, TornTx, Visible};
use net_base::{ListOf, PartFault, Reader, Spelt};
use std::alloc::{AllocError, AllocFailed, Global};
use thiserror::Error;

/// Why a tear-off shows nothing.
#[derive(Clone, Copy, Debug, PartialEq, Eq, Error)]
pub enum TearFault {
    /// Its groups don't give its id, or what a notary must see is hidden, misspelt or there twice.
    #[error("the tear-off is bad")]
    BadTear,
    #[error("out of memory")]
    Memory,
}

impl From<AllocError> for TearFault {
    ghost from_gives = { λ _ e. e ≡ Memory };

    fn from(_e: AllocError) -> TearFault {
        TearFault::Memory
    }
}

impl<T: Drop> From<AllocFailed<T>> for TearFault {
    ghost from_gives = { λ _ e. e ≡ Memory };

    fn from(_e: AllocFailed<T>) -> TearFault {
        TearFault::Memory
    }
}

/// The value whose spelling all of the bytes are.
fn read_whole<T: Spelt>(alloc: Global, bytes: &[u8]) -> Result<T, TearFault>
    ensures tells { Tells result (whole (T.reading bytes.now)) }
    ensures limits { IfOk result T.within }
{
    let mut from = Reader::new(bytes);
    match T::read_part(alloc, &mut from) {
        Ok(value) => {
            if from.remaining() == 0 {
                Ok(value)
            } else {
                Err(TearFault::BadTear)
            }
        }
        Err(PartFault::Memory) => Err(TearFault::Memory),
        Err(PartFault::Left(_)) => Err(TearFault::BadTear),
    }
}

/// The values that the parts spell.
fn read_parts<T: Spelt>(alloc: Global, parts: &[TornPart]) -> Result<ListOf<T>, TearFault>
    ensures tells { Tells result (spelt_by T.reading parts.now) }
    ensures limits { IfOk result (AllByRecursion T.within) }
{
    let mut items = Vec::with_capacity(alloc, parts.len())?;
    for part in parts {
        items.push(read_whole(alloc, part.bytes.as_slice())?)?;
    }
    Ok(ListOf::from_vec(items))
}

/// The values that the group of this ordinal shows. A group that isn't there shows none.
fn read_shown<T: Spelt>(
    alloc: Global,
    torn: &TornTx,
    ordinal: usize,
) -> Result<ListOf<T>, TearFault>
    ensures tells { Tells result (option_and_then (spelt_by T.reading)
        (parts_at torn.now ordinal)) }
    ensures limits { IsTornTx torn.now → IfOk result (ListWithin 64 T.within) }
{
    match torn.groups.as_slice().get(ordinal) {
        None => Ok(ListOf::new(alloc)),
        Some(TornGroup::Hidden { .. }) => Err(TearFault::BadTear),
        Some(TornGroup::Shown { parts }) => read_parts(alloc, parts.as_slice()),
    }
}

fn at_most_one<T: Copy + Spelt>(items: &ListOf<T>) -> Result<Option<T>, TearFault>
    ensures tells { Tells result (at_most_one items.now) }
    ensures limits { AllByRecursion T.within items.now → IfOk result (λ o. IfSome o T.within) }
{
    match items.as_slice() {
        [] => Ok(None),
        [item] => Ok(Some(*item)),
        _ => Err(TearFault::BadTear),
    }
}

/// What a tear-off shows: the inputs, the references, the notary and the time window of its transaction. Where the
/// tear-off is within its limits, so is what it shows: at most 64 inputs and 64 references, and each value.
///
/// # Errors
///
/// `BadTear` exactly where the values of its groups don't give its id, or one of the groups of inputs (0), notary (4),
/// time window (5) and references (7) is hidden, or a part that one of these shows isn't the whole spelling of a value
/// of its kind, or group 4 or 5 has more than one part. A group that isn't there shows nothing, and is no fault.
/// `Memory` where memory runs out.
#[tactic(auto, unfolding(ledger_types::specs::Tears::visible_of))]
pub fn visible(alloc: Global, torn: &TornTx) -> Result<Visible, TearFault>
    ensures tells { Tells result (visible_of torn.now) }
    ensures limits { IsTornTx torn.now → IfOk result IsVisible }
{
    let mut values = group_values(alloc, torn.groups.as_slice())?;
    if root(&mut values) != torn.id.0 {
        return Err(TearFault::BadTear);
    }
    Ok(Visible {
        id: torn.id,
        inputs: read_shown(alloc, torn, 0)?,
        references: read_shown(alloc, torn, 7)?,
        notary: at_most_one(&read_shown(alloc, torn, 4)?)?,
        window: at_most_one(&read_shown(alloc, torn, 5)?)?,
    })
}
