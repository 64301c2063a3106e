//! The spelling of a change of the ledger.

ghost use Rattle.std.specs.Prelude.{◌<◌};
ghost use Rattle.net_base.specs.Parts.{Gives, Writes};
ghost use Rattle.transition_record.specs.Changes.{IsLedgerPart, ledger_text, ledger_at};

use ledger_types::LedgerChange;
use net_base::{PartFault, Reader, Spelt, Writer, read_list, write_list, write_option};
use std::alloc::{AllocError, Global};

/// What changes in the ledger, by this flow, which ends with it or not: the bytes don't say either.
#[tactic(auto, unfolding(crate::specs::Changes::ledger_at))]
pub(crate) fn read_ledger(
    alloc: Global,
    from: &mut Reader,
    owner: u32,
    ended: bool,
) -> Result<LedgerChange, PartFault>
    ensures { Gives (λ x. x) result from.old from.new (ledger_at owner ended from.old.left) }
{
    Ok(LedgerChange {
        recorded: Spelt::read_part(alloc, from)?,
        locked: read_list(alloc, from, 255)?,
        owner,
        ended,
        booked: Spelt::read_part(alloc, from)?,
    })
}

/// Writes it. After want of memory a front of it may stand in `out`.
pub(crate) fn write_ledger(
    alloc: Global,
    change: &LedgerChange,
    out: &mut Writer,
) -> Result<(), AllocError>
    requires { IsLedgerPart change.now }
    ensures { Writes (ledger_text change.now) result out.old out.new }
{
    write_option(alloc, &change.recorded, out)?;
    write_list(alloc, &change.locked, out)?;
    write_option(alloc, &change.booked, out)?;
    Ok(())
}
