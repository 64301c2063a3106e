//! What comes of an act on the ledger.

ghost use Rattle.std.specs.Prelude.{◌≡◌};
ghost use Rattle.flow_machine.specs.Limits.{IsResumed};
ghost use Rattle.net_model.specs.State.{nothing};
ghost use Rattle.ledger_acts.specs.Acts.{done_of, IsOutcome};

use flow_machine::Resumed;
use ledger_types::LedgerChange;
use net_base::ListOf;
use std::alloc::Global;

/// What the frame that waited on an act is resumed with, and what changes of the node's ledger.
#[derive(Drop)]
pub struct LedgerOutcome {
    pub with: Resumed,
    pub change: LedgerChange,
}

/// The frame is resumed with this, and nothing changes of the ledger. Takes no memory.
pub fn resumed(alloc: Global, flow: u32, with: Resumed) -> LedgerOutcome
    ensures done { done_of result ≡ (with, nothing) }
    ensures limits { IsResumed with → IsOutcome flow result }
{
    LedgerOutcome {
        with,
        change: LedgerChange {
            recorded: None,
            locked: ListOf::new(alloc),
            owner: flow,
            ended: false,
            booked: None,
        },
    }
}
