//! What one transition changes of a node's ledger.

ghost use Rattle.std.specs.Prelude.{◌≡◌, IfOk, IfSome};
ghost use Rattle.ledger_types.specs.Txs.{IsTx};

use crate::notary::Entry;
use crate::tx::{RefList, SignedTx};
use crate::wire::with_id;
use net_base::Boxed;
use std::alloc::{AllocError, Global};

/// What one transition changes of a node's ledger. Its large parts stand on the heap, so that a transition without them is moved cheaply.
#[derive(Debug, Drop)]
pub struct LedgerChange {
    /// A transaction that is stored.
    pub recorded: Option<Boxed<SignedTx>>,
    /// States that are soft-locked.
    pub locked: RefList,
    /// The number of the flow whose transition it is, or 0 where no flow changes.
    pub owner: u32,
    /// Whether that flow ends, which releases its soft locks.
    pub ended: bool,
    /// An entry that is added to the notary's book.
    pub booked: Option<Boxed<Entry>>,
}

impl LedgerChange {
    /// The change, the id of the transaction that it records beside that. The only error is want of memory.
    pub fn with_id(self, alloc: Global) -> Result<LedgerChange, AllocError>
        requires { IfSome self.recorded (λ stx. IsTx stx.tx) }
        ensures { IfOk result (λ change. change ≡ self) }
    {
        let LedgerChange {
            recorded,
            locked,
            owner,
            ended,
            booked,
        } = self;
        let recorded = match recorded {
            None => None,
            Some(stx) => Some(with_id(alloc, stx)?),
        };
        Ok(LedgerChange {
            recorded,
            locked,
            owner,
            ended,
            booked,
        })
    }
}
