//! Why references can't be resolved.

ghost use Rattle.std.specs.Prelude.{◌≡◌};

use net_base::{Hash32, StateRef};
use std::alloc::AllocError;
use thiserror::Error;

/// Why the states that a transaction names can't be had.
#[derive(Clone, Copy, Debug, PartialEq, Eq, Error)]
pub enum ResolveFault {
    /// The transaction of this id isn't stored.
    #[error("a transaction is not stored")]
    Lacking { id: Hash32 },
    /// The transaction is stored and has no such output.
    #[error("a transaction has no output {}", reference.index)]
    NoOutput { reference: StateRef },
    #[error("out of memory")]
    Memory,
}

impl From<AllocError> for ResolveFault {
    ghost use Rattle.tx_store.specs.declared.fault.ResolveFault.TheVariants.{Memory};

    ghost from_gives = { λ _ e. e ≡ Memory };

    fn from(_e: AllocError) -> ResolveFault {
        ResolveFault::Memory
    }
}
