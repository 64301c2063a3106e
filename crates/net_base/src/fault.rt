//! Why reading fails.

ghost use Rattle.std.specs.Prelude.{◌≡◌};
ghost use Rattle.net_base.specs.declared.fault.PartFault.TheVariants.{Memory, Left};

use crate::reader::Short;
use std::alloc::{AllocError, AllocFailed};
use thiserror::Error;

/// Why a part of a value could not be read.
#[derive(Clone, Copy, Debug, PartialEq, Eq, Error)]
pub enum PartFault {
    #[error("out of memory")]
    Memory,
    /// No spelling goes on at the place with this number of bytes left.
    #[error("no spelling goes on {0} bytes before the end")]
    Left(usize),
}

/// Why a value could not be read.
#[derive(Clone, Copy, Debug, PartialEq, Eq, Error)]
pub enum DecodeFault {
    /// The place, in bytes from the first, at which no canonical spelling begins or goes on.
    #[error("malformed at byte {at}")]
    Malformed { at: usize },
    #[error("out of memory")]
    Memory,
}

impl From<AllocError> for PartFault {
    ghost from_gives = { λ _ e. e ≡ Memory };

    fn from(_e: AllocError) -> PartFault {
        PartFault::Memory
    }
}

impl<T: Drop> From<AllocFailed<T>> for PartFault {
    ghost from_gives = { λ _ e. e ≡ Memory };

    fn from(_e: AllocFailed<T>) -> PartFault {
        PartFault::Memory
    }
}

impl From<Short> for PartFault {
    ghost from_gives = { λ _ e. e ≡ Left 0 };

    fn from(_e: Short) -> PartFault {
        PartFault::Left(0)
    }
}
