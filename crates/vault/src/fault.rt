//! Why an amount can't be reserved.

ghost use Rattle.std.specs.Prelude.{◌≡◌};

use coin_select::PickShort;
use std::alloc::AllocError;
use thiserror::Error;

/// Why coins for an amount can't be named.
#[derive(Clone, Copy, Debug, PartialEq, Eq, Error)]
pub enum ReserveFault {
    /// The first 64 coins of the token are worth `have` together, less than the amount.
    #[error("the coins are worth {have} together")]
    Short { have: u128 },
    #[error("out of memory")]
    Memory,
}

impl From<AllocError> for ReserveFault {
    ghost use Rattle.vault.specs.declared.fault.ReserveFault.TheVariants.{Memory};

    ghost from_gives = { λ _ e. e ≡ Memory };

    fn from(_e: AllocError) -> ReserveFault {
        ReserveFault::Memory
    }
}

impl From<PickShort> for ReserveFault {
    ghost use Rattle.vault.specs.declared.fault.ReserveFault.TheVariants.{Short};

    ghost from_gives = { λ short e. e ≡ Short short.have };

    fn from(short: PickShort) -> ReserveFault {
        ReserveFault::Short { have: short.have }
    }
}
