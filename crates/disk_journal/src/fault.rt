use net_base::Identity;
use outside::Failed;
use std::alloc::AllocError;
use thiserror::Error;

/// Why a journal was not opened.
#[derive(Clone, Copy, Debug, PartialEq, Eq, Error)]
pub enum OpenFault {
    /// A call of the disk failed.
    #[error("the disk failed")]
    Fault,
    /// The bytes are no journal.
    #[error("the disk holds no journal")]
    NotAJournal,
    /// The journal is that of another node, or of another network.
    #[error("the journal is that of another node")]
    WrongNode { found: Identity },
    /// No closed gate ends the records. What stands at this place, in bytes from the start, is neither a whole record
    /// nor a closed gate; or the most records that a journal holds stand before it, and the gate is open.
    #[error("the journal is damaged at byte {at}")]
    Damaged { at: u64 },
    /// Out of memory.
    #[error("out of memory")]
    Memory,
}

impl From<Failed> for OpenFault {
    ghost use Rattle.std.specs.Prelude.{◌≡◌};
    ghost use Rattle.disk_journal.specs.declared.fault.OpenFault.TheVariants.{Fault};

    ghost from_gives = { λ _ e. e ≡ Fault };

    fn from(_: Failed) -> Self {
        OpenFault::Fault
    }
}

impl From<AllocError> for OpenFault {
    ghost use Rattle.std.specs.Prelude.{◌≡◌};
    ghost use Rattle.disk_journal.specs.declared.fault.OpenFault.TheVariants.{Memory};

    ghost from_gives = { λ _ e. e ≡ Memory };

    fn from(_: AllocError) -> Self {
        OpenFault::Memory
    }
}

/// Why a record was not appended.
#[derive(Clone, Copy, Debug, PartialEq, Eq, Error)]
pub enum AppendFault {
    /// The journal takes no more records. Nothing changed.
    #[error("the journal is full")]
    Full,
    /// A call of the disk failed. The record may stand or not: the journal has to be opened again.
    #[error("the disk failed")]
    Fault,
}

impl From<Failed> for AppendFault {
    ghost use Rattle.std.specs.Prelude.{◌≡◌};
    ghost use Rattle.disk_journal.specs.declared.fault.AppendFault.TheVariants.{Fault};

    ghost from_gives = { λ _ e. e ≡ Fault };

    fn from(_: Failed) -> Self {
        AppendFault::Fault
    }
}
