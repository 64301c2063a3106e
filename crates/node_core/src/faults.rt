//! What the calls of a node answer.

use disk_journal::OpenFault;
use flow_machine::MakeFault;
use ledger_acts::Job;
use net_base::{Boxed, Identity, Party};
use node_tables::RebuildFault;
use session_frames::Outgoing;
use std::alloc::AllocError;
use thiserror::Error;

/// Why no flow was started.
#[derive(Clone, Copy, Debug, PartialEq, Eq, Error)]
pub enum StartFault {
    /// The node is down.
    #[error("the node is down")]
    NodeDown,
    /// No class has that number.
    #[error("the class of the flow is unknown")]
    UnknownClass,
    /// The arguments aren't the class's, or are out of its range.
    #[error("the arguments of the flow are refused")]
    BadArgs,
    /// The journal takes no more records, or the last stamp was given.
    #[error("the journal is full")]
    Full,
    /// Out of memory.
    #[error("out of memory")]
    Memory,
    /// A call of the disk failed. The record may stand or not; the node is down.
    #[error("the disk failed")]
    Fault,
}

/// What a turn did.
#[derive(Clone, Copy, Debug, PartialEq, Eq)]
pub enum Turned {
    /// No flow, or not the picked one, can go on.
    Idle,
    /// The flow went on.
    Moved { flow: u32 },
}

/// Why a turn was not made.
#[derive(Clone, Copy, Debug, PartialEq, Eq, Error)]
pub enum TurnFault {
    /// The node is down.
    #[error("the node is down")]
    NodeDown,
    /// A flow can go on, and the journal takes no more records, or the last stamp was given.
    #[error("the journal is full")]
    Full,
    /// Out of memory.
    #[error("out of memory")]
    Memory,
    /// A call of the disk failed. The record may stand or not; the node is down.
    #[error("the disk failed")]
    Fault,
}

/// What a turn did at a node whose jobs are run beside it.
#[derive(Debug, Drop)]
pub enum SharedTurn {
    /// No flow, or not the picked one, can go on but by a job that is out.
    Idle,
    /// The flow went on.
    Moved { flow: u32 },
    /// The chosen flow waits for this job, which is out now. Nothing was committed.
    Job { job: Boxed<Job> },
}

/// Why a job that was run was not settled.
#[derive(Clone, Copy, Debug, PartialEq, Eq, Error)]
pub enum SettleFault {
    /// The node is down.
    #[error("the node is down")]
    NodeDown,
    /// The flow isn't live, and `have` is `None`, or it is at another step, `have`, than the job's, `given`.
    #[error("the flow is no longer at step {given}")]
    Stale { have: Option<u32>, given: u32 },
    /// The flow is at the job's step, and waits for another job there, or for none.
    #[error("flow {flow} does not wait for this job")]
    Foreign { flow: u32 },
    /// The journal takes no more records, or the last stamp was given.
    #[error("the journal is full")]
    Full,
    /// Out of memory.
    #[error("out of memory")]
    Memory,
    /// A call of the disk failed. The record may stand or not; the node is down.
    #[error("the disk failed")]
    Fault,
}

/// What a node answers to a frame that is its own.
#[derive(Debug, Drop)]
pub enum Taken {
    /// Items that the node sent in the session have arrived, which it notes until it goes down.
    Acked,
    /// The item had arrived before: `expected` items of its direction of the session have. The acknowledgement is to be sent again.
    Again { expected: u32, ack: Outgoing },
    /// The frame is ahead of the node. For a message the number of the item that is expected, counted from 0; for an
    /// acknowledgement how many items were sent.
    Early { expected: u32 },
    /// The sender is no node of the network, or the frame needs a session with its sender, and there is none of its key.
    NoSession,
    /// The item was committed: `upto` items of its direction of the session have arrived. The acknowledgement is to be sent.
    Took { upto: u32, ack: Outgoing },
}

/// Why a frame was not taken.
#[derive(Clone, Copy, Debug, PartialEq, Eq, Error)]
pub enum TakeFault {
    /// The node is down.
    #[error("the node is down")]
    NodeDown,
    /// The bytes are no frame.
    #[error("the bytes are no frame")]
    Garbled,
    /// The frame is for another node.
    #[error("the frame is for another node")]
    NotMine { to: Party },
    /// The item comes next, and the journal takes no more records, or the last stamp was given, by the node or by the frame's sender.
    #[error("the journal is full")]
    Full,
    /// Out of memory.
    #[error("out of memory")]
    Memory,
    /// A call of the disk failed. The record may stand or not; the node is down.
    #[error("the disk failed")]
    Fault,
}

/// Why no frames to send were listed.
#[derive(Clone, Copy, Debug, PartialEq, Eq, Error)]
pub enum UnackedFault {
    /// The node is down.
    #[error("the node is down")]
    NodeDown,
    /// Out of memory.
    #[error("out of memory")]
    Memory,
}

/// Why the power was not cut.
#[derive(Clone, Copy, Debug, PartialEq, Eq, Error)]
pub enum CutFault {
    /// The node is down.
    #[error("the node is down")]
    NodeDown,
    /// The disk is a file.
    #[error("a file has no fuse")]
    NoFuse,
}

/// Why a node did not come up.
#[derive(Clone, Copy, Debug, PartialEq, Eq, Error)]
pub enum BootFault {
    /// A call of the disk failed.
    #[error("the disk failed")]
    Fault,
    /// The bytes are no journal.
    #[error("the disk holds no journal")]
    NotAJournal,
    /// The journal is that of another node, or of another network.
    #[error("the journal is that of another node")]
    WrongNode { found: Identity },
    /// What stands at this place, in bytes from the start, is neither a whole record nor a closed gate, or it is an open gate
    /// behind the most records that a journal holds, or the record that begins there is none of this flow set's or doesn't fit
    /// behind those before it.
    #[error("the journal is damaged at byte {at}")]
    Damaged { at: u64 },
    /// Out of memory.
    #[error("out of memory")]
    Memory,
}

/// Why a record was not appended.
#[derive(Clone, Copy, Debug, PartialEq, Eq)]
pub enum CommitFault {
    /// Out of memory; nothing changed.
    Memory,
    /// The disk failed.
    Fault,
}

impl From<AllocError> for CommitFault {
    ghost use Rattle.std.specs.Prelude.{◌≡◌};
    ghost use Rattle.node_core.specs.declared.faults.CommitFault.TheVariants.{Memory};

    ghost from_gives = { λ _ e. e ≡ Memory };

    fn from(_: AllocError) -> CommitFault {
        CommitFault::Memory
    }
}

impl From<AllocError> for TakeFault {
    ghost use Rattle.std.specs.Prelude.{◌≡◌};
    ghost use Rattle.node_core.specs.declared.faults.TakeFault.TheVariants.{Memory};

    ghost from_gives = { λ _ e. e ≡ Memory };

    fn from(_: AllocError) -> TakeFault {
        TakeFault::Memory
    }
}

impl From<AllocError> for UnackedFault {
    ghost use Rattle.std.specs.Prelude.{◌≡◌};
    ghost use Rattle.node_core.specs.declared.faults.UnackedFault.TheVariants.{Memory};

    ghost from_gives = { λ _ e. e ≡ Memory };

    fn from(_: AllocError) -> UnackedFault {
        UnackedFault::Memory
    }
}

impl From<MakeFault> for StartFault {
    ghost use Rattle.std.specs.Prelude.{◌≡◌};
    ghost use Rattle.node_core.specs.Seen.{start_of};

    ghost from_gives = { λ why e. e ≡ start_of why };

    fn from(why: MakeFault) -> StartFault {
        match why {
            MakeFault::UnknownClass => StartFault::UnknownClass,
            MakeFault::BadArgs => StartFault::BadArgs,
            MakeFault::Memory => StartFault::Memory,
        }
    }
}

impl From<OpenFault> for BootFault {
    ghost use Rattle.std.specs.Prelude.{◌≡◌};
    ghost use Rattle.node_core.specs.Seen.{boot_of};

    ghost from_gives = { λ why e. e ≡ boot_of why };

    fn from(why: OpenFault) -> BootFault {
        match why {
            OpenFault::Fault => BootFault::Fault,
            OpenFault::NotAJournal => BootFault::NotAJournal,
            OpenFault::WrongNode { found } => BootFault::WrongNode { found },
            OpenFault::Damaged { at } => BootFault::Damaged { at },
            OpenFault::Memory => BootFault::Memory,
        }
    }
}

impl From<RebuildFault> for BootFault {
    ghost use Rattle.std.specs.Prelude.{◌≡◌};
    ghost use Rattle.node_core.specs.Seen.{boot_by};

    ghost from_gives = { λ why e. e ≡ boot_by why };

    fn from(why: RebuildFault) -> BootFault {
        match why {
            RebuildFault::Damaged { at } => BootFault::Damaged { at },
            RebuildFault::Memory => BootFault::Memory,
        }
    }
}
