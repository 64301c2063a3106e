//! One call of one node, and its outcome.

ghost use Rattle.net_model.specs.Environment.{meaning, unjudged};
ghost use Rattle.std.specs.Prelude.{◌≡◌, ◌≤◌, ℕ, Some, None, Ok};
ghost use Rattle.std.specs.Option.{option_to_list};
ghost use Rattle.node_core.specs.Seen.{IsBy};
ghost use Rattle.network_core.specs.Answers.{StartServes, TurnServes, SendServes, TakeServes, CutServes, BootServes, IsCounted, boot_outcome, replied, reached, said, take_outcome, take_sent};
ghost use Rattle.network_core.specs.WorldSteps.{waits_on};

use super::{Outcome, Refusal};
use contract_verify::Judge;
use flow_machine::FlowSet;
use net_base::{ByteList, Moment};
use node_core::{
    BootFault, CutFault, Node, StartFault, TakeFault, Taken, TurnFault, Turned, UnackedFault,
};
use outside::Bay;
use session_frames::{Outgoing, OutgoingList};
use std::alloc::{AllocError, Global};

/// Starts a flow at a node.
pub fn start_at<D: Bay, F: FlowSet>(
    alloc: Global,
    node: &mut Node<D, F>,
    now: Moment,
    class: u16,
    args: &ByteList,
) -> Result<Outcome, AllocError>
    requires { IsBy F.reading node.old.journal now.0 }
    ensures serves { StartServes (unjudged F.machine F.reading) now.0 class args.now node.old result
        node.new }
    ensures by { IsBy F.reading node.new.journal now.0 }
{
    match node.start(alloc, now, class, args) {
        Ok(flow) => Ok(Outcome::Started { flow }),
        Err(StartFault::NodeDown) => Ok(Outcome::Refused {
            why: Refusal::NodeDown,
        }),
        Err(StartFault::UnknownClass) => Ok(Outcome::Refused {
            why: Refusal::UnknownClass,
        }),
        Err(StartFault::BadArgs) => Ok(Outcome::Refused {
            why: Refusal::BadArgs,
        }),
        Err(StartFault::Full) => Ok(Outcome::Refused { why: Refusal::Full }),
        Err(StartFault::Memory) => Err(AllocError),
        Err(StartFault::Fault) => Ok(Outcome::Fault),
    }
}

/// Makes a turn at a node, with these contracts for what has to be judged.
pub fn turn_at<D: Bay, F: FlowSet, J: Judge>(
    alloc: Global,
    node: &mut Node<D, F>,
    now: Moment,
    pick: Option<u32>,
    contracts: &J,
) -> Result<Outcome, AllocError>
    requires { IsBy F.reading node.old.journal now.0 }
    ensures serves { TurnServes (meaning F.machine F.reading (J.judges contracts.now)) now.0 pick
        node.old result node.new }
    ensures by { IsBy F.reading node.new.journal now.0 }
{
    match node.turn_whole(alloc, now, pick, contracts) {
        Ok(Turned::Idle) => Ok(Outcome::Idle),
        Ok(Turned::Moved { flow }) => Ok(Outcome::Moved { flow }),
        Err(TurnFault::NodeDown) => Ok(Outcome::Refused {
            why: Refusal::NodeDown,
        }),
        Err(TurnFault::Full) => Ok(Outcome::Refused { why: Refusal::Full }),
        Err(TurnFault::Memory) => Err(AllocError),
        Err(TurnFault::Fault) => Ok(Outcome::Fault),
    }
}

/// The frames that a node has to send, none where it is down.
pub fn post_at<D: Bay, F: FlowSet>(
    alloc: Global,
    node: &Node<D, F>,
) -> Result<Option<OutgoingList>, AllocError>
    ensures { SendServes F.reading node.now result }
{
    match node.unacked(alloc) {
        Ok(frames) => Ok(Some(frames)),
        Err(UnackedFault::NodeDown) => Ok(None),
        Err(UnackedFault::Memory) => Err(AllocError),
    }
}

/// The outcome of a frame at a node, and the acknowledgement that it sends, if there is one.
#[derive(Drop)]
pub struct Delivery {
    pub outcome: Outcome,
    pub ack: Option<Outgoing>,
}

/// Hands a frame to a node.
pub fn take_at<D: Bay, F: FlowSet>(
    alloc: Global,
    node: &mut Node<D, F>,
    now: Moment,
    bytes: &[u8],
) -> Result<Delivery, AllocError>
    requires { IsBy F.reading node.old.journal now.0 }
    ensures serves { TakeServes (unjudged F.machine F.reading) now.0 bytes.now node.old result
        node.new }
    ensures by { IsBy F.reading node.new.journal now.0 }
{
    delivery_of(node.take(alloc, now, bytes))
}

/// The outcome of a frame that was handed to a node. Bytes that spell no frame, or one for another node, are of no session; in a coherent
/// world no such bytes wait.
fn delivery_of(answer: Result<Taken, TakeFault>) -> Result<Delivery, AllocError>
    ensures outcome { reached result ≡ take_outcome answer }
    ensures sent { replied result ≡ take_sent answer }
    ensures counted { IsCounted answer }
{
    match answer {
        Ok(taken) => Ok(delivery_by(taken)),
        Err(TakeFault::Memory) => Err(AllocError),
        Err(TakeFault::NodeDown) => Ok(without_ack(Outcome::Refused {
            why: Refusal::NodeDown,
        })),
        Err(TakeFault::Full) => Ok(without_ack(Outcome::Refused { why: Refusal::Full })),
        Err(TakeFault::Fault) => Ok(without_ack(Outcome::Fault)),
        Err(TakeFault::Garbled) => Ok(without_ack(Outcome::NoSession)),
        Err(TakeFault::NotMine { .. }) => Ok(without_ack(Outcome::NoSession)),
    }
}

/// The outcome of a frame that a node took.
fn delivery_by(taken: Taken) -> Delivery
    ensures outcome { Some result.outcome ≡ take_outcome (Ok taken) }
    ensures sent { option_to_list result.ack ≡ take_sent (Ok taken) }
    ensures counted { IsCounted (Ok taken) }
{
    match taken {
        Taken::Acked => without_ack(Outcome::Acked),
        Taken::NoSession => without_ack(Outcome::NoSession),
        Taken::Early { expected } => without_ack(Outcome::Early { expected }),
        Taken::Again { expected, ack } => Delivery {
            outcome: Outcome::Again { expected },
            ack: Some(ack),
        },
        Taken::Took { upto, ack } => Delivery {
            outcome: Outcome::Took { upto },
            ack: Some(ack),
        },
    }
}

/// An outcome by which nothing is sent.
fn without_ack(outcome: Outcome) -> Delivery
    ensures outcome { result.outcome ≡ outcome }
    ensures ack { result.ack ≡ None }
{
    Delivery { outcome, ack: None }
}

/// Whether a frame that was handed over with this outcome waits on.
pub fn waits_on(repeated: bool, outcome: Outcome) -> bool
    ensures { result ≡ waits_on repeated (Some outcome) }
{
    repeated || matches!(outcome, Outcome::Refused { .. })
}

/// Cuts the power of a node's disk.
pub fn cut_at<D: Bay, F: FlowSet>(
    node: &mut Node<D, F>,
    calls: u64,
    outcome: u8,
) -> Result<Outcome, AllocError>
    requires { outcome ≤ 3 }
    ensures serves { CutServes calls outcome node.old result node.new }
    ensures by { (now : ℕ) → IsBy F.reading node.old.journal now
        → IsBy F.reading node.new.journal now }
{
    match node.cut_power(calls, outcome) {
        Ok(()) => Ok(if calls == 0 {
            Outcome::Down
        } else {
            Outcome::Armed
        }),
        Err(CutFault::NodeDown) => Ok(Outcome::Refused {
            why: Refusal::NodeDown,
        }),
        Err(CutFault::NoFuse) => Ok(Outcome::Refused {
            why: Refusal::NoFuse,
        }),
    }
}

/// Boots a node that is down, once its disk has its power back.
pub fn boot_at<D: Bay, F: FlowSet>(
    alloc: Global,
    node: &mut Node<D, F>,
) -> Result<Outcome, AllocError>
    ensures { BootServes F.reading node.old result node.new }
{
    if node.is_up() {
        return Ok(Outcome::Refused {
            why: Refusal::NodeUp,
        });
    }
    node.restore_power();
    boot_outcome(node.boot(alloc))
}

/// The outcome of a boot.
fn boot_outcome(answer: Result<(), BootFault>) -> Result<Outcome, AllocError>
    ensures { said result ≡ boot_outcome answer }
{
    match answer {
        Ok(()) => Ok(Outcome::Booted),
        Err(BootFault::Fault) => Ok(Outcome::Fault),
        Err(BootFault::Memory) => Err(AllocError),
        Err(BootFault::NotAJournal) => Ok(Outcome::Refused {
            why: Refusal::Journal,
        }),
        Err(BootFault::WrongNode { .. }) => Ok(Outcome::Refused {
            why: Refusal::Journal,
        }),
        Err(BootFault::Damaged { .. }) => Ok(Outcome::Refused {
            why: Refusal::Journal,
        }),
    }
}
