//! What the answers of a node's calls come to for a worker.

ghost use Rattle.std.specs.Prelude.{◌≡◌, ◌≤◌, Ok};
ghost use Rattle.std.specs.Option.{option_to_list};
ghost use Rattle.network_core.specs.Answers.{IsCounted, take_sent};
ghost use Rattle.work_law.specs.Calls.{settle_commits, take_commits, turn_commits};
ghost use Rattle.flow_workers.specs.Steps.{HandsOut, IsOut, committed, turn_of};

use ledger_acts::Job;
use net_base::Boxed;
use node_core::{SettleFault, SharedTurn, TakeFault, Taken, TurnFault};
use session_frames::Outgoing;

/// How a turn at a node ended.
#[derive(Drop)]
pub enum Turn {
    /// No record was committed.
    Still,
    /// A record was committed.
    Committed,
    /// A flow waits for this job, which is to be run and then settled.
    Waits { job: Boxed<Job> },
}

/// How many records a turn that is answered so committed.
pub fn turn_count(answer: &Result<SharedTurn, TurnFault>) -> u64
    ensures count { result ≡ turn_commits answer.now }
    ensures few { result ≤ 1 }
{
    match answer {
        Ok(SharedTurn::Moved { .. }) => 1,
        _ => 0,
    }
}

/// How a turn that is answered so ended.
pub fn turn_of(answer: Result<SharedTurn, TurnFault>) -> Turn
    requires { IsOut answer }
    ensures is { result ≡ turn_of answer }
    ensures commits { committed result ≡ turn_commits answer }
    ensures job { HandsOut result }
{
    match answer {
        Ok(SharedTurn::Idle) => Turn::Still,
        Ok(SharedTurn::Moved { .. }) => Turn::Committed,
        Ok(SharedTurn::Job { job }) => Turn::Waits { job },
        Err(_) => Turn::Still,
    }
}

/// How many records a job that is settled so committed.
pub fn settle_count(answer: &Result<u32, SettleFault>) -> u64
    ensures count { result ≡ settle_commits answer.now }
    ensures few { result ≤ 1 }
{
    match answer {
        Ok(_) => 1,
        Err(_) => 0,
    }
}

/// How many records a frame that is answered so committed, and the acknowledgement that is to be sent.
pub fn heard(answer: Result<Taken, TakeFault>) -> (u64, Option<Outgoing>)
    ensures commits { result.0 ≡ take_commits answer }
    ensures few { result.0 ≤ 1 }
    ensures ack { option_to_list result.1 ≡ take_sent answer }
    ensures counted { IsCounted answer }
{
    match answer {
        Ok(taken) => heard_of(taken),
        Err(_) => (0, None),
    }
}

/// The same of a frame that was the node's own.
fn heard_of(taken: Taken) -> (u64, Option<Outgoing>)
    ensures commits { result.0 ≡ take_commits (Ok taken) }
    ensures few { result.0 ≤ 1 }
    ensures ack { option_to_list result.1 ≡ take_sent (Ok taken) }
    ensures counted { IsCounted (Ok taken) }
{
    match taken {
        Taken::Acked => (0, None),
        Taken::NoSession => (0, None),
        Taken::Early { .. } => (0, None),
        Taken::Again { expected, ack } => {
            let _ = expected;
            (0, Some(ack))
        }
        Taken::Took { upto, ack } => {
            let _ = upto;
            (1, Some(ack))
        }
    }
}
