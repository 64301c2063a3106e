//! The job that a flow waits for, and the step by which it goes on once that was run.

ghost use Rattle.std.specs.Prelude.{◌≡◌, ◌<◌, ◌-◌, ◌^◌, List, Some, is_some, IfOk, IfSome};
ghost use Rattle.std.specs.List.{AllByRecursion};
ghost use Rattle.net_base.specs.declared.causes.Event.TheVariants.{Move};
ghost use Rattle.net_base.specs.declared.values.Hash32.{Hash32};
ghost use Rattle.net_base.specs.Names.{IsIdentity};
ghost use Rattle.signing.specs.Marks.{keyed_mark};
ghost use Rattle.ledger_types.specs.declared.tx.SignedTx.{SignedTx};
ghost use Rattle.net_model.specs.State.{NodeState, with_ids};
ghost use Rattle.net_model.specs.Environment.{Judgement, environment, meaning};
ghost use Rattle.net_model.specs.Sound.{steps_of};
ghost use Rattle.flow_records.specs.Records.{IsFlow};
ghost use Rattle.ledger_acts.specs.Jobs.{IsJob, IsRun};
ghost use Rattle.flow_steps.specs.Awaiting.{job_of};
ghost use Rattle.flow_steps.specs.Ready.{IsReady};

use crate::picking::flow_in;
use crate::ready::live_at;
use crate::stepping::go_on_by;
use checkpoints::Flows;
use flow_machine::FlowSet;
use flow_records::Step;
use ledger_acts::{Done, Job, conclude, needs_job};
use ledger_tables::LedgerTables;
use net_base::{Cause, Event, Identity};
use std::alloc::{AllocError, Global};

/// Whether the flow of an event waits for a job; of an event that accepts an item, whether flow 0 does. Takes no memory.
pub fn awaits_job<F: FlowSet>(
    identity: &Identity,
    ledger: &LedgerTables,
    flows: &Flows<F>,
    event: &Event,
) -> bool
    requires { AllByRecursion (IsFlow F.within) flows.now.flows }
    ensures { result ≡ is_some (job_of identity.now ledger.now.store.list flows.now.flows
        event.now) }
{
    match live_at(flows, flow_in(event)) {
        Some(at) => needs_job(identity, ledger.store(), at),
        None => false,
    }
}

/// The job that the flow of an event waits for, `None` where it waits for none. The only error is want of memory.
///
/// `Job::run` may run it.
pub fn take_job<F: FlowSet>(
    alloc: Global,
    identity: &Identity,
    ledger: &LedgerTables,
    flows: &Flows<F>,
    event: &Event,
) -> Result<Option<Job>, AllocError>
    requires { AllByRecursion (IsFlow F.within) flows.now.flows }
    ensures job { IfOk result (λ job. job
        ≡ job_of identity.now ledger.now.store.list flows.now.flows event.now) }
    ensures limits { IfOk result (λ job. IfSome job IsJob) }
{
    match live_at(flows, flow_in(event)) {
        Some(at) => ledger_acts::take_job(alloc, identity, ledger.store(), at),
        None => Ok(None),
    }
}

/// The step by which a flow goes on whose job was run, by this cause, which moves that flow. It is the machine's step in each state in
/// which the flow waits for just this job, at each judgement that gave the verdict. The only error is want of memory.
pub fn settle<F: FlowSet>(
    alloc: Global,
    identity: &Identity,
    flows: &Flows<F>,
    cause: Cause,
    done: Done,
) -> Result<Step<F>, AllocError>
    requires identity { IsIdentity identity.now }
    requires moves { cause.event ≡ Move done.job.flow }
    requires waits { (store : List (Hash32 × SignedTx))
        × (job_of identity.now store flows.now.flows cause.event ≡ Some done.job) }
    requires steps { AllByRecursion (λ flow. steps_of flow < 2 ^ 32 - 1) flows.now.flows }
    requires limits { AllByRecursion (IsFlow F.within) flows.now.flows }
    ensures cause { IfOk result (λ step. step.cause ≡ cause) }
    ensures ready { IfOk result (λ step. (judge : Judgement) → IsRun judge keyed_mark done
        → (s : NodeState F) → s.flows ≡ flows.now.flows
        → job_of identity.now (with_ids s.stored) s.flows cause.event ≡ Some done.job
        → IsReady (environment (meaning F.machine F.reading judge) identity.now)
        identity.now.party.0 cause.moment.0 F.within s None step) }
{
    let Some(at) = live_at(flows, flow_in(&cause.event)) else {
        unreachable!();
    };
    go_on_by(alloc, identity, cause, at, conclude(alloc, done))
}
