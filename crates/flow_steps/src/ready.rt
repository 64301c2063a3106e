//! The step by which a flow begins or goes on.

ghost use Rattle.std.specs.Prelude.{◌≡◌, ◌<◌, ◌^◌, ◌-◌, ℕ, Option, Some, None, length, IfOk, IfSome, option_map, option_and_then, slice_get};
ghost use Rattle.std.specs.List.{AllByRecursion};
ghost use Rattle.net_base.specs.Names.{IsIdentity};
ghost use Rattle.net_base.specs.Reading.{IsBytes};
ghost use Rattle.net_model.specs.State.{NodeState};
ghost use Rattle.net_model.specs.Environment.{Judgement, environment, meaning, unjudged};
ghost use Rattle.net_model.specs.Enabled.{picked};
ghost use Rattle.net_model.specs.Steps.{checkpoint_of};
ghost use Rattle.net_model.specs.Sound.{steps_of, AreNumbered};
ghost use Rattle.flow_records.specs.Records.{IsFlow};
ghost use Rattle.node_ledger.specs.Ledgered.{ledger_in, HoldsLedger};
ghost use Rattle.flow_steps.specs.Awaiting.{job_of};
ghost use Rattle.flow_steps.specs.Going.{first_state};
ghost use Rattle.flow_steps.specs.Ready.{AreKept, IsBegun, IsReady};

use crate::acts::perform;
use crate::picking::flow_in;
use crate::resuming::{let_go, place_of};
use crate::stepping::step_of;
use checkpoints::{FlowView, Flows};
use flow_machine::{Act, Checkpoint, FlowSet, FlowState, MakeFault, Stack};
use flow_records::Step;
use ledger_tables::LedgerTables;
use net_base::{ByteList, Cause, Event, Identity, Moment, Unlimited};
use session_acts::unchanged;
use session_table::Sessions;
use std::alloc::{AllocError, Global};

/// The checkpoint of the flow of the number, where it is live.
pub(crate) fn live_at<F: Drop>(flows: &Flows<F>, number: u32) -> Option<&Checkpoint<F>>
    ensures checkpoint { option_map (λ at. at.now) result
        ≡ option_and_then checkpoint_of (slice_get flows.now.flows number) }
    ensures own { IfSome result (λ at. at.now.flow ≡ number) }
{
    match flows.get(number) {
        Some(FlowView::Live(at)) => Some(at),
        _ => None,
    }
}

/// Tells a proof that these are bytes. It does nothing when it runs.
fn law_known_bytes(bytes: &[u8])
    ensures { IsBytes bytes.now }
{
    let _ = bytes;
}

/// A flow that begins, at step 0. The only error is want of memory.
pub(crate) fn first_state<F: Drop>(
    alloc: Global,
    flow: u32,
    class: u16,
    top: F,
    waiting: Act<F>,
) -> Result<FlowState<F>, AllocError>
    ensures { IfOk result (λ state. state ≡ first_state flow class (top, waiting)) }
{
    match Stack::new(alloc, top) {
        Ok(stack) => Ok(FlowState::Live(Checkpoint {
            flow,
            step: 0,
            class,
            waiting,
            stack,
        })),
        Err(fault) => {
            let_go(waiting);
            Err(fault)
        }
    }
}

/// The step by which a flow of a class begins, as that of the node's next number. Its cause has the stamp and the moment.
///
/// # Errors
///
/// `UnknownClass` and `BadArgs` exactly where the flow set makes no such flow, `Memory` for want of memory.
pub fn begin<F: FlowSet>(
    alloc: Global,
    identity: &Identity,
    number: u32,
    stamp: u64,
    now: Moment,
    class: u16,
    args: &ByteList,
) -> Result<Step<F>, MakeFault>
    requires { IsIdentity identity.now }
    ensures { (s : NodeState F) → length s.flows ≡ number
        → IsBegun (environment (unjudged F.machine F.reading) identity.now) identity.now.party.0
        stamp now F.within s class args.now result }
{
    let Ok(copy) = args.copy(alloc) else {
        return Err(MakeFault::Memory);
    };
    law_known_bytes(args.as_slice());
    now.law_known();
    let (top, waiting) = F::make(alloc, class, args, &place_of(identity, number, 0, now))?;
    let state = match first_state(alloc, number, class, top, waiting) {
        Ok(state) => state,
        Err(_) => return Err(MakeFault::Memory),
    };
    let event = Event::Start {
        flow: number,
        class,
        args: copy,
    };
    let cause = Cause {
        stamp,
        moment: now,
        event,
    };
    let session = unchanged(alloc, number);
    Ok(step_of(alloc, cause, number, state, session))
}

/// The step by which a flow goes on that waits for no job, by this cause, whose event was picked. The only error is want of memory.
pub fn advance<F: FlowSet>(
    alloc: Global,
    identity: &Identity,
    flows: &Flows<F>,
    sessions: &Sessions,
    ledger: &LedgerTables,
    cause: Cause,
) -> Result<Step<F>, AllocError>
    requires identity { IsIdentity identity.now }
    requires picked { (pick : Option ℕ)
        × (picked sessions.now.list cause.moment.0 pick flows.now.flows ≡ Some cause.event) }
    requires job { job_of identity.now ledger.now.store.list flows.now.flows cause.event ≡ None }
    requires steps { AllByRecursion (λ flow. steps_of flow < 2 ^ 32 - 1) flows.now.flows }
    requires limits { AllByRecursion (IsFlow F.within) flows.now.flows }
    requires numbered { AreNumbered 0 flows.now.flows }
    requires party { sessions.now.party ≡ identity.now.party }
    requires kept { AreKept identity.now.party sessions.now.list }
    ensures cause { IfOk result (λ step. step.cause ≡ cause) }
    ensures ready { IfOk result (λ step. (judge : Judgement) → (s : NodeState F)
        → s.flows ≡ flows.now.flows → s.sessions ≡ sessions.now.list
        → HoldsLedger identity.now.party (ledger_in s) ledger.now
        → IsReady (environment (meaning F.machine F.reading judge) identity.now)
        identity.now.party.0 cause.moment.0 F.within s None step) }
{
    let Some(at) = live_at(flows, flow_in(&cause.event)) else {
        unreachable!();
    };
    perform(alloc, identity, sessions, ledger, cause, at)
}
