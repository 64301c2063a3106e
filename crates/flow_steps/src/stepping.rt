//! The step by which a flow goes on, with what was done for it.

ghost use Rattle.std.specs.Prelude.{◌≡◌, ◌<◌, ◌≤◌, ◌-◌, ◌^◌, false, length, IfOk, None, Some};
ghost use Rattle.net_base.specs.Names.{IsIdentity};
ghost use Rattle.flow_machine.specs.Checkpoints.{IsCheckpoint};
ghost use Rattle.flow_machine.specs.Limits.{IsResumed};
ghost use Rattle.flow_machine.specs.declared.flows.FlowState.{FlowState as StateOf};
ghost use Rattle.transition_record.specs.Changes.{IsSession, session_text, IsLedger};
ghost use Rattle.net_model.specs.Environment.{environment, unjudged};
ghost use Rattle.net_model.specs.Steps.{Done, goes_on};
ghost use Rattle.session_acts.specs.Parts.{done_of as spoken_of};
ghost use Rattle.flow_records.specs.Spelling.{is_over};
ghost use Rattle.flow_records.specs.Steps.{no_ledger, whole_part};
ghost use Rattle.ledger_acts.specs.Acts.{done_of, IsOutcome};
ghost use Rattle.flow_steps.specs.Going.{IsDone, Becomes, changed_by};

use crate::resuming::{let_go, resume};
use flow_machine::{Checkpoint, FlowSet, FlowState, Resumed};
use flow_records::{FlowAfter, Step, no_ledger, unchanged_ledger};
use ledger_acts::LedgerOutcome;
use ledger_types::LedgerChange;
use net_base::{Cause, Identity, Unlimited};
use session_acts::{Performed, unchanged};
use session_wire::SessionChange;
use std::alloc::{AllocError, Global};

/// The step by which the flow of the number becomes this, and by which this changes in the sessions.
pub(crate) fn step_of<F>(
    alloc: Global,
    cause: Cause,
    number: u32,
    state: FlowState<F>,
    session: SessionChange,
) -> Step<F>
    ensures { result ≡ changed_by cause number state session (no_ledger number (is_over state)) }
{
    let flow = Some(FlowAfter { number, state });
    let ledger = unchanged_ledger(alloc, &flow);
    Step {
        cause,
        flow,
        session,
        ledger,
    }
}

/// The step by which the flow of the number becomes this, where there was memory for it, and by which this changes.
fn step_with<F>(
    cause: Cause,
    number: u32,
    state: Result<FlowState<F>, AllocError>,
    session: SessionChange,
    ledger: LedgerChange,
) -> Result<Step<F>, AllocError>
    ensures { (new : StateOf F) → IfOk state (λ is. is ≡ new)
        → IfOk result (λ step. step ≡ changed_by cause number new session ledger) }
{
    match state {
        Ok(state) => Ok(Step {
            cause,
            flow: Some(FlowAfter { number, state }),
            session,
            ledger,
        }),
        Err(fault) => {
            let_go(session);
            let_go(ledger);
            Err(fault)
        }
    }
}

/// The top frame goes on with this, and this changes in the sessions and in the ledger. The only error is want of memory.
fn go_on<F: FlowSet>(
    alloc: Global,
    identity: &Identity,
    cause: Cause,
    at: &Checkpoint<F>,
    with: Resumed,
    session: SessionChange,
    ledger: LedgerChange,
) -> Result<Step<F>, AllocError>
    requires step { at.now.step < 2 ^ 32 - 1 }
    requires limits { IsCheckpoint F.within at.now }
    requires identity { IsIdentity identity.now }
    requires with { IsResumed with }
    requires session { IsSession at.now.flow None session }
    requires short { length (session_text session) ≤ 50000 }
    requires ledger { IsLedger at.now.flow false ledger }
    ensures becomes { IfOk result (Becomes F.within
        (goes_on (environment (unjudged F.machine F.reading) identity.now) identity.now.party.0
        cause.moment.0 at.now (with, whole_part session ledger))) }
    ensures cause { IfOk result (λ step. step.cause ≡ cause) }
{
    cause.moment.law_known();
    let state = resume(alloc, identity, cause.moment, at, &with);
    let_go(with);
    step_with(cause, at.flow, state, session, ledger)
}

/// The top frame goes on with what was done in the sessions. The only error is want of memory.
pub(crate) fn go_on_told<F: FlowSet>(
    alloc: Global,
    identity: &Identity,
    cause: Cause,
    at: &Checkpoint<F>,
    done: Performed,
) -> Result<Step<F>, AllocError>
    requires step { at.now.step < 2 ^ 32 - 1 }
    requires limits { IsCheckpoint F.within at.now }
    requires identity { IsIdentity identity.now }
    requires done { IsDone at.now.flow done }
    ensures becomes { IfOk result (Becomes F.within
        (goes_on (environment (unjudged F.machine F.reading) identity.now) identity.now.party.0
        cause.moment.0 at.now (spoken_of done))) }
    ensures cause { IfOk result (λ step. step.cause ≡ cause) }
{
    let Performed { with, change } = done;
    let ledger = no_ledger(alloc, at.flow, false);
    go_on(alloc, identity, cause, at, with, change, ledger)
}

/// The top frame goes on with what came of its act on the ledger, where there was memory for it. The only error is want of memory.
pub(crate) fn go_on_by<F: FlowSet>(
    alloc: Global,
    identity: &Identity,
    cause: Cause,
    at: &Checkpoint<F>,
    outcome: Result<LedgerOutcome, AllocError>,
) -> Result<Step<F>, AllocError>
    requires step { at.now.step < 2 ^ 32 - 1 }
    requires limits { IsCheckpoint F.within at.now }
    requires identity { IsIdentity identity.now }
    requires outcome { IfOk outcome (IsOutcome at.now.flow) }
    ensures becomes { (meant : Done) → IfOk outcome (λ p. done_of p ≡ meant)
        → IfOk result (Becomes F.within (goes_on
        (environment (unjudged F.machine F.reading) identity.now) identity.now.party.0
        cause.moment.0 at.now meant)) }
    ensures cause { IfOk result (λ step. step.cause ≡ cause) }
{
    match outcome {
        Ok(outcome) => {
            let LedgerOutcome { with, change } = outcome;
            let session = unchanged(alloc, at.flow);
            go_on(alloc, identity, cause, at, with, session, change)
        }
        Err(fault) => Err(fault),
    }
}
