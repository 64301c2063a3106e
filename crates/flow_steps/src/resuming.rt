//! How a flow goes on once its act is performed: a frame of its stack is resumed.

ghost use Rattle.std.specs.Prelude.{◌≡◌, ◌<◌, ◌-◌, ◌^◌, IfOk};
ghost use Rattle.net_base.specs.Names.{IsIdentity};
ghost use Rattle.ledger_types.specs.Values.{IsValue};
ghost use Rattle.flow_machine.specs.Checkpoints.{IsCheckpoint};
ghost use Rattle.flow_machine.specs.Limits.{IsResumed};
ghost use Rattle.flow_machine.specs.Stacks.{Frames};
ghost use Rattle.net_model.specs.Environment.{environment, unjudged};
ghost use Rattle.net_model.specs.Steps.{place};
ghost use Rattle.flow_steps.specs.Going.{next_state, gone_on, called, returned};

use flow_machine::{Act, Checkpoint, FlowSet, FlowState, Place, Resumed, Stack};
use ledger_types::Value;
use net_base::{Identity, Moment, Unlimited};
use std::alloc::{AllocError, Global};

/// Lets a value go.
pub(crate) fn let_go<T: Drop>(value: T) {
    let _ = value;
}

/// Where and when a flow of a node is made or resumed.
pub(crate) fn place_of(identity: &Identity, flow: u32, step: u32, now: Moment) -> Place
    ensures { result ≡ record {
      me = identity.now.party;
      notary = identity.now.notary;
      nodes = identity.now.nodes;
      flow = flow;
      step = step;
      now = now;
    } }
{
    Place {
        me: identity.party,
        notary: identity.notary,
        nodes: identity.nodes,
        flow,
        step,
        now,
    }
}

/// What a frame of the flow becomes, and the act that follows, once it is resumed with this.
fn resumed<F: FlowSet>(
    alloc: Global,
    identity: &Identity,
    now: Moment,
    at: &Checkpoint<F>,
    frame: &F,
    with: &Resumed,
) -> Result<(F, Act<F>), AllocError>
    requires step { at.now.step < 2 ^ 32 - 1 }
    requires identity { IsIdentity identity.now }
    requires limits { IsCheckpoint F.within at.now }
    requires frame { F.within frame.now }
    requires with { IsResumed with.now }
    ensures { IfOk result (λ made. made
        ≡ F.machine.next frame.now with.now
        (place (environment (unjudged F.machine F.reading) identity.now) identity.now.party.0
        at.now.flow at.now.step now.0)) }
{
    now.law_known();
    let here = place_of(identity, at.flow, at.step, now);
    frame.resume(alloc, with, &here)
}

/// The flow at its next step, which waits on this act, where there was memory for its frames.
fn next_of<F: FlowSet>(
    at: &Checkpoint<F>,
    waiting: Act<F>,
    stack: Result<Stack<F>, AllocError>,
) -> Result<FlowState<F>, AllocError>
    requires { at.now.step < 2 ^ 32 - 1 }
    ensures { (frames : Frames F) → IfOk stack (λ is. is ≡ frames)
        → IfOk result (λ flow. flow ≡ next_state at.now waiting frames) }
{
    match stack {
        Ok(stack) => Ok(FlowState::Live(Checkpoint {
            flow: at.flow,
            step: at.step + 1,
            class: at.class,
            waiting,
            stack,
        })),
        Err(fault) => {
            let_go(waiting);
            Err(fault)
        }
    }
}

/// The flow at its next step, once its top frame is resumed.
pub(crate) fn resume<F: FlowSet>(
    alloc: Global,
    identity: &Identity,
    now: Moment,
    at: &Checkpoint<F>,
    with: &Resumed,
) -> Result<FlowState<F>, AllocError>
    requires step { at.now.step < 2 ^ 32 - 1 }
    requires identity { IsIdentity identity.now }
    requires limits { IsCheckpoint F.within at.now }
    requires with { IsResumed with.now }
    ensures { IfOk result (λ flow. flow
        ≡ gone_on (environment (unjudged F.machine F.reading) identity.now) identity.now.party.0
        now.0 at.now at.now.stack.top at.now.stack.below with.now) }
{
    let (top, waiting) = resumed(alloc, identity, now, at, at.stack.top(), with)?;
    next_of(at, waiting, at.stack.with_top(alloc, top))
}

/// A subflow begins, or the flow is told that its stack has 8 frames.
pub(crate) fn call<F: FlowSet>(
    alloc: Global,
    identity: &Identity,
    now: Moment,
    at: &Checkpoint<F>,
    frame: &F,
) -> Result<FlowState<F>, AllocError>
    requires step { at.now.step < 2 ^ 32 - 1 }
    requires identity { IsIdentity identity.now }
    requires limits { IsCheckpoint F.within at.now }
    requires frame { F.within frame.now }
    ensures { IfOk result (λ flow. flow
        ≡ called (environment (unjudged F.machine F.reading) identity.now) identity.now.party.0
        now.0 at.now frame.now) }
{
    if at.stack.depth() == 8 {
        return resume(alloc, identity, now, at, &Resumed::Refused { code: 49 });
    }
    let (top, waiting) = resumed(alloc, identity, now, at, frame, &Resumed::Started)?;
    next_of(at, waiting, at.stack.with_callee(alloc, top))
}

/// A frame returned a value to the one below it, or ended its flow.
pub(crate) fn hand_down<F: FlowSet>(
    alloc: Global,
    identity: &Identity,
    now: Moment,
    at: &Checkpoint<F>,
    value: &Value,
) -> Result<FlowState<F>, AllocError>
    requires step { at.now.step < 2 ^ 32 - 1 }
    requires identity { IsIdentity identity.now }
    requires limits { IsCheckpoint F.within at.now }
    requires value { IsValue value.now }
    ensures { IfOk result (λ flow. flow
        ≡ returned (environment (unjudged F.machine F.reading) identity.now)
        identity.now.party.0 now.0 at.now value.now at.now.stack.below) }
{
    let Some(caller) = at.stack.caller() else {
        return Ok(FlowState::Ended {
            step: at.step + 1,
            class: at.class,
            value: value.copy(alloc)?,
        });
    };
    let with = Resumed::Returned {
        value: value.copy(alloc)?,
    };
    let made = resumed(alloc, identity, now, at, caller, &with);
    let_go(with);
    let (top, waiting) = made?;
    next_of(at, waiting, at.stack.with_caller(alloc, top))
}
