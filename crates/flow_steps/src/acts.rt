//! How a flow goes on by its act, and what changes of its node's sessions and ledger then.

ghost use Rattle.std.specs.Prelude.{◌≡◌, ◌<◌, ◌+◌, ◌-◌, ◌^◌, false, IfOk, None};
ghost use Rattle.net_base.specs.Names.{IsIdentity, IsKey};
ghost use Rattle.ledger_types.specs.Values.{IsValue};
ghost use Rattle.session_wire.specs.Bodies.{IsBody};
ghost use Rattle.session_wire.specs.Rules.{owned};
ghost use Rattle.flow_machine.specs.Checkpoints.{IsCheckpoint};
ghost use Rattle.flow_machine.specs.declared.acts.Resumed.TheVariants.{Lapsed};
ghost use Rattle.net_model.specs.Environment.{Judgement, environment, meaning, unjudged};
ghost use Rattle.net_model.specs.State.{NodeState, nothing};
ghost use Rattle.net_model.specs.Steps.{goes_on, pushes, returns, fails, opens, sends};
ghost use Rattle.session_acts.specs.Parts.{done_of, unchanged};
ghost use Rattle.flow_records.specs.Steps.{IsAfter, carries_value};
ghost use Rattle.ledger_acts.specs.Jobs.{awaited};
ghost use Rattle.flow_steps.specs.Going.{takes_or_lapses, over, IsDone, Becomes, Performs};
ghost use Rattle.flow_steps.specs.Ready.{AreKept};

use crate::resuming::{call, hand_down, let_go};
use crate::stepping::{go_on_by, go_on_told, step_of};
use flow_machine::{Act, Checkpoint, FlowSet, FlowState, Resumed};
use flow_records::Step;
use ledger_acts::{look_up, missing, notarise, record_unjudged, reserve, sign, verify_unjudged};
use ledger_tables::LedgerTables;
use ledger_types::Value;
use net_base::{Cause, Identity, Key, Party, Unlimited};
use session_acts::{Performed, end_sessions, open, receive, send, unchanged};
use session_table::Sessions;
use session_wire::Body;
use std::alloc::{AllocError, Global};

/// The next item of a session is taken where one is there; else the moment has come. The only error is want of memory.
fn take_item(
    alloc: Global,
    sessions: &Sessions,
    flow: u32,
    key: &Key,
) -> Result<Performed, AllocError>
    ensures done { IfOk result (λ p. done_of p
        ≡ takes_or_lapses (owned flow key.now sessions.now.list)) }
    ensures within { IsKey key.now → AreKept sessions.now.party sessions.now.list
        → IfOk result (λ p. IsDone flow p) }
{
    let found = receive(alloc, sessions, flow, key)?;
    match found {
        Some(done) => Ok(done),
        None => Ok(lapse(alloc, flow)),
    }
}

/// The moment has come. Takes no memory.
fn lapse(alloc: Global, flow: u32) -> Performed
    ensures { result ≡ record { with = Lapsed; change = unchanged flow } }
{
    Performed {
        with: Resumed::Lapsed,
        change: unchanged(alloc, flow),
    }
}

/// A subflow begins, or the flow is told that its stack has 8 frames. The only error is want of memory.
fn push<F: FlowSet>(
    alloc: Global,
    identity: &Identity,
    cause: Cause,
    at: &Checkpoint<F>,
    frame: &F,
) -> Result<Step<F>, AllocError>
    requires step { at.now.step < 2 ^ 32 - 1 }
    requires limits { IsCheckpoint F.within at.now }
    requires identity { IsIdentity identity.now }
    requires frame { F.within frame.now }
    ensures becomes { IfOk result (λ step.
        Becomes F.within (pushes (environment (unjudged F.machine F.reading) identity.now)
        identity.now.party.0 cause.moment.0 at.now frame.now) step) }
    ensures cause { IfOk result (λ step. step.cause ≡ cause) }
{
    cause.moment.law_known();
    let state = call(alloc, identity, cause.moment, at, frame)?;
    let session = unchanged(alloc, at.flow);
    Ok(step_of(alloc, cause, at.flow, state, session))
}

/// The flow is over, and each of its sessions is told so by this item. The only error is want of memory.
fn end<F: FlowSet>(
    alloc: Global,
    identity: &Identity,
    sessions: &Sessions,
    cause: Cause,
    at: &Checkpoint<F>,
    state: FlowState<F>,
    last: &Body,
) -> Result<Step<F>, AllocError>
    requires party { sessions.now.party ≡ identity.now.party }
    requires kept { AreKept identity.now.party sessions.now.list }
    requires limits { IsAfter F.within (record { number = at.now.flow; state = state }) }
    requires last { IsBody last.now }
    requires bare { carries_value last.now ≡ false }
    ensures becomes { IfOk result (λ step.
        Becomes F.within (over identity.now.party.0 sessions.now.list at.now state last.now)
        step) }
    ensures cause { IfOk result (λ step. step.cause ≡ cause) }
{
    match end_sessions(alloc, identity, sessions, at.flow, last) {
        Ok(session) => Ok(step_of(alloc, cause, at.flow, state, session)),
        Err(fault) => {
            let_go(state);
            Err(fault)
        }
    }
}

/// A frame returned a value to the one below it, or ended its flow. The only error is want of memory.
fn give_back<F: FlowSet>(
    alloc: Global,
    identity: &Identity,
    sessions: &Sessions,
    cause: Cause,
    at: &Checkpoint<F>,
    value: &Value,
) -> Result<Step<F>, AllocError>
    requires step { at.now.step < 2 ^ 32 - 1 }
    requires limits { IsCheckpoint F.within at.now }
    requires identity { IsIdentity identity.now }
    requires party { sessions.now.party ≡ identity.now.party }
    requires kept { AreKept identity.now.party sessions.now.list }
    requires value { IsValue value.now }
    ensures becomes { IfOk result (λ step. (s : NodeState F) → s.sessions ≡ sessions.now.list
        → Becomes F.within (returns (environment (unjudged F.machine F.reading) identity.now)
        identity.now.party.0 s cause.moment.0 at.now value.now at.now.stack.below) step) }
    ensures cause { IfOk result (λ step. step.cause ≡ cause) }
{
    cause.moment.law_known();
    let state = hand_down(alloc, identity, cause.moment, at, value)?;
    if at.stack.depth() == 1 {
        let last = Body::End;
        let step = end(alloc, identity, sessions, cause, at, state, &last);
        let_go(last);
        return step;
    }
    let session = unchanged(alloc, at.flow);
    Ok(step_of(alloc, cause, at.flow, state, session))
}

/// The flow has failed. The only error is want of memory.
fn fail<F: FlowSet>(
    alloc: Global,
    identity: &Identity,
    sessions: &Sessions,
    cause: Cause,
    at: &Checkpoint<F>,
    code: u16,
) -> Result<Step<F>, AllocError>
    requires step { at.now.step < 2 ^ 32 - 1 }
    requires limits { IsCheckpoint F.within at.now }
    requires party { sessions.now.party ≡ identity.now.party }
    requires kept { AreKept identity.now.party sessions.now.list }
    ensures becomes { IfOk result (λ step. (s : NodeState F) → s.sessions ≡ sessions.now.list
        → Becomes F.within (fails identity.now.party.0 s at.now code) step) }
    ensures cause { IfOk result (λ step. step.cause ≡ cause) }
{
    let state = FlowState::Failed {
        step: at.step + 1,
        class: at.class,
        code,
    };
    let last = Body::Error { code };
    let step = end(alloc, identity, sessions, cause, at, state, &last);
    let_go(last);
    step
}

/// A session is opened, or the flow is told why not. The only error is want of memory.
fn open_session<F: FlowSet>(
    alloc: Global,
    identity: &Identity,
    sessions: &Sessions,
    cause: Cause,
    at: &Checkpoint<F>,
    to: Party,
    class: u16,
    first: &Value,
) -> Result<Step<F>, AllocError>
    requires step { at.now.step < 2 ^ 32 - 1 }
    requires limits { IsCheckpoint F.within at.now }
    requires identity { IsIdentity identity.now }
    requires party { sessions.now.party ≡ identity.now.party }
    requires kept { AreKept identity.now.party sessions.now.list }
    requires first { IsValue first.now }
    ensures becomes { IfOk result (λ step.
        Becomes F.within (goes_on (environment (unjudged F.machine F.reading) identity.now)
        identity.now.party.0 cause.moment.0 at.now
        (opens identity.now.nodes identity.now.party.0 sessions.now.list at.now.flow to class
        first.now)) step) }
    ensures cause { IfOk result (λ step. step.cause ≡ cause) }
{
    let done = open(alloc, identity, sessions, at.flow, to, class, first)?;
    go_on_told(alloc, identity, cause, at, done)
}

/// A value is sent in a session, or the flow is told that it owns no such session. The only error is want of memory.
fn send_item<F: FlowSet>(
    alloc: Global,
    identity: &Identity,
    sessions: &Sessions,
    cause: Cause,
    at: &Checkpoint<F>,
    key: &Key,
    value: &Value,
) -> Result<Step<F>, AllocError>
    requires step { at.now.step < 2 ^ 32 - 1 }
    requires limits { IsCheckpoint F.within at.now }
    requires identity { IsIdentity identity.now }
    requires party { sessions.now.party ≡ identity.now.party }
    requires kept { AreKept identity.now.party sessions.now.list }
    requires key { IsKey key.now }
    requires value { IsValue value.now }
    ensures becomes { IfOk result (λ step.
        Becomes F.within (goes_on (environment (unjudged F.machine F.reading) identity.now)
        identity.now.party.0 cause.moment.0 at.now
        (sends identity.now.party.0 value.now (owned at.now.flow key.now sessions.now.list)))
        step) }
    ensures cause { IfOk result (λ step. step.cause ≡ cause) }
{
    let done = send(alloc, identity, sessions, at.flow, key, value)?;
    go_on_told(alloc, identity, cause, at, done)
}

/// The next item of a session is taken, or its moment has come. The only error is want of memory.
fn receive_item<F: FlowSet>(
    alloc: Global,
    identity: &Identity,
    sessions: &Sessions,
    cause: Cause,
    at: &Checkpoint<F>,
    key: &Key,
) -> Result<Step<F>, AllocError>
    requires step { at.now.step < 2 ^ 32 - 1 }
    requires limits { IsCheckpoint F.within at.now }
    requires identity { IsIdentity identity.now }
    requires party { sessions.now.party ≡ identity.now.party }
    requires kept { AreKept identity.now.party sessions.now.list }
    requires key { IsKey key.now }
    ensures becomes { IfOk result (λ step.
        Becomes F.within (goes_on (environment (unjudged F.machine F.reading) identity.now)
        identity.now.party.0 cause.moment.0 at.now
        (takes_or_lapses (owned at.now.flow key.now sessions.now.list))) step) }
    ensures cause { IfOk result (λ step. step.cause ≡ cause) }
{
    let done = take_item(alloc, sessions, at.flow, key)?;
    go_on_told(alloc, identity, cause, at, done)
}

/// The moment has come until which a flow slept. The only error is want of memory.
fn wake<F: FlowSet>(
    alloc: Global,
    identity: &Identity,
    cause: Cause,
    at: &Checkpoint<F>,
) -> Result<Step<F>, AllocError>
    requires step { at.now.step < 2 ^ 32 - 1 }
    requires limits { IsCheckpoint F.within at.now }
    requires identity { IsIdentity identity.now }
    ensures becomes { IfOk result (λ step.
        Becomes F.within (goes_on (environment (unjudged F.machine F.reading) identity.now)
        identity.now.party.0 cause.moment.0 at.now (Lapsed, nothing)) step) }
    ensures cause { IfOk result (λ step. step.cause ≡ cause) }
{
    go_on_told(alloc, identity, cause, at, lapse(alloc, at.flow))
}

/// The step by which a live flow goes on that waits for no job: its act is performed. The only error is want of memory.
pub(crate) fn perform<F: FlowSet>(
    alloc: Global,
    identity: &Identity,
    sessions: &Sessions,
    ledger: &LedgerTables,
    cause: Cause,
    at: &Checkpoint<F>,
) -> Result<Step<F>, AllocError>
    requires step { at.now.step < 2 ^ 32 - 1 }
    requires limits { IsCheckpoint F.within at.now }
    requires identity { IsIdentity identity.now }
    requires party { sessions.now.party ≡ identity.now.party }
    requires kept { AreKept identity.now.party sessions.now.list }
    requires job { awaited identity.now ledger.now.store.list at.now ≡ None }
    ensures performs { IfOk result (λ step. (judge : Judgement)
        → Performs (environment (meaning F.machine F.reading judge) identity.now)
        identity.now.party.0 cause.moment.0 F.within sessions.now.list ledger.now at.now step) }
    ensures cause { IfOk result (λ step. step.cause ≡ cause) }
{
    let outcome = match &at.waiting {
        Act::Open { to, class, first } => {
            return open_session(alloc, identity, sessions, cause, at, *to, *class, first);
        }
        Act::Send { key, value } => {
            return send_item(alloc, identity, sessions, cause, at, key, value);
        }
        Act::Receive { key } => return receive_item(alloc, identity, sessions, cause, at, key),
        Act::ReceiveBy { key, .. } => {
            return receive_item(alloc, identity, sessions, cause, at, key);
        }
        Act::Sleep { .. } => return wake(alloc, identity, cause, at),
        Act::Sub { frame } => return push(alloc, identity, cause, at, frame),
        Act::Return { value } => return give_back(alloc, identity, sessions, cause, at, value),
        Act::Fail { code } => return fail(alloc, identity, sessions, cause, at, *code),
        Act::Reserve { token, amount } => reserve(alloc, ledger, at.flow, token, *amount),
        Act::Lookup { id } => look_up(alloc, ledger, at.flow, id),
        Act::Missing { tx } => missing(alloc, ledger, at.flow, tx.get()),
        Act::Sign { id } => Ok(sign(alloc, identity, at.flow, *id)),
        Act::Notarise { request } => {
            notarise(
                alloc,
                identity,
                ledger,
                at.flow,
                cause.moment,
                request.get(),
            )
        }
        Act::Verify { .. } => Ok(verify_unjudged(alloc, at.flow)),
        Act::Record { stx } => {
            Ok(record_unjudged(alloc, identity, ledger.store(), at.flow, stx.get()))
        }
    };
    go_on_by(alloc, identity, cause, at, outcome)
}
