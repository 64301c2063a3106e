//! How an item is accepted.

ghost use Rattle.std.specs.Prelude.{◌≡◌, ℕ, Some, true, length, IfOk, IfSome};
ghost use Rattle.net_base.specs.declared.names.Identity.{Identity as Id};
ghost use Rattle.net_base.specs.declared.causes.Event.TheVariants as event;
ghost use Rattle.net_base.specs.Names.{IsIdentity, IsKey};
ghost use Rattle.session_wire.specs.Bodies.{IsBody};
ghost use Rattle.session_wire.specs.Sessions.{Session, session_of};
ghost use Rattle.session_wire.specs.Rules.{is_init, is_new_key, is_next};
ghost use Rattle.net_model.specs.Environment.{environment, unjudged};
ghost use Rattle.net_model.specs.State.{NodeState};
ghost use Rattle.flow_records.specs.Steps.{no_ledger, owner_of, ends_with, IsAfter};
ghost use Rattle.flow_steps.specs.Going.{begun_for};
ghost use Rattle.flow_steps.specs.Ready.{IsReady};

use crate::ready::first_state;
use crate::resuming::{let_go, place_of};
use flow_machine::{FlowSet, MakeFault};
use flow_records::{FlowAfter, Step, unchanged_ledger};
use net_base::{Cause, Event, Identity, Key, Moment, Unlimited};
use session_acts::{answer, arrive};
use session_wire::{Body, SessionChange};
use std::alloc::{AllocError, Global};

/// The flow that answers an `Init`, at its first frame; `None` exactly where its class is unknown. The only error is want of memory.
fn flow_for<F: FlowSet>(
    alloc: Global,
    identity: &Identity,
    number: u32,
    now: Moment,
    key: &Key,
    init: &Body,
) -> Result<Option<FlowAfter<F>>, AllocError>
    requires identity { IsIdentity identity.now }
    requires key { IsKey key.now }
    requires body { IsBody init.now }
    ensures flow { IfOk result (λ flow. flow
        ≡ begun_for (environment (unjudged F.machine F.reading) identity.now)
        identity.now.party.0 now.0 number key.now init.now) }
    ensures within { IfOk result (λ flow. IfSome flow (IsAfter F.within)) }
{
    let Body::Init { class, .. } = init else {
        return Ok(None);
    };
    now.law_known();
    match F::initiated(alloc, *class, key, &place_of(identity, number, 0, now)) {
        Ok((top, waiting)) => {
            let state = first_state(alloc, number, *class, top, waiting)?;
            Ok(Some(FlowAfter { number, state }))
        }
        Err(MakeFault::UnknownClass) => Ok(None),
        Err(MakeFault::BadArgs) => unreachable!(),
        Err(MakeFault::Memory) => Err(AllocError),
    }
}

/// The step by which the flow becomes this and this changes in the sessions, and nothing of the ledger.
fn whole<F>(
    alloc: Global,
    cause: Cause,
    flow: Option<FlowAfter<F>>,
    session: SessionChange,
) -> Step<F>
    ensures { result ≡ record {
      cause = cause;
      flow = flow;
      session = session;
      ledger = no_ledger (owner_of flow) (ends_with flow);
    } }
{
    let ledger = unchanged_ledger(alloc, &flow);
    Step {
        cause,
        flow,
        session,
        ledger,
    }
}

/// Answers the `Init` of a new session: a flow of its class begins, and `Confirm` is sent, or where the class is unknown the `Init` is
/// rejected with code 5. The number is that of the node's next flow; the cause has the stamp and the moment. The only error is want of
/// memory.
pub fn answer_init<F: FlowSet>(
    alloc: Global,
    identity: &Identity,
    number: u32,
    stamp: u64,
    now: Moment,
    key: Key,
    init: Body,
) -> Result<Step<F>, AllocError>
    requires identity { IsIdentity identity.now }
    requires key { IsKey key }
    requires body { IsBody init }
    requires init { is_init init ≡ true }
    ensures cause { IfOk result (λ step. step.cause
        ≡ record { stamp = stamp; moment = now; event = event.Answer key }) }
    ensures ready { IfOk result (λ step. (s : NodeState F) → length s.flows ≡ number
        → is_new_key identity.now.nodes identity.now.party s.sessions key ≡ true
        → IsReady (environment (unjudged F.machine F.reading) identity.now) identity.now.party.0
        now.0 F.within s (Some init) step) }
{
    let cause = Cause {
        stamp,
        moment: now,
        event: Event::Answer { key },
    };
    match flow_for(alloc, identity, number, now, &key, &init)? {
        Some(flow) => match answer(alloc, key, init, Some(number)) {
            Ok(session) => Ok(whole(alloc, cause, Some(flow), session)),
            Err(fault) => {
                let_go(flow);
                Err(fault)
            }
        },
        None => {
            let session = answer(alloc, key, init, None)?;
            Ok(whole(alloc, cause, None, session))
        }
    }
}

/// The next item of a session arrives; the cause has the stamp and the moment. Takes no memory.
pub fn arrive_item<F: FlowSet>(
    alloc: Global,
    stamp: u64,
    now: Moment,
    key: Key,
    direction: u8,
    number: u32,
    body: Body,
) -> Step<F>
    requires key { IsKey key }
    requires body { IsBody body }
    ensures cause { result.cause ≡ record {
      stamp = stamp;
      moment = now;
      event = event.Arrive key direction number;
    } }
    ensures ready { (id : Id) (at : ℕ) (s : NodeState F) (session : Session)
        → session_of key s.sessions ≡ Some session
        → is_next id.party key direction number body session ≡ true
        → IsReady (environment (unjudged F.machine F.reading) id) id.party.0 at F.within s
        (Some body) result }
{
    let cause = Cause {
        stamp,
        moment: now,
        event: Event::Arrive {
            key,
            direction,
            number,
        },
    };
    whole(alloc, cause, None, arrive(alloc, key, body))
}
