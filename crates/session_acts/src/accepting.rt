//! What accepting an item changes of a node's sessions.

ghost use Rattle.std.specs.Prelude.{◌≡◌, ℕ, List, Some, IfOk, is_some, true, if◌then◌else◌};
ghost use Rattle.std.specs.Option.{unwrap_or};
ghost use Rattle.net_base.specs.declared.values.Party.{Party};
ghost use Rattle.session_wire.specs.declared.body.Body.TheVariants.{Confirm, Reject};
ghost use Rattle.session_wire.specs.Sessions.{Session, session_of};
ghost use Rattle.session_wire.specs.Rules.{is_new_key, is_next, is_init};
ghost use Rattle.session_table.specs.Changes.{IsFitting, room_for};
ghost use Rattle.net_base.specs.Names.{IsKey};
ghost use Rattle.session_wire.specs.Bodies.{IsBody};
ghost use Rattle.transition_record.specs.Changes.{IsSession};
ghost use Rattle.net_model.specs.State.{session_part};
ghost use Rattle.session_acts.specs.Parts.{answer_to, arrival};

use crate::items::one_item;
use net_base::{Key, ListOf};
use session_wire::{Body, SentItem, SessionChange};
use std::alloc::{AllocError, Global};

/// Answers the `Init` of a session, which another node opened: with `Confirm` where a flow, which owns the session from then on, begins,
/// and with `Reject` of code 5 where there is none. The only error is want of memory.
pub fn answer(
    alloc: Global,
    key: Key,
    init: Body,
    flow: Option<u32>,
) -> Result<SessionChange, AllocError>
    ensures change { IfOk result (λ change. session_part change
        ≡ answer_to key init (is_some flow)) }
    ensures owner { IfOk result (λ change. change.owner ≡ unwrap_or flow 0) }
    ensures came_key { IfOk result (λ change. change.came_key ≡ Some key) }
    ensures fits { IfOk result (λ change. (nodes stamp : ℕ) (me : Party) (list : List Session)
        → is_new_key nodes me list key ≡ true → is_init init ≡ true
        → IsFitting me stamp list change) }
    ensures room { IfOk result (λ change. room_for change ≡ 4) }
    ensures limits { IsKey key → IsBody init
        → IfOk result (λ change. IsSession (unwrap_or flow 0) (Some key) change) }
{
    let first = SentItem {
        key,
        direction: 1,
        seq: 0,
        body: first_answer(flow.is_some()),
    };
    let sent = one_item(alloc, first)?;
    Ok(SessionChange {
        opened: None,
        owner: flow.unwrap_or(0),
        sent,
        came: Some(init),
        came_key: Some(key),
        taken: None,
    })
}

/// The first item to the initiator: whether a flow begins.
fn first_answer(begins: bool) -> Body
    ensures { result ≡ (if begins then Confirm else Reject 5) }
{
    if begins {
        Body::Confirm
    } else {
        Body::Reject { code: 5 }
    }
}

/// The next item of a session arrives. Takes no memory.
pub fn arrive(alloc: Global, key: Key, body: Body) -> SessionChange
    ensures change { session_part result ≡ arrival body }
    ensures owner { result.owner ≡ 0 }
    ensures came_key { result.came_key ≡ Some key }
    ensures fits { (direction number stamp : ℕ) (me : Party) (list : List Session) (s : Session)
        → session_of key list ≡ Some s → is_next me key direction number body s ≡ true
        → IsFitting me stamp list result }
    ensures room { room_for result ≡ 3 }
    ensures limits { IsBody body → IsSession 0 (Some key) result }
{
    SessionChange {
        opened: None,
        owner: 0,
        sent: ListOf::new(alloc),
        came: Some(body),
        came_key: Some(key),
        taken: None,
    }
}
