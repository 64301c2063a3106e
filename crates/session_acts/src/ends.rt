//! What the sessions of a flow are told at its end.

ghost use Rattle.std.specs.Prelude.{◌≡◌, ℕ, ◌+◌, ◌≤◌, None, IfOk, length, true};
ghost use Rattle.session_wire.specs.Rules.{sessions_of};
ghost use Rattle.session_table.specs.Changes.{IsFitting, room_for};
ghost use Rattle.std.specs.List.{AllByRecursion};
ghost use Rattle.net_base.specs.Names.{IsKey};
ghost use Rattle.session_wire.specs.Bodies.{IsBody};
ghost use Rattle.transition_record.specs.Changes.{IsSession};
ghost use Rattle.net_model.specs.Fits.{keys_differ};
ghost use Rattle.net_model.specs.Steps.{last_items};
ghost use Rattle.net_model.specs.State.{session_part};
ghost use Rattle.session_acts.specs.Parts.{is_last, AreSound};

use crate::items::item_on;
use net_base::{Identity, ListOf};
use session_table::Sessions;
use session_wire::{Body, SentItem, SessionChange};
use std::alloc::{AllocError, Global};

/// Sends the last item of a flow, `End` or `Error`, in each of its sessions, in order of making. It looks at the flow's sessions alone.
/// The only error is want of memory.
pub fn end_sessions(
    alloc: Global,
    identity: &Identity,
    sessions: &Sessions,
    flow: u32,
    last: &Body,
) -> Result<SessionChange, AllocError>
    requires party { sessions.now.party ≡ identity.now.party }
    requires keys { keys_differ sessions.now.list ≡ true }
    ensures change { IfOk result (λ change. session_part change
        ≡ last_items identity.now.party.0 sessions.now.list flow last.now) }
    ensures owner { IfOk result (λ change. change.owner ≡ flow) }
    ensures came_key { IfOk result (λ change. change.came_key ≡ None) }
    ensures fits { IfOk result (λ change. (stamp : ℕ)
        → AreSound identity.now.party sessions.now.list → is_last last.now ≡ true
        → IsFitting identity.now.party stamp sessions.now.list change) }
    ensures room { IfOk result (λ change. room_for change
        ≡ length (sessions_of flow sessions.now.list) + 3) }
    ensures limits { AllByRecursion (λ session. IsKey session.key) sessions.now.list
        → length (sessions_of flow sessions.now.list) ≤ 255 → IsBody last.now
        → IfOk result (λ change. IsSession flow None change) }
{
    let mut items = Vec::new(alloc);
    for place in 0..sessions.count_of_flow(flow) {
        let key = sessions.of_flow(flow, place).unwrap();
        let item = item_on(identity, sessions, key, last.copy(alloc)?);
        items.push(item)?;
    }
    Ok(SessionChange {
        opened: None,
        owner: flow,
        sent: ListOf::from_vec(items),
        came: None,
        came_key: None,
        taken: None,
    })
}
