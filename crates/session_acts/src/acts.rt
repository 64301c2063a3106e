//! What the acts of a flow on its sessions do.

ghost use Rattle.std.specs.Prelude.{◌≡◌, ℕ, ◌<◌, ◌≤◌, ◌+◌, None, IfOk, IfSome, option_map, length};
ghost use Rattle.std.specs.Option.{option_and_then};
ghost use Rattle.flow_machine.specs.declared.acts.Resumed.TheVariants.{Refused};
ghost use Rattle.session_wire.specs.Sessions.{session_of};
ghost use Rattle.session_wire.specs.Rules.{is_no_peer, owned};
ghost use Rattle.session_table.specs.Changes.{IsFitting, room_for};
ghost use Rattle.session_table.specs.Tables.{item_there};
ghost use Rattle.net_base.specs.Names.{IsIdentity, IsKey};
ghost use Rattle.ledger_types.specs.Values.{IsValue};
ghost use Rattle.transition_record.specs.Changes.{IsSession, IsTaken};
ghost use Rattle.net_model.specs.Steps.{opens, sends, receives, handed};
ghost use Rattle.session_acts.specs.Parts.{done_of, unchanged, AreSound};

use crate::items::{item_on, one_item, owns, unchanged};
use flow_machine::Resumed;
use ledger_types::Value;
use net_base::{Identity, Key, ListOf, Party};
use session_table::Sessions;
use session_wire::{Body, SentItem, SessionChange};
use std::alloc::{AllocError, Global};

/// What the frame that waited on an act is resumed with, and what changes of the node's sessions.
#[derive(Drop)]
pub struct Performed {
    pub with: Resumed,
    pub change: SessionChange,
}

/// The act isn't performed, for this reason.
fn refused(alloc: Global, flow: u32, code: u16) -> Performed
    ensures { result ≡ record { with = Refused code; change = unchanged flow } }
{
    Performed {
        with: Resumed::Refused { code },
        change: unchanged(alloc, flow),
    }
}

/// Whether a party is no other node of the network.
fn is_no_peer(identity: &Identity, to: Party) -> bool
    ensures { result ≡ is_no_peer identity.now.nodes identity.now.party to }
{
    to.0 == identity.party.0 || identity.nodes <= to.0
}

/// Opens the node's next session, with another party's flow of the class: its `Init` carries the first value. The frame is
/// refused with 48 where the party is this node's or no node's, and with 57 where the flow has 64 sessions. The only error is want
/// of memory.
pub fn open(
    alloc: Global,
    identity: &Identity,
    sessions: &Sessions,
    flow: u32,
    to: Party,
    class: u16,
    first: &Value,
) -> Result<Performed, AllocError>
    requires party { sessions.now.party ≡ identity.now.party }
    ensures done { IfOk result (λ p. done_of p
        ≡ opens identity.now.nodes identity.now.party.0 sessions.now.list flow to class
        first.now) }
    ensures owner { IfOk result (λ p. p.change.owner ≡ flow) }
    ensures came_key { IfOk result (λ p. p.change.came_key ≡ None) }
    ensures fits { IfOk result (λ p. (stamp : ℕ) → AreSound identity.now.party sessions.now.list
        → IsFitting identity.now.party stamp sessions.now.list p.change) }
    ensures room { IfOk result (λ p. room_for p.change ≤ 4) }
    ensures limits { IsIdentity identity.now → IsValue first.now
        → IfOk result (λ p. IsSession flow None p.change) }
{
    if is_no_peer(identity, to) {
        return Ok(refused(alloc, flow, 48));
    }
    if sessions.count_of_flow(flow) >= 64 {
        return Ok(refused(alloc, flow, 57));
    }
    let key = Key {
        initiator: identity.party,
        number: sessions.next_number(),
    };
    let body = Body::Init {
        class,
        first: first.copy(alloc)?,
    };
    let sent = one_item(
        alloc,
        SentItem {
            key,
            direction: 0,
            seq: 0,
            body,
        },
    )?;
    Ok(Performed {
        with: Resumed::Opened { key },
        change: SessionChange {
            opened: Some((key, to)),
            owner: flow,
            sent,
            came: None,
            came_key: None,
            taken: None,
        },
    })
}

/// Sends a value in a session. The frame is refused with 58 where the flow owns no such session. The only error is want of memory.
pub fn send(
    alloc: Global,
    identity: &Identity,
    sessions: &Sessions,
    flow: u32,
    key: &Key,
    value: &Value,
) -> Result<Performed, AllocError>
    requires party { sessions.now.party ≡ identity.now.party }
    ensures done { IfOk result (λ p. done_of p
        ≡ sends identity.now.party.0 value.now (owned flow key.now sessions.now.list)) }
    ensures owner { IfOk result (λ p. p.change.owner ≡ flow) }
    ensures came_key { IfOk result (λ p. p.change.came_key ≡ None) }
    ensures fits { IfOk result (λ p. (stamp : ℕ) → AreSound identity.now.party sessions.now.list
        → IsFitting identity.now.party stamp sessions.now.list p.change) }
    ensures room { IfOk result (λ p. room_for p.change ≤ 4) }
    ensures limits { IsKey key.now → IsValue value.now
        → IfOk result (λ p. IsSession flow None p.change) }
{
    if !owns(sessions, flow, key) {
        return Ok(refused(alloc, flow, 58));
    }
    let body = Body::Data {
        value: value.copy(alloc)?,
    };
    let sent = one_item(alloc, item_on(identity, sessions, *key, body))?;
    Ok(Performed {
        with: Resumed::Sent,
        change: SessionChange {
            opened: None,
            owner: flow,
            sent,
            came: None,
            came_key: None,
            taken: None,
        },
    })
}

/// What the frame is resumed with where this item is taken.
fn handed(alloc: Global, body: &Body) -> Result<Resumed, AllocError>
    ensures { IfOk result (λ with. with ≡ handed body.now) }
{
    Ok(match body {
        Body::Init { first: value, .. } | Body::Data { value } => Resumed::Got {
            value: value.copy(alloc)?,
        },
        Body::Confirm | Body::End => Resumed::Ended,
        Body::Reject { code } => Resumed::Rejected { code: *code },
        Body::Error { code } => Resumed::Failed { code: *code },
    })
}

/// How many items arrived in the session, where it stands.
fn arrived(sessions: &Sessions, key: &Key) -> Option<u32>
    ensures { result ≡ option_map (λ s. length s.came) (session_of key.now sessions.now.list) }
{
    match sessions.expected(key, 0) {
        Some(count) => Some(count),
        None => sessions.expected(key, 1),
    }
}

/// The number behind this one, which is below a count.
fn number_behind(number: u32, count: u32) -> u32
    requires { number < count }
    ensures { result ≡ number + 1 }
{
    let _ = count;
    number + 1
}

/// How many items of the session are taken once the next is; `None` where an ending was taken before.
fn taken_with(sessions: &Sessions, key: &Key) -> Option<(Key, u32)>
    ensures taken { result ≡ option_map (λ n. (key.now, n + 1))
        (option_and_then (λ found. found.0) (item_there key.now sessions.now.list)) }
    ensures limits { IsKey key.now → IfSome result IsTaken }
{
    let number = sessions.item_place(key)?;
    let count = arrived(sessions, key)?;
    Some((*key, number_behind(number, count)))
}

/// Takes the next item of a session: the first that isn't taken and is no `Confirm`, or the ending that was taken before. `None`
/// exactly where the session is the flow's and no item is there. The frame is refused with 58 where the flow owns no such session.
/// The only error is want of memory.
pub fn receive(
    alloc: Global,
    sessions: &Sessions,
    flow: u32,
    key: &Key,
) -> Result<Option<Performed>, AllocError>
    ensures done { IfOk result (λ found. option_map done_of found
        ≡ receives (owned flow key.now sessions.now.list)) }
    ensures owner { IfOk result (λ found. IfSome found (λ p. p.change.owner ≡ flow)) }
    ensures came_key { IfOk result (λ found. IfSome found (λ p. p.change.came_key ≡ None)) }
    ensures fits { IfOk result (λ found.
        IfSome found (λ p. (stamp : ℕ) → IsFitting sessions.now.party stamp sessions.now.list
        p.change)) }
    ensures room { IfOk result (λ found. IfSome found (λ p. room_for p.change ≤ 4)) }
    ensures limits { IsKey key.now → IfOk result
        (λ found. IfSome found (λ p. IsSession flow None p.change)) }
{
    if !owns(sessions, flow, key) {
        return Ok(Some(refused(alloc, flow, 58)));
    }
    let Some(body) = sessions.next_item(key) else {
        return Ok(None);
    };
    let with = handed(alloc, body)?;
    Ok(Some(Performed {
        with,
        change: SessionChange {
            opened: None,
            owner: flow,
            sent: ListOf::new(alloc),
            came: None,
            came_key: None,
            taken: taken_with(sessions, key),
        },
    }))
}
