//! Items that a node sends, and whose sessions they are.

ghost use Rattle.std.specs.Prelude.{◌≡◌, ◌∷◌, [], Some, None, IfOk, is_some, true};
ghost use Rattle.session_wire.specs.Sessions.{Session, session_of};
ghost use Rattle.session_wire.specs.Rules.{direction_out, owned, item_on};
ghost use Rattle.net_base.specs.Names.{IsKey};
ghost use Rattle.session_wire.specs.Bodies.{IsBody};
ghost use Rattle.transition_record.specs.Changes.{IsSentItem};
ghost use Rattle.session_acts.specs.Parts.{unchanged};

use net_base::{Identity, Key, ListOf};
use session_table::Sessions;
use session_wire::{Body, SentItem, SessionChange};
use std::alloc::{AllocError, Global};

/// The change of this flow by which no session changes: nothing is opened, sent, come or taken. Takes no memory.
pub fn unchanged(alloc: Global, flow: u32) -> SessionChange
    ensures { result ≡ unchanged flow }
{
    SessionChange {
        opened: None,
        owner: flow,
        sent: ListOf::new(alloc),
        came: None,
        came_key: None,
        taken: None,
    }
}

/// The list of one item.
pub(crate) fn one_item<T: Drop>(alloc: Global, item: T) -> Result<ListOf<T>, AllocError>
    ensures { IfOk result (λ list. list ≡ item ∷ []) }
{
    let mut items = Vec::new(alloc);
    items.push(item)?;
    Ok(ListOf::from_vec(items))
}

/// Whether the flow owns the session of the key.
pub(crate) fn owns(sessions: &Sessions, flow: u32, key: &Key) -> bool
    ensures { result ≡ is_some (owned flow key.now sessions.now.list) }
{
    match sessions.owner(key) {
        Some(owner) => flow == owner,
        None => false,
    }
}

/// The direction of what the node sends in a session: 0 where it opened the session, else 1.
fn direction_out(identity: &Identity, key: &Key) -> u8
    ensures { result ≡ direction_out identity.now.party key.now }
{
    if key.initiator.0 == identity.party.0 {
        0
    } else {
        1
    }
}

/// The next item that the node sends in a session, which stands.
pub(crate) fn item_on(identity: &Identity, sessions: &Sessions, key: Key, body: Body) -> SentItem
    requires { is_some (session_of key sessions.now.list) ≡ true }
    ensures item { (s : Session) → session_of key sessions.now.list ≡ Some s
        → result ≡ item_on identity.now.party s body }
    ensures limits { IsKey key → IsBody body → IsSentItem result }
{
    let seq = sessions.sent(&key).unwrap();
    SentItem {
        key,
        direction: direction_out(identity, &key),
        seq,
        body,
    }
}
