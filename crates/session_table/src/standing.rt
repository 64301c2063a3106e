//! How sessions and their items are kept.

ghost use Rattle.std.specs.Prelude.{◌≡◌};
ghost use Rattle.session_wire.specs.Sessions.{ending_of, is_confirm};
ghost use Rattle.session_wire.specs.Rules.{is_init, is_lawful, is_opened_by};

use net_base::{Key, Party};
use session_wire::Body;

/// How a session stands, beside its items.
#[derive(Drop)]
pub(crate) struct Standing {
    pub peer: Party,
    /// The flow that owns the session, if one does.
    pub owner: Option<u32>,
    /// How many items were sent.
    pub sent: u32,
    /// How many items arrived.
    pub came: u32,
    /// How many of those that arrived were taken.
    pub taken: u32,
    /// The ending that was taken.
    pub ending: Option<Body>,
    /// How many of those that were sent are acknowledged.
    pub acked: u32,
}

/// What an item is named by within one direction: its session and its number there, from 0.
#[derive(Clone, Copy, PartialEq, Eq, Hash)]
pub(crate) struct Place {
    pub key: Key,
    pub number: u32,
}

/// An item that was sent, with the stamp of the transition that sent it.
#[derive(Drop)]
pub(crate) struct Posted {
    pub body: Body,
    pub stamp: u64,
}

/// The item again, where it ends its session. It takes no memory, since endings carry codes alone.
pub(crate) fn ending_of(body: &Body) -> Option<Body>
    ensures { result ≡ ending_of body.now }
{
    match body {
        Body::Reject { code } => Some(Body::Reject { code: *code }),
        Body::Error { code } => Some(Body::Error { code: *code }),
        Body::End => Some(Body::End),
        _ => None,
    }
}

/// Whether the item asks for a flow.
pub(crate) fn is_init(body: &Body) -> bool
    ensures { result ≡ is_init body.now }
{
    matches!(body, Body::Init { .. })
}

/// Whether an item may stand at a number of a direction: `Init` at the first of all, `Confirm` or `Reject` at the first of the
/// answers, all else behind them.
pub(crate) fn is_lawful(direction: u8, number: u32, body: &Body) -> bool
    ensures { result ≡ is_lawful direction number body.now }
{
    match body {
        Body::Init { .. } => direction == 0 && number == 0,
        Body::Confirm | Body::Reject { .. } => direction == 1 && number == 0,
        Body::Data { .. } | Body::Error { .. } | Body::End => number != 0,
    }
}

/// Whether the party opened the session of this key.
pub(crate) fn is_opened_by(party: Party, key: &Key) -> bool
    ensures { result ≡ is_opened_by party key.now }
{
    key.initiator.0 == party.0
}

/// Whether the item says that the flow was begun.
pub(crate) fn is_confirm(body: &Body) -> bool
    ensures { result ≡ is_confirm body.now }
{
    matches!(body, Body::Confirm)
}
