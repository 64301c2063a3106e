//! The frames that a node sends: its messages until they are acknowledged, and acknowledgements.

ghost use Rattle.std.specs.Prelude.{◌≡◌, ◌++◌, ◌∷◌, [], map, IfOk, OnOk};
ghost use Rattle.std.specs.List.{AllByRecursion};
ghost use Rattle.session_wire.specs.Frames.{IsFrame, frame};
ghost use Rattle.session_wire.specs.declared.frame.Frame.TheVariants.{Ack};
ghost use Rattle.session_table.specs.Tables.{unacked};
ghost use Rattle.session_frames.specs.Lawful.{AreLawful};
ghost use Rattle.session_frames.specs.Sending.{message_of, outgoing, AreMessages, IsAddressed};

use net_base::{ByteList, Key, ListOf, Party};
use session_table::{Item, ItemList, Sessions};
use session_wire::Frame;
use std::alloc::{AllocError, Global};

/// A frame, with the party that it is sent to.
#[derive(Debug, Drop)]
pub struct Outgoing {
    pub to: Party,
    /// The frame's spelling.
    pub bytes: ByteList,
}

/// Frames that are sent, in order.
pub type OutgoingList = ListOf<Outgoing>;

/// The messages of all items that the party sent and that aren't acknowledged, by session in order of making and then by
/// number, each with the session's other side as its addressee. The only error is want of memory. Of n items it makes n log n
/// steps at most, however many sessions and acknowledged items there are.
pub fn frames_to_send(
    alloc: Global,
    party: Party,
    sessions: &Sessions,
) -> Result<OutgoingList, AllocError>
    requires party { sessions.now.party ≡ party }
    requires lawful { AreLawful party sessions.now.list }
    ensures list { IfOk result (λ frames. frames
        ≡ map (outgoing party) (unacked party sessions.now.list sessions.now.acked)) }
    ensures addressed { IfOk result (λ frames. AllByRecursion IsAddressed frames) }
{
    let items = sessions.unacked(alloc)?;
    frames_of(alloc, party, items)
}

/// The messages of these items.
fn frames_of(alloc: Global, party: Party, items: ItemList) -> Result<OutgoingList, AllocError>
    requires { AreMessages party items }
    ensures { IfOk result (λ frames. frames ≡ map (outgoing party) items) }
{
    let mut frames = Vec::new(alloc);
    'items: for item in items.into_vec() {
        add_frame(alloc, party, item, &mut frames)?;
    }
    Ok(ListOf::from_vec(frames))
}

/// Adds the message of an item.
fn add_frame(
    alloc: Global,
    party: Party,
    item: Item,
    frames: &mut Vec<Outgoing>,
) -> Result<(), AllocError>
    requires { IsFrame (message_of party item) }
    ensures { OnOk result (frames.new.items ≡ frames.old.items ++ outgoing party item ∷ []) }
{
    let to = item.peer;
    let bytes = message_frame(alloc, party, item)?;
    frames.push(Outgoing { to, bytes })?;
    Ok(())
}

/// The spelling of the message of an item.
fn message_frame(alloc: Global, party: Party, item: Item) -> Result<ByteList, AllocError>
    requires { IsFrame (message_of party item) }
    ensures { IfOk result (λ bytes. bytes ≡ frame (message_of party item)) }
{
    let message = Frame::Message {
        from: party,
        to: item.peer,
        key: item.key,
        direction: item.direction,
        seq: item.number,
        stamp: item.stamp,
        body: item.body,
    };
    let bytes = message.encode(alloc);
    let_go(message);
    bytes
}

fn let_go<T: Drop>(_value: T) {}

/// The acknowledgement from a party to another of the first `upto` items of a direction of their session, at least 1. The only
/// error is want of memory.
pub fn ack_frame(
    alloc: Global,
    party: Party,
    to: Party,
    key: &Key,
    direction: u8,
    upto: u32,
) -> Result<ByteList, AllocError>
    requires { IsFrame (Ack party to key.now direction upto) }
    ensures { IfOk result (λ bytes. bytes ≡ frame (Ack party to key.now direction upto)) }
{
    let ack = Frame::Ack {
        from: party,
        to,
        key: *key,
        direction,
        upto,
    };
    ack.encode(alloc)
}
