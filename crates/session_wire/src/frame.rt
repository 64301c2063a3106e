//! Frames: what nodes send one another.

ghost use Rattle.std.specs.Prelude.{◌≡◌, ◌<◌, ◌≤◌, IfOk, IsOk, length};
ghost use Rattle.net_base.specs.Parts.{Gives, Writes, DecodesWhole};
ghost use Rattle.session_wire.specs.Frames.{IsFrame, frame, frame_at, frame_laws, message_at, ack_at, route_text, route_at};
ghost use Rattle.session_wire.specs.Routes.{route_parts};

use crate::body::{Body, read_body};
use net_base::{
    ByteList, DecodeFault, Key, PartFault, Party, Reader, Spelt, Writer, decode_whole, encode,
    read_below, read_below_except, read_kind, read_positive, read_stamp, read_u32,
};
use std::alloc::{AllocError, Global};

/// No frame has more bytes. This follows from the limits of what a frame holds.
pub const FRAME_LIMIT: usize = 32_768;

/// What one node sends another. `from` and `to` differ, and one of them is the session's initiator. `direction` is 0
/// for items from the initiator to the other side, the responder, and 1 for items to it.
#[derive(Debug, Drop)]
pub enum Frame {
    /// An item of a session. Initiator, session number, direction and sequence number together name the item, so that
    /// a repeated frame is known again.
    Message {
        /// The node that sends it.
        from: Party,
        /// The node that it is for.
        to: Party,
        /// The session.
        key: Key,
        /// 0 where `from` is the session's initiator, 1 where `to` is.
        direction: u8,
        /// The number of the item among those of its direction, from 0.
        seq: u32,
        /// The logical stamp of the transition that sent it, 1 to 2^63 - 1.
        stamp: u64,
        /// What the item says.
        body: Body,
    },
    /// Says that items of a direction arrived. It goes against that direction.
    Ack {
        /// The node at which they arrived.
        from: Party,
        /// The node that sent them.
        to: Party,
        /// The session.
        key: Key,
        /// The direction of the items: 0 where `to` is the session's initiator, 1 where `from` is.
        direction: u8,
        /// How many items arrived, at least 1.
        upto: u32,
    },
}

/// The sides, the session and the direction of a frame.
#[derive(Clone, Copy)]
struct Route {
    from: Party,
    to: Party,
    key: Key,
    direction: u8,
}

/// Reads these. `outward` is the direction in which the session's initiator sends such frames, and `inward` the one in
/// which it gets them.
fn read_route(from: &mut Reader, outward: u8, inward: u8) -> Result<Route, PartFault>
    ensures { Gives route_parts result from.old from.new (route_at outward inward from.old.left) }
{
    let sender = read_below(from, 16)?;
    let receiver = read_below_except(from, 16, sender)?;
    let initiator = read_kind(from, &[sender, receiver])?;
    let number = read_u32(from)?;
    let lawful = if initiator == sender { outward } else { inward };
    let direction = read_kind(from, &[lawful])?;
    Ok(Route {
        from: Party(sender),
        to: Party(receiver),
        key: Key {
            initiator: Party(initiator),
            number,
        },
        direction,
    })
}

#[tactic(auto, unfolding(crate::specs::Frames::message_at))]
fn read_message(alloc: Global, from: &mut Reader) -> Result<Frame, PartFault>
    ensures { Gives (λ x. x) result from.old from.new (message_at from.old.left) }
{
    let route = read_route(from, 0, 1)?;
    let seq = read_u32(from)?;
    let stamp = read_stamp(from)?;
    let body = read_body(alloc, from, route.direction, seq)?;
    Ok(Frame::Message {
        from: route.from,
        to: route.to,
        key: route.key,
        direction: route.direction,
        seq,
        stamp,
        body,
    })
}

#[tactic(auto, unfolding(crate::specs::Frames::ack_at))]
fn read_ack(from: &mut Reader) -> Result<Frame, PartFault>
    ensures { Gives (λ x. x) result from.old from.new (ack_at from.old.left) }
{
    let route = read_route(from, 1, 0)?;
    let upto = read_positive(from)?;
    Ok(Frame::Ack {
        from: route.from,
        to: route.to,
        key: route.key,
        direction: route.direction,
        upto,
    })
}

fn write_route(
    alloc: Global,
    from: &Party,
    to: &Party,
    key: &Key,
    direction: u8,
    out: &mut Writer,
) -> Result<(), AllocError>
    ensures { Writes (route_text from.entry.now to.entry.now key.entry.now direction) result out.old
        out.new }
{
    out.put_u8(alloc, from.0)?;
    out.put_u8(alloc, to.0)?;
    out.put_u8(alloc, key.initiator.0)?;
    out.put_u32(alloc, key.number)?;
    out.put_u8(alloc, direction)?;
    Ok(())
}

#[tactic(auto, unfolding(crate::specs::Frames::frame_at))]
impl Spelt for Frame {
    ghost spelling = { frame };

    ghost within = { IsFrame };

    ghost reading = { frame_at };

    ghost laws = { frame_laws };

    fn read_part(alloc: Global, from: &mut Reader) -> Result<Frame, PartFault> {
        match read_kind(from, &[1, 2])? {
            1 => read_message(alloc, from),
            _ => read_ack(from),
        }
    }

    fn write_part(&self, alloc: Global, out: &mut Writer) -> Result<(), AllocError> {
        match self {
            Frame::Message {
                from,
                to,
                key,
                direction,
                seq,
                stamp,
                body,
            } => {
                out.put_u8(alloc, 1)?;
                write_route(alloc, from, to, key, *direction, out)?;
                out.put_u32(alloc, *seq)?;
                out.put_u64(alloc, *stamp)?;
                body.write_part(alloc, out)?;
            }
            Frame::Ack {
                from,
                to,
                key,
                direction,
                upto,
            } => {
                out.put_u8(alloc, 2)?;
                write_route(alloc, from, to, key, *direction, out)?;
                out.put_u32(alloc, *upto)?;
            }
        }
        Ok(())
    }
}

impl Frame {
    /// The frame's spelling, at most `FRAME_LIMIT` bytes.
    ///
    /// # Errors
    ///
    /// Want of memory.
    #[tactic(auto, using(crate::proofs::Sizes::frame_fits))]
    pub fn encode(&self, alloc: Global) -> Result<ByteList, AllocError>
        requires { IsFrame self.now }
        ensures text { IfOk result (λ bytes. bytes ≡ frame self.now) }
        ensures size { IfOk result (λ bytes. length bytes ≤ FRAME_LIMIT) }
    {
        let mut out = Writer::new(alloc);
        encode(alloc, self, &mut out)?;
        Ok(out.into_bytes())
    }

    /// The frame whose spelling the bytes are.
    ///
    /// # Errors
    ///
    /// `Malformed { at }` exactly where the bytes as a whole are no frame's spelling, and `Memory`. `at` is the first place
    /// at which no frame's spelling can go on: the end of bytes that stop too early, and a frame's length where bytes
    /// follow it.
    #[tactic(auto, using(crate::proofs::Sizes::frame_fits))]
    pub fn decode(alloc: Global, bytes: &[u8]) -> Result<Frame, DecodeFault>
        ensures whole { DecodesWhole IsFrame frame result bytes.now }
        ensures size { IsOk result → length bytes.now ≤ FRAME_LIMIT }
    {
        decode_whole(alloc, bytes)
    }
}
