//! What a node says of a frame before it commits anything.

ghost use Rattle.std.specs.Prelude.{◌≡◌, IfOk};
ghost use Rattle.session_wire.specs.Frames.{IsFrame, AreSides, GoesAt};
ghost use Rattle.session_wire.specs.Rules.{direction_in};
ghost use Rattle.session_wire.specs.Sessions.{session_of};
ghost use Rattle.session_frames.specs.Judging.{arrived, judge, judge_ack, objection, misplaced, is_with, IsJudged};
ghost use Rattle.session_frames.specs.Items.{GoesFurther};
ghost use Rattle.session_frames.specs.Lawful.{AreLawful};
ghost use Rattle.session_wire.specs.declared.frame.Frame.TheVariants.{Message, Ack};

use crate::judged::Judged;
use net_base::{DecodeFault, Identity, Key, Party};
use session_table::Sessions;
use session_wire::Frame;
use std::alloc::{AllocError, Global};

/// What a node with these sessions says of the frame that the bytes are, or that they are none. The only error is want of
/// memory. The number of steps is that of the bytes, however many sessions there are.
pub fn judge(
    alloc: Global,
    identity: &Identity,
    sessions: &Sessions,
    bytes: &[u8],
) -> Result<Judged, AllocError>
    requires party { sessions.now.party ≡ identity.now.party }
    ensures judged { IfOk result (λ judged.
        IsJudged identity.now sessions.now.list bytes.now judged) }
    ensures further { IfOk result (λ judged. AreLawful identity.now.party sessions.now.list
        → GoesFurther identity.now sessions.now.list judged) }
{
    match Frame::decode(alloc, bytes) {
        Ok(frame) => Ok(judge_frame(identity, sessions, frame)),
        Err(DecodeFault::Memory) => Err(AllocError),
        Err(DecodeFault::Malformed { .. }) => Ok(Judged::Garbled),
    }
}

fn judge_frame(identity: &Identity, sessions: &Sessions, frame: Frame) -> Judged
    requires party { sessions.now.party ≡ identity.now.party }
    requires lawful { IsFrame frame }
    ensures { result ≡ judge identity.now sessions.now.list frame }
{
    match frame {
        Frame::Message {
            from,
            to,
            key,
            direction,
            seq,
            stamp,
            body,
        } => {
            match objection(identity, sessions, from, to, &key, direction, seq) {
                Some(judged) => {
                    let_go(body);
                    judged
                }
                None => Judged::Next {
                    from,
                    key,
                    direction,
                    number: seq,
                    stamp,
                    body,
                },
            }
        }
        Frame::Ack {
            from,
            to,
            key,
            direction,
            upto,
        } => judge_ack(identity, sessions, from, to, &key, direction, upto),
    }
}

fn let_go<T: Drop>(_value: T) {}

/// What is said of a message, but where its item is the next one.
fn objection(
    identity: &Identity,
    sessions: &Sessions,
    from: Party,
    to: Party,
    key: &Key,
    direction: u8,
    seq: u32,
) -> Option<Judged>
    requires party { sessions.now.party ≡ identity.now.party }
    requires sides { AreSides from to key.now }
    requires goes { GoesAt direction key.now from to }
    ensures { result ≡ objection identity.now
        (session_of key.now sessions.now.list) from to key.now direction seq }
{
    if to != identity.party {
        return Some(Judged::NotMine { to });
    }
    if from.0 >= identity.nodes || direction == 1 && !is_with(sessions, key, from) {
        return Some(Judged::NoSession);
    }
    misplaced(arrived(sessions, key, direction), from, key, direction, seq)
}

/// How many items arrived in the session of the key, of the direction in which they arrive there.
fn arrived(sessions: &Sessions, key: &Key, direction: u8) -> u32
    requires { direction ≡ direction_in sessions.now.party key.now }
    ensures { result ≡ arrived (session_of key.now sessions.now.list) }
{
    sessions.expected(key, direction).unwrap_or(0)
}

/// What is said of an item, but where its number is the expected one.
fn misplaced(expected: u32, from: Party, key: &Key, direction: u8, seq: u32) -> Option<Judged>
    ensures { result ≡ misplaced expected from key.now direction seq }
{
    if seq < expected {
        Some(Judged::Again {
            from,
            key: *key,
            direction,
            expected,
        })
    } else if expected < seq {
        Some(Judged::Early { expected })
    } else {
        None
    }
}

/// What is said of an acknowledgement.
fn judge_ack(
    identity: &Identity,
    sessions: &Sessions,
    from: Party,
    to: Party,
    key: &Key,
    direction: u8,
    upto: u32,
) -> Judged
    ensures { result ≡ judge_ack identity.now
        (session_of key.now sessions.now.list) from to key.now direction upto }
{
    if to != identity.party {
        return Judged::NotMine { to };
    }
    if from.0 >= identity.nodes || !is_with(sessions, key, from) {
        return Judged::NoSession;
    }
    let sent = sessions.sent(key).unwrap_or(0);
    if sent < upto {
        Judged::Early { expected: sent }
    } else {
        Judged::Acked {
            key: *key,
            direction,
            upto,
        }
    }
}

/// Whether there is a session of the key with this party.
fn is_with(sessions: &Sessions, key: &Key, party: Party) -> bool
    ensures { result ≡ is_with party (session_of key.now sessions.now.list) }
{
    match sessions.peer(key) {
        Some(peer) => peer == party,
        None => false,
    }
}
