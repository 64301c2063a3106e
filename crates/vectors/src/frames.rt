use super::columns::{bytes, let_go};
use anyhow::{Result, bail};
use ledger_types::Value;
use net_base::DecodeFault;
use session_wire::{Body, Frame};
use std::alloc::Global;

/// `frame BYTES`: `spelt` where the bytes are a frame that is spelt as it was read, and else `malformed AT`.
pub fn frame_of(alloc: Global, values: &[&str]) -> Result<String> {
    let [column] = values else {
        bail!("a frame has one value")
    };
    let bytes = bytes(alloc, column)?;
    match Frame::decode(alloc, bytes.as_slice()) {
        Ok(frame) => {
            let spelt = frame.encode(alloc);
            let_go(frame);
            let answer = if spelt?.as_slice() == bytes.as_slice() {
                "spelt"
            } else {
                "another spelling"
            };
            Ok(String::from_str(alloc, answer)?)
        }
        Err(DecodeFault::Malformed { at }) => Ok(format!(in alloc; "malformed {at}")?),
        Err(DecodeFault::Memory) => bail!("out of memory"),
    }
}

/// `is-frame BYTES`: `frame` where the bytes are one, and else `garbled`.
pub fn is_frame(alloc: Global, values: &[&str]) -> Result<String> {
    let [column] = values else {
        bail!("a frame has one value")
    };
    let bytes = bytes(alloc, column)?;
    match Frame::decode(alloc, bytes.as_slice()) {
        Ok(frame) => {
            let_go(frame);
            Ok(String::from_str(alloc, "frame")?)
        }
        Err(DecodeFault::Malformed { .. }) => Ok(String::from_str(alloc, "garbled")?),
        Err(DecodeFault::Memory) => bail!("out of memory"),
    }
}

/// The kind of a value.
fn kind_of(value: &Value) -> &'static str {
    match value {
        Value::Unit => "Unit",
        Value::Number(_) => "Number",
        Value::Id(_) => "Id",
        Value::Tx(_) => "Tx",
        Value::Request(_) => "Request",
        Value::Answer(_) => "Answer",
        Value::Tags(_) => "Tags",
        Value::Bytes(_) => "Bytes",
    }
}

/// What an item says.
fn item(alloc: Global, body: &Body) -> Result<String> {
    match body {
        Body::Init { class, first } => {
            let kind = kind_of(first);
            Ok(format!(in alloc; "init {class} {kind}")?)
        }
        Body::Confirm => Ok(String::from_str(alloc, "confirm")?),
        Body::Reject { code } => Ok(format!(in alloc; "reject {code}")?),
        Body::Data { value } => {
            let kind = kind_of(value);
            Ok(format!(in alloc; "data {kind}")?)
        }
        Body::Error { code } => Ok(format!(in alloc; "error {code}")?),
        Body::End => Ok(String::from_str(alloc, "end")?),
    }
}

/// What a copy of an item says.
fn copied_item(alloc: Global, body: &Body) -> Result<String> {
    let copy = body.copy(alloc)?;
    let said = item(alloc, &copy);
    let_go(copy);
    said
}

/// What a frame says.
fn said(alloc: Global, frame: &Frame) -> Result<String> {
    match frame {
        Frame::Message {
            from,
            to,
            key,
            direction,
            seq,
            stamp,
            body,
        } => {
            let item = copied_item(alloc, body)?;
            let (from, to, initiator, number) = (from.0, to.0, key.initiator.0, key.number);
            Ok(format!(in alloc;
                "message {from} {to} {initiator} {number} {direction} {seq} {stamp} {item}"
            )?)
        }
        Frame::Ack {
            from,
            to,
            key,
            direction,
            upto,
        } => {
            let (from, to, initiator, number) = (from.0, to.0, key.initiator.0, key.number);
            Ok(format!(in alloc; "ack {from} {to} {initiator} {number} {direction} {upto}")?)
        }
    }
}

/// `frame-says BYTES`: what the frame says.
pub fn said_by(alloc: Global, values: &[&str]) -> Result<String> {
    let [column] = values else {
        bail!("a frame has one value")
    };
    let frame = Frame::decode(alloc, bytes(alloc, column)?.as_slice())?;
    let said = said(alloc, &frame);
    let_go(frame);
    said
}
