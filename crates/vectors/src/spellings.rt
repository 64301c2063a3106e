ghost use Rattle.std.specs.Prelude.{◌≡◌, IfOk};

use super::columns::bytes;
use anyhow::{Result, bail};
use flow_machine::{Act, Checkpoint};
use ledger_types::{Entry, NotaryAnswer, SignedTx, TornTx, Tx, Value};
use net_base::{
    Boxed, ByteList, DecodeFault, Identity, Moment, PartySet, Reader, Spelt, StateRef, Token,
    TryCopy, Writer, decode, decode_if_spelt, decode_whole, encode,
};
use shipped_flows::ShippedFlow;
use std::alloc::{AllocError, Global};

/// The spelling of a value.
pub fn spelling<T: Spelt>(alloc: Global, value: &T) -> Result<ByteList, AllocError>
    requires { T.within value.now }
    ensures { IfOk result (λ bytes. bytes ≡ T.spelling value.now) }
{
    let mut out = Writer::new(alloc);
    encode(alloc, value, &mut out)?;
    Ok(out.into_bytes())
}

/// How many of the bytes the value takes that begins there, and whether its copy is spelt as it was read: a number, `none` where none
/// begins there, or `another spelling`.
fn taken<T: Spelt + TryCopy>(alloc: Global, bytes: &[u8]) -> Result<String> {
    let mut from = Reader::new(bytes);
    let value = match decode::<T>(alloc, &mut from) {
        Ok(value) => value,
        Err(DecodeFault::Malformed { .. }) => return Ok(String::from_str(alloc, "none")?),
        Err(DecodeFault::Memory) => bail!("out of memory"),
    };
    let spelt = spelling(alloc, &value.try_copy(alloc)?)?;
    let count = from.place();
    if spelt.len() != count || !bytes.starts_with(spelt.as_slice()) {
        return Ok(String::from_str(alloc, "another spelling")?);
    }
    Ok(format!(in alloc; "{count}")?)
}

/// `front TYPE BYTES`: how many of the bytes the value of that type takes that begins there.
pub fn front_of(alloc: Global, values: &[&str]) -> Result<String> {
    let [name, column] = values else {
        bail!("a front has two values")
    };
    let bytes = bytes(alloc, column)?;
    match *name {
        "transaction" => taken::<Tx>(alloc, bytes.as_slice()),
        "signed" => taken::<SignedTx>(alloc, bytes.as_slice()),
        "tear-off" => taken::<TornTx>(alloc, bytes.as_slice()),
        "value" => taken::<Value>(alloc, bytes.as_slice()),
        "answer" => taken::<NotaryAnswer>(alloc, bytes.as_slice()),
        "entry" => taken::<Entry>(alloc, bytes.as_slice()),
        _ => bail!("no type of that name"),
    }
}

/// Whether the bytes as a whole are a value that is spelt so: `spelt`, or `malformed AT`.
fn judged<T: Spelt>(alloc: Global, bytes: &[u8]) -> Result<String>
    requires sure { T.exact }
{
    match decode_whole::<T>(alloc, bytes) {
        Ok(value) if spelling(alloc, &value)?.as_slice() == bytes => {
            Ok(String::from_str(alloc, "spelt")?)
        }
        Ok(_) => Ok(String::from_str(alloc, "another spelling")?),
        Err(DecodeFault::Malformed { at }) => Ok(format!(in alloc; "malformed {at}")?),
        Err(DecodeFault::Memory) => bail!("out of memory"),
    }
}

/// The same of a type whose faults have no place.
fn told_spelt<T: Spelt>(alloc: Global, bytes: &[u8]) -> Result<String> {
    let Some(value) = decode_if_spelt::<T>(alloc, bytes)? else {
        return Ok(String::from_str(alloc, "malformed")?);
    };
    let answer = if spelling(alloc, &value)?.as_slice() == bytes {
        "spelt"
    } else {
        "another spelling"
    };
    Ok(String::from_str(alloc, answer)?)
}

/// `whole TYPE BYTES`: whether the bytes as a whole are a value of that type that is spelt so.
pub fn whole_of(alloc: Global, values: &[&str]) -> Result<String> {
    let [name, column] = values else {
        bail!("a whole has two values")
    };
    let bytes = bytes(alloc, column)?;
    match *name {
        "transaction" => judged::<Tx>(alloc, bytes.as_slice()),
        "signed" => judged::<SignedTx>(alloc, bytes.as_slice()),
        "tear-off" => judged::<TornTx>(alloc, bytes.as_slice()),
        "value" => judged::<Value>(alloc, bytes.as_slice()),
        "answer" => judged::<NotaryAnswer>(alloc, bytes.as_slice()),
        "entry" => judged::<Entry>(alloc, bytes.as_slice()),
        name => judged_part(alloc, name, bytes.as_slice()),
    }
}

/// The same of the small types, and of flows.
fn judged_part(alloc: Global, name: &str, bytes: &[u8]) -> Result<String> {
    match name {
        "identity" => judged::<Identity>(alloc, bytes),
        "parties" => judged::<PartySet>(alloc, bytes),
        "token" => judged::<Token>(alloc, bytes),
        "maybe-moment" => judged::<Option<Moment>>(alloc, bytes),
        "reference" => judged::<StateRef>(alloc, bytes),
        "number" => judged::<Boxed<u32>>(alloc, bytes),
        "shipped" => told_spelt::<ShippedFlow>(alloc, bytes),
        "act" => told_spelt::<Act<ShippedFlow>>(alloc, bytes),
        "checkpoint" => told_spelt::<Checkpoint<ShippedFlow>>(alloc, bytes),
        _ => bail!("no type of that name"),
    }
}
