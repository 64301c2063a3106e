ghost use Rattle.std.specs.Prelude.{IfOk};

use anyhow::{Context, Result, bail};
use hex::FromHex;
use net_base::{Hash32, Spelt, decode_if_spelt};
use std::alloc::Global;

/// The bytes that a column spells in hexadecimal; `-` is none.
pub fn bytes(alloc: Global, column: &str) -> Result<Vec<u8>> {
    Ok(hex::decode(alloc, column.trim_matches('-'))?)
}

/// The 32 bytes that a column spells in hexadecimal.
pub fn hash(column: &str) -> Result<Hash32> {
    Ok(Hash32(<[u8; 32] as FromHex>::from_hex(column)?))
}

/// The value whose spelling all bytes of a column are.
pub fn value<T: Spelt>(alloc: Global, column: &str) -> Result<T>
    ensures { IfOk result T.within }
{
    let bytes = bytes(alloc, column)?;
    match decode_if_spelt::<T>(alloc, bytes.as_slice())? {
        Some(value) => Ok(value),
        None => bail!("no spelling of such a value"),
    }
}

/// Lets a value go. What holds transactions, requests or records is let go of by this call, at one exit of a function: there a value
/// of its own type would have the proof look at each kind of value that may stand in it, at each exit.
pub fn let_go<T: Drop>(_value: T) {}

/// The columns of a question, parted by single spaces.
pub fn columns<'a>(alloc: Global, question: &'a str) -> Result<(&'a str, Vec<&'a str>)> {
    let mut parts = question.split(' ');
    let kind = parts.next().context("a question with no kind")?;
    Ok((kind, parts.collect::<Vec<&str>>(alloc)?))
}
