ghost use Rattle.std.specs.Prelude.{◌≡◌, ◌<◌, IfOk, map, option_map, string_bytes, All};
ghost use Rattle.std.specs.List.{list_any};
ghost use Rattle.shell_words.specs.Script.{is_blank, is_plain, words_of, after_hash, is_mark, has_mark, mark_of, id_of, tx_name};

use super::commands::TxName;
use hex::FromHex;
use net_base::{Hash32, number};
use std::alloc::{AllocError, Global};
use std::mem;

/// A space or a tab.
pub fn is_blank(b: u8) -> bool
    ensures { result ≡ is_blank b }
{
    b == b' ' || b == b'\t'
}

/// Printable ASCII, or a tab.
pub fn is_plain(b: u8) -> bool
    ensures { result ≡ is_plain b }
{
    (b' ' <= b && b < 127) || b == b'\t'
}

/// The words of a line of ASCII.
///
/// # Errors
///
/// `AllocError` for want of memory.
pub fn words_of(alloc: Global, line: &[u8]) -> Result<Vec<String>, AllocError>
    requires { All (λ b. b < 128) line.now }
    ensures { IfOk result (λ words. map (λ s. string_bytes s) words.items ≡ words_of line.now) }
{
    let mut words = Vec::new(alloc);
    let mut word = String::new(alloc);
    'bytes: for b in line {
        if !is_blank(*b) {
            word.push(*b as char)?;
        } else if !word.is_empty() {
            words.push(mem::replace(&mut word, String::new(alloc)))?;
        }
    }
    if !word.is_empty() {
        words.push(word)?;
    }
    Ok(words)
}

fn after_hash(word: &str) -> Option<&str>
    ensures { option_map (λ s. s.now) result ≡ after_hash word.now }
{
    word.strip_prefix('#')
}

fn is_mark(word: &str) -> bool
    ensures { result ≡ is_mark word.now }
{
    match after_hash(word) {
        Some(rest) => number(rest).is_some(),
        None => false,
    }
}

fn has_some_mark(args: &[String]) -> bool
    ensures { result ≡ list_any (λ s. is_mark (string_bytes s)) args.now }
{
    args.iter().any(|arg| is_mark(arg.as_str()))
}

/// Whether some word is `#` with a number behind it: `#k` names a recorded transaction.
#[tactic(auto, using(crate::proofs::Marks::list_any_map))]
pub fn has_mark(args: &[String]) -> bool
    ensures { result ≡ has_mark (map (λ s. string_bytes s) args.now) }
{
    has_some_mark(args)
}

/// The place that `#` with a number names.
pub fn mark_of(word: &str) -> Option<u64>
    ensures { result ≡ mark_of word.now }
{
    number(after_hash(word)?)
}

/// The id that the word is: 64 hexadecimal digits, in either case.
fn id_of(word: &str) -> Option<Hash32>
    ensures { result ≡ id_of word.now }
{
    match <[u8; 32] as FromHex>::from_hex(word) {
        Ok(bytes) => Some(Hash32(bytes)),
        Err(_) => None,
    }
}

/// The recorded transaction that the word names: `#` and its place, or its id.
pub(crate) fn tx_name(word: &str) -> Option<TxName>
    ensures { result ≡ tx_name word.now }
{
    match mark_of(word) {
        Some(place) => Some(TxName::Place(place)),
        None => Some(TxName::Id(id_of(word)?)),
    }
}
