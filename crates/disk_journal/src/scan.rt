ghost use Rattle.std.specs.Prelude.{◌≡◌, ◌≤◌, ◌<◌, ◌+◌, ◌-◌, ◌∷◌, [], length, take, drop, Some, None, IfOk, if◌then◌else◌, nat_lt, ◌&&◌};
ghost use Rattle.disk_journal.specs.Journal.{is_whole, is_closed, length_at, bodies, extent, damage, placed, size_of, found, identity_of, named, is_same, is_unformatted, is_shut, magic};
ghost use Rattle.std.specs.Str.{bytes_eq};

use net_base::{ByteList, Identity, Party, RecordList};
use std::alloc::{AllocError, Global};

/// The records of a journal, and where they end.
#[derive(Drop)]
pub struct Reading {
    pub list: RecordList,
    pub count: u32,
    pub gate: u64,
    pub is_closed: bool,
}

/// The length that stands behind the gate at this place.
#[tactic(auto, unfolding(crate::specs::Journal::length_at))]
fn length_behind(bytes: &[u8], at: usize) -> u32
    requires { at + 5 ≤ length bytes.now }
    ensures { result ≡ length_at (drop at bytes.now) }
{
    u32::from_be_bytes([bytes[at + 1], bytes[at + 2], bytes[at + 3], bytes[at + 4]])
}

/// The length of the whole open record at this place.
#[tactic(auto, unfolding(crate::specs::Journal::is_whole))]
fn whole_at(bytes: &[u8], at: usize) -> Option<usize>
    requires { at ≤ length bytes.now }
    ensures { result ≡ (if is_whole (drop at bytes.now) then Some (length_at (drop at bytes.now))
        else None) }
{
    if bytes.len() - at < 6 || bytes[at] != 1 {
        return None;
    }
    let n = length_behind(bytes, at) as usize;
    if n <= 524_288 && 5 + n < bytes.len() - at {
        Some(n)
    } else {
        None
    }
}

/// The same, where a record more may be read.
fn next_at(bytes: &[u8], at: usize, left: u32) -> Option<usize>
    requires { at ≤ length bytes.now }
    ensures { result ≡ (if nat_lt 0 left && is_whole (drop at bytes.now)
        then Some (length_at (drop at bytes.now)) else None) }
{
    if left == 0 {
        return None;
    }
    whole_at(bytes, at)
}

/// Whether a closed gate stands at this place.
#[tactic(auto, unfolding(crate::specs::Journal::is_closed))]
fn closed_at(bytes: &[u8], at: usize) -> bool
    requires { at ≤ length bytes.now }
    ensures { result ≡ is_closed (drop at bytes.now) }
{
    at < bytes.len() && bytes[at] != 1
}

/// The body, of that length, of the record at this place.
fn body_at(alloc: Global, bytes: &[u8], at: usize, n: usize) -> Result<ByteList, AllocError>
    requires { at + 5 + n ≤ length bytes.now }
    ensures { IfOk result (λ b. b ≡ take n (drop 5 (drop at bytes.now))) }
{
    Ok(ByteList::from_vec(bytes[at + 5..at + 5 + n].to_vec(alloc)?))
}

/// Reads the records from a place on, at most the given number.
pub fn read_records(
    alloc: Global,
    bytes: &[u8],
    start: usize,
    limit: u32,
) -> Result<Reading, AllocError>
    requires { start ≤ length bytes.now }
    ensures list { IfOk result (λ s. s.list ≡ placed start (bodies limit (drop start bytes.now))) }
    ensures count { IfOk result (λ s. s.count ≡ length (bodies limit (drop start bytes.now))) }
    ensures sizes { IfOk result (λ s. (s.count ≡ length s.list) × (s.gate ≡ start + size_of s.list)
        × (s.count ≤ limit)) }
    ensures gate { IfOk result (λ s. s.gate ≡ start + extent limit (drop start bytes.now)) }
    ensures place { IfOk result (λ s. (start ≤ s.gate) × (s.gate ≤ length bytes.now)) }
    ensures closed { IfOk result (λ s. damage limit start (drop start bytes.now)
        ≡ (if s.is_closed then None else Some s.gate)) }
{
    let mut list = RecordList::new(alloc);
    let mut at = start;
    let mut left = limit;
    'records: while let Some(n) = next_at(bytes, at, left) {
        list.push((at as u64, body_at(alloc, bytes, at, n)?))?;
        at += 5 + n;
        left -= 1;
    }
    Ok(Reading {
        list,
        count: limit - left,
        gate: at as u64,
        is_closed: closed_at(bytes, at),
    })
}

/// Whether no journal was begun here, or not finished.
#[tactic(auto, unfolding(crate::specs::Journal::is_unformatted))]
pub fn is_unformatted(bytes: &[u8]) -> bool
    ensures { result ≡ is_unformatted bytes.now }
{
    bytes.len() < 17 || (bytes.len() == 17 && bytes[0] != 1)
}

/// Whether byte 0 reads 0.
#[tactic(auto, unfolding(crate::specs::Journal::is_shut))]
pub fn is_shut(bytes: &[u8]) -> bool
    ensures { result ≡ is_shut bytes.now }
{
    !bytes.is_empty() && bytes[0] == 0
}

/// The identity that three bytes spell.
fn identity_of(party: u8, nodes: u8, notary: u8) -> Option<Identity>
    ensures { result ≡ identity_of party nodes notary }
{
    if party < 16 && 0 < nodes && nodes <= 16 && notary < 16 {
        Some(Identity {
            party: Party(party),
            nodes,
            notary: Party(notary),
        })
    } else {
        None
    }
}

/// Whether these are the first ten bytes of a journal.
fn is_magic(head: &[u8]) -> bool
    ensures { result ≡ bytes_eq head.now magic }
{
    head == [1, b'C', b'O', b'R', b'D', b'A', b'J', b'N', b'L', 1].as_slice()
}

/// Whether these are the last three bytes of a header.
fn is_zeros(tail: &[u8]) -> bool
    ensures { result ≡ bytes_eq tail.now (0 ∷ 0 ∷ 0 ∷ []) }
{
    tail == [0, 0, 0].as_slice()
}

/// The identity that a header names.
#[tactic(auto, unfolding(crate::specs::Journal::named))]
fn named(head: &[u8]) -> Option<Identity>
    requires { length head.now ≡ 16 }
    ensures { result ≡ named head.now }
{
    if !is_magic(&head[..10]) {
        return None;
    }
    if !is_zeros(&head[13..]) {
        return None;
    }
    identity_of(head[10], head[11], head[12])
}

/// The identity of a formatted journal, where the bytes are one.
#[tactic(auto, unfolding(crate::specs::Journal::found))]
pub fn found(bytes: &[u8]) -> Option<Identity>
    ensures { result ≡ found bytes.now }
{
    if bytes.len() < 17 {
        return None;
    }
    named(&bytes[..16])
}

/// Whether both are the same node of the same network.
pub fn is_same(x: &Identity, y: &Identity) -> bool
    ensures { result ≡ is_same x.now y.now }
{
    x.party.0 == y.party.0 && x.nodes == y.nodes && x.notary.0 == y.notary.0
}
