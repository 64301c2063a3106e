ghost use Rattle.std.specs.Prelude.{ℕ, ◌^◌, ◌⊎◌, slice_index, ◌≡◌, ◌≤◌, ◌<◌, ◌+◌, ◌-◌, ◌/◌, ◌++◌, take, drop, min, length, vec_len, vec_capacity, [], ◌∷◌};
ghost use Rattle.outside.specs.Disk.{overwritten, clean, IsImage, IsUntouched, IsFilled};
ghost use Rattle.disk_mem.specs.Mem.{durable_of, IsLast, durable, IsLeft, last_of};

use std::snapshot::Snapshot;

/// What stood at the last sync, and the ranges written since.
#[derive(Drop)]
pub struct Medium {
    pub synced: Vec<u8>,
    pub pending: Vec<(usize, usize)>,
}

/// After this number of further writes and syncs the power goes.
#[derive(Clone, Copy, Debug, PartialEq, Eq)]
pub struct Fuse {
    pub calls: u64,
    pub outcome: u8,
}

/// The last write: its range, what it covered, and the length before it.
#[derive(Drop)]
pub struct Last {
    pub at: usize,
    pub count: usize,
    pub covered: Vec<u8>,
    pub before: usize,

    /// What was there before it, for clauses.
    pub was: Snapshot<Vec<u8>>,
}

/// Puts bytes over what is there, and past the end, where there is room.
pub fn put_bytes(content: &mut Vec<u8>, at: usize, from: &[u8])
    requires place { at ≤ vec_len content.old }
    requires room { at + length from.now ≤ vec_capacity content.old }
    ensures items { content.new.items ≡ overwritten content.old.items at from.now }
    ensures capacity { vec_capacity content.old ≤ vec_capacity content.new }
{
    let end = at + from.len();
    if end <= content.len() {
        content[at..end].copy_from_slice(from);
    } else {
        content.truncate(at);
        content.extend_from_slice(from).unwrap();
    }
}

/// Keeps what stands now for clauses, where there is room.
pub fn remember(past: &mut Vec<Snapshot<Medium>>, medium: &Medium)
    requires { vec_len past.old < vec_capacity past.old }
    ensures items { (s : _) × (s.value ≡ medium.now) × (past.new.items ≡ past.old.items ++ s ∷ []) }
    ensures len { vec_len past.new ≡ vec_len past.old + 1 }
    ensures capacity { vec_capacity past.old ≤ vec_capacity past.new }
{
    past.push(Snapshot::of(medium)).unwrap();
}

/// Notes a range, where there is room.
pub fn note(pending: &mut Vec<(usize, usize)>, at: usize, n: usize)
    requires { vec_len pending.old < vec_capacity pending.old }
    ensures items { pending.new.items ≡ pending.old.items ++ (at, n) ∷ [] }
    ensures len { vec_len pending.new ≡ vec_len pending.old + 1 }
    ensures capacity { vec_capacity pending.old ≤ vec_capacity pending.new }
{
    pending.push((at, n)).unwrap();
}

/// Copies the bytes from a place on.
pub fn copy_out(content: &[u8], at: usize, into: &mut [u8])
    requires { at + length into.old ≤ length content.now }
    ensures { into.new ≡ take (length into.old) (drop at content.now) }
{
    into.copy_from_slice(&content[at..at + into.len()]);
}

/// Keeps what a write of this number of bytes will cover.
pub fn cover(last: &mut Last, content: &Vec<u8>, at: usize, count: usize)
    requires place { at ≤ length content.now.items }
    requires fits { at + count < 2 ^ 64 }
    requires room { at + count ≤ vec_capacity last.old.covered }
    ensures place { (last.new.at ≡ at) × (last.new.count ≡ count)
        × (last.new.before ≡ length content.now.items) }
    ensures was { last.new.was.value ≡ content.now }
    ensures covered { last.new.covered.items
        ≡ take (min count (length content.now.items - at)) (drop at content.now.items) }
    ensures capacity { vec_capacity last.old.covered ≤ vec_capacity last.new.covered }
{
    let n = count.min(content.len() - at);
    last.covered.clear();
    last.covered
        .extend_from_slice(&content[at..at + n])
        .unwrap();
    last.at = at;
    last.count = count;
    last.before = content.len();
    last.was = Snapshot::of(content);
}

/// Makes the synced bytes those that are there.
pub fn settle(medium: &mut Medium, content: &[u8])
    requires image { IsImage (durable_of medium.old) content.now }
    requires room { length content.now ≤ vec_capacity medium.old.synced }
    ensures durable { durable_of medium.new ≡ clean content.now }
    ensures synced { vec_capacity medium.old.synced ≤ vec_capacity medium.new.synced }
    ensures pending { (vec_capacity medium.old.pending ≤ vec_capacity medium.new.pending)
        × (vec_len medium.new.pending ≡ 0) }
{
    copy_ranges(&mut medium.synced, &medium.pending, content);
    medium.pending.clear();
}

/// Copies the ranges, and the part past the end, of what is there.
fn copy_ranges(synced: &mut Vec<u8>, pending: &[(usize, usize)], content: &[u8])
    requires image { IsImage (durable synced.old.items pending.now) content.now }
    requires room { length content.now ≤ vec_capacity synced.old }
    ensures items { synced.new.items ≡ content.now }
    ensures capacity { vec_capacity synced.old ≤ vec_capacity synced.new }
{
    let had = synced.len();
    synced.extend_from_slice(&content[had..]).unwrap();
    copy_pending(synced, pending, content);
}

/// Copies the ranges of what is there.
fn copy_pending(synced: &mut [u8], pending: &[(usize, usize)], content: &[u8])
    requires { length synced.old ≡ length content.now }
    ensures { (i : ℕ) → (IsUntouched pending.now i
        → slice_index synced.old i ≡ slice_index content.now i)
        → slice_index synced.new i ≡ slice_index content.now i }
{
    for range in pending {
        copy_range(synced, content, range.0, range.1);
    }
}

/// Copies one range of what is there.
fn copy_range(synced: &mut [u8], content: &[u8], at: usize, n: usize)
    requires { length synced.old ≡ length content.now }
    ensures within { (i : ℕ) → at ≤ i → i < at + n
        → slice_index synced.new i ≡ slice_index content.now i }
    ensures beside { (i : ℕ) → (i < at) ⊎ (at + n ≤ i)
        → slice_index synced.new i ≡ slice_index synced.old i }
{
    let start = at.min(content.len());
    let end = at.saturating_add(n).min(content.len());
    synced[start..end].copy_from_slice(&content[start..end]);
}

/// What a cut with this outcome leaves.
pub fn leave(content: &mut Vec<u8>, medium: &Medium, last: &Last, outcome: u8)
    requires image { IsImage (durable_of medium.now) content.old.items }
    requires last { IsLast medium.now last.now content.old.items }
    requires room { vec_len content.old ≤ vec_capacity content.old }
    ensures image { IsImage (durable_of medium.now) content.new.items }
    ensures left { IsLeft outcome (durable_of medium.now)
        (last_of last.now) content.old.items content.new.items }
    ensures capacity { vec_capacity content.old ≤ vec_capacity content.new }
    ensures no_longer { vec_len content.new ≤ vec_len content.old }
{
    match outcome {
        0 => {
            content.truncate(medium.synced.len());
            content.copy_from_slice(&medium.synced);
        }
        1 => {}
        2 => halve(content, medium, last),
        _ => fill_pending(content, &medium.pending),
    }
}

/// Fills the ranges with 0xA5.
fn fill_pending(content: &mut [u8], pending: &[(usize, usize)])
    ensures { IsFilled pending.now content.old content.new }
{
    for range in pending {
        fill_range(content, range.0, range.1);
    }
}

/// Puts bytes over what is there.
fn put_over(content: &mut Vec<u8>, from: usize, bytes: &[u8])
    requires { from + length bytes.now ≤ length content.old.items }
    ensures items { content.new.items ≡ overwritten content.old.items from bytes.now }
    ensures beside { (i : ℕ) → (i < from) ⊎ (from + length bytes.now ≤ i)
        → slice_index content.new.items i ≡ slice_index content.old.items i }
    ensures len { length content.new.items ≡ length content.old.items }
    ensures capacity { vec_capacity content.old ≤ vec_capacity content.new }
{
    content[from..from + bytes.len()].copy_from_slice(bytes);
}

/// Takes the second half of the last write back.
fn halve(content: &mut Vec<u8>, medium: &Medium, last: &Last)
    requires image { IsImage (durable_of medium.now) content.old.items }
    requires last { IsLast medium.now last.now content.old.items }
    ensures image { IsImage (durable_of medium.now) content.new.items }
    ensures half { content.new.items ≡ overwritten last.now.was.value.items last.now.at
        (take (last.now.count / 2) (drop last.now.at content.old.items)) }
    ensures capacity { vec_capacity content.old ≤ vec_capacity content.new }
    ensures no_longer { vec_len content.new ≤ vec_len content.old }
{
    let half = last.count / 2;
    let from = half.min(last.covered.len());
    put_over(content, last.at + from, &last.covered[from..]);
    content.truncate(last.before.max(last.at + half));
}

/// Fills one range with 0xA5, as far as there are bytes.
fn fill_range(content: &mut [u8], at: usize, n: usize)
    ensures within { (i : ℕ) → at ≤ i → i < at + n → i < length content.old
        → slice_index content.new i ≡ 165 }
    ensures beside { (i : ℕ) → (i < at) ⊎ (at + n ≤ i)
        → slice_index content.new i ≡ slice_index content.old i }
{
    let start = at.min(content.len());
    let end = at.saturating_add(n).min(content.len());
    content[start..end].fill(0xA5);
}
