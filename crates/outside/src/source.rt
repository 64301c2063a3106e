ghost use Rattle.std.specs.Prelude.{◌≡◌, ◌≤◌, List, ℕ, length, IfOk, Option, Some, min, take};
ghost use Rattle.std.specs.Io.KnownBytes.{ReadConsumes};
ghost use Rattle.outside.specs.Faults.{HasCause};
ghost use Rattle.outside.specs.Streams.{reading, fails, reads, after_read};

use super::Failed;
use std::marker::Model;

/// Where bytes are read from.
pub trait Source {
    /// The bytes that are left, where the source tells them.
    ghost left: { Self → Option (List ℕ) };

    /// A count of faults: it rises where a call fails, or stands still at the last value of a `u64`, and no other call
    /// changes it.
    ghost faults: { Self → ℕ };

    /// Reads into the front of a slice, and answers how many bytes it took.
    /// 0 for a slice that isn't empty is the end of the input.
    ///
    /// # Errors
    ///
    /// [`Failed`] where the read failed. It takes no byte then, and the count of faults rose.
    fn read(&mut self, into: &mut [u8]) -> Result<usize, Failed>
        ensures bound { IfOk result (λ count. count ≤ length into.old) }
        ensures bytes { ReadConsumes (left self.old) (left self.new) result into.new }
        ensures cause { HasCause (faults self.old) (faults self.new) result };
}

// Copies as many bytes as both slices have to the front of the second, and answers their number.
fn copy_front(from: &[u8], into: &mut [u8]) -> usize
    ensures count { result ≡ min (length from.now) (length into.old) }
    ensures bytes { take result into.new ≡ take result from.now }
{
    let count = from.len().min(into.len());
    into[..count].copy_from_slice(&from[..count]);
    count
}

/// A source in memory: its bytes, and the calls that are to fail.
#[derive(Debug, Drop)]
pub struct MemSource {
    bytes: Vec<u8>,
    place: usize,
    failing: Vec<u64>,
    calls: u64,
    faults: u64,
}

impl Model for MemSource {
    ghost use Rattle.std.specs.Prelude.{drop, length, ◌≤◌};
    ghost use Rattle.outside.specs.Streams.{Reading};

    ghost Value = { Reading };

    ghost view = { λ s. record {
      left = drop s.place s.bytes.items;
      failing = s.failing.items;
      calls = s.calls;
      faults = s.faults;
    } };

    ghost invariant = { λ s. s.place ≤ length s.bytes.items };
}

impl MemSource {
    /// A source of these bytes. Each call of `read` whose number is in `failing` fails; the first call has the number 0.
    pub fn new(bytes: Vec<u8>, failing: Vec<u64>) -> MemSource
        ensures { result ≡ reading bytes.items failing.items }
    {
        MemSource {
            bytes,
            place: 0,
            failing,
            calls: 0,
            faults: 0,
        }
    }

    /// The bytes that are left.
    pub fn rest(&self) -> &[u8]
        ensures { result.now ≡ self.now.left }
    {
        &self.bytes[self.place..]
    }

    /// How many calls of `read` have failed.
    pub fn faults(&self) -> u64
        ensures { result ≡ self.now.faults }
    {
        self.faults
    }

    // Whether this call is to fail.
    fn fails(&self) -> bool
        ensures { result ≡ fails self.now.failing self.now.calls }
    {
        self.failing.iter().any(|number| *number == self.calls)
    }
}

impl Source for MemSource {
    ghost left = { λ s. Some s.left };

    ghost faults = { λ s. s.faults };

    fn read(&mut self, into: &mut [u8]) -> Result<usize, Failed>
        ensures bound { IfOk result (λ count. count ≤ length into.old) }
        ensures bytes { ReadConsumes (Some self.old.left) (Some self.new.left) result into.new }
        ensures cause { HasCause self.old.faults self.new.faults result }
        ensures answer { result ≡ reads self.old (length into.old) }
        ensures after { self.new ≡ after_read self.old (length into.old) }
    {
        let fails = self.fails();
        self.calls = self.calls.saturating_add(1);
        if fails {
            self.faults = self.faults.saturating_add(1);
            return Err(Failed);
        }
        let count = copy_front(self.rest(), into);
        self.place += count;
        Ok(count)
    }
}
