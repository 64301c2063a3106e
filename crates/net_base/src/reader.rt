//! Reading from the left.

ghost use Rattle.std.specs.Prelude.{◌≡◌, ◌+◌, ◌^◌, [], ◌<◌, take, length, slice_index, MatchResult};
ghost use Rattle.std.specs.Int.{w16, w32, w64, from_be_bytes};
ghost use Rattle.net_base.specs.Reading.{Reading, Took, IsShort, IsBytes};

use crate::values::Hash32;
use std::marker::Model;
use thiserror::Error;

/// Too few bytes are left at the place, counted in bytes from the first.
#[derive(Clone, Copy, Debug, PartialEq, Eq, Error)]
#[error("too few bytes at byte {at}")]
pub struct Short {
    pub at: usize,
}

/// Bytes are left from the place on, counted in bytes from the first.
#[derive(Clone, Copy, Debug, PartialEq, Eq, Error)]
#[error("more bytes from byte {at} on")]
pub struct Extra {
    pub at: usize,
}

/// Bytes that are read from the left, and how many of them were read. Contracts see the bytes that are left
/// and the place. A refused read leaves the reader where it was.
#[derive(Clone, Drop)]
pub struct Reader<'a> {
    bytes: &'a [u8],
    place: usize,
}

impl<'a> Model for Reader<'a> {
    ghost use Rattle.std.specs.Prelude.{◌≤◌, length, drop};
    ghost use Rattle.net_base.specs.Reading.{Reading, IsBytes};

    ghost Value = { Reading };

    ghost view = { λ r. record { left = drop r.place r.bytes.now; place = r.place } };

    ghost invariant = { λ r. (r.place ≤ length r.bytes.now) × IsBytes r.bytes.now };
}

impl<'a> Reader<'a> {
    /// A reader at the first of the bytes.
    pub fn new(bytes: &'a [u8]) -> Reader<'a>
        ensures { result ≡ record { left = bytes.now; place = 0 } }
    {
        Reader { bytes, place: 0 }
    }

    /// The next `n` bytes, lent from the bytes that the reader was made of.
    ///
    /// # Errors
    ///
    /// `Short` exactly where fewer than `n` bytes are left; so with every read.
    pub fn bytes(&mut self, n: usize) -> Result<&'a [u8], Short>
        ensures { MatchResult result (λ v. Took n self.old self.new
            × (v.now ≡ take n self.old.left)) (λ e. IsShort n e.at self.old self.new) }
    {
        if self.bytes.len() - self.place < n {
            return Err(Short { at: self.place });
        }
        let start = self.place;
        let taken = &self.bytes[start..start + n];
        self.place = start + n;
        Ok(taken)
    }

    /// The next byte.
    pub fn u8(&mut self) -> Result<u8, Short>
        ensures { MatchResult result (λ v. Took 1 self.old self.new
            × (v ≡ slice_index (take 1 self.old.left) 0))
            (λ e. IsShort 1 e.at self.old self.new) }
    {
        let taken = self.bytes(1)?;
        Ok(taken[0])
    }

    /// The next 2 bytes, a big-endian number.
    pub fn u16(&mut self) -> Result<u16, Short>
        ensures { MatchResult result (λ v. Took 2 self.old self.new
            × (v ≡ from_be_bytes w16 (take 2 self.old.left)))
            (λ e. IsShort 2 e.at self.old self.new) }
    {
        let b = self.bytes(2)?;
        Ok(u16::from_be_bytes([b[0], b[1]]))
    }

    /// The next 4 bytes, a big-endian number.
    pub fn u32(&mut self) -> Result<u32, Short>
        ensures { MatchResult result (λ v. Took 4 self.old self.new
            × (v ≡ from_be_bytes w32 (take 4 self.old.left)))
            (λ e. IsShort 4 e.at self.old self.new) }
    {
        let b = self.bytes(4)?;
        Ok(u32::from_be_bytes([b[0], b[1], b[2], b[3]]))
    }

    /// The next 8 bytes, a big-endian number.
    pub fn u64(&mut self) -> Result<u64, Short>
        ensures { MatchResult result (λ v. Took 8 self.old self.new
            × (v ≡ from_be_bytes w64 (take 8 self.old.left)))
            (λ e. IsShort 8 e.at self.old self.new) }
    {
        let b = self.bytes(8)?;
        Ok(u64::from_be_bytes([b[0], b[1], b[2], b[3], b[4], b[5], b[6], b[7]]))
    }

    /// The next 32 bytes.
    pub fn hash(&mut self) -> Result<Hash32, Short>
        ensures { MatchResult result (λ v. Took 32 self.old self.new
            × (v.0 ≡ take 32 self.old.left)) (λ e. IsShort 32 e.at self.old self.new) }
    {
        let b = self.bytes(32)?;
        let mut copy = [0; 32];
        copy.copy_from_slice(b);
        Ok(Hash32(copy))
    }

    /// How many bytes were read.
    pub fn place(&self) -> usize
        ensures place { result ≡ self.now.place }
        ensures bytes { IsBytes self.now.left }
    {
        let _ = &self.bytes;
        self.place
    }

    /// A second reader at the same place.
    pub fn again(&self) -> Reader<'a>
        ensures { result ≡ self.now }
    {
        Reader {
            bytes: self.bytes,
            place: self.place,
        }
    }

    /// How many bytes are left.
    pub fn remaining(&self) -> usize
        ensures count { result ≡ length self.now.left }
        ensures small { result < 2 ^ 63 }
    {
        self.bytes.len() - self.place
    }

    /// Tests that no byte is left.
    ///
    /// # Errors
    ///
    /// `Extra` with the place exactly where bytes are left.
    pub fn finish(&self) -> Result<(), Extra>
        ensures { MatchResult result (λ _. self.now.left ≡ [])
            (λ e. (0 < length self.now.left) × (e.at ≡ self.now.place)) }
    {
        if self.place < self.bytes.len() {
            return Err(Extra { at: self.place });
        }
        Ok(())
    }
}
