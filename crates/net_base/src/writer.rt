//! Writing at the end.

ghost use Rattle.std.specs.Prelude.{◌≡◌, ◌∷◌, [], List, ℕ, length, take};
ghost use Rattle.std.specs.Int.{w16, w32, w64};
ghost use Rattle.net_base.specs.Reading.{Puts, number};

use crate::list::{ByteList, ListOf};
use crate::values::Hash32;
use std::alloc::{AllocError, Global};
use std::marker::Model;

/// Bytes that are written one after the other. Contracts see the bytes. Each `put_` call appends the
/// big-endian spelling of its value, and a want of memory leaves the writer as it was.
#[derive(Drop)]
pub struct Writer {
    bytes: Vec<u8>,
}

impl Model for Writer {
    ghost use Rattle.std.specs.Prelude.{ℕ, List};

    ghost Value = { List ℕ };

    ghost view = { λ w. w.bytes.items };
}

impl Writer {
    /// A writer of no bytes. Takes no memory.
    pub fn new(alloc: Global) -> Writer
        ensures { result ≡ [] }
    {
        Writer {
            bytes: Vec::new(alloc),
        }
    }

    /// Appends the bytes.
    pub fn put_bytes(&mut self, _alloc: Global, value: &[u8]) -> Result<(), AllocError>
        ensures { Puts value.now result self.old self.new }
    {
        self.bytes.extend_from_slice(value)
    }

    /// Appends one byte.
    pub fn put_u8(&mut self, alloc: Global, value: u8) -> Result<(), AllocError>
        ensures { Puts (value ∷ []) result self.old self.new }
    {
        self.put_bytes(alloc, &[value])
    }

    /// Appends 2 bytes.
    #[tactic(auto, unfolding(crate::specs::Reading::number))]
    pub fn put_u16(&mut self, alloc: Global, value: u16) -> Result<(), AllocError>
        ensures { Puts (number w16 value) result self.old self.new }
    {
        self.put_bytes(alloc, &value.to_be_bytes())
    }

    /// Appends 4 bytes.
    #[tactic(auto, unfolding(crate::specs::Reading::number))]
    pub fn put_u32(&mut self, alloc: Global, value: u32) -> Result<(), AllocError>
        ensures { Puts (number w32 value) result self.old self.new }
    {
        self.put_bytes(alloc, &value.to_be_bytes())
    }

    /// Appends 8 bytes.
    #[tactic(auto, unfolding(crate::specs::Reading::number))]
    pub fn put_u64(&mut self, alloc: Global, value: u64) -> Result<(), AllocError>
        ensures { Puts (number w64 value) result self.old self.new }
    {
        self.put_bytes(alloc, &value.to_be_bytes())
    }

    /// Appends 32 bytes.
    pub fn put_hash(&mut self, alloc: Global, value: &Hash32) -> Result<(), AllocError>
        ensures { Puts value.now.0 result self.old self.new }
    {
        self.put_bytes(alloc, &value.0)
    }

    /// How many bytes were written.
    pub fn len(&self) -> usize
        ensures { result ≡ length self.now }
    {
        self.bytes.len()
    }

    /// Only the first `count` bytes stay.
    pub fn truncate(&mut self, count: usize)
        ensures { self.new ≡ take count self.old }
    {
        self.bytes.truncate(count);
    }

    /// What was written, as a list of bytes. Takes no memory.
    pub fn into_bytes(self) -> ByteList
        ensures { result ≡ self }
    {
        ListOf::from_vec(self.bytes)
    }
}
