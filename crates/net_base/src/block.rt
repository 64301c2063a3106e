//! A few bytes that are written without memory.

ghost use Rattle.std.specs.Prelude.{◌≡◌, ◌++◌, ◌∷◌, [], ◌+◌, ◌≤◌, ◌<◌, ◌^◌, List, ℕ, length};
ghost use Rattle.std.specs.Int.{w32, w64};
ghost use Rattle.net_base.specs.Reading.{number};
ghost use Rattle.net_base.specs.Parts.{Writes};
ghost use Rattle.net_base.specs.Values.{IsHash, hash, IsParty, party, IsMoment, moment};

use crate::values::{Hash32, Moment, Party};
use crate::writer::Writer;
use std::alloc::{AllocError, Global};
use std::marker::Model;

/// Up to 64 bytes, written one after the other without memory: a write has the condition that there is room.
/// Contracts see the bytes.
#[derive(Drop)]
pub struct Block {
    bytes: [u8; 64],
    len: usize,
}

impl Model for Block {
    ghost use Rattle.std.specs.Prelude.{ℕ, List, take, ◌≤◌};

    ghost Value = { List ℕ };

    ghost view = { λ b. take b.len b.bytes };

    ghost invariant = { λ b. b.len ≤ 64 };
}

impl Block {
    /// No bytes.
    pub fn new() -> Block
        ensures { result ≡ [] }
    {
        Block {
            bytes: [0; 64],
            len: 0,
        }
    }

    /// The bytes that were written.
    pub fn bytes(&self) -> &[u8]
        ensures { result.now ≡ self.now }
    {
        &self.bytes[..self.len]
    }

    /// Appends the bytes.
    pub fn put_bytes(&mut self, from: &[u8])
        requires { length self.old + length from.now ≤ 64 }
        ensures { self.new ≡ self.old ++ from.now }
    {
        let end = self.len + from.len();
        self.bytes[self.len..end].copy_from_slice(from);
        self.len = end;
    }

    /// Appends one byte.
    pub fn put_u8(&mut self, n: u8)
        requires { length self.old + 1 ≤ 64 }
        ensures text { self.new ≡ self.old ++ n ∷ [] }
        ensures size { length self.new ≡ length self.old + 1 }
    {
        self.put_bytes(&[n]);
    }

    /// Appends 4 bytes, a big-endian number.
    #[tactic(auto, unfolding(crate::specs::Reading::number))]
    pub fn put_u32(&mut self, n: u32)
        requires { length self.old + 4 ≤ 64 }
        ensures text { self.new ≡ self.old ++ number w32 n }
        ensures size { length self.new ≡ length self.old + 4 }
    {
        self.put_bytes(&n.to_be_bytes());
    }

    /// Appends 8 bytes, a big-endian number.
    #[tactic(auto, unfolding(crate::specs::Reading::number))]
    pub fn put_u64(&mut self, n: u64)
        requires { length self.old + 8 ≤ 64 }
        ensures text { self.new ≡ self.old ++ number w64 n }
        ensures size { length self.new ≡ length self.old + 8 }
    {
        self.put_bytes(&n.to_be_bytes());
    }

    /// Appends 32 bytes.
    pub fn put_hash(&mut self, h: &Hash32)
        requires { length self.old + 32 ≤ 64 }
        ensures text { self.new ≡ self.old ++ h.now.0 }
        ensures size { length self.new ≡ length self.old + 32 }
    {
        self.put_bytes(&h.0);
    }
}

/// A type whose spelling has at most 64 bytes, as each component of a transaction has.
pub trait Component {
    ghost use Rattle.std.specs.Prelude.{◌≡◌, ◌++◌, ◌+◌, ◌≤◌, ℕ, List, length};

    /// The spelling.
    ghost text: { Self → List ℕ };

    /// The limits within which a value is spelt.
    ghost limits: { Self → Type 0 };

    /// The greatest length of a spelling.
    ghost size: { ℕ };

    /// Writes the spelling, without memory.
    fn put(&self, block: &mut Block)
        requires room { length block.old + size ≤ 64 }
        requires limits { limits self.now }
        ensures text { block.new ≡ block.old ++ text self.now }
        ensures size { length block.new ≤ length block.old + size };
}

impl Component for u8 {
    ghost text = { λ n. n ∷ [] };

    ghost limits = { λ n. n < 256 };

    ghost size = { 1 };

    fn put(&self, block: &mut Block) {
        block.put_u8(*self);
    }
}

impl Component for u64 {
    ghost text = { λ n. number w64 n };

    ghost limits = { λ n. n < 2 ^ 64 };

    ghost size = { 8 };

    fn put(&self, block: &mut Block) {
        block.put_u64(*self);
    }
}

impl Component for Hash32 {
    ghost text = { hash };

    ghost limits = { IsHash };

    ghost size = { 32 };

    fn put(&self, block: &mut Block) {
        block.put_hash(self);
    }
}

impl Component for Party {
    ghost text = { party };

    ghost limits = { IsParty };

    ghost size = { 1 };

    fn put(&self, block: &mut Block) {
        block.put_u8(self.0);
    }
}

impl Component for Moment {
    ghost text = { moment };

    ghost limits = { IsMoment };

    ghost size = { 8 };

    fn put(&self, block: &mut Block) {
        block.put_u64(self.0);
    }
}

impl<T: Component> Component for Option<T> {
    ghost use Rattle.std.specs.Prelude.{◌+◌, IfSome};
    ghost use Rattle.net_base.specs.Forms.{option_of};

    ghost text = { λ o. option_of T.text o };

    ghost limits = { λ o. IfSome o T.limits };

    ghost size = { T.size + 1 };

    fn put(&self, block: &mut Block) {
        match self {
            None => block.put_u8(0),
            Some(v) => {
                block.put_u8(1);
                v.put(block);
            }
        }
    }
}

/// Writes the spelling of a component. After want of memory a front of it may stand in `out`.
pub fn write_component<T: Component>(
    alloc: Global,
    value: &T,
    out: &mut Writer,
) -> Result<(), AllocError>
    requires small { T.size ≤ 64 }
    requires limits { T.limits value.now }
    ensures { Writes (T.text value.now) result out.old out.new }
{
    let mut block = Block::new();
    value.put(&mut block);
    out.put_bytes(alloc, block.bytes())
}
