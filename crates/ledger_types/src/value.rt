//! What flows hand to one another.

ghost use Rattle.std.specs.Prelude.{◌≡◌, ◌<◌, IfOk};
ghost use Rattle.net_base.specs.Parts.{Decodes};
ghost use Rattle.net_base.specs.Reading.{Puts};
ghost use Rattle.ledger_types.specs.Values.{IsValue, value, value_at, value_laws};

use crate::notary::{NotaryAnswer, Request};
use crate::tx::{SignedTx, TagList};
use net_base::{
    Boxed, ByteList, DecodeFault, Hash32, PartFault, Reader, Spelt, TryCopy, Writer, decode,
    encode, read_ascending, read_bytes16, read_kind, write_bytes16, write_list,
};
use std::alloc::{AllocError, Global};

/// A value that flows hand to one another, in sessions and as results.
#[derive(Debug, Drop)]
pub enum Value {
    Unit,
    Number(u64),
    Id(Hash32),
    Tx(Boxed<SignedTx>),
    Request(Boxed<Request>),
    Answer(Boxed<NotaryAnswer>),
    /// At most 16, strictly ascending by party.
    Tags(TagList),
    /// At most 4,096 bytes.
    Bytes(ByteList),
}

#[tactic(auto, unfolding(crate::specs::Values::value_at))]
impl Spelt for Value {
    ghost spelling = { value };

    ghost within = { IsValue };

    ghost reading = { value_at };

    ghost laws = { value_laws };

    fn read_part(alloc: Global, from: &mut Reader) -> Result<Value, PartFault> {
        match read_kind(from, &[0, 1, 2, 3, 4, 5, 6, 7])? {
            0 => Ok(Value::Unit),
            1 => Ok(Value::Number(Spelt::read_part(alloc, from)?)),
            2 => Ok(Value::Id(Spelt::read_part(alloc, from)?)),
            3 => Ok(Value::Tx(Spelt::read_part(alloc, from)?)),
            4 => Ok(Value::Request(Spelt::read_part(alloc, from)?)),
            5 => Ok(Value::Answer(Spelt::read_part(alloc, from)?)),
            6 => Ok(Value::Tags(read_ascending(alloc, from)?)),
            _ => Ok(Value::Bytes(read_bytes16(alloc, from, 4096)?)),
        }
    }

    fn write_part(&self, alloc: Global, out: &mut Writer) -> Result<(), AllocError> {
        match self {
            Value::Unit => {
                out.put_u8(alloc, 0)?;
            }
            Value::Number(n) => {
                out.put_u8(alloc, 1)?;
                n.write_part(alloc, out)?;
            }
            Value::Id(id) => {
                out.put_u8(alloc, 2)?;
                id.write_part(alloc, out)?;
            }
            Value::Tx(stx) => {
                out.put_u8(alloc, 3)?;
                stx.write_part(alloc, out)?;
            }
            Value::Request(request) => {
                out.put_u8(alloc, 4)?;
                request.write_part(alloc, out)?;
            }
            Value::Answer(answer) => {
                out.put_u8(alloc, 5)?;
                answer.write_part(alloc, out)?;
            }
            Value::Tags(tags) => {
                out.put_u8(alloc, 6)?;
                write_list(alloc, tags, out)?;
            }
            Value::Bytes(bytes) => {
                out.put_u8(alloc, 7)?;
                write_bytes16(alloc, bytes, out)?;
            }
        }
        Ok(())
    }
}

impl Value {
    /// Writes the spelling at the end of `out`, which want of memory leaves as it was.
    pub fn encode(&self, alloc: Global, out: &mut Writer) -> Result<(), AllocError>
        requires { IsValue self.now }
        ensures { Puts (value self.now) result out.old out.new }
    {
        encode(alloc, self, out)
    }

    /// The value whose spelling begins at the reader's place, which then stands behind it.
    ///
    /// # Errors
    ///
    /// `Malformed` with the reader's place exactly where no spelling begins there, and `Memory`. The reader
    /// then stays where it was.
    pub fn decode(alloc: Global, from: &mut Reader) -> Result<Value, DecodeFault>
        ensures { Decodes IsValue value result from.old from.new }
    {
        decode(alloc, from)
    }

    /// An equal value.
    pub fn copy(&self, alloc: Global) -> Result<Value, AllocError>
        ensures { IfOk result (λ v. v ≡ self.now) }
    {
        match self {
            Value::Unit => Ok(Value::Unit),
            Value::Number(number) => Ok(Value::Number(*number)),
            Value::Id(id) => Ok(Value::Id(*id)),
            Value::Tx(stx) => Ok(Value::Tx(stx.try_copy(alloc)?)),
            Value::Request(request) => Ok(Value::Request(request.try_copy(alloc)?)),
            Value::Answer(answer) => Ok(Value::Answer(answer.try_copy(alloc)?)),
            Value::Tags(tags) => Ok(Value::Tags(tags.copy(alloc)?)),
            Value::Bytes(bytes) => Ok(Value::Bytes(bytes.copy(alloc)?)),
        }
    }
}

impl TryCopy for Value {
    fn try_copy(&self, alloc: Global) -> Result<Value, AllocError> {
        self.copy(alloc)
    }
}
