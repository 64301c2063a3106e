//! Bytes behind two bytes of length.

ghost use Rattle.std.specs.Prelude.{◌<◌, ◌%◌, length};
ghost use Rattle.net_base.specs.Parts.{Gives, Writes};
ghost use Rattle.net_base.specs.Forms.{bytes16};
ghost use Rattle.net_base.specs.Framing.{at_most_at, bytes16_at};

use crate::fault::PartFault;
use crate::list::{ByteList, ListOf};
use crate::part::{read_u8, read_up_to};
use crate::reader::Reader;
use crate::writer::Writer;
use std::alloc::{AllocError, Global};

/// A length of at most the limit.
#[tactic(auto, unfolding(crate::specs::Framing::at_most_at))]
fn read_at_most(from: &mut Reader, limit: u16) -> Result<u16, PartFault>
    ensures given { Gives (λ x. x) result from.old from.new (at_most_at limit from.old.left) }
{
    let high = read_up_to(from, (limit / 256) as u8)?;
    let low = if high as u16 == limit / 256 {
        read_up_to(from, (limit % 256) as u8)?
    } else {
        read_u8(from)?
    };
    Ok(256 * high as u16 + low as u16)
}

/// Two bytes of length, of at most the limit, and as many bytes.
#[tactic(auto, unfolding(crate::specs::Framing::bytes16_at, crate::specs::Forms::bytes_at))]
pub fn read_bytes16(alloc: Global, from: &mut Reader, limit: u16) -> Result<ByteList, PartFault>
    ensures { Gives (λ x. x) result from.old from.new (bytes16_at limit from.old.left) }
{
    let count = read_at_most(from, limit)?;
    let bytes = from.bytes(count as usize)?;
    Ok(ListOf::from_vec(Vec::from_slice(alloc, bytes)?))
}

/// Writes two bytes of length and the bytes. After want of memory a front of them may stand in `out`.
pub fn write_bytes16(alloc: Global, bytes: &ByteList, out: &mut Writer) -> Result<(), AllocError>
    requires { length bytes.now < 65536 }
    ensures { Writes (bytes16 bytes.now) result out.old out.new }
{
    out.put_u16(alloc, bytes.len() as u16)?;
    out.put_bytes(alloc, bytes.as_slice())?;
    Ok(())
}
