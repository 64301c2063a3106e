//! The spelling of acts.

ghost use Rattle.std.specs.Prelude.{◌∷◌, ◌++◌};
ghost use Rattle.net_base.specs.Reading.{Puts};
ghost use Rattle.net_base.specs.Parts.{Decodes, Writes};
ghost use Rattle.flow_machine.specs.Acts.{IsFrameBytes, frame_bytes, frame_bytes_at, frame_bytes_laws, act_text};
ghost use Rattle.flow_machine.specs.Limits.{IsAct};

use super::Act;
use net_base::{
    ByteList, DecodeFault, PartFault, Reader, Spelt, Writer, decode, encode, read_bytes16,
    read_kind, write_bytes16,
};
use std::alloc::{AllocError, Global};

/// A frame of which nothing is known but its bytes, at most 32,768. In an act and in a checkpoint a frame of any flow set stands
/// behind two bytes of length, so that the bytes of both can be told apart without the flow set.
#[derive(Drop)]
pub struct FrameBytes(pub ByteList);

#[tactic(auto, unfolding(crate::specs::Acts::frame_bytes_at))]
impl Spelt for FrameBytes {
    ghost spelling = { frame_bytes };

    ghost within = { IsFrameBytes };

    ghost reading = { frame_bytes_at };

    ghost laws = { frame_bytes_laws };

    fn read_part(alloc: Global, from: &mut Reader) -> Result<FrameBytes, PartFault> {
        Ok(FrameBytes(read_bytes16(alloc, from, 32768)?))
    }

    fn write_part(&self, alloc: Global, out: &mut Writer) -> Result<(), AllocError> {
        write_bytes16(alloc, &self.0, out)
    }
}

/// Writes the byte of a kind, and the one field behind it.
fn write_one<A: Spelt>(alloc: Global, out: &mut Writer, kind: u8, one: &A) -> Result<(), AllocError>
    requires { A.within one.now }
    ensures { Writes (kind ∷ A.spelling one.now) result out.old out.new }
{
    out.put_u8(alloc, kind)?;
    one.write_part(alloc, out)
}

/// Writes the byte of a kind, and the two fields behind it.
fn write_two<A: Spelt, B: Spelt>(
    alloc: Global,
    out: &mut Writer,
    kind: u8,
    one: &A,
    two: &B,
) -> Result<(), AllocError>
    requires one { A.within one.now }
    requires two { B.within two.now }
    ensures { Writes (kind ∷ (A.spelling one.now ++ B.spelling two.now)) result out.old out.new }
{
    write_one(alloc, out, kind, one)?;
    two.write_part(alloc, out)
}

/// Writes the byte of a kind, and the three fields behind it.
fn write_three<A: Spelt, B: Spelt, C: Spelt>(
    alloc: Global,
    out: &mut Writer,
    kind: u8,
    one: &A,
    two: &B,
    three: &C,
) -> Result<(), AllocError>
    requires one { A.within one.now }
    requires two { B.within two.now }
    requires three { C.within three.now }
    ensures { Writes (kind ∷ (A.spelling one.now ++ (B.spelling two.now ++ C.spelling three.now)))
        result out.old out.new }
{
    write_two(alloc, out, kind, one, two)?;
    three.write_part(alloc, out)
}

#[tactic(auto, unfolding(crate::specs::Acts::act_at))]
impl<F: Spelt> Spelt for Act<F> {
    ghost use Rattle.flow_machine.specs.Limits.{IsAct};
    ghost use Rattle.flow_machine.specs.Acts.{act_text, act_at, act_laws};

    ghost exact = { F.exact };

    ghost spelling = { act_text F.spelling };

    ghost within = { IsAct F.within };

    ghost reading = { act_at F.reading };

    ghost laws = { act_laws F.laws };

    fn read_part(alloc: Global, from: &mut Reader) -> Result<Act<F>, PartFault> {
        match read_kind(from, &[1, 2, 3, 4, 5, 6, 7, 8, 9, 10, 11, 12, 13, 14, 15])? {
            1 => Ok(Act::Open {
                to: Spelt::read_part(alloc, from)?,
                class: Spelt::read_part(alloc, from)?,
                first: Spelt::read_part(alloc, from)?,
            }),
            2 => Ok(Act::Send {
                key: Spelt::read_part(alloc, from)?,
                value: Spelt::read_part(alloc, from)?,
            }),
            3 => Ok(Act::Receive {
                key: Spelt::read_part(alloc, from)?,
            }),
            4 => Ok(Act::ReceiveBy {
                key: Spelt::read_part(alloc, from)?,
                until: Spelt::read_part(alloc, from)?,
            }),
            5 => Ok(Act::Sleep {
                until: Spelt::read_part(alloc, from)?,
            }),
            6 => Ok(Act::Sub {
                frame: Spelt::read_part(alloc, from)?,
            }),
            7 => Ok(Act::Verify {
                tx: Spelt::read_part(alloc, from)?,
            }),
            8 => Ok(Act::Reserve {
                token: Spelt::read_part(alloc, from)?,
                amount: Spelt::read_part(alloc, from)?,
            }),
            9 => Ok(Act::Lookup {
                id: Spelt::read_part(alloc, from)?,
            }),
            10 => Ok(Act::Missing {
                tx: Spelt::read_part(alloc, from)?,
            }),
            11 => Ok(Act::Sign {
                id: Spelt::read_part(alloc, from)?,
            }),
            12 => Ok(Act::Notarise {
                request: Spelt::read_part(alloc, from)?,
            }),
            13 => Ok(Act::Record {
                stx: Spelt::read_part(alloc, from)?,
            }),
            14 => Ok(Act::Return {
                value: Spelt::read_part(alloc, from)?,
            }),
            _ => Ok(Act::Fail {
                code: Spelt::read_part(alloc, from)?,
            }),
        }
    }

    fn write_part(&self, alloc: Global, out: &mut Writer) -> Result<(), AllocError> {
        match self {
            Act::Open { to, class, first } => write_three(alloc, out, 1, to, class, first),
            Act::Send { key, value } => write_two(alloc, out, 2, key, value),
            Act::Receive { key } => write_one(alloc, out, 3, key),
            Act::ReceiveBy { key, until } => write_two(alloc, out, 4, key, until),
            Act::Sleep { until } => write_one(alloc, out, 5, until),
            Act::Sub { frame } => write_one(alloc, out, 6, frame),
            Act::Verify { tx } => write_one(alloc, out, 7, tx),
            Act::Reserve { token, amount } => write_two(alloc, out, 8, token, amount),
            Act::Lookup { id } => write_one(alloc, out, 9, id),
            Act::Missing { tx } => write_one(alloc, out, 10, tx),
            Act::Sign { id } => write_one(alloc, out, 11, id),
            Act::Notarise { request } => write_one(alloc, out, 12, request),
            Act::Record { stx } => write_one(alloc, out, 13, stx),
            Act::Return { value } => write_one(alloc, out, 14, value),
            Act::Fail { code } => write_one(alloc, out, 15, code),
        }
    }
}

impl<F: Spelt> Act<F> {
    /// Writes the spelling at the end of `out`, which want of memory leaves as it was.
    pub fn encode(&self, alloc: Global, out: &mut Writer) -> Result<(), AllocError>
        requires { IsAct F.within self.now }
        ensures { Puts (act_text F.spelling self.now) result out.old out.new }
    {
        encode(alloc, self, out)
    }

    /// The act whose spelling begins at the reader's place, which then stands behind it.
    ///
    /// # Errors
    ///
    /// `Malformed` with the reader's place exactly where no spelling begins there, and `Memory`. The reader
    /// then stays where it was.
    pub fn decode(alloc: Global, from: &mut Reader) -> Result<Act<F>, DecodeFault>
        ensures { Decodes (IsAct F.within) (act_text F.spelling) result from.old from.new }
    {
        decode(alloc, from)
    }
}
