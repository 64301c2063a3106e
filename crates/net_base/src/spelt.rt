//! Types whose values have one canonical spelling in bytes.

ghost use Rattle.std.specs.Prelude.{◌≡◌, ◌++◌, ℕ, List, Result, IfOk};
ghost use Rattle.net_base.specs.Reading.{Puts};
ghost use Rattle.net_base.specs.Parts.{Gives, Writes, Decodes, DecodesWhole, DecodesIfSpelt};

use crate::fault::{DecodeFault, PartFault};
use crate::reader::Reader;
use crate::writer::Writer;
use std::alloc::{AllocError, Global};

/// A type whose values have one spelling, within limits.
pub trait Spelt: Sized + Drop {
    ghost use Rattle.std.specs.Prelude.{◌≡◌, ℕ, List, Result};
    ghost use Rattle.net_base.specs.Laws.{LawsIf};

    /// The premise under which a refusal's place is the first one where no value's spelling goes on. It holds unless a type says
    /// otherwise; of a type at which it doesn't hold, a refusal says that no value's spelling begins there, and its place says nothing.
    ghost exact: { Type 0 } = { Unit {0} };

    /// The value's bytes.
    ghost spelling: { Self → List ℕ };

    /// The limits and orders that a value keeps so that it has a spelling.
    ghost within: { Self → Type 0 };

    /// What reading from the left gives, as a function on lists: the value and the bytes behind it, or
    /// how many bytes are left where it stops. Where `exact` holds, no spelling goes on there.
    ghost reading: { List ℕ → Result (Self × List ℕ) ℕ };

    /// Reads a value, or tells how many bytes are left where reading stops. After a fault the
    /// reader's place is not stated.
    fn read_part(alloc: Global, from: &mut Reader) -> Result<Self, PartFault>
        ensures { Gives (λ x. x) result from.old from.new (reading from.old.left) };

    /// Writes the value's spelling. After want of memory a front of it may stand in `out`.
    fn write_part(&self, alloc: Global, out: &mut Writer) -> Result<(), AllocError>
        requires { within self.now }
        ensures { Writes (spelling self.now) result out.old out.new };

    /// What is spelt is read again, what is read is spelt so, and a fault is the first where `exact` holds.
    ghost laws: { LawsIf exact within spelling reading };
}

/// The value whose spelling begins at the reader's place, which then stands behind it.
///
/// # Errors
///
/// `Malformed { at }` exactly where no value's spelling begins there: `at` is the reader's place. `Memory`
/// where memory runs out. After both the reader stays where it was.
pub fn decode<'a, T: Spelt>(alloc: Global, from: &mut Reader<'a>) -> Result<T, DecodeFault>
    ensures { Decodes T.within T.spelling result from.old from.new }
{
    let at = from.place();
    let mut trial = from.again();
    match T::read_part(alloc, &mut trial) {
        Ok(value) => {
            *from = trial;
            Ok(value)
        }
        Err(PartFault::Memory) => Err(DecodeFault::Memory),
        Err(PartFault::Left(_)) => Err(DecodeFault::Malformed { at }),
    }
}

/// Writes the value's spelling.
///
/// # Errors
///
/// Want of memory. It leaves the writer as it was.
pub fn encode<T: Spelt>(alloc: Global, value: &T, out: &mut Writer) -> Result<(), AllocError>
    requires { T.within value.now }
    ensures { Puts (T.spelling value.now) result out.old out.new }
{
    let length = out.len();
    match value.write_part(alloc, out) {
        Ok(()) => Ok(()),
        Err(e) => {
            out.truncate(length);
            Err(e)
        }
    }
}

/// The value whose spelling all of the bytes are, of a type whose faults are exact.
///
/// # Errors
///
/// `Malformed { at }` exactly where the bytes are no value's spelling: `at` is the first place, counted from
/// 0, at which no value's spelling can go on. `Memory` where memory runs out.
pub fn decode_whole<T: Spelt>(alloc: Global, bytes: &[u8]) -> Result<T, DecodeFault>
    requires sure { T.exact }
    ensures { DecodesWhole T.within T.spelling result bytes.now }
{
    let mut from = Reader::new(bytes);
    match T::read_part(alloc, &mut from) {
        Ok(value) => {
            if from.remaining() > 0 {
                return Err(DecodeFault::Malformed { at: from.place() });
            }
            Ok(value)
        }
        Err(fault) => match fault {
            PartFault::Memory => Err(DecodeFault::Memory),
            PartFault::Left(left) => Err(DecodeFault::Malformed {
                at: bytes.len() - left,
            }),
        },
    }
}

/// The value whose spelling all of the bytes are, `None` exactly where they are no value's spelling. It tells no place, as
/// `decode_whole` does, and so asks for no exact faults.
///
/// # Errors
///
/// `AllocError` for want of memory.
pub fn decode_if_spelt<T: Spelt>(alloc: Global, bytes: &[u8]) -> Result<Option<T>, AllocError>
    ensures { IfOk result (λ read. DecodesIfSpelt T.within T.spelling read bytes.now) }
{
    let mut from = Reader::new(bytes);
    match T::read_part(alloc, &mut from) {
        Ok(value) => {
            if from.remaining() > 0 {
                return Ok(None);
            }
            Ok(Some(value))
        }
        Err(PartFault::Memory) => Err(AllocError),
        Err(PartFault::Left(_)) => Ok(None),
    }
}

/// No value's spelling begins another's of the same type: where two begin the same bytes, the values are
/// the same and so is what stands behind them. It does nothing when it runs; its contract is the law.
pub fn one_spelling<T: Spelt>()
    ensures { (v w : T) (x y : List ℕ) → T.within v → T.within w
        → T.spelling v ++ x ≡ T.spelling w ++ y → (v ≡ w) × (x ≡ y) }
{}
