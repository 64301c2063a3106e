//! Values on the heap.

ghost use Rattle.std.specs.Prelude.{◌≡◌, IfOk};

use crate::fault::PartFault;
use crate::list::TryCopy;
use crate::reader::Reader;
use crate::spelt::Spelt;
use crate::writer::Writer;
use std::alloc::{AllocError, Global};
use std::marker::Model;

/// A value on the heap, which contracts see as the value itself. A large part of an enum is kept in one, so that its other values
/// are moved cheaply. It is spelt as the value.
#[derive(Drop, Debug)]
pub struct Boxed<T> {
    value: Box<T>,
}

impl<T> Model for Boxed<T> {
    ghost Value = { T };

    ghost view = { λ b. b.value.value };
}

impl<T: Drop> Boxed<T> {
    /// Puts a value on the heap; where memory runs out it is let go.
    pub fn new(alloc: Global, value: T) -> Result<Boxed<T>, AllocError>
        ensures { IfOk result (λ b. b ≡ value) }
    {
        Ok(Boxed {
            value: Box::new(alloc, value)?,
        })
    }
}

impl<T> Boxed<T> {
    /// The value.
    pub fn get(&self) -> &T
        ensures { result.now ≡ self.now }
    {
        &self.value
    }

    /// The value, taken off the heap.
    pub fn into_inner(self) -> T
        ensures { result ≡ self }
    {
        Box::into_inner(self.value)
    }
}

impl<T: Spelt> Spelt for Boxed<T> {
    ghost exact = { T.exact };

    ghost spelling = { T.spelling };

    ghost within = { T.within };

    ghost reading = { T.reading };

    ghost laws = { T.laws };

    fn read_part(alloc: Global, from: &mut Reader) -> Result<Boxed<T>, PartFault> {
        Ok(Boxed::new(alloc, T::read_part(alloc, from)?)?)
    }

    fn write_part(&self, alloc: Global, out: &mut Writer) -> Result<(), AllocError> {
        self.value.write_part(alloc, out)
    }
}

impl<T: TryCopy> TryCopy for Boxed<T> {
    fn try_copy(&self, alloc: Global) -> Result<Boxed<T>, AllocError> {
        Boxed::new(alloc, self.value.try_copy(alloc)?)
    }
}
