//! What a machine keeps from one act to the next, and its bytes.

ghost use Rattle.std.specs.Prelude.{◌≡◌, IfOk};
ghost use Rattle.net_base.specs.Parts.{Gives, Writes};
ghost use Rattle.flow_forms.specs.Kept.{Kept};

use net_base::{PartFault, Reader, Writer};
use std::alloc::{AllocError, Global};

/// The fields of a machine.
pub trait Fields: Sized + Drop {
    /// Their limits, their bytes, and how these are read.
    ghost kept: { Kept Self };

    /// Reads fields, or tells how many bytes are left where reading stops. After a fault the reader's place is not stated.
    fn read_fields(alloc: Global, from: &mut Reader) -> Result<Self, PartFault>
        ensures { Gives (λ x. x) result from.old from.new (kept.reading from.old.left) };

    /// Writes the fields. After want of memory a front of their bytes may stand in `out`.
    fn write_fields(&self, alloc: Global, out: &mut Writer) -> Result<(), AllocError>
        requires { kept.within self.now }
        ensures { Writes (kept.spelling self.now) result out.old out.new };

    /// Equal fields.
    ///
    /// # Errors
    ///
    /// `AllocError` for want of memory.
    fn copy_fields(&self, alloc: Global) -> Result<Self, AllocError>
        ensures { IfOk result (λ s. s ≡ self.now) };
}
