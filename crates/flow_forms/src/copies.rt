//! Copies of fields that may be absent.

ghost use Rattle.std.specs.Prelude.{◌≡◌, IfOk};

use net_base::TryCopy;
use std::alloc::{AllocError, Global};

/// An equal value, where there is one.
///
/// # Errors
///
/// `AllocError` for want of memory.
pub fn copy_option<T: TryCopy>(alloc: Global, value: &Option<T>) -> Result<Option<T>, AllocError>
    ensures { IfOk result (λ v. v ≡ value.now) }
{
    match value {
        Some(value) => Ok(Some(value.try_copy(alloc)?)),
        None => Ok(None),
    }
}
