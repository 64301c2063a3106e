use thiserror::Error;

/// The one fault of a source, a sink or a disk: a read, a write, a sync or a call for a disk's length failed.
///
/// Each such object counts its faults, and a call answers this only where the count rose in that call.
#[derive(Clone, Copy, Debug, PartialEq, Eq, Error)]
#[error("a read, a write or a sync failed")]
pub struct Failed;
