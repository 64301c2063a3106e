//! Records as bytes.

use crate::list::{ByteList, ListOf};

/// Records of a journal: where each begins, in bytes from the journal's start, and its body.
pub type RecordList = ListOf<(u64, ByteList)>;
