//! What is told of a node's answers.

use node_core::{SettleFault, Taken};
use std::alloc::{AllocError, Global};

/// What a frame is answered.
pub fn taken_text(alloc: Global, taken: &Taken) -> Result<String, AllocError> {
    match taken {
        Taken::Acked => String::from_str(alloc, "acked"),
        Taken::Again { expected, .. } => format!(in alloc; "again {expected}"),
        Taken::Early { expected } => format!(in alloc; "early {expected}"),
        Taken::NoSession => String::from_str(alloc, "nosession"),
        Taken::Took { upto, .. } => format!(in alloc; "took {upto}"),
    }
}

/// Why a job is not settled: with both steps where it is stale.
pub fn settle_text(alloc: Global, why: SettleFault) -> Result<String, AllocError> {
    match why {
        SettleFault::Stale {
            have: Some(have),
            given,
        } => format!(in alloc; "stale {have} {given}"),
        SettleFault::Stale { have: None, given } => format!(in alloc; "stale none {given}"),
        SettleFault::Foreign { flow } => format!(in alloc; "foreign {flow}"),
        other => other.to_string(alloc),
    }
}
