//! Resolving: a transaction's ancestors that are lacking are asked for, from the last to the first, and recorded before it. And the
//! receiver, which has the transaction that it is sent resolved.
#![tactic(auto)]

mod ids;
mod receiver;
mod resolve;

pub use receiver::{Receiver, ReceiverFrame, ReceiverPlace};
pub use resolve::{Resolve, ResolveFrame, ResolvePlace};
