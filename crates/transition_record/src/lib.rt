//! Records: the bytes that a node's journal keeps of one transition, the cause and what it changed (Corda 4 documentation, "Flows",
//! "Checkpointing": what a flow did is written before it goes on).
#![tactic(auto)]

mod causes;
mod flow;
mod ledger;
mod record;
mod session;

pub use record::{RECORD_LIMIT, decode_record, encode_parts, encode_record, writer_with_room};
