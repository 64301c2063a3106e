//! The words that every crate uses: parties, moments, digests, lists, causes, and how values are
//! spelt in bytes.
#![tactic(auto)]

mod ascending;
mod block;
mod boxed;
mod bytes16;
mod causes;
mod fault;
mod fields;
mod known;
mod list;
mod names;
mod numbers;
mod part;
mod parties;
mod reader;
mod records;
mod spelt;
mod tested;
mod values;
mod writer;

pub use ascending::{ByParty, read_ascending};
pub use block::{Block, Component, write_component};
pub use boxed::Boxed;
pub use bytes16::{read_bytes16, write_bytes16};
pub use causes::{Cause, Event};
pub use fault::{DecodeFault, PartFault};
pub use known::{Unlimited, law_known_items};
pub use list::{ByteList, ListOf, TryCopy};
pub use names::{Identity, Key, StateRef, Tag, Token};
pub use numbers::number;
pub use part::{
    read_below, read_between, read_hash, read_kind, read_list, read_list_between, read_option,
    read_u8, read_u16, read_u32, read_u64, read_up_to, write_list, write_option,
};
pub use parties::PartySet;
pub use reader::{Extra, Reader, Short};
pub use records::RecordList;
pub use spelt::{Spelt, decode, decode_if_spelt, decode_whole, encode, one_spelling};
pub use tested::{read_below_except, read_positive, read_stamp};
pub use values::{Hash32, Moment, Party};
pub use writer::Writer;
