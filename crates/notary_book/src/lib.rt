//! The notary's book: what it has answered, and the decision that keeps every state from a second consumer (Corda 4
//! documentation, "Notaries").
#![tactic(auto)]

mod book;
mod deciding;
mod index;
mod laws;

pub use book::Book;
pub use deciding::Decision;
pub use laws::{
    conflicts_name_consumers, one_consumer, refused_is_never_signed, requests_agree,
    signed_is_never_refused,
};
