//! What flows share that make a transaction: the words that name its parts, the fields that a frame keeps of them, what it is made of,
//! what is found of a state, and how the flow ends once the transaction is final. The definitions are in `specs/`.
#![tactic(auto)]

mod concluding;
mod finding;
mod making;
mod words;

pub use concluding::{Concludes, concluded};
pub use finding::free_output;
pub use making::{alone, both, made, plain, salt_of};
pub use words::{Code, TxId, reference_of};
