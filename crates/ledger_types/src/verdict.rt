//! What is said of a transaction.

/// What the structural rules and the contracts say of a transaction with the states that it names.
#[derive(Clone, Copy, Debug, PartialEq, Eq)]
pub enum Verdict {
    Accepted,
    /// The first structural rule that is broken, 1 to 16.
    Broken { rule: u8 },
    /// No contract of this number is known.
    NoContract { id: u8 },
    /// A contract refuses, by this clause.
    Refused { contract: u8, clause: u8 },
}
