//! The contracts that a node knows.

ghost use Rattle.std.specs.Prelude.{◌≡◌, length};
ghost use Rattle.ledger_types.specs.Verdicts.{told_by, verdict_of};

use crate::contract::{BoxedContract, LedgerContract};
use crate::judging::verdict_among;
use ledger_types::{Resolved, Tx, Verdict};

/// The contracts that a node knows, in an order. Of two with one number the first counts.
#[derive(Drop)]
pub struct ContractBook {
    pub contracts: Vec<BoxedContract>,
}

impl ContractBook {
    /// The book of these contracts. Takes no memory.
    pub fn new(contracts: Vec<Box<dyn LedgerContract + Send + Sync>>) -> ContractBook
        ensures { result.contracts.items ≡ contracts.items }
    {
        ContractBook { contracts }
    }

    /// The verdict on a transaction with the states that its inputs and references name: the first structural rule that
    /// is broken; else, of the contracts that govern an input or an output, by ascending number, the first that is absent
    /// or refuses; else that it is accepted. Contracts of reference states are not asked.
    pub fn verify(&self, tx: &Tx, resolved: &Resolved) -> Verdict
        requires inputs { length resolved.now.inputs ≡ length tx.now.inputs }
        requires references { length resolved.now.references ≡ length tx.now.references }
        ensures { result ≡ verdict_of (told_by (λ b. number b)
            (λ b. says b) self.now.contracts.items) tx.now resolved.now }
    {
        verdict_among::<BoxedContract>(&self.contracts, tx, resolved)
    }
}
