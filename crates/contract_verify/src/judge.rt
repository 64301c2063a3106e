//! Whoever gives verdicts on transactions.

ghost use Rattle.std.specs.Prelude.{◌≡◌, length};

use crate::book::ContractBook;
use crate::contract::LedgerContract;
use ledger_types::{Resolved, Tx, Verdict};

/// Whoever gives a verdict on each transaction with the states that its inputs and references name. What stands above a
/// `ContractBook` asks for no more than this.
pub trait Judge {
    ghost use Rattle.ledger_types.specs.declared.tx.Tx.{Tx};
    ghost use Rattle.ledger_types.specs.declared.tx.Resolved.{Resolved};
    ghost use Rattle.ledger_types.specs.declared.verdict.Verdict.{Verdict};
    ghost use Rattle.contract_verify.specs.Naming.{NamesNotary};

    /// The verdict.
    ghost judges: { Self → Tx → Resolved → Verdict };

    /// What it accepts names a notary where a notary has to sign.
    ghost names_notary: { (j : Self) → NamesNotary (judges j) };

    /// The verdict on a transaction with its states. It takes no memory.
    fn judge(&self, tx: &Tx, resolved: &Resolved) -> Verdict
        requires inputs { length resolved.now.inputs ≡ length tx.now.inputs }
        requires references { length resolved.now.references ≡ length tx.now.references }
        ensures { result ≡ judges self.now tx.now resolved.now };
}

impl Judge for ContractBook {
    ghost use Rattle.ledger_types.specs.Verdicts.{told_by, verdict_of};
    ghost use Rattle.contract_verify.specs.Naming.{accepted_names};

    // What `ContractBook::verify` answers. `LedgerContract-box` is what a boxed contract means.
    ghost judges = { λ b. verdict_of (told_by (λ c. (LedgerContract-box c).number c.value)
        (λ c. (LedgerContract-box c).says c.value) b.contracts.items) };

    ghost names_notary = { λ b. accepted_names (told_by (λ c. (LedgerContract-box c).number c.value)
        (λ c. (LedgerContract-box c).says c.value) b.contracts.items) };

    fn judge(&self, tx: &Tx, resolved: &Resolved) -> Verdict {
        self.verify(tx, resolved)
    }
}
