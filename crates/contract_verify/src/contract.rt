//! What a contract is.

ghost use Rattle.std.specs.Prelude.{◌≡◌};

use ledger_types::{Resolved, Tx};

/// A contract, by its number and by what it says of a transaction with the states that its inputs and references name.
pub trait LedgerContract: Drop {
    ghost use Rattle.std.specs.Prelude.{ℕ, Option};
    ghost use Rattle.ledger_types.specs.declared.tx.Tx.{Tx};
    ghost use Rattle.ledger_types.specs.declared.tx.Resolved.{Resolved};

    /// The number of the contract.
    ghost number: { Self → ℕ };

    /// The clause by which it refuses, if it does.
    ghost says: { Self → Tx → Resolved → Option ℕ };

    /// The number of the contract, by which it governs states: 1 Cash, 2 TimeLock, 3 Fact, 4 Iou.
    fn id(&self) -> u8
        ensures { result ≡ number self.now };

    /// The number of the clause by which the contract refuses; `None` where it accepts.
    fn verdict(&self, tx: &Tx, resolved: &Resolved) -> Option<u8>
        ensures { result ≡ says self.now tx.now resolved.now };
}

/// A contract object that the caller made.
pub type BoxedContract = Box<dyn LedgerContract + Send + Sync>;

impl LedgerContract for BoxedContract {
    ghost number = { λ b. (LedgerContract-box b).number b.value };

    ghost says = { λ b. (LedgerContract-box b).says b.value };

    fn id(&self) -> u8 {
        (**self).id()
    }

    fn verdict(&self, tx: &Tx, resolved: &Resolved) -> Option<u8> {
        (**self).verdict(tx, resolved)
    }
}
