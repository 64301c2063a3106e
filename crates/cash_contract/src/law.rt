//! What acceptance by the Cash contract means for value.

ghost use Rattle.cash_contract.specs.Conserved.{ConservesValue};

/// A transaction that the contract accepts makes and destroys no value but by issue and exit: of every token, what goes
/// in and is issued is what goes out and is exited. It does nothing; its contract is the law.
pub fn accepted_conserves_value()
    ensures { ConservesValue }
{}
