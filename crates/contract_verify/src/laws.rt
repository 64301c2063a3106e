//! A law of verdicts. The function does nothing when it runs; its contract is the law.

ghost use Rattle.std.specs.Prelude.{ℕ, Option};
ghost use Rattle.ledger_types.specs.declared.tx.Tx.{Tx};
ghost use Rattle.ledger_types.specs.declared.tx.Resolved.{Resolved};
ghost use Rattle.ledger_types.specs.Verdicts.{verdict_of};
ghost use Rattle.contract_verify.specs.Naming.{NamesNotary};

/// Whatever the contracts say: a transaction that is accepted names a notary where a notary has to sign, that is where it has an
/// input, a reference or a time window.
pub fn accepted_names_a_notary()
    ensures { (told : ℕ → Tx → Resolved → Option (Option ℕ)) → NamesNotary (verdict_of told) }
{}
