//! A law of signatures. The function does nothing when it runs; its contract is the law.

ghost use Rattle.std.specs.Prelude.{◌≡◌};
ghost use Rattle.net_base.specs.declared.values.Hash32.{Hash32};
ghost use Rattle.net_base.specs.declared.values.Party.{Party};
ghost use Rattle.ledger_types.specs.declared.tx.SignedTx.{SignedTx};
ghost use Rattle.ledger_types.specs.Rules.{is_empty};
ghost use Rattle.ledger_types.specs.Signatures.{is_signed, missing_signers};

/// A transaction is signed exactly where nobody who has to sign it is missing.
pub fn signed_where_none_is_missing()
    ensures { (mark : Party → Hash32 → Hash32) (stx : SignedTx)
        → is_signed mark stx ≡ is_empty (missing_signers mark stx) }
{}
