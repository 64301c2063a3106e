//! A law of vaults. The function does nothing when it runs; its contract is the law.

ghost use Rattle.std.specs.Prelude.{◌≡◌, List, false};
ghost use Rattle.net_base.specs.declared.values.Hash32.{Hash32};
ghost use Rattle.net_base.specs.declared.values.Party.{Party};
ghost use Rattle.ledger_types.specs.declared.tx.Tx.{Tx};
ghost use Rattle.ledger_types.specs.declared.held.Held.{Held};
ghost use Rattle.ledger_types.specs.Names.{ref_eq, has_repeat};
ghost use Rattle.ledger_types.specs.Vaults.{Lock};
ghost use Rattle.vault.specs.Holdings.{references_of, IsVault};

/// A vault over recorded transactions holds no state twice.
pub fn law_holds_each_once()
    ensures { (me : Party) (recorded : List (Hash32 × Tx)) (locks : List Lock) (held : List Held)
        → IsVault me recorded locks held → has_repeat ref_eq (references_of held) ≡ false }
{}
