ghost use Rattle.std.specs.Prelude.{ℕ, List, Result};
ghost use Rattle.ledger_types.specs.Verdicts.{verdict_of};
ghost use Rattle.flow_machine.specs.Machine.{Machine};
ghost use Rattle.net_model.specs.Environment.{meaning};
ghost use Rattle.ledger_laws.specs.Places.{Made};
ghost use Rattle.contract_laws.specs.Everywhere.{Everywhere};
ghost use Rattle.contract_laws.specs.Lawful.{Contracts, AreLawful};
ghost use Rattle.contract_laws.specs.Values.{GovernsCash, KeepsAllValue};
ghost use Rattle.contract_laws.specs.Authority.{AreSignedFor};
ghost use Rattle.contract_laws.specs.Deals.{GovernsFacts, KeepsAllFacts, GovernsDebts, KeepsAllDebts};
ghost use Rattle.contract_laws.specs.Locks.{GovernsLocks, LocksWereDue};
ghost use Rattle.contract_laws.specs.Supply.{AreAccounted};

use flow_machine::FlowSet;

/// The law that each recorded transaction, at every node, keeps the structural rules with the states that it names, as they stand among
/// those recorded with it, and that the contract of each state that it consumes or makes is there and accepts it.
///
/// Whatever the contracts and the flows are, it holds of every coherent world, whichever journals power cuts leave of it; at every moment of
/// a way, also within a call of a disk, whichever images power cuts leave of the disks; and so throughout a script but within `workers`
/// (`story_laws`).
pub fn recorded_is_accepted_by_each<F>()
    ensures { (m : Machine F) (frame_at : List ℕ → Result (F × List ℕ) ℕ) (contracts : Contracts)
        → Everywhere (meaning m frame_at (verdict_of contracts))
        (Made (AreLawful contracts)) }
{}

/// The law that no recorded transaction, at any node, makes or destroys value but by issue and exit: where it consumes or makes Cash the Cash
/// contract accepts it, and of every token what goes in and is issued is what goes out and is exited; elsewhere no Cash goes in or out.
///
/// It asks that the contract of number 1 is that of Cash, as in the program. It holds where the law above does.
pub fn recorded_cash_is_conserved<F>()
    ensures { (m : Machine F) (frame_at : List ℕ → Result (F × List ℕ) ℕ) (contracts : Contracts)
        → GovernsCash contracts → Everywhere (meaning m frame_at (verdict_of contracts))
        (Made KeepsAllValue) }
{}

/// The law that, of each recorded transaction that consumes or makes Cash, the issuer of each token that it issues or exits has signed it, and
/// so has the owner of each Cash that it consumes: there is a tag by that party over its id that checks.
///
/// It asks what the law above does, and speaks of parties 0 to 15, of which networks are. It holds where that law does.
pub fn recorded_cash_is_signed_for<F>()
    ensures { (m : Machine F) (frame_at : List ℕ → Result (F × List ℕ) ℕ) (contracts : Contracts)
        → GovernsCash contracts → Everywhere (meaning m frame_at (verdict_of contracts))
        (Made AreSignedFor) }
{}

/// The law that the issuer of each fact that a recorded transaction makes or consumes has signed the transaction, and that the transaction makes
/// no two facts of one issuer and name.
///
/// It asks that the contract of number 3 is that of facts, as in the program, and speaks of parties 0 to 15. It holds where the laws above do.
pub fn recorded_facts_were_signed_for<F>()
    ensures { (m : Machine F) (frame_at : List ℕ → Result (F × List ℕ) ℕ) (contracts : Contracts)
        → GovernsFacts contracts → Everywhere (meaning m frame_at (verdict_of contracts))
        (Made KeepsAllFacts) }
{}

/// The law that each debt that a recorded transaction makes is of an amount above 0 and between two parties, whom one command that makes debts
/// names as signers, and who both have signed the transaction; that the lender of each debt that it consumes has; and that its outputs have Cash
/// of that debt's token for that lender, of at least what all debts of the token that it consumes owe the lender, whoever brought it.
///
/// It asks that the contract of number 4 is that of debts, as in the program; of who has signed it speaks of parties 0 to 15. It holds where the
/// laws above do.
pub fn recorded_debts_were_agreed<F>()
    ensures { (m : Machine F) (frame_at : List ℕ → Result (F × List ℕ) ℕ) (contracts : Contracts)
        → GovernsDebts contracts → Everywhere (meaning m frame_at (verdict_of contracts))
        (Made KeepsAllDebts) }
{}

/// The law that the owner of each time lock that a recorded transaction makes or consumes has signed the transaction, and that each one that it
/// consumes was due: the notary first signed the transaction at the lock's end or later, by the moment of its journal's record.
///
/// It asks that the contract of number 2 is that of time locks, as in the program, and of flows that none makes a tag up. That the moment is late
/// enough asks what `recorded_was_signed_in_its_window` (`ledger_laws`) does, of digests and of the window. Of owners the law speaks of parties 0
/// to 15. It holds where the laws above do.
pub fn recorded_time_locks_were_due<F: FlowSet>()
    ensures { (contracts : Contracts) → GovernsLocks contracts
        → Everywhere (meaning F.machine F.reading (verdict_of contracts)) LocksWereDue }
{}

/// The law that, of every token, the Cash that recorded transactions leave unconsumed is what they issued less what they exited, and that the
/// balances of different parties by them, together, are no more: of the transactions of each node, and of those of all nodes together, each id
/// once. Commands of transactions without Cash count for nothing.
///
/// It asks what `recorded_cash_is_conserved` does, and what `no_state_is_spent_twice` (`ledger_laws`) does: of flows, that none makes a tag up;
/// and that SHA-256 tells apart what was hashed to sign each of these transactions, and gives no digest of all zeros or all ones. Over all
/// nodes it asks too that two recorded transactions of one id are one. It holds where the laws above do.
pub fn outstanding_cash_was_issued<F: FlowSet>()
    ensures { (contracts : Contracts) → GovernsCash contracts
        → Everywhere (meaning F.machine F.reading (verdict_of contracts))
        (Made AreAccounted) }
{}
