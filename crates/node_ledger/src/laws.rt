//! The law of the ledger's part of a record.

ghost use Rattle.node_ledger.specs.Ledgered.{ChangeFitsAsRuled};

/// The law that a change of a node's ledger passes the test of its tables exactly where the machine's rules for records say so.
pub fn change_fits_as_ruled<F>()
    ensures { ChangeFitsAsRuled F }
{}
