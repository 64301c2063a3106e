//! How a flow ends that has its transaction made final.

ghost use Rattle.std.specs.Prelude.{◌≡◌};
ghost use Rattle.flow_txs.specs.Concluding.{concluded};

use flow_forms::Goes;
use flow_machine::Resumed;
use ledger_types::Value;
use net_base::Hash32;

/// The fields of a flow that has a transaction made final: they keep its id.
pub trait Concludes: Sized + Drop {
    ghost use Rattle.std.specs.Prelude.{◌≡◌};
    ghost use Rattle.net_base.specs.declared.values.Hash32.{Hash32};

    /// The fields with the id.
    ghost with_id: { Self → Hash32 → Self };

    fn with_id(self, id: Hash32) -> Self
        ensures { result ≡ with_id self id };
}

/// How the flow goes on by the result of finality: the id that it returned is kept and returned, and any other result fails by its code.
pub fn concluded<P, S: Concludes>(fields: S, with: &Resumed) -> Goes<P, S>
    ensures { result ≡ concluded S.with_id fields with.now }
{
    match with {
        Resumed::Returned {
            value: Value::Id(id),
        } => Goes::ends(fields.with_id(*id), Value::Id(*id)),
        _ => Goes::unnamed(fields, with),
    }
}
