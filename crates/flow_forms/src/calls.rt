ghost use Rattle.std.specs.Prelude.{◌≡◌};
ghost use Rattle.flow_forms.specs.Calls.{load_of};

use ledger_types::{HeldList, Request, SignedTx, WireTx};
use net_base::{Boxed, Key, ListOf, Party};

/// A subflow that a flow calls, by what it is made of. The flow set has its frame.
#[derive(Drop)]
pub enum Call {
    /// Has the network's notary decide the request, and returns the answer.
    Client {
        request: Boxed<Request>,
    },
    /// Records the ancestors that are lacking, asked for in the session, and then the transaction.
    Resolve {
        key: Key,
        stx: Boxed<SignedTx>,
    },
    /// Has the transaction signed and notarised, records it, and shows it to the peers; returns its id.
    Finality {
        tx: Boxed<WireTx>,
        peers: ListOf<Party>,
    },
    /// Shows the transactions of the coins in the session, and the coins; answers what is asked for.
    Give {
        key: Key,
        coins: HeldList,
    },
    /// Takes transactions in the session, resolves each, and returns the coins that are named.
    Take {
        key: Key,
    },
}

/// The most that an Init of the class may cause: of class 2 an echo of 1,000 turns, of 20 a notary's service, of 21 a receiver, of 22 a
/// signer.
pub fn load_of(class: u16) -> u64
    ensures { result ≡ load_of class }
{
    match class {
        2 => 3002,
        20 => 5,
        21 => 2566,
        22 => 6,
        _ => 0,
    }
}
