//! What a flow finds of a state that its words name.

ghost use Rattle.std.specs.Prelude.{◌≡◌};
ghost use Rattle.flow_txs.specs.Finding.{said_freely, free_output};

use ledger_types::{StateData, TxState};

fn said_freely(state: &TxState) -> Option<StateData>
    ensures { result ≡ said_freely state.now }
{
    match state.encumbrance {
        None => Some(state.body),
        Some(_) => None,
    }
}

/// What the output at the place says; `None` where there is none, or it has an encumbrance.
pub fn free_output(outputs: &[TxState], index: u32) -> Option<StateData>
    ensures { result ≡ free_output outputs.now index }
{
    match outputs.get(index as usize) {
        Some(state) => said_freely(state),
        None => None,
    }
}
