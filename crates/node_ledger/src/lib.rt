//! The ledger of a node in the words of the network machine.
#![tactic(auto)]

mod laws;
mod tables;

pub use laws::change_fits_as_ruled;
pub use tables::{add_change, change_fits, make_change_room, new_ledger};
