//! What a party holds: the unconsumed states that are relevant to it, with their soft locks (Corda 4 documentation, "Vault",
//! "Soft locking").
#![tactic(auto)]

mod fault;
mod laws;
mod states;
mod vault;

pub use fault::ReserveFault;
pub use laws::law_holds_each_once;
pub use vault::Vault;
