//! Flows of the program that touch no ledger: counting (class 1), ping (2), probe (10), and the echo that answers an Init of class 2; and
//! a flow set of these alone.
//!
//! Each machine is in the form of `flow_forms`; the set is their sum.
#![tactic(auto)]

mod count;
mod echo;
mod meeting;
mod ping;
mod probe;
mod set;

pub use count::{Count, CountPlace};
pub use echo::{Echo, EchoPlace};
pub use meeting::a_ping_returns_its_count;
pub use ping::{Ping, PingPlace};
pub use probe::{Probe, ProbePlace};
pub use set::{NoCalls, Shipped, ShippedFlow};
