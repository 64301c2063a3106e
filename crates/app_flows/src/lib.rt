//! The flow set of the program: all machines of flows, and the frames of the subflows that they call.
//!
//! Each machine stands in a crate of its own kind; here is their sum, in which a further machine is a line.
#![tactic(auto)]

mod app;
mod beside;
mod calls;
mod set;

pub use app::{App, AppCalls, Machines};
pub use beside::Beside;
pub use calls::{CallFrames, Called, CountFrame, FinalityFrame};
pub use set::{
    Answering, AppFlow, AppSet, Cash, Deals, Talking, answering_means_its_table,
    called_means_its_table, cash_means_its_table, deals_means_its_table, talking_means_its_table,
};
