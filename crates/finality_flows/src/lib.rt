//! Finality: the flow that has a transaction signed by all who have to sign it, notarised and recorded, and shows it to the peers. And
//! agreeing: the flow by which a lender that is asked to sign does so.
#![tactic(auto)]

mod agree;
mod finality;
mod signers;
mod steps;
mod tagging;

pub use agree::{Agree, AgreeFrame, AgreePlace};
pub use finality::{Finality, FinalityPlace};
