//! Flows of facts and debts: the fact, its change and the debt.
//!
//! A fact says a value under a name, by this party, and a change gives it another value; a debt is what this party owes another node. Each
//! is made by one transaction, which the flow has made final, and whose id it returns. What their words are, which transaction each makes and
//! how each goes on are definitions in `specs/`.
#![tactic(auto)]

mod fact;
mod iou;
mod laws;
mod refact;

pub use fact::{Fact, FactArgs, FactFrame, FactPlace};
pub use iou::{Iou, IouArgs, IouFrame, IouPlace};
pub use laws::{
    fact_begins_by_its_words, fact_is_accepted, iou_begins_by_its_words, iou_is_accepted,
    refact_begins_by_its_words, refact_is_accepted,
};
pub use refact::{Refact, RefactArgs, RefactFrame, RefactPlace};
