//! Flows of cash: the issue, the payment, the exit and the spend.
//!
//! An issue makes cash of this party's own token, and an exit takes some out of circulation; a payment moves cash to another node, and a
//! spend the very coin that is named. Each does so by one transaction, has that made final, and returns its id. What their words are, which transaction each makes and how each goes on are definitions in
//! `specs/`.
#![tactic(auto)]

mod exit;
mod issue;
mod laws;
mod making;
mod options;
mod pay;
mod payment;
mod spend;
mod words;

pub use exit::{Exit, ExitFrame, ExitPlace};
pub use issue::{Issue, IssueFrame, IssuePlace};
pub use laws::{
    accepted_by_cash, exit_begins_by_its_words, exit_is_accepted, exits_exactly,
    issue_begins_by_its_words, issue_is_accepted, options_in_order, pay_begins_by_its_words,
    pays_in_full, reserved_exit_is_accepted, reserved_is_accepted, spend_begins_by_its_words,
    spend_is_accepted,
};
pub use options::PayOptions;
pub use pay::{Pay, PayArgs, PayFrame, PayPlace};
pub use spend::{Spend, SpendArgs, SpendFrame, SpendPlace};
pub use words::AmountArgs;
