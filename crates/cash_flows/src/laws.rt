//! What words come to, what payments and exits do to value, and what the contract of cash says: laws, each the contract of a function that does
//! nothing.

ghost use Rattle.std.specs.Prelude.{codes};
ghost use Rattle.cash_flows.specs.Pay.{begins};
ghost use Rattle.cash_flows.specs.PayWords.{args_of, args, args_at};
ghost use Rattle.flow_forms.specs.Again.{BeginsByWords};
ghost use Rattle.cash_flows.specs.Orders.{TakenInOrder};
ghost use Rattle.cash_flows.specs.Conserved.{PaysInFull};
ghost use Rattle.cash_flows.specs.Accepted.{AcceptedByCash};
ghost use Rattle.cash_flows.specs.Reserved.{ReservedIsAccepted};
ghost use Rattle.cash_flows.specs.AmountWords as amount;
ghost use Rattle.cash_flows.specs.Issue as issue;
ghost use Rattle.cash_flows.specs.IssueAccepted.{IssueIsAccepted};
ghost use Rattle.cash_flows.specs.Exit as exit;
ghost use Rattle.cash_flows.specs.ExitAccepted.{ExitsExactly, ExitIsAccepted, ReservedExitIsAccepted};
ghost use Rattle.cash_flows.specs.Spend as spend;
ghost use Rattle.cash_flows.specs.SpendWords as spend_words;
ghost use Rattle.cash_flows.specs.SpendAccepted.{SpendIsAccepted};

use crate::exit::{Exit, ExitPlace};
use crate::issue::{Issue, IssuePlace};
use crate::pay::{Pay, PayPlace};
use crate::spend::{Spend, SpendPlace};
use flow_forms::begins_by_its_words;

/// Words behind the amount are taken exactly where they are `from T`, `until T` and `using ID INDEX`, each there or not, in this order,
/// and each can be read.
pub fn options_in_order()
    ensures { TakenInOrder }
{}

/// The bytes that the words of a payment, `pay P CODE ISSUER AMOUNT` and the options, give begin a flow by the arguments of these words,
/// where these are in range.
pub fn pay_begins_by_its_words()
    ensures { BeginsByWords (codes "pay") 4 args_of args args_at begins }
{
    begins_by_its_words::<PayPlace, Pay>();
}

/// A payment of coins that reach the amount pays out in full: the amount and the rest come to what the coins are worth, where the rest
/// is an amount, below 2^64.
pub fn pays_in_full()
    ensures { PaysInFull }
{}

/// No clause of the contract of cash refuses a payment of at least 1 by coins of the token that this party owns, which reach the amount
/// and exceed it by less than 2^64.
pub fn accepted_by_cash()
    ensures { AcceptedByCash }
{}

/// No clause of the contract of cash refuses a payment of at least 1 by the coins that a reservation of its amount names, in a vault of
/// states that are relevant to this party.
pub fn reserved_is_accepted()
    ensures { ReservedIsAccepted }
{}

/// The bytes that the words of an issue, `issue CODE AMOUNT`, give begin a flow by the arguments of these words, where these are in range.
pub fn issue_begins_by_its_words()
    ensures { BeginsByWords (codes "issue") 3 amount.args_of amount.args amount.args_at
        issue.begins }
{
    begins_by_its_words::<IssuePlace, Issue>();
}

/// No clause of the contract of cash refuses an issue of at least 1.
pub fn issue_is_accepted()
    ensures { IssueIsAccepted }
{}

/// The bytes that the words of an exit, `exit CODE AMOUNT`, give begin a flow by the arguments of these words, where these are in range.
pub fn exit_begins_by_its_words()
    ensures { BeginsByWords (codes "exit") 5 amount.args_of amount.args amount.args_at exit.begins }
{
    begins_by_its_words::<ExitPlace, Exit>();
}

/// An exit by coins that reach the amount takes exactly the amount out: what comes out and the amount come to what the coins are worth,
/// where the rest is an amount, below 2^64.
pub fn exits_exactly()
    ensures { ExitsExactly }
{}

/// No clause of the contract of cash refuses an exit of at least 1 by coins of this party's own token that it owns, which reach the amount
/// and exceed it by less than 2^64.
pub fn exit_is_accepted()
    ensures { ExitIsAccepted }
{}

/// No clause of the contract of cash refuses an exit of at least 1 by the coins that a reservation of its amount names, in a vault of states
/// that are relevant to this party.
pub fn reserved_exit_is_accepted()
    ensures { ReservedExitIsAccepted }
{}

/// The bytes that the words of a spend, `spend ID INDEX P`, give begin a flow by the arguments of these words, where these are in range.
pub fn spend_begins_by_its_words()
    ensures { BeginsByWords (codes "spend") 8 spend_words.args_of spend_words.args
        spend_words.args_at spend.begins }
{
    begins_by_its_words::<SpendPlace, Spend>();
}

/// No clause of the contract of cash refuses a spend of what is cash of this party, at least 1, and has no encumbrance.
pub fn spend_is_accepted()
    ensures { SpendIsAccepted }
{}
