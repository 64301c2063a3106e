//! What words of these flows are.

ghost use Rattle.std.specs.Prelude.{◌≡◌};
ghost use Rattle.cash_flows.specs.Words.{moment_in, moment_of};

use flow_forms::{Argument, End, Then};
use flow_txs::Code;
use net_base::Moment;

/// The arguments of an issue and of an exit, in the order of their words: the code and the amount. A flow begins where the amount is at
/// least 1.
pub type AmountArgs = Then<Code, Then<u64, End>>;

/// The moment that the word is, in milliseconds: a number below 2^64.
pub(crate) fn moment_of(word: &str) -> Option<Moment>
    ensures { result ≡ moment_of word.now }
{
    match u64::of_word(word) {
        Some(n) => Some(Moment(n)),
        None => None,
    }
}
