//! What may follow the amount of a payment.

ghost use Rattle.std.specs.Prelude.{◌≡◌, map, string_bytes};
ghost use Rattle.cash_flows.specs.Options.{window_between, options_with, named, using_of, ends_at, until_of, starts_at, options_of, options_within, ArePayOptions, pay_options, pay_options_at, pay_options_laws, options_few};

use crate::words::moment_of;
use flow_forms::Arguments;
use flow_txs::reference_of;
use ledger_types::Window;
use net_base::{Moment, PartFault, Reader, Spelt, StateRef, Writer};
use std::alloc::{AllocError, Global};

/// The options of a payment, in the order of their words: `from T` and `until T`, the moments of its window in milliseconds, and `using ID INDEX`, a
/// state that it refers to and leaves. Each may lack; without both moments there is no window.
#[derive(Clone, Copy)]
pub struct PayOptions {
    pub window: Option<Window>,
    pub reference: Option<StateRef>,
}

fn window_between(from: Option<Moment>, until: Option<Moment>) -> Option<Window>
    ensures { result ≡ window_between from until }
{
    match (from, until) {
        (None, None) => None,
        _ => Some(Window { from, until }),
    }
}

fn options_with(
    from: Option<Moment>,
    until: Option<Moment>,
    reference: Option<Option<StateRef>>,
) -> Option<PayOptions>
    ensures { result ≡ options_with from until reference }
{
    match reference {
        None => None,
        Some(reference) => Some(PayOptions {
            window: window_between(from, until),
            reference,
        }),
    }
}

fn named(reference: Option<StateRef>) -> Option<Option<StateRef>>
    ensures { result ≡ named reference }
{
    match reference {
        None => None,
        Some(reference) => Some(Some(reference)),
    }
}

fn using_of(words: &[String]) -> Option<Option<StateRef>>
    ensures { result ≡ using_of (map (λ s. string_bytes s) words.now) }
{
    match words {
        [] => Some(None),
        [word, id, index] if word.as_str() == "using" => {
            named(reference_of(id.as_str(), index.as_str()))
        }
        _ => None,
    }
}

fn ends_at(from: Option<Moment>, until: Option<Moment>, more: &[String]) -> Option<PayOptions>
    ensures { result ≡ ends_at from until (map (λ s. string_bytes s) more.now) }
{
    match until {
        None => None,
        Some(_) => options_with(from, until, using_of(more)),
    }
}

fn until_of(from: Option<Moment>, words: &[String]) -> Option<PayOptions>
    ensures { result ≡ until_of from (map (λ s. string_bytes s) words.now) }
{
    match words {
        [word, time, more @ ..] if word.as_str() == "until" => {
            ends_at(from, moment_of(time.as_str()), more)
        }
        _ => options_with(from, None, using_of(words)),
    }
}

fn starts_at(from: Option<Moment>, more: &[String]) -> Option<PayOptions>
    ensures { result ≡ starts_at from (map (λ s. string_bytes s) more.now) }
{
    match from {
        None => None,
        Some(_) => until_of(from, more),
    }
}

#[tactic(auto, unfolding(crate::specs::Options::pay_options_at))]
impl Spelt for PayOptions {
    ghost spelling = { pay_options };

    ghost within = { ArePayOptions };

    ghost reading = { pay_options_at };

    ghost laws = { pay_options_laws };

    fn read_part(alloc: Global, from: &mut Reader) -> Result<PayOptions, PartFault> {
        Ok(PayOptions {
            window: Spelt::read_part(alloc, from)?,
            reference: Spelt::read_part(alloc, from)?,
        })
    }

    fn write_part(&self, alloc: Global, out: &mut Writer) -> Result<(), AllocError> {
        self.window.write_part(alloc, out)?;
        self.reference.write_part(alloc, out)?;
        Ok(())
    }
}

impl Arguments for PayOptions {
    ghost worded = { options_of };

    ghost most = { 56 };

    ghost worded_within = { options_within };

    ghost few = { options_few };

    fn of_words(words: &[String]) -> Option<PayOptions> {
        match words {
            [word, time, more @ ..] if word.as_str() == "from" => {
                starts_at(moment_of(time.as_str()), more)
            }
            _ => until_of(None, words),
        }
    }
}
