//! The arguments of a class: a value a word, one after the other.

ghost use Rattle.std.specs.Prelude.{◌≡◌, ◌+◌, ◌^◌, ◌++◌, [], map, string_bytes};
ghost use Rattle.std.proofs.Common.{arith};
ghost use Rattle.flow_machine.specs.Flows.{GivesMade};
ghost use Rattle.net_base.specs.Combining.{mapped_at, pair_at};
ghost use Rattle.flow_forms.specs.Arguments.{spelt_in};

use flow_machine::MakeFault;
use net_base::{PartFault, Reader, Spelt, Writer, number};
use std::alloc::{AllocError, Global};

/// A value that one word of a script gives.
pub trait Argument: Spelt {
    ghost use Rattle.std.specs.Prelude.{◌≡◌, ◌≤◌, ℕ, List, length, Option, Some};

    /// The value of a word, where it is one.
    ghost worded: { List ℕ → Option Self };

    /// The most bytes that a value has.
    ghost most: { ℕ };

    /// The value of the word; `None` exactly where it is none.
    fn of_word(word: &str) -> Option<Self>
        ensures { result ≡ worded word.now };

    /// A word gives a value within its limits.
    ghost worded_within: { (word : List ℕ) (v : Self) → worded word ≡ Some v → Self.within v };

    /// The most bytes of a value.
    ghost few: { (v : Self) → Self.within v → length (Self.spelling v) ≤ most };
}

/// The arguments of a class, in the order of their words.
pub trait Arguments: Spelt {
    ghost use Rattle.std.specs.Prelude.{◌≡◌, ◌≤◌, ℕ, List, length, Option, Some, map, string_bytes};

    /// The arguments of words, where they are these.
    ghost worded: { List (List ℕ) → Option Self };

    /// The most bytes that they have.
    ghost most: { ℕ };

    /// The arguments of the words; `None` exactly where there are too few or too many, or one can't be read.
    fn of_words(words: &[String]) -> Option<Self>
        ensures { result ≡ worded (map (λ s. string_bytes s) words.now) };

    /// Words give arguments within their limits.
    ghost worded_within: { (words : List (List ℕ)) (v : Self) → worded words ≡ Some v
        → Self.within v };

    /// The most bytes of the arguments.
    ghost few: { (v : Self) → Self.within v → length (Self.spelling v) ≤ most };
}

/// No further argument.
#[derive(Clone, Copy)]
pub struct End;

/// An argument, and those behind it.
#[derive(Clone, Copy, Drop)]
pub struct Then<A, B> {
    pub first: A,
    pub rest: B,
}

/// A party's number is one, too: which numbers are nodes is known where the flow begins.
impl Argument for u8 {
    ghost use Rattle.flow_forms.specs.Arguments.{word_below, word_is_below, few8};

    ghost worded = { word_below (2 ^ 8) };

    ghost most = { 1 };

    ghost worded_within = { word_is_below (2 ^ 8) };

    ghost few = { few8 };

    fn of_word(word: &str) -> Option<u8> {
        u8::try_from(number(word)?).ok()
    }
}

impl Argument for u16 {
    ghost use Rattle.flow_forms.specs.Arguments.{word_below, word_is_below, few16};

    ghost worded = { word_below (2 ^ 16) };

    ghost most = { 2 };

    ghost worded_within = { word_is_below (2 ^ 16) };

    ghost few = { few16 };

    fn of_word(word: &str) -> Option<u16> {
        u16::try_from(number(word)?).ok()
    }
}

impl Argument for u32 {
    ghost use Rattle.flow_forms.specs.Arguments.{word_below, word_is_below, few32};

    ghost worded = { word_below (2 ^ 32) };

    ghost most = { 4 };

    ghost worded_within = { word_is_below (2 ^ 32) };

    ghost few = { few32 };

    fn of_word(word: &str) -> Option<u32> {
        u32::try_from(number(word)?).ok()
    }
}

impl Argument for u64 {
    ghost use Rattle.flow_forms.specs.Arguments.{word_below, word_is_below, few64};

    ghost worded = { word_below (2 ^ 64) };

    ghost most = { 8 };

    ghost worded_within = { word_is_below (2 ^ 64) };

    ghost few = { few64 };

    fn of_word(word: &str) -> Option<u64> {
        number(word)
    }
}

impl Spelt for End {
    ghost use Rattle.flow_forms.specs.Arguments.{end_at, end_laws};

    ghost spelling = { λ e. [] };

    ghost within = { λ e. Unit {0} };

    ghost reading = { end_at };

    ghost laws = { end_laws };

    fn read_part(_alloc: Global, _from: &mut Reader) -> Result<End, PartFault> {
        Ok(End)
    }

    fn write_part(&self, _alloc: Global, _out: &mut Writer) -> Result<(), AllocError> {
        Ok(())
    }
}

impl Arguments for End {
    ghost use Rattle.flow_forms.specs.Arguments.{no_words};

    ghost worded = { no_words };

    ghost most = { 0 };

    ghost worded_within = { λ words v e. tt };

    ghost few = { λ v h. omega arith };

    fn of_words(words: &[String]) -> Option<End> {
        match words {
            [] => Some(End),
            _ => None,
        }
    }
}

impl<A: Spelt, B: Spelt> Spelt for Then<A, B> {
    ghost use Rattle.flow_forms.specs.Arguments.{then_of, then_laws};

    ghost exact = { A.exact × B.exact };

    ghost spelling = { λ t. A.spelling t.first ++ B.spelling t.rest };

    ghost within = { λ t. A.within t.first × B.within t.rest };

    ghost reading = { mapped_at then_of (pair_at A.reading B.reading) };

    ghost laws = { then_laws A.laws B.laws };

    fn read_part(alloc: Global, from: &mut Reader) -> Result<Then<A, B>, PartFault> {
        Ok(Then {
            first: A::read_part(alloc, from)?,
            rest: B::read_part(alloc, from)?,
        })
    }

    fn write_part(&self, alloc: Global, out: &mut Writer) -> Result<(), AllocError> {
        self.first.write_part(alloc, out)?;
        self.rest.write_part(alloc, out)
    }
}

impl<A: Argument, B: Arguments> Arguments for Then<A, B> {
    ghost use Rattle.flow_forms.specs.Arguments.{then_words, then_within, then_few};

    ghost worded = { then_words A.Argument.worded B.Arguments.worded };

    ghost most = { A.Argument.most + B.Arguments.most };

    ghost worded_within = { then_within A.Argument.worded B.Arguments.worded A.worded_within
        B.worded_within };

    ghost few = { then_few A.spelling B.spelling A.Argument.most B.Arguments.most A.few B.few };

    fn of_words(words: &[String]) -> Option<Then<A, B>> {
        match words {
            [word, more @ ..] => Some(Then {
                first: A::of_word(word.as_str())?,
                rest: B::of_words(more)?,
            }),
            [] => None,
        }
    }
}

/// The arguments that all of the bytes spell.
///
/// # Errors
///
/// `BadArgs` exactly where they spell none or are more than 65,535, and `Memory`.
pub(crate) fn spelt_in<A: Spelt>(alloc: Global, bytes: &[u8]) -> Result<A, MakeFault>
    ensures { GivesMade result (spelt_in A.reading bytes.now) }
{
    if bytes.len() > 65535 {
        return Err(MakeFault::BadArgs);
    }
    let mut from = Reader::new(bytes);
    match A::read_part(alloc, &mut from) {
        Ok(args) => {
            if from.remaining() > 0 {
                return Err(MakeFault::BadArgs);
            }
            Ok(args)
        }
        Err(PartFault::Memory) => Err(MakeFault::Memory),
        Err(PartFault::Left(_)) => Err(MakeFault::BadArgs),
    }
}
