//! How flows of a machine begin: by words of a script, by an Init of a session, or by a call alone.

ghost use Rattle.std.specs.Prelude.{◌≡◌, map, string_bytes, IfOk};
ghost use Rattle.flow_machine.specs.Flows.{GivesWords, GivesMade};
ghost use Rattle.flow_forms.specs.FormLaws.{Way, IsWay};
ghost use Rattle.flow_forms.specs.Ways.{words_of, begins_of, fields_of};

use crate::arguments::{Arguments, spelt_in};
use crate::machine::Machine;
use flow_machine::{MakeFault, Place, WordFault};
use net_base::{ByteList, Key, Spelt, Writer};
use std::alloc::{AllocError, Global};

/// Whether a frame may be called.
pub trait Callable: Sized {
    ghost use Rattle.std.specs.Prelude.{Bool};

    ghost CALLABLE: { Bool };

    const CALLABLE: bool;
}

/// How flows of a machine with these places and fields begin.
pub trait Begins<P, S: Machine<P>>: Callable {
    /// Its words and classes.
    ghost way: { Way S };

    /// The class that a name and its words ask for, and the arguments in bytes.
    ///
    /// # Errors
    ///
    /// `UnknownClass` and `BadArgs` exactly where `way.worded` says so, and `Memory`.
    fn read_words(alloc: Global, class: &str, args: &[String]) -> Result<(u16, ByteList), WordFault>
        ensures { GivesWords result (way.worded class.now (map (λ s. string_bytes s) args.now)) };

    /// The fields of a flow of the class.
    ///
    /// # Errors
    ///
    /// `UnknownClass` and `BadArgs` exactly where `way.made` says so, and `Memory`.
    fn make(alloc: Global, class: u16, args: &ByteList, here: &Place) -> Result<S, MakeFault>
        ensures { GivesMade result (way.made class args.now here.entry.now) };

    /// The fields of a flow that answers an Init of the class; `None` exactly where none does.
    fn initiated(class: u16, key: &Key) -> Option<S>
        ensures { result ≡ way.begun class key.now };

    /// Its flows begin well.
    ghost is_way: { IsWay S.kept.within S.form way };
}

/// A machine of a class that a script starts.
pub trait Worded<P>: Machine<P> {
    ghost use Rattle.std.specs.Prelude.{◌≡◌, ◌≤◌, ℕ, List, Option};
    ghost use Rattle.std.specs.Str.{bytes_eq};
    ghost use Rattle.flow_machine.specs.declared.acts.Place.{Place};
    ghost use Rattle.flow_forms.specs.Ways.{BeginsWithin};

    /// The arguments of the class.
    type Args: Arguments;

    /// The name of the class.
    ghost name: { List ℕ };

    /// The number of the class.
    ghost CLASS: { ℕ };

    const CLASS: u16;

    /// The fields that a flow begins with, where its arguments are in range.
    ghost begins: { Self.Args → Place → Option Self };

    /// Whether the word is the name of the class.
    fn is_named(word: &str) -> bool
        ensures { result ≡ bytes_eq word.now name };

    /// The fields that a flow begins with; `None` exactly where an argument is out of range.
    fn begin(args: Self::Args, here: &Place) -> Option<Self>
        ensures { result ≡ begins args here.entry.now };

    /// The arguments fit the bytes of a start.
    ghost args_fit: { Self.Args.most ≤ 65535 };

    /// Arguments within their limits give fields within theirs, and these have no tag.
    ghost begins_within: { BeginsWithin Self.Args.within Self.kept.within Self.form.tags begins };
}

/// A machine that answers an Init of a class.
pub trait Answers<P>: Machine<P> {
    ghost use Rattle.std.specs.Prelude.{◌≡◌, ℕ};
    ghost use Rattle.net_base.specs.declared.names.Key.{Key};
    ghost use Rattle.flow_forms.specs.Ways.{AnswersWithin};

    /// The number of the class.
    ghost ANSWERED: { ℕ };

    const ANSWERED: u16;

    /// The fields with which a flow answers in the session.
    ghost answers: { Key → Self };

    fn answer(key: &Key) -> Self
        ensures { result ≡ answers key.now };

    /// They are within their limits and have no tag, and the flow causes no more than an Init of the class may.
    ghost answers_within: { AnswersWithin Self.kept.within Self.form ANSWERED answers };
}

/// Flows of the machine begin by words.
#[derive(Clone, Copy)]
pub struct ByWords;

/// Flows of the machine begin by an Init.
#[derive(Clone, Copy)]
pub struct ByInit;

/// Flows of the machine begin by a call alone.
#[derive(Clone, Copy)]
pub struct ByCall;

/// The class and the bytes of arguments.
fn class_and<A: Spelt>(alloc: Global, class: u16, args: &A) -> Result<(u16, ByteList), AllocError>
    requires { A.within args.now }
    ensures { IfOk result (λ words. words ≡ (class, A.spelling args.now)) }
{
    let mut out = Writer::new(alloc);
    args.write_part(alloc, &mut out)?;
    Ok((class, out.into_bytes()))
}

impl Callable for ByWords {
    ghost use Rattle.std.specs.Prelude.{false};

    ghost CALLABLE = { false };

    const CALLABLE: bool = false;
}

impl<P, S: Worded<P>> Begins<P, S> for ByWords {
    ghost use Rattle.flow_forms.specs.Ways.{by_words, by_words_laws};

    ghost way = { by_words S.name S.CLASS S.Args.worded S.Args.spelling S.Args.reading S.begins };

    ghost is_way = { by_words_laws S.kept.within S.form S.name S.CLASS S.Args.most S.Args.worded
        S.Args.spelling S.Args.reading S.begins S.Args.laws S.Args.worded_within S.Args.few
        S.args_fit S.begins_within };

    fn read_words(
        alloc: Global,
        class: &str,
        args: &[String],
    ) -> Result<(u16, ByteList), WordFault> {
        if !S::is_named(class) {
            return Err(WordFault::UnknownClass);
        }
        match S::Args::of_words(args) {
            Some(args) => Ok(class_and(alloc, S::CLASS, &args)?),
            None => Err(WordFault::BadArgs),
        }
    }

    fn make(alloc: Global, class: u16, args: &ByteList, here: &Place) -> Result<S, MakeFault> {
        if class != S::CLASS {
            return Err(MakeFault::UnknownClass);
        }
        let args = spelt_in::<S::Args>(alloc, args.as_slice())?;
        match S::begin(args, here) {
            Some(fields) => Ok(fields),
            None => Err(MakeFault::BadArgs),
        }
    }

    fn initiated(_class: u16, _key: &Key) -> Option<S> {
        None
    }
}

impl Callable for ByInit {
    ghost use Rattle.std.specs.Prelude.{false};

    ghost CALLABLE = { false };

    const CALLABLE: bool = false;
}

impl<P, S: Answers<P>> Begins<P, S> for ByInit {
    ghost use Rattle.flow_forms.specs.Ways.{by_init, by_init_laws};

    ghost way = { by_init S.ANSWERED S.answers };

    ghost is_way = { by_init_laws S.kept.within S.form S.ANSWERED S.answers S.answers_within };

    fn read_words(
        _alloc: Global,
        _class: &str,
        _args: &[String],
    ) -> Result<(u16, ByteList), WordFault> {
        Err(WordFault::UnknownClass)
    }

    fn make(_alloc: Global, _class: u16, _args: &ByteList, _here: &Place) -> Result<S, MakeFault> {
        Err(MakeFault::UnknownClass)
    }

    fn initiated(class: u16, key: &Key) -> Option<S> {
        if class == S::ANSWERED {
            Some(S::answer(key))
        } else {
            None
        }
    }
}

impl Callable for ByCall {
    ghost use Rattle.std.specs.Prelude.{true};

    ghost CALLABLE = { true };

    const CALLABLE: bool = true;
}

impl<P, S: Machine<P>> Begins<P, S> for ByCall {
    ghost use Rattle.flow_forms.specs.FormLaws.{no_way, no_way_laws};

    ghost way = { no_way };

    ghost is_way = { no_way_laws S.kept.within S.form };

    fn read_words(
        _alloc: Global,
        _class: &str,
        _args: &[String],
    ) -> Result<(u16, ByteList), WordFault> {
        Err(WordFault::UnknownClass)
    }

    fn make(_alloc: Global, _class: u16, _args: &ByteList, _here: &Place) -> Result<S, MakeFault> {
        Err(MakeFault::UnknownClass)
    }

    fn initiated(_class: u16, _key: &Key) -> Option<S> {
        None
    }
}
