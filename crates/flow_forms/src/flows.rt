//! Parts of a flow set in code: the frames of one machine, the sum of two parts, and the frames of calls put in.

ghost use Rattle.std.specs.Prelude.{◌≡◌, ℕ, map, string_bytes, IfOk, List, Result, true, refl, [], ◌∷◌, ◌++◌};
ghost use Rattle.net_base.specs.Parts.{Gives, Writes};
ghost use Rattle.flow_machine.specs.Limits.{IsResumed, IsPlace};
ghost use Rattle.flow_machine.specs.Flows.{GivesWords, GivesMade, GivesBegun};
ghost use Rattle.flow_machine.specs.Acts.{act_with};
ghost use Rattle.flow_forms.specs.Parts.{Part, PartLaws};
ghost use Rattle.flow_forms.specs.Bytes.{Spells, has, distinct, IsFrame, body_of, body_at, sum_at, content_of, placed};
ghost use Rattle.flow_forms.specs.Forms.{frame};
ghost use Rattle.net_base.specs.Names.{IsKey};
ghost use Rattle.net_base.specs.Reading.{IsBytes};
ghost use Rattle.flow_forms.specs.Sums.{sum, either, by_both};

use crate::begins::Begins;
use crate::calls::Call;
use crate::forms::{Frame, Sum};
use crate::machine::{Machine, Numbered};
use crate::places::{place_byte, read_place};
use flow_machine::{Act, MakeFault, Place, Resumed, WordFault};
use net_base::{ByteList, Key, PartFault, Reader, Writer};
use std::alloc::{AllocError, Global};

/// A part of a flow set: frames that go on, whose subflows are calls yet.
pub trait Flows: Sized + Drop {
    ghost use Rattle.std.specs.Prelude.{◌≡◌, ℕ, List, Result, true};
    ghost use Rattle.flow_forms.specs.Parts.{Part, PartLaws};
    ghost use Rattle.flow_forms.specs.Bytes.{Spells, distinct};

    /// The limits of a frame.
    ghost within: { Self → Type 0 };

    /// What the flows mean.
    ghost part: { Part Self };

    /// The numbers of the machines.
    ghost kinds: { List ℕ };

    /// The machine of a frame.
    ghost kind: { Self → ℕ };

    /// The bytes behind it.
    ghost body: { Self → List ℕ };

    /// Reading these by the machine.
    ghost reading: { ℕ → List ℕ → Result (Self × List ℕ) ℕ };

    /// Whether there is a machine of the number.
    fn has(machine: u8) -> bool
        ensures { result ≡ has kinds machine };

    /// The number of a frame's machine.
    fn machine(&self) -> u8
        ensures { result ≡ kind self.now };

    /// Reads a frame of a machine behind its number.
    fn read_body(alloc: Global, machine: u8, from: &mut Reader) -> Result<Self, PartFault>
        ensures { Gives (λ x. x) result from.old from.new (reading machine from.old.left) };

    /// Writes a frame without its machine's number.
    fn write_body(&self, alloc: Global, out: &mut Writer) -> Result<(), AllocError>
        requires { within self.now }
        ensures { Writes (body self.now) result out.old out.new };

    /// The frame and the act that follow.
    fn next(
        &self,
        alloc: Global,
        with: &Resumed,
        here: &Place,
    ) -> Result<(Self, Act<Call>), AllocError>
        requires fits { within self.now }
        requires small { IsResumed with.now }
        requires place { IsPlace here.now }
        ensures { IfOk result (λ g. g ≡ part.next self.now with.now here.entry.now) };

    /// A bound on what a frame may still cause.
    fn bound(&self) -> u64
        requires { within self.now }
        ensures { result ≡ part.weight self.now };

    /// The class that a name and its words ask for, and the arguments in bytes.
    ///
    /// # Errors
    ///
    /// `UnknownClass` and `BadArgs` exactly where `part.worded` says so, and `Memory`.
    fn read_words(alloc: Global, class: &str, args: &[String]) -> Result<(u16, ByteList), WordFault>
        ensures { GivesWords result (part.worded class.now (map (λ s. string_bytes s) args.now)) };

    /// The frame and the act with which a flow of the class begins.
    ///
    /// # Errors
    ///
    /// `UnknownClass` and `BadArgs` exactly where `part.made` says so, and `Memory`.
    fn make(
        alloc: Global,
        class: u16,
        args: &ByteList,
        here: &Place,
    ) -> Result<(Self, Act<Call>), MakeFault>
        requires { IsPlace here.now }
        ensures { GivesMade result (part.made class args.now here.entry.now) };

    /// The frame and the act with which a flow begins that answers an Init of the class.
    ///
    /// # Errors
    ///
    /// `UnknownClass` exactly where `part.begun` gives none, never `BadArgs`, and `Memory`.
    fn initiated(
        alloc: Global,
        class: u16,
        key: &Key,
        here: &Place,
    ) -> Result<(Self, Act<Call>), MakeFault>
        requires { IsKey key.now }
        ensures { GivesBegun result (part.begun class key.now here.entry.now) };

    /// The laws of the flows.
    ghost laws: { PartLaws within part };

    /// A frame's own bytes are its machine's number and what stands behind it.
    ghost contents: { (f : Self) → part.content f ≡ content_of kind body f };

    /// The laws of the bytes, where no machine's number stands twice.
    ghost spells: { distinct kinds ≡ true → Spells within kinds kind body reading };
}

impl<A: Flows, B: Flows> Flows for Sum<A, B> {
    ghost use Rattle.flow_forms.specs.Sums.{sum, sum_laws, sum_contents, either, by_both};
    ghost use Rattle.flow_forms.specs.Bytes.{sum_at, sum_spells};

    ghost within = { either A.within B.within };

    ghost part = { sum A.part B.part };

    ghost kinds = { A.kinds ++ B.kinds };

    ghost kind = { by_both A.kind B.kind };

    ghost body = { by_both A.body B.body };

    ghost reading = { sum_at A.kinds A.reading B.reading };

    ghost laws = { sum_laws A.within B.within A.part B.part A.laws B.laws };

    ghost contents = { sum_contents A.part B.part A.contents B.contents };

    ghost spells = { λ unlike. sum_spells unlike A.spells B.spells };

    #[tactic(auto, using(crate::specs::Bytes::has_append))]
    fn has(machine: u8) -> bool {
        A::has(machine) || B::has(machine)
    }

    fn machine(&self) -> u8 {
        match self {
            Sum::First(frame) => frame.machine(),
            Sum::Second(frame) => frame.machine(),
        }
    }

    fn read_body(alloc: Global, machine: u8, from: &mut Reader) -> Result<Sum<A, B>, PartFault> {
        if A::has(machine) {
            Ok(Sum::First(A::read_body(alloc, machine, from)?))
        } else {
            Ok(Sum::Second(B::read_body(alloc, machine, from)?))
        }
    }

    fn write_body(&self, alloc: Global, out: &mut Writer) -> Result<(), AllocError> {
        match self {
            Sum::First(frame) => frame.write_body(alloc, out),
            Sum::Second(frame) => frame.write_body(alloc, out),
        }
    }

    fn next(
        &self,
        alloc: Global,
        with: &Resumed,
        here: &Place,
    ) -> Result<(Sum<A, B>, Act<Call>), AllocError> {
        match self {
            Sum::First(frame) => {
                let (frame, act) = frame.next(alloc, with, here)?;
                Ok((Sum::First(frame), act))
            }
            Sum::Second(frame) => {
                let (frame, act) = frame.next(alloc, with, here)?;
                Ok((Sum::Second(frame), act))
            }
        }
    }

    fn bound(&self) -> u64 {
        match self {
            Sum::First(frame) => frame.bound(),
            Sum::Second(frame) => frame.bound(),
        }
    }

    fn read_words(
        alloc: Global,
        class: &str,
        args: &[String],
    ) -> Result<(u16, ByteList), WordFault> {
        match A::read_words(alloc, class, args) {
            Err(WordFault::UnknownClass) => B::read_words(alloc, class, args),
            other => other,
        }
    }

    fn make(
        alloc: Global,
        class: u16,
        args: &ByteList,
        here: &Place,
    ) -> Result<(Sum<A, B>, Act<Call>), MakeFault> {
        match A::make(alloc, class, args, here) {
            Ok((frame, act)) => Ok((Sum::First(frame), act)),
            Err(MakeFault::UnknownClass) => {
                let (frame, act) = B::make(alloc, class, args, here)?;
                Ok((Sum::Second(frame), act))
            }
            Err(fault) => Err(fault),
        }
    }

    fn initiated(
        alloc: Global,
        class: u16,
        key: &Key,
        here: &Place,
    ) -> Result<(Sum<A, B>, Act<Call>), MakeFault> {
        match A::initiated(alloc, class, key, here) {
            Ok((frame, act)) => Ok((Sum::First(frame), act)),
            Err(MakeFault::UnknownClass) => {
                let (frame, act) = B::initiated(alloc, class, key, here)?;
                Ok((Sum::Second(frame), act))
            }
            Err(fault) => Err(fault),
        }
    }
}

/// Tells a proof that the items of a list of bytes are bytes. It does nothing when it runs.
fn law_known_bytes(bytes: &[u8])
    ensures { IsBytes bytes.now }
{
    let _length = bytes.len();
}

/// A flow of a machine begins with these fields.
fn begin<P, S: Machine<P>, W>(
    alloc: Global,
    fields: S,
    here: &Place,
) -> Result<(Frame<P, S, W>, Act<Call>), AllocError>
    requires { S.kept.within fields }
    ensures { IfOk result (λ g. g ≡ frame (S.form.starts fields here.entry.now)) }
{
    Ok(fields.start(alloc, here)?.settle())
}

impl<P: Numbered, S: Machine<P>, W: Begins<P, S>> Flows for Frame<P, S, W> {
    ghost use Rattle.flow_forms.specs.Bytes.{IsFrame, body_of, body_at, content_of, placed, are_placed};
    ghost use Rattle.flow_forms.specs.FormLaws.{part_of, frame_laws, frame_spells};

    ghost within = { IsFrame (placed W.CALLABLE P.numbers) S.kept.within };

    ghost part = { part_of S.form W.way
        (content_of (λ f. S.MACHINE) (body_of (placed W.CALLABLE P.numbers) S.kept.spelling)) };

    ghost kinds = { S.MACHINE ∷ [] };

    ghost kind = { λ f. S.MACHINE };

    ghost body = { body_of (placed W.CALLABLE P.numbers) S.kept.spelling };

    ghost reading = { λ k bytes. body_at (placed W.CALLABLE P.numbers) S.kept.reading bytes };

    ghost laws = { frame_laws (placed W.CALLABLE P.numbers)
        (are_placed W.CALLABLE P.numbers) S.kept.within S.form W.way S.MACHINE S.kept.spelling
        S.is_form W.is_way S.kept.short };

    ghost contents = { λ f. refl };

    ghost spells = { λ unlike. frame_spells S.MACHINE (placed W.CALLABLE P.numbers) S.kept.laws };

    fn has(machine: u8) -> bool {
        machine == S::MACHINE
    }

    fn machine(&self) -> u8 {
        S::MACHINE
    }

    #[tactic(auto, unfolding(crate::specs::Bytes::body_at))]
    fn read_body(
        alloc: Global,
        _machine: u8,
        from: &mut Reader,
    ) -> Result<Frame<P, S, W>, PartFault> {
        let at = read_place::<P, W>(from)?;
        let fields = S::read_fields(alloc, from)?;
        Ok(Frame::new(at, fields))
    }

    fn write_body(&self, alloc: Global, out: &mut Writer) -> Result<(), AllocError> {
        out.put_u8(alloc, place_byte::<P, W>(&self.at))?;
        self.fields.write_fields(alloc, out)
    }

    fn next(
        &self,
        alloc: Global,
        with: &Resumed,
        here: &Place,
    ) -> Result<(Frame<P, S, W>, Act<Call>), AllocError> {
        self.follow(alloc, with, here)
    }

    fn bound(&self) -> u64 {
        self.weigh()
    }

    fn read_words(
        alloc: Global,
        class: &str,
        args: &[String],
    ) -> Result<(u16, ByteList), WordFault> {
        W::read_words(alloc, class, args)
    }

    fn make(
        alloc: Global,
        class: u16,
        args: &ByteList,
        here: &Place,
    ) -> Result<(Frame<P, S, W>, Act<Call>), MakeFault> {
        law_known_bytes(args.as_slice());
        let fields = W::make(alloc, class, args, here)?;
        Ok(begin(alloc, fields, here)?)
    }

    fn initiated(
        alloc: Global,
        class: u16,
        key: &Key,
        here: &Place,
    ) -> Result<(Frame<P, S, W>, Act<Call>), MakeFault> {
        match W::initiated(class, key) {
            Some(fields) => Ok(begin(alloc, fields, here)?),
            None => Err(MakeFault::UnknownClass),
        }
    }
}
