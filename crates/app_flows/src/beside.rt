//! Two parts of a flow set, the frames of the second on the heap.

ghost use Rattle.std.specs.Prelude.{◌≡◌, IfOk, ◌++◌};
ghost use Rattle.flow_forms.specs.declared.forms.Sum.TheVariants as of;

use flow_forms::{Call, Flows, Sum, Tabled};
use flow_machine::{Act, MakeFault, Place, Resumed, WordFault};
use net_base::{Boxed, ByteList, Key, PartFault, Reader, Writer};
use std::alloc::{AllocError, Global};
use std::marker::Model;

/// A frame of one of two parts, of the second on the heap: so the frames of the first are moved cheaply, since a sum is as large as its
/// larger part. Contracts see the sum of both.
#[derive(Drop)]
pub struct Beside<A, B> {
    frame: Sum<A, Boxed<B>>,
}

impl<A, B> Model for Beside<A, B> {
    ghost use Rattle.flow_forms.specs.declared.forms.Sum.{Sum};

    ghost Value = { Sum A B };

    ghost view = { λ f. f.frame };
}

impl<A, B> Beside<A, B> {
    /// A frame of the first part.
    pub fn first(frame: A) -> Beside<A, B>
        ensures { result ≡ of.First frame }
    {
        Beside {
            frame: Sum::First(frame),
        }
    }
}

impl<A, B: Drop> Beside<A, B> {
    /// A frame of the second part. Where memory runs out it is let go.
    ///
    /// # Errors
    ///
    /// `AllocError` for want of memory.
    pub fn second(alloc: Global, frame: B) -> Result<Beside<A, B>, AllocError>
        ensures { IfOk result (λ f. f ≡ of.Second frame) }
    {
        Ok(Beside {
            frame: Sum::Second(Boxed::new(alloc, frame)?),
        })
    }
}

impl<A: Flows, B: Flows> Flows for Beside<A, B> {
    ghost use Rattle.std.specs.Prelude.{◌++◌};
    ghost use Rattle.flow_forms.specs.Sums.{sum, sum_laws, sum_contents, either, by_both};
    ghost use Rattle.flow_forms.specs.Bytes.{sum_at, sum_spells};

    ghost within = { either A.within B.within };

    ghost part = { sum A.part B.part };

    ghost kinds = { A.kinds ++ B.kinds };

    ghost kind = { by_both A.kind B.kind };

    ghost body = { by_both A.body B.body };

    ghost reading = { sum_at A.kinds A.reading B.reading };

    ghost laws = { sum_laws A.within B.within A.part B.part A.laws B.laws };

    ghost contents = { sum_contents A.part B.part A.contents B.contents };

    ghost spells = { λ unlike. sum_spells unlike A.spells B.spells };

    #[tactic(auto, using(flow_forms::specs::Bytes::has_append))]
    fn has(machine: u8) -> bool {
        A::has(machine) || B::has(machine)
    }

    fn machine(&self) -> u8 {
        match &self.frame {
            Sum::First(frame) => frame.machine(),
            Sum::Second(frame) => frame.get().machine(),
        }
    }

    fn read_body(alloc: Global, machine: u8, from: &mut Reader) -> Result<Beside<A, B>, PartFault> {
        if A::has(machine) {
            Ok(Beside::first(A::read_body(alloc, machine, from)?))
        } else {
            Ok(Beside::second(alloc, B::read_body(alloc, machine, from)?)?)
        }
    }

    fn write_body(&self, alloc: Global, out: &mut Writer) -> Result<(), AllocError> {
        match &self.frame {
            Sum::First(frame) => frame.write_body(alloc, out),
            Sum::Second(frame) => frame.get().write_body(alloc, out),
        }
    }

    fn next(
        &self,
        alloc: Global,
        with: &Resumed,
        here: &Place,
    ) -> Result<(Beside<A, B>, Act<Call>), AllocError> {
        match &self.frame {
            Sum::First(frame) => {
                let (frame, act) = frame.next(alloc, with, here)?;
                Ok((Beside::first(frame), act))
            }
            Sum::Second(frame) => {
                let (frame, act) = frame.get().next(alloc, with, here)?;
                Ok((Beside::second(alloc, frame)?, act))
            }
        }
    }

    fn bound(&self) -> u64 {
        match &self.frame {
            Sum::First(frame) => frame.bound(),
            Sum::Second(frame) => frame.get().bound(),
        }
    }

    fn read_words(
        alloc: Global,
        class: &str,
        args: &[String],
    ) -> Result<(u16, ByteList), WordFault> {
        match A::read_words(alloc, class, args) {
            Err(WordFault::UnknownClass) => B::read_words(alloc, class, args),
            other => other,
        }
    }

    fn make(
        alloc: Global,
        class: u16,
        args: &ByteList,
        here: &Place,
    ) -> Result<(Beside<A, B>, Act<Call>), MakeFault> {
        match A::make(alloc, class, args, here) {
            Ok((frame, act)) => Ok((Beside::first(frame), act)),
            Err(MakeFault::UnknownClass) => {
                let (frame, act) = B::make(alloc, class, args, here)?;
                Ok((Beside::second(alloc, frame)?, act))
            }
            Err(fault) => Err(fault),
        }
    }

    fn initiated(
        alloc: Global,
        class: u16,
        key: &Key,
        here: &Place,
    ) -> Result<(Beside<A, B>, Act<Call>), MakeFault> {
        match A::initiated(alloc, class, key, here) {
            Ok((frame, act)) => Ok((Beside::first(frame), act)),
            Err(MakeFault::UnknownClass) => {
                let (frame, act) = B::initiated(alloc, class, key, here)?;
                Ok((Beside::second(alloc, frame)?, act))
            }
            Err(fault) => Err(fault),
        }
    }
}

impl<A: Tabled, B: Tabled> Tabled for Beside<A, B> {
    ghost use Rattle.flow_forms.specs.TableLaws.{put_both, take_both, both_tables};

    ghost table = { A.table ++ B.table };

    ghost put = { put_both A.table B.table A.put B.put };

    ghost take = { take_both A.table B.table A.take B.take };

    ghost tabled = { both_tables A.table B.table A.put A.take B.put B.take A.tabled B.tabled };
}
