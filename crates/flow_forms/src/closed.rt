//! A flow set of a part, with the frames of its calls.

ghost use Rattle.std.specs.Prelude.{◌≡◌, IfOk};
ghost use Rattle.flow_machine.specs.Acts.{act_with};
ghost use Rattle.net_base.specs.Parts.{Gives};
ghost use Rattle.net_base.specs.Kinds.{kind_at};
ghost use Rattle.flow_forms.specs.Bytes.{content_at};
ghost use Rattle.flow_forms.specs.Framed.{framed_at, whole};
ghost use Rattle.flow_forms.specs.Closing.{seen};

use crate::calls::Call;
use crate::flows::Flows;
use crate::forms::Sum;
use flow_machine::{Act, FlowSet, MakeFault, Place, Resumed, WordFault};
use net_base::{
    ByteList, Key, PartFault, Reader, Spelt, Writer, read_bytes16, read_u8, write_bytes16,
};
use std::alloc::{AllocError, Global};
use std::marker::{Model, PhantomData};

/// The frames of calls in a part.
pub trait Opens<F: Flows> {
    ghost use Rattle.std.specs.Prelude.{◌≡◌, IfOk};
    ghost use Rattle.flow_forms.specs.declared.calls.Call.{Call};
    ghost use Rattle.flow_forms.specs.Closing.{Opens};

    /// The frame of a call.
    ghost see: { Call → F };

    /// The frame of the call.
    ///
    /// # Errors
    ///
    /// `AllocError` for want of memory.
    fn open(alloc: Global, call: Call) -> Result<F, AllocError>
        ensures { IfOk result (λ f. f ≡ see call) };

    /// The frames of calls cost no more than is said of them, and so on.
    ghost opens: { Opens F.within F.part see };
}

/// How a part becomes a flow set.
pub trait Closes<F: Flows> {
    ghost use Rattle.std.specs.Prelude.{◌≡◌, true};
    ghost use Rattle.flow_forms.specs.Bytes.{distinct};

    /// The frames of its calls.
    type Calls: Opens<F>;

    /// No machine's number stands twice in the part.
    ghost unlike: { distinct F.kinds ≡ true };
}

/// The frames of calls are those that `C` has for the first part of a sum.
#[derive(Clone, Copy)]
pub struct InFirst<C> {
    calls: PhantomData<C>,
}

impl<A: Flows, B: Flows, C: Opens<A>> Opens<Sum<A, B>> for InFirst<C> {
    ghost use Rattle.flow_forms.specs.Closing.{see_first, opens_first};

    ghost see = { see_first C.see };

    ghost opens = { opens_first A.within B.within A.part B.part C.see C.opens };

    fn open(alloc: Global, call: Call) -> Result<Sum<A, B>, AllocError> {
        Ok(Sum::First(C::open(alloc, call)?))
    }
}

/// A frame of the flow set that a part and the frames of its calls make. Contracts see the part's frame.
#[derive(Drop)]
pub struct Closed<F, C> {
    frame: F,
    calls: PhantomData<C>,
}

impl<F, C> Model for Closed<F, C> {
    ghost Value = { F };

    ghost view = { λ c. c.frame };
}

impl<F, C> Closed<F, C> {
    /// The part's frame as one of the set.
    pub fn new(frame: F) -> Closed<F, C>
        ensures { result ≡ frame }
    {
        Closed {
            frame,
            calls: PhantomData,
        }
    }
}

/// The number of a machine of the part.
#[tactic(auto, unfolding(net_base::specs::Kinds::kind_at))]
fn read_machine<F: Flows>(from: &mut Reader) -> Result<u8, PartFault>
    ensures { Gives (λ x. x) result from.old from.new (kind_at F.kinds from.old.left) }
{
    let left = from.remaining();
    let machine = read_u8(from)?;
    if F::has(machine) {
        Ok(machine)
    } else {
        Err(PartFault::Left(left))
    }
}

/// A frame of the part without its length.
fn read_content<F: Flows>(alloc: Global, from: &mut Reader) -> Result<F, PartFault>
    ensures { Gives (λ x. x) result from.old from.new (content_at F.kinds F.reading from.old.left) }
{
    let machine = read_machine::<F>(from)?;
    F::read_body(alloc, machine, from)
}

/// The frame of the part that all of the bytes are; `None` exactly where they are none.
fn read_whole<F: Flows>(alloc: Global, bytes: &[u8]) -> Result<Option<F>, AllocError>
    ensures { IfOk result (λ o. o ≡ whole (content_at F.kinds F.reading bytes.now)) }
{
    let mut from = Reader::new(bytes);
    match read_content::<F>(alloc, &mut from) {
        Ok(frame) => {
            if from.remaining() > 0 {
                return Ok(None);
            }
            Ok(Some(frame))
        }
        Err(PartFault::Memory) => Err(AllocError),
        Err(PartFault::Left(_)) => Ok(None),
    }
}

#[tactic(auto, unfolding(crate::specs::Framed::framed_at))]
impl<F: Flows, C: Closes<F>> Spelt for Closed<F, C> {
    ghost use Rattle.net_base.specs.Forms.{bytes16};
    ghost use Rattle.flow_forms.specs.Bytes.{content_of, content_at};
    ghost use Rattle.flow_forms.specs.Closing.{closed_laws};

    ghost exact = { ⊥ };

    ghost spelling = { λ f. bytes16 (content_of F.kind F.body f) };

    ghost within = { F.within };

    ghost reading = { framed_at (content_at F.kinds F.reading) };

    ghost laws = { closed_laws F.laws F.contents (F.spells C.unlike) };

    fn read_part(alloc: Global, from: &mut Reader) -> Result<Closed<F, C>, PartFault> {
        let bytes = read_bytes16(alloc, from, 32768)?;
        match read_whole::<F>(alloc, bytes.as_slice())? {
            Some(frame) => Ok(Closed::new(frame)),
            None => Err(PartFault::Left(from.remaining())),
        }
    }

    fn write_part(&self, alloc: Global, out: &mut Writer) -> Result<(), AllocError> {
        let mut own = Writer::new(alloc);
        own.put_u8(alloc, self.frame.machine())?;
        self.frame.write_body(alloc, &mut own)?;
        let bytes = own.into_bytes();
        write_bytes16(alloc, &bytes, out)
    }
}

impl<F: Flows, C: Closes<F>> FlowSet for Closed<F, C> {
    ghost use Rattle.flow_forms.specs.Closing.{closed, falls, load_holds, overs_hold, over_fails, keeps_tags, begins_bare, keeps_limits, args_are_short, known_by_name, spells_content};

    ghost machine = { closed F.part C.Calls.see };

    ghost spells_content = { spells_content C.Calls.see F.laws F.contents };

    ghost keeps_limits = { keeps_limits F.within F.part C.Calls.see F.laws C.Calls.opens };

    ghost falls = { falls F.within F.part C.Calls.see F.laws C.Calls.opens };

    ghost load_holds = { load_holds F.within F.part C.Calls.see F.laws C.Calls.opens };

    ghost overs_hold = { overs_hold F.within F.part C.Calls.see F.laws C.Calls.opens };

    ghost over_fails = { over_fails F.within F.part C.Calls.see F.laws };

    ghost keeps_tags = { keeps_tags F.within F.part C.Calls.see F.laws C.Calls.opens };

    ghost begins_bare = { begins_bare F.within F.part C.Calls.see F.laws C.Calls.opens };

    ghost args_are_short = { args_are_short F.within F.part C.Calls.see F.laws };

    ghost known_by_name = { known_by_name F.within F.part C.Calls.see F.laws };

    fn read_words(
        alloc: Global,
        class: &str,
        args: &[String],
    ) -> Result<(u16, ByteList), WordFault> {
        F::read_words(alloc, class, args)
    }

    fn make(
        alloc: Global,
        class: u16,
        args: &ByteList,
        at: &Place,
    ) -> Result<(Closed<F, C>, Act<Closed<F, C>>), MakeFault> {
        let (frame, act) = F::make(alloc, class, args, at)?;
        Ok((Closed::new(frame), act_in(alloc, act)?))
    }

    fn initiated(
        alloc: Global,
        class: u16,
        key: &Key,
        at: &Place,
    ) -> Result<(Closed<F, C>, Act<Closed<F, C>>), MakeFault> {
        let (frame, act) = F::initiated(alloc, class, key, at)?;
        Ok((Closed::new(frame), act_in(alloc, act)?))
    }

    fn resume(
        &self,
        alloc: Global,
        with: &Resumed,
        at: &Place,
    ) -> Result<(Closed<F, C>, Act<Closed<F, C>>), AllocError> {
        let (frame, act) = self.frame.next(alloc, with, at)?;
        Ok((Closed::new(frame), act_in(alloc, act)?))
    }

    fn weight(&self) -> u64 {
        self.frame.bound()
    }
}

/// The act with the called frame put in.
fn act_in<F: Flows, C: Closes<F>>(
    alloc: Global,
    act: Act<Call>,
) -> Result<Act<Closed<F, C>>, AllocError>
    ensures { IfOk result (λ a. a ≡ act_with C.Calls.see act) }
{
    Ok(match act {
        Act::Open { to, class, first } => Act::Open { to, class, first },
        Act::Send { key, value } => Act::Send { key, value },
        Act::Receive { key } => Act::Receive { key },
        Act::ReceiveBy { key, until } => Act::ReceiveBy { key, until },
        Act::Sleep { until } => Act::Sleep { until },
        Act::Sub { frame } => Act::Sub {
            frame: Closed::new(C::Calls::open(alloc, frame)?),
        },
        Act::Verify { tx } => Act::Verify { tx },
        Act::Reserve { token, amount } => Act::Reserve { token, amount },
        Act::Lookup { id } => Act::Lookup { id },
        Act::Missing { tx } => Act::Missing { tx },
        Act::Sign { id } => Act::Sign { id },
        Act::Notarise { request } => Act::Notarise { request },
        Act::Record { stx } => Act::Record { stx },
        Act::Return { value } => Act::Return { value },
        Act::Fail { code } => Act::Fail { code },
    })
}
