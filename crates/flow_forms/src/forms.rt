//! Frames, and how a machine goes on.

ghost use Rattle.std.specs.Prelude.{◌≡◌};
ghost use Rattle.flow_forms.specs.Forms.{frame, unnamed};
ghost use Rattle.flow_forms.specs.declared.forms.At.TheVariants.{Called, Asking};
ghost use Rattle.flow_forms.specs.declared.forms.Goes.TheVariants.{On, Ends, Stops};

use crate::calls::Call;
use flow_machine::{Act, Resumed};
use ledger_types::Value;
use std::marker::{Model, PhantomData};

/// Where a frame stands: it waits on the act of a place, on Fail or on Return, or it is called and waits on no act yet.
#[derive(Clone, Copy)]
pub enum At<P> {
    Failing,
    Returning,
    Called,
    Asking(P),
}

/// A machine's frame: where it stands, and its fields. `W` says how flows of the machine begin. Contracts see the first two.
#[derive(Drop)]
pub struct Frame<P, S, W> {
    pub(crate) at: At<P>,
    pub(crate) fields: S,
    way: PhantomData<W>,
}

impl<P, S, W> Model for Frame<P, S, W> {
    ghost use Rattle.flow_forms.specs.Frames.{Frame};

    ghost Value = { Frame P S };

    ghost view = { λ f. record { at = f.at; fields = f.fields } };
}

impl<P, S, W> Frame<P, S, W> {
    /// A frame that stands so.
    pub(crate) fn new(at: At<P>, fields: S) -> Frame<P, S, W>
        ensures { result ≡ record { at = at; fields = fields } }
    {
        Frame {
            at,
            fields,
            way: PhantomData,
        }
    }

    /// A frame that waits at a place.
    pub fn asking(place: P, fields: S) -> Frame<P, S, W>
        ensures { result ≡ record { at = Asking place; fields = fields } }
    {
        Frame::new(At::Asking(place), fields)
    }

    /// The frame of a subflow that is called with these fields.
    pub fn called(fields: S) -> Frame<P, S, W>
        ensures { result ≡ record { at = Called; fields = fields } }
    {
        Frame::new(At::Called, fields)
    }
}

/// How a machine goes on: it waits on an act at a place, returns a value, or fails with a code.
#[derive(Drop)]
pub enum Goes<P, S> {
    On { place: P, fields: S, act: Act<Call> },
    Ends { fields: S, value: Value },
    Stops { fields: S, code: u16 },
}

impl<P, S> Goes<P, S> {
    /// It waits on an act at a place.
    pub fn on(place: P, fields: S, act: Act<Call>) -> Goes<P, S>
        ensures { result ≡ On place fields act }
    {
        Goes::On { place, fields, act }
    }

    /// It returns a value.
    pub fn ends(fields: S, value: Value) -> Goes<P, S>
        ensures { result ≡ Ends fields value }
    {
        Goes::Ends { fields, value }
    }

    /// It fails with a code.
    pub fn stops(fields: S, code: u16) -> Goes<P, S>
        ensures { result ≡ Stops fields code }
    {
        Goes::Stops { fields, code }
    }

    /// The frame fails by the code of a result that it doesn't name.
    pub fn unnamed(fields: S, with: &Resumed) -> Goes<P, S>
        ensures { result ≡ unnamed fields with.now }
    {
        let code = with.unnamed_code();
        Goes::Stops { fields, code }
    }

    /// The frame and the act.
    pub(crate) fn settle<W>(self) -> (Frame<P, S, W>, Act<Call>)
        ensures { result ≡ frame self }
    {
        match self {
            Goes::On { place, fields, act } => (Frame::new(At::Asking(place), fields), act),
            Goes::Ends { fields, value } => {
                (Frame::new(At::Returning, fields), Act::Return { value })
            }
            Goes::Stops { fields, code } => (Frame::new(At::Failing, fields), Act::Fail { code }),
        }
    }
}

/// A frame of one flow set or of another.
#[derive(Drop)]
pub enum Sum<A, B> {
    First(A),
    Second(B),
}
