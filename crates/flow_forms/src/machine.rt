//! What a machine is, and how its frames go on.

ghost use Rattle.std.specs.Prelude.{◌≡◌, ℕ, IfOk};
ghost use Rattle.flow_machine.specs.Limits.{IsResumed, IsPlace};
ghost use Rattle.flow_forms.specs.Shared.{is_peer};
ghost use Rattle.flow_forms.specs.Forms.{Form, IsForm, frame, started, next_at, weight_at};
ghost use Rattle.flow_forms.specs.Bytes.{Numbers};

use crate::calls::Call;
use crate::fields::Fields;
use crate::forms::{At, Frame, Goes};
use flow_machine::{Act, Place, Resumed};
use std::alloc::{AllocError, Global};

/// The places at which a machine asks. Return has the number behind theirs.
pub trait Numbered: Copy + Drop + 'static {
    /// All of them, and the number of each, by which it is told.
    ghost numbers: { Numbers Self };

    fn number(self) -> u8
        ensures { result ≡ numbers.number self };

    fn all() -> &'static [Self]
        ensures { result.now ≡ numbers.all };
}

/// The fields of a machine, and how it goes on.
pub trait Machine<P>: Fields {
    /// How it starts and goes on, and what it may cause.
    ghost form: { Form P Self };

    /// The number of the machine.
    ghost MACHINE: { ℕ };

    const MACHINE: u8;

    /// How a frame goes on that begins a flow, or is called.
    fn start(self, alloc: Global, here: &Place) -> Result<Goes<P, Self>, AllocError>
        requires { Self.kept.within self }
        ensures { IfOk result (λ g. g ≡ form.starts self here.entry.now) };

    /// How a frame goes on that waits at a place, by the result.
    fn resume(
        self,
        alloc: Global,
        place: P,
        with: &Resumed,
        here: &Place,
    ) -> Result<Goes<P, Self>, AllocError>
        requires fits { Self.kept.within self }
        requires small { IsResumed with.now }
        requires place { IsPlace here.now }
        ensures { IfOk result (λ g. g ≡ form.moves place self with.now here.entry.now) };

    /// A bound on what a frame may still cause that waits at a place.
    fn weight(&self, place: P) -> u64
        requires { Self.kept.within self.now }
        ensures { result ≡ form.weight place self.now };

    /// The same of a frame that is called, or begins.
    fn called(&self) -> u64
        requires { Self.kept.within self.now }
        ensures { result ≡ form.called self.now };

    /// It owes nothing.
    ghost is_form: { IsForm Self.kept.within form };
}

/// How a called frame goes on.
fn start_called<P, S: Machine<P>>(
    fields: S,
    alloc: Global,
    with: &Resumed,
    here: &Place,
) -> Result<Goes<P, S>, AllocError>
    requires { S.kept.within fields }
    ensures { IfOk result (λ g. g ≡ started S.form fields with.now here.entry.now) }
{
    match with {
        Resumed::Started => fields.start(alloc, here),
        _ => Ok(Goes::unnamed(fields, with)),
    }
}

impl<P: Numbered, S: Machine<P>, W> Frame<P, S, W> {
    /// How it goes on.
    fn goes(&self, alloc: Global, with: &Resumed, here: &Place) -> Result<Goes<P, S>, AllocError>
        requires fits { S.kept.within self.now.fields }
        requires small { IsResumed with.now }
        requires place { IsPlace here.now }
        ensures { IfOk result (λ g. g ≡ next_at S.form self.now.at self.now.fields with.now
            here.entry.now) }
    {
        let fields = self.fields.copy_fields(alloc)?;
        match self.at {
            At::Failing | At::Returning => Ok(Goes::unnamed(fields, with)),
            At::Called => start_called(fields, alloc, with, here),
            At::Asking(place) => fields.resume(alloc, place, with, here),
        }
    }

    /// The frame and the act that follow.
    pub(crate) fn follow(
        &self,
        alloc: Global,
        with: &Resumed,
        here: &Place,
    ) -> Result<(Frame<P, S, W>, Act<Call>), AllocError>
        requires fits { S.kept.within self.now.fields }
        requires small { IsResumed with.now }
        requires place { IsPlace here.now }
        ensures { IfOk result (λ g. g ≡ frame
            (next_at S.form self.now.at self.now.fields with.now here.entry.now)) }
    {
        Ok(self.goes(alloc, with, here)?.settle())
    }

    /// A bound on what it may still cause.
    pub(crate) fn weigh(&self) -> u64
        requires { S.kept.within self.now.fields }
        ensures { result ≡ weight_at S.form self.now.at self.now.fields }
    {
        match self.at {
            At::Failing | At::Returning => 0,
            At::Called => self.fields.called(),
            At::Asking(place) => self.fields.weight(place),
        }
    }
}

/// Whether the number is another node's.
pub fn is_peer(to: u8, here: &Place) -> bool
    ensures { result ≡ is_peer to here.entry.now }
{
    to < here.nodes && to != here.me.0
}
