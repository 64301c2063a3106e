//! The frames of the subflows that the machines call.

ghost use Rattle.std.specs.Prelude.{◌≡◌};
ghost use Rattle.flow_forms.specs.declared.forms.Sum.TheVariants as of;
ghost use Rattle.app_flows.specs.Frames.{none};

use crate::beside::Beside;
use finality_flows::{Finality, FinalityPlace};
use flow_forms::{ByCall, ByWords, Call, Flows, Frame, Opens, Sum};
use notary_flows::{Client, ClientFrame};
use resolve_flows::{Resolve, ResolveFrame};
use shipped_flows::{Count, CountPlace};
use std::alloc::{AllocError, Global};

/// A counting flow's frame: words begin it.
pub type CountFrame = Frame<CountPlace, Count, ByWords>;

/// A frame of finality: a flow calls it, and nothing else begins one.
pub type FinalityFrame = Frame<FinalityPlace, Finality, ByCall>;

/// The frames that calls may be: machine 31, the notary client; 32, resolving; 30, finality; and 1, the counting flow, which stands for a
/// call that no machine makes. All but that one stand on the heap.
pub type Called = Beside<CountFrame, Sum<ClientFrame, Sum<ResolveFrame, FinalityFrame>>>;

/// The frame of each call, before it started. For a call to give or to take, which no machine makes, there stands a counting flow that
/// waits to wake; begun by a call it fails with 54.
#[derive(Clone, Copy)]
pub struct CallFrames;

/// A counting flow that waits to wake.
fn wakes_once() -> Called
    ensures { result ≡ of.First none }
{
    let fields = Count { left: 0, all: 0 };
    Beside::first(Frame::asking(CountPlace::Sleeping, fields))
}

impl Opens<Called> for CallFrames {
    ghost use Rattle.app_flows.specs.Opening.{opens_by};
    ghost use Rattle.app_flows.specs.Frames.{see, none, asks, resolves, ends, none_opens, asks_opens, resolves_opens, ends_opens};

    ghost see = { see };

    ghost opens = { opens_by ⟦<CountFrame as Flows>⟧.within ⟦<ClientFrame as Flows>⟧.within
        ⟦<ResolveFrame as Flows>⟧.within ⟦<FinalityFrame as Flows>⟧.within
        ⟦<CountFrame as Flows>⟧.part ⟦<ClientFrame as Flows>⟧.part ⟦<ResolveFrame as Flows>⟧.part
        ⟦<FinalityFrame as Flows>⟧.part none asks resolves ends none_opens asks_opens resolves_opens
        ends_opens };

    fn open(alloc: Global, call: Call) -> Result<Called, AllocError> {
        Ok(match call {
            Call::Client { request } => {
                let frame = Frame::called(Client::new(request));
                Beside::second(alloc, Sum::First(frame))?
            }
            Call::Resolve { key, stx } => {
                let fields = Resolve::new(alloc, key, stx);
                let frame = Sum::Second(Sum::First(Frame::called(fields)));
                Beside::second(alloc, frame)?
            }
            Call::Finality { tx, peers } => {
                let fields = Finality::new(alloc, tx, peers)?;
                let frame = Sum::Second(Sum::Second(Frame::called(fields)));
                Beside::second(alloc, frame)?
            }
            Call::Give {
                key: _key,
                coins: _coins,
            } => wakes_once(),
            Call::Take { key: _key } => wakes_once(),
        })
    }
}
