//! The flow set of the four machines.

use crate::count::{Count, CountPlace};
use crate::echo::{Echo, EchoPlace};
use crate::ping::{Ping, PingPlace};
use crate::probe::{Probe, ProbePlace};
use flow_forms::{ByInit, ByWords, Call, Closed, Closes, Frame, Opens, Sum};
use std::alloc::{AllocError, Global};

/// The machines of the set, by number: 1 counts, 2 pings, 10 probes, and 11 is the echo.
pub type Shipped = Sum<
    Frame<CountPlace, Count, ByWords>,
    Sum<
        Frame<PingPlace, Ping, ByWords>,
        Sum<Frame<ProbePlace, Probe, ByWords>, Frame<EchoPlace, Echo, ByInit>>,
    >,
>;

/// None of the machines calls a subflow. For a call, which none makes, there stands a counting flow that waits to wake.
#[derive(Clone, Copy)]
pub struct NoCalls;

impl Opens<Shipped> for NoCalls {
    ghost use Rattle.std.specs.Prelude.{refl};
    ghost use Rattle.std.proofs.Common.{arith};
    ghost use Rattle.shipped_flows.specs.Shipped.{no_call, calls_cost};

    ghost see = { no_call };

    ghost opens = { record {
      weight = calls_cost;
      over = λ c. refl;
      tags = λ test c h. refl;
      limits = λ c h. (refl, (omega arith, omega arith));
    } };

    fn open(_alloc: Global, _call: Call) -> Result<Shipped, AllocError> {
        let fields = Count { left: 0, all: 0 };
        Ok(Sum::First(Frame::asking(CountPlace::Sleeping, fields)))
    }
}

impl Closes<Shipped> for NoCalls {
    ghost use Rattle.std.specs.Prelude.{refl};

    type Calls = NoCalls;

    ghost unlike = { refl };
}

/// A frame of the flow set: a counting flow (machine 1), a ping (2), a probe (10) or an echo (11).
pub type ShippedFlow = Closed<Shipped, NoCalls>;
