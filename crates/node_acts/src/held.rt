//! Jobs that are out.

ghost use Rattle.std.specs.Prelude.{◌≡◌};
ghost use Rattle.signing.specs.Marks.{keyed_mark};
ghost use Rattle.ledger_acts.specs.Jobs.{IsJob, IsRun};

use contract_verify::Judge;
use ledger_acts::{Done, Job};
use net_base::Boxed;
use std::marker::Model;

/// A job that is out. It can be run at any time: it is within its limits.
#[derive(Drop)]
pub struct Held {
    job: Boxed<Job>,
}

impl Model for Held {
    ghost use Rattle.ledger_acts.specs.declared.job.Job.{Job};
    ghost use Rattle.ledger_acts.specs.Jobs.{IsJob};

    ghost Value = { Job };

    ghost view = { λ h. h.job };

    ghost invariant = { λ h. IsJob h.job };
}

impl Held {
    /// Keeps a job.
    pub fn new(job: Boxed<Job>) -> Held
        requires { IsJob job }
        ensures { result ≡ job }
    {
        Held { job }
    }

    /// The flow that waits for it.
    pub fn flow(&self) -> u32
        ensures { result ≡ self.now.flow }
    {
        self.job.get().flow
    }

    /// Runs it over these contracts.
    pub fn run<J: Judge>(self, contracts: &J) -> Done
        ensures job { result.job ≡ self }
        ensures run { IsRun (J.judges contracts.now) keyed_mark result }
    {
        self.job.into_inner().run(contracts)
    }
}
