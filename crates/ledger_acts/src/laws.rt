//! Laws of acts on the ledger and of jobs. The functions do nothing when they run; their contracts are the laws.

ghost use Rattle.ledger_acts.specs.Acts.{ActsAsMeant};
ghost use Rattle.ledger_acts.specs.Jobs.{UnjudgedAsMeant, JobIsTheAct, ConcludesAsMeant, SettlesAsMeant, JobStays, JobsAreWithin};
ghost use Rattle.ledger_acts.specs.Picking.{UnclaimedIsPicked};

use net_base::Spelt;

/// The law that each act on the ledger which waits for no job is performed as its call is meant.
pub fn acts_as_meant<F>()
    ensures { ActsAsMeant F }
{}

/// The law that where an act which judges or records waits for no job, the flow goes on as its call is meant.
pub fn unjudged_as_meant<F>()
    ensures { UnjudgedAsMeant F }
{}

/// The law that a flow which waits for a job goes on by what is done once it was run.
pub fn job_is_the_act<F>()
    ensures { JobIsTheAct F }
{}

/// The law that the result of a job which was run is what its act is meant to do.
pub fn concludes_as_meant<F>()
    ensures { ConcludesAsMeant F }
{}

/// The law that a flow which still waits for a job that was run goes on by its result, whatever its node did meanwhile.
pub fn settles_as_meant<F>()
    ensures { SettlesAsMeant F }
{}

/// The law that while more is recorded a job stays the one that its flow waits for, until its own id is recorded.
pub fn job_stays<F>()
    ensures { JobStays F }
{}

/// The law that the job of an act within its limits is within its own.
pub fn jobs_are_within<F: Spelt>()
    ensures { JobsAreWithin F.within }
{}

/// The law that where no job is handed out a node goes on by the machine's own choice.
pub fn unclaimed_is_picked<F>()
    ensures { UnclaimedIsPicked F }
{}
