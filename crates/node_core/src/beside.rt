//! How a node that is up goes on while jobs of its flows are run beside it.

ghost use Rattle.std.specs.Prelude.{◌≡◌, ◌==◌, ◌&&◌, ◌≤◌, ℕ, Option, Some, None, true, false, is_some, IfOk, IfErr, IfSome, OnOk, option_map, option_and_then, slice_get};
ghost use Rattle.std.specs.List.{list_any};
ghost use Rattle.net_base.specs.declared.causes.Event.TheVariants.{Move};
ghost use Rattle.net_base.specs.Names.{IsIdentity};
ghost use Rattle.signing.specs.Marks.{keyed_mark};
ghost use Rattle.net_model.specs.Environment.{Judgement, environment, meaning, unjudged};
ghost use Rattle.net_model.specs.Steps.{checkpoint_of};
ghost use Rattle.ledger_acts.specs.Jobs.{IsJob, IsRun};
ghost use Rattle.flow_steps.specs.Going.{flow_in};
ghost use Rattle.flow_steps.specs.Ready.{IsReady};
ghost use Rattle.node_tables.specs.Journals.{state_of};
ghost use Rattle.node_core.specs.Journals.{is_full};
ghost use Rattle.node_core.specs.Claims.{awaited_in, first_there, free_at, free_there, step_at, NotAwaited, StillWaits};
ghost use Rattle.node_core.specs.Seen.{CommitsAs, Tied, picked_at};
ghost use Rattle.node_core.specs.Idle.{AreIdle};

use super::faults::{CommitFault, SettleFault};
use super::idle::Picked;
use super::up::Up;
use checkpoints::FlowView;
use contract_verify::Judge;
use flow_machine::{Checkpoint, FlowSet};
use flow_records::Step;
use flow_steps::{advance, awaits_job, pick_event, settle, take_job};
use ledger_acts::{Done, Job, is_awaited};
use net_base::{Boxed, Cause, Event, Identity, Moment};
use outside::Disk;
use std::alloc::{AllocError, Global};

impl<D: Disk, F: FlowSet> Up<D, F> {
    // ---- the choice

    /// Whether the flow of an event waits for a job. Takes no memory.
    pub fn awaits(&self, identity: &Identity, event: &Event) -> bool
        ensures { result ≡ is_some (awaited_in identity.now
            (state_of F.reading self.now.bodies) event.now) }
    {
        self.tables.law_kept();
        let flows = self.tables.flows();
        let ledger = self.tables.ledger();
        awaits_job(identity, ledger, flows, event)
    }

    /// Whether the flow of a number waits for a job that is out.
    fn is_held(&self, identity: &Identity, claims: &[u32], number: u32) -> bool
        ensures { result ≡ (list_any (λ f. f == number) claims.now
            && is_some (awaited_in identity.now (state_of F.reading self.now.bodies)
            (Move number))) }
    {
        claims.contains(&number) && self.awaits(identity, &Event::Move { flow: number })
    }

    /// The event by which the flow of a number goes on, where it doesn't wait for a job that is out.
    #[tactic(auto, unfolding(crate::specs::Claims::free_there))]
    fn free_event(
        &self,
        identity: &Identity,
        claims: &[u32],
        now: Moment,
        number: u32,
    ) -> Option<Event>
        ensures { result ≡ free_there identity.now
            (state_of F.reading self.now.bodies) claims.now now.0 number }
    {
        self.tables.law_kept();
        if number < self.idle.below_at(now) {
            return None;
        }
        if self.is_held(identity, claims, number) {
            return None;
        }
        let flows = self.tables.flows();
        let sessions = self.tables.sessions();
        pick_event(flows, sessions, now, Some(number), 0)
    }

    /// The event by which the first of the flows of these numbers goes on that is free to.
    fn first_free(
        &self,
        identity: &Identity,
        claims: &[u32],
        now: Moment,
        numbers: &[u32],
    ) -> Option<Event>
        ensures { result ≡ first_there identity.now
            (state_of F.reading self.now.bodies) claims.now now.0 numbers.now }
    {
        for number in numbers {
            let event = self.free_event(identity, claims, now, *number);
            if event.is_some() {
                return event;
            }
        }
        None
    }

    /// The event by which the picked flow goes on, or the first that can, but for those that wait for a job that is out.
    fn choose(
        &self,
        identity: &Identity,
        claims: &[u32],
        now: Moment,
        pick: Option<u32>,
    ) -> Option<Event>
        ensures event { (judge : Judgement)
            → result ≡ free_at (environment (meaning F.machine F.reading judge) identity.now)
            identity.now now.0 pick claims.now self.now.bodies }
        ensures own { IfSome result (λ e. picked_at
            (environment (unjudged F.machine F.reading) identity.now) now.0
            (Some (flow_in e)) self.now.bodies ≡ Some e) }
    {
        self.tables.law_kept();
        let flows = self.tables.flows();
        match pick {
            Some(number) => self.free_event(identity, claims, now, number),
            None => self.first_free(identity, claims, now, flows.live()),
        }
    }

    /// The event by which the picked flow goes on, or the first that can, but for those that wait for a job that is out; and the flows
    /// that were seen to be idle, which are no more than before while a job is out.
    pub fn pick_free(
        &self,
        identity: &Identity,
        claims: &[u32],
        now: Moment,
        pick: Option<u32>,
    ) -> Option<Picked>
        ensures event { (judge : Judgement)
            → option_map (λ p. p.event) result
            ≡ free_at (environment (meaning F.machine F.reading judge) identity.now) identity.now
            now.0 pick claims.now self.now.bodies }
        ensures own { IfSome result (λ p. picked_at
            (environment (unjudged F.machine F.reading) identity.now) now.0
            (Some (flow_in p.event)) self.now.bodies ≡ Some p.event) }
        ensures idle { IfSome result (λ p. AreIdle (state_of F.reading self.now.bodies) p.idle) }
    {
        self.tables.law_kept();
        if claims.is_empty() {
            return self.pick(now, pick);
        }
        let event = self.choose(identity, claims, now, pick)?;
        Some(Picked {
            event,
            idle: self.idle,
        })
    }

    // ---- a flow that waits for a job

    /// The job that the flow of a picked event waits for, `None` where it waits for none. The only error is want of memory.
    fn awaited_job(
        &self,
        alloc: Global,
        identity: &Identity,
        now: Moment,
        event: &Event,
    ) -> Result<Option<Job>, AllocError>
        requires { (pick : Option ℕ) × (picked_at
            (environment (unjudged F.machine F.reading) identity.now) now.0 pick self.now.bodies
            ≡ Some event.now) }
        ensures job { IfOk result (λ job. job
            ≡ awaited_in identity.now (state_of F.reading self.now.bodies) event.now) }
        ensures moves { IfOk result (λ job. IfSome job (λ j. event.now ≡ Move j.flow)) }
        ensures limits { IfOk result (λ job. IfSome job IsJob) }
    {
        self.tables.law_kept();
        let _ = now;
        let flows = self.tables.flows();
        let ledger = self.tables.ledger();
        take_job(alloc, identity, ledger, flows, event)
    }

    /// The job that the flow of a picked event waits for, which does. The only error is want of memory.
    pub fn hand_out(
        &self,
        alloc: Global,
        identity: &Identity,
        now: Moment,
        event: &Event,
    ) -> Result<Boxed<Job>, AllocError>
        requires picked { (pick : Option ℕ)
            × (picked_at (environment (unjudged F.machine F.reading) identity.now) now.0 pick
            self.now.bodies ≡ Some event.now) }
        requires waits { is_some (awaited_in identity.now
            (state_of F.reading self.now.bodies) event.now) ≡ true }
        ensures job { IfOk result (λ job. awaited_in identity.now
            (state_of F.reading self.now.bodies) event.now ≡ Some job) }
        ensures moves { IfOk result (λ job. event.now ≡ Move job.flow) }
        ensures limits { IfOk result IsJob }
    {
        match self.awaited_job(alloc, identity, now, event)? {
            Some(job) => Ok(Boxed::new(alloc, job)?),
            None => unreachable!(),
        }
    }

    /// Whether a job that comes back is the one that its flow waits for at this step.
    fn check_at(
        &self,
        identity: &Identity,
        at: &Checkpoint<F>,
        job: &Job,
    ) -> Result<(), SettleFault>
        requires { option_and_then checkpoint_of
            (slice_get (state_of F.reading self.now.bodies).flows job.now.flow) ≡ Some at.now }
        ensures ok { OnOk result (StillWaits identity.now
            (state_of F.reading self.now.bodies) job.now) }
        ensures refused { IfErr result (NotAwaited identity.now
            (state_of F.reading self.now.bodies) job.now) }
    {
        self.tables.law_kept();
        if at.step != job.step {
            return Err(SettleFault::Stale {
                have: Some(at.step),
                given: job.step,
            });
        }
        if is_awaited(identity, self.tables.ledger().store(), at, job) {
            Ok(())
        } else {
            Err(SettleFault::Foreign { flow: job.flow })
        }
    }

    /// Whether a job that comes back is the one that its flow waits for. Takes no memory.
    ///
    /// # Errors
    ///
    /// `Stale` exactly where the flow isn't live or is at another step, `Foreign` exactly where it is at that step and waits for
    /// another job or for none.
    pub fn check(&self, identity: &Identity, job: &Job) -> Result<(), SettleFault>
        ensures ok { OnOk result (StillWaits identity.now
            (state_of F.reading self.now.bodies) job.now) }
        ensures refused { IfErr result (NotAwaited identity.now
            (state_of F.reading self.now.bodies) job.now) }
    {
        match self.tables.flows().get(job.flow) {
            Some(FlowView::Live(at)) => self.check_at(identity, at, job),
            _ => Err(SettleFault::Stale {
                have: None,
                given: job.step,
            }),
        }
    }

    // ---- what is committed

    /// The step by which a flow goes on that waits for no job, by this cause, whose event was picked. The only error is want of memory.
    fn advance_free(
        &self,
        alloc: Global,
        identity: &Identity,
        cause: Cause,
    ) -> Result<Step<F>, AllocError>
        requires tied { Tied identity.now self.now.journal self.now.bodies }
        requires picked { (pick : Option ℕ)
            × (picked_at (environment (unjudged F.machine F.reading) identity.now) cause.moment.0
            pick self.now.bodies ≡ Some cause.event) }
        requires job { awaited_in identity.now (state_of F.reading self.now.bodies) cause.event
            ≡ None }
        ensures cause { IfOk result (λ step. step.cause ≡ cause) }
        ensures ready { IfOk result (λ step. (judge : Judgement)
            → IsReady (environment (meaning F.machine F.reading judge) identity.now)
            identity.now.party.0 cause.moment.0 F.within
            (state_of F.reading self.now.bodies) None step) }
        ensures unjudged { IfOk result (λ step.
            IsReady (environment (unjudged F.machine F.reading) identity.now)
            identity.now.party.0 cause.moment.0 F.within
            (state_of F.reading self.now.bodies) None step) }
    {
        self.tables.law_kept();
        let flows = self.tables.flows();
        let sessions = self.tables.sessions();
        let ledger = self.tables.ledger();
        advance(alloc, identity, flows, sessions, ledger, cause)
    }

    /// Lets a flow go on by this event, which was picked, and by which no job is waited for.
    pub fn go_on_free(
        &mut self,
        alloc: Global,
        identity: &Identity,
        now: Moment,
        picked: Picked,
    ) -> Result<(), CommitFault>
        requires tied { Tied identity.now self.old.journal self.old.bodies }
        requires by { (state_of F.reading self.old.bodies).moment ≤ now.0 }
        requires room { is_full F.reading 0 self.old.bodies ≡ false }
        requires picked { (pick : Option ℕ)
            × (picked_at (environment (unjudged F.machine F.reading) identity.now) now.0 pick
            self.old.bodies ≡ Some picked.event) }
        requires job { awaited_in identity.now (state_of F.reading self.old.bodies) picked.event
            ≡ None }
        requires idle { AreIdle (state_of F.reading self.old.bodies) picked.idle }
        ensures commits { (judge : Judgement)
            → CommitsAs (environment (meaning F.machine F.reading judge) identity.now) identity.now
            now.0 picked.event None self.old result self.new }
        ensures unjudged { CommitsAs (environment (unjudged F.machine F.reading) identity.now)
            identity.now now.0 picked.event None self.old result self.new }
        ensures by { (state_of F.reading self.new.bodies).moment ≤ now.0 }
    {
        let Picked { event, idle } = picked;
        self.idle = idle;
        let cause = Cause {
            stamp: self.next_stamp(0),
            moment: now,
            event,
        };
        let step = self.advance_free(alloc, identity, cause)?;
        self.commit(alloc, identity, now, step)
    }

    /// The step by which a flow goes on whose job was run, by this cause, which moves it. The only error is want of memory.
    fn settled<J: Judge>(
        &self,
        alloc: Global,
        identity: &Identity,
        cause: Cause,
        done: Done,
        contracts: &J,
    ) -> Result<Step<F>, AllocError>
        requires identity { IsIdentity identity.now }
        requires moves { cause.event ≡ Move done.job.flow }
        requires waits { StillWaits identity.now (state_of F.reading self.now.bodies) done.job }
        requires run { IsRun (J.judges contracts.now) keyed_mark done }
        ensures cause { IfOk result (λ step. step.cause ≡ cause) }
        ensures ready { IfOk result (λ step.
            IsReady (environment (meaning F.machine F.reading (J.judges contracts.now))
            identity.now) identity.now.party.0 cause.moment.0 F.within
            (state_of F.reading self.now.bodies) None step) }
    {
        self.tables.law_kept();
        let _ = contracts;
        let flows = self.tables.flows();
        settle(alloc, identity, flows, cause, done)
    }

    /// Lets a flow go on whose job was run, and which still waits for it.
    pub fn settle<J: Judge>(
        &mut self,
        alloc: Global,
        identity: &Identity,
        now: Moment,
        done: Done,
        contracts: &J,
    ) -> Result<(), CommitFault>
        requires tied { Tied identity.now self.old.journal self.old.bodies }
        requires by { (state_of F.reading self.old.bodies).moment ≤ now.0 }
        requires room { is_full F.reading 0 self.old.bodies ≡ false }
        requires waits { StillWaits identity.now (state_of F.reading self.old.bodies) done.job }
        requires run { IsRun (J.judges contracts.now) keyed_mark done }
        ensures commits { CommitsAs (environment
            (meaning F.machine F.reading (J.judges contracts.now)) identity.now) identity.now
            now.0 (Move done.job.flow) None self.old result self.new }
        ensures by { (state_of F.reading self.new.bodies).moment ≤ now.0 }
    {
        let cause = Cause {
            stamp: self.next_stamp(0),
            moment: now,
            event: Event::Move {
                flow: done.job.flow,
            },
        };
        let step = self.settled(alloc, identity, cause, done, contracts)?;
        self.commit(alloc, identity, now, step)
    }
}
