//! A node whose jobs are run beside it.

ghost use Rattle.std.specs.Prelude.{◌≡◌, ◌⊎◌, ◌≤◌, None, Ok, Err, [], false, true};
ghost use Rattle.signing.specs.Marks.{keyed_mark};
ghost use Rattle.net_model.specs.Environment.{Judgement, environment, meaning, unjudged};
ghost use Rattle.ledger_acts.specs.Jobs.{IsRun};
ghost use Rattle.node_core.specs.declared.faults.SharedTurn.TheVariants as shared_turn;
ghost use Rattle.node_core.specs.declared.faults.TurnFault.TheVariants as turn_fault;
ghost use Rattle.node_core.specs.Claims.{claims_but, claims_by, claims_up, turned_of, SettleAnswers, TurnAnswersBeside, WorkAnswers};
ghost use Rattle.node_core.specs.Seen.{BootsAs, CutAnswers, IsBy, StartAnswers};
ghost use Rattle.node_core.specs.Takes.{TakeAnswers};

use super::node::Node;
use super::{
    BootFault, CutFault, SettleFault, SharedTurn, StartFault, TakeFault, Taken, TurnFault, Turned,
};
use contract_verify::Judge;
use flow_machine::FlowSet;
use ledger_acts::{Done, Job};
use net_base::{Boxed, ByteList, Moment, Spelt};
use outside::{Bay, Disk};
use std::alloc::Global;
use std::marker::Model;

/// A node whose jobs are run beside it: a turn hands out the job that a flow waits for, whoever has it runs it without the node, which
/// may go on meanwhile, and a later call settles it.
///
/// It keeps which flows' jobs are out, so that none is handed out twice. Such a claim only saves work: a job is settled by the step at
/// which its flow waits, whether the flow has a claim or not. No claim is in the journal, and none outlives the node's power.
#[derive(Drop)]
pub struct SharedNode<D: Disk, F: Spelt + Drop> {
    node: Node<D, F>,
    // the flows that have a claim
    claims: Vec<u32>,
}

impl<D: Disk, F: Spelt + Drop> Model for SharedNode<D, F> {
    ghost use Rattle.std.specs.Prelude.{◌≡◌, None, []};
    ghost use Rattle.node_core.specs.Claims.{SharedSeen};

    ghost Value = { SharedSeen };

    ghost view = { λ n. record { node = n.node; claims = n.claims.items } };

    ghost invariant = { λ n. n.node.journal ≡ None → n.claims.items ≡ [] };
}

impl<D: Disk, F: Spelt + Drop> SharedNode<D, F> {
    /// A node without a claim. Takes no memory.
    pub fn new(alloc: Global, node: Node<D, F>) -> SharedNode<D, F>
        ensures node { result.node ≡ node }
        ensures claims { result.claims ≡ [] }
    {
        SharedNode {
            node,
            claims: Vec::new(alloc),
        }
    }

    /// The node.
    pub fn node(&self) -> &Node<D, F>
        ensures { result.now ≡ self.now.node }
    {
        &self.node
    }

    /// The flows that have a claim; none while the node is down.
    pub fn claims(&self) -> &[u32]
        ensures claims { result.now ≡ self.now.claims }
        ensures down { self.now.node.journal ≡ None → result.now ≡ [] }
    {
        self.claims.as_slice()
    }

    /// The node, whose claims are ended.
    pub fn into_node(self) -> Node<D, F>
        ensures { result ≡ self.node }
    {
        let SharedNode { node, claims } = self;
        drop(claims);
        node
    }

    /// Ends every claim. A job that is out can be settled nevertheless.
    pub fn unclaim(&mut self)
        ensures node { self.new.node ≡ self.old.node }
        ensures claims { self.new.claims ≡ [] }
    {
        self.claims.clear();
    }

    /// Brings the node up from its disk, as `Node::boot` does. No flow has a claim then.
    ///
    /// # Errors
    ///
    /// Those of `Node::boot`.
    pub fn boot(&mut self, alloc: Global) -> Result<(), BootFault>
        requires { self.old.node.journal ≡ None }
        ensures boot { BootsAs F.reading self.old.node result self.new.node }
        ensures claims { self.new.claims ≡ [] }
    {
        self.node.boot(alloc)
    }
}

impl<D: Disk, F: FlowSet> SharedNode<D, F> {
    /// Starts a flow, as `Node::start` does.
    ///
    /// # Errors
    ///
    /// Those of `Node::start`.
    pub fn start(
        &mut self,
        alloc: Global,
        now: Moment,
        class: u16,
        args: &ByteList,
    ) -> Result<u32, StartFault>
        requires { IsBy F.reading self.old.node.journal now.0 }
        ensures start { StartAnswers (environment
            (unjudged F.machine F.reading) self.old.node.identity) now.0 class args.now
            self.old.node result self.new.node }
        ensures by { IsBy F.reading self.new.node.journal now.0 }
        ensures claims { self.new.claims ≡ claims_up self.new.node.journal self.old.claims }
    {
        let answer = self.node.start(alloc, now, class, args);
        end_if_down(&self.node, &mut self.claims);
        answer
    }

    /// Takes a frame, as `Node::take` does.
    ///
    /// # Errors
    ///
    /// Those of `Node::take`.
    pub fn take(&mut self, alloc: Global, now: Moment, bytes: &[u8]) -> Result<Taken, TakeFault>
        requires { IsBy F.reading self.old.node.journal now.0 }
        ensures take { TakeAnswers (environment
            (unjudged F.machine F.reading) self.old.node.identity) now.0 bytes.now self.old.node
            result self.new.node }
        ensures by { IsBy F.reading self.new.node.journal now.0 }
        ensures claims { self.new.claims ≡ claims_up self.new.node.journal self.old.claims }
    {
        let answer = self.node.take(alloc, now, bytes);
        end_if_down(&self.node, &mut self.claims);
        answer
    }

    /// Lets the picked flow go on, or the one with the least number that can, at a moment that is no less than that of the last cause.
    /// A flow that waits for a job is not moved: its job is handed out, and claimed. A flow whose job is out is passed over while it
    /// waits for a job. The job can be run at once: it is within its limits.
    ///
    /// # Errors
    ///
    /// `NodeDown` exactly where the node is down; `Full` exactly where the chosen flow waits for no job and the journal is full or the
    /// last stamp was given; `Memory`; `Fault` only where the disk's count of faults rose, and the node is then down. After any but
    /// `Fault` nothing has changed.
    pub fn turn(
        &mut self,
        alloc: Global,
        now: Moment,
        pick: Option<u32>,
    ) -> Result<SharedTurn, TurnFault>
        requires { IsBy F.reading self.old.node.journal now.0 }
        ensures turn { (judge : Judgement)
            → TurnAnswersBeside (environment (meaning F.machine F.reading judge)
            self.old.node.identity) now.0 pick self.old.claims self.old.node result self.new.node }
        ensures by { IsBy F.reading self.new.node.journal now.0 }
        ensures claims { self.new.claims ≡ claims_up self.new.node.journal
            (claims_by result self.old.claims) }
    {
        match self
            .node
            .turn_beside(alloc, now, pick, self.claims.as_slice())
        {
            Ok(SharedTurn::Job { job }) => claim(&mut self.claims, job),
            answer => {
                end_if_down(&self.node, &mut self.claims);
                answer
            }
        }
    }

    /// A whole turn: the job that it hands out is run here, over these contracts, and settled. Without a claim it is a turn by which the
    /// job is run at once (`Node::turn_whole`), but that memory may run out at any time.
    ///
    /// # Errors
    ///
    /// Those of `Node::turn_whole`.
    pub fn work<J: Judge>(
        &mut self,
        alloc: Global,
        now: Moment,
        pick: Option<u32>,
        contracts: &J,
    ) -> Result<Turned, TurnFault>
        requires by { IsBy F.reading self.old.node.journal now.0 }
        requires claims { self.old.claims ≡ [] }
        ensures work { WorkAnswers (environment
            (meaning F.machine F.reading (J.judges contracts.now)) self.old.node.identity) now.0
            pick self.old.node result self.new.node }
        ensures by { IsBy F.reading self.new.node.journal now.0 }
        ensures claims { self.new.claims ≡ [] }
    {
        match self.turn(alloc, now, pick) {
            Ok(SharedTurn::Idle) => Ok(Turned::Idle),
            Ok(SharedTurn::Moved { flow }) => Ok(Turned::Moved { flow }),
            Ok(SharedTurn::Job { job }) => {
                let done = job.into_inner().run(contracts);
                turned_of(self.settle(alloc, now, done, contracts))
            }
            Err(why) => Err(why),
        }
    }

    /// Settles a job that was run over these contracts, as `Node::settle` does. Whatever it answers, its flow has no claim any more.
    ///
    /// # Errors
    ///
    /// Those of `Node::settle`.
    pub fn settle<J: Judge>(
        &mut self,
        alloc: Global,
        now: Moment,
        done: Done,
        contracts: &J,
    ) -> Result<u32, SettleFault>
        requires by { IsBy F.reading self.old.node.journal now.0 }
        requires run { IsRun (J.judges contracts.now) keyed_mark done }
        ensures settle { SettleAnswers (environment
            (meaning F.machine F.reading (J.judges contracts.now)) self.old.node.identity) now.0
            done.job self.old.node result self.new.node }
        ensures by { IsBy F.reading self.new.node.journal now.0 }
        ensures claims { self.new.claims ≡ claims_up self.new.node.journal
            (claims_but done.job.flow self.old.claims) }
    {
        end_claim(&mut self.claims, done.job.flow);
        let answer = self.node.settle(alloc, now, done, contracts);
        end_if_down(&self.node, &mut self.claims);
        answer
    }
}

impl<D: Bay, F: Spelt + Drop> SharedNode<D, F> {
    /// Cuts the disk's power now or later, as `Node::cut_power` does.
    ///
    /// # Errors
    ///
    /// Those of `Node::cut_power`.
    pub fn cut_power(&mut self, calls: u64, outcome: u8) -> Result<(), CutFault>
        requires { outcome ≤ 3 }
        ensures cut { CutAnswers calls outcome self.old.node result self.new.node }
        ensures claims { self.new.claims ≡ claims_up self.new.node.journal self.old.claims }
    {
        let answer = self.node.cut_power(calls, outcome);
        end_if_down(&self.node, &mut self.claims);
        answer
    }

    /// Ends a cut of the disk's power, as `Node::restore_power` does.
    pub fn restore_power(&mut self)
        requires { self.old.node.journal ≡ None }
        ensures journal { self.new.node.journal ≡ None }
        ensures identity { self.new.node.identity ≡ self.old.node.identity }
        ensures disk { self.new.node.disk ≡ record self.old.node.disk {
          power = true;
          fuse = None;
          calm = self.new.node.disk.calm;
        } }
        ensures calm { self.old.node.disk.of_file ≡ false → self.new.node.disk.calm ≡ true }
        ensures stays_calm { self.old.node.disk.calm ≡ true → self.new.node.disk.calm ≡ true }
        ensures claims { self.new.claims ≡ [] }
    {
        self.node.restore_power();
    }
}

/// Ends every claim where the node is down.
fn end_if_down<D: Disk, F: Spelt + Drop>(node: &Node<D, F>, claims: &mut Vec<u32>)
    ensures { claims.new.items ≡ claims_up node.now.journal claims.old.items }
{
    if !node.is_up() {
        claims.clear();
    }
}

/// Ends the claim of a flow.
fn end_claim(claims: &mut Vec<u32>, flow: u32)
    ensures { claims.new.items ≡ claims_but flow claims.old.items }
{
    claims.retain(|claimed| *claimed != flow);
}

/// What a settled job tells of its turn.
fn turned_of(answer: Result<u32, SettleFault>) -> Result<Turned, TurnFault>
    ensures { result ≡ turned_of answer }
{
    match answer {
        Ok(flow) => Ok(Turned::Moved { flow }),
        Err(SettleFault::Stale { .. } | SettleFault::Foreign { .. }) => Ok(Turned::Idle),
        Err(SettleFault::NodeDown) => Err(TurnFault::NodeDown),
        Err(SettleFault::Full) => Err(TurnFault::Full),
        Err(SettleFault::Memory) => Err(TurnFault::Memory),
        Err(SettleFault::Fault) => Err(TurnFault::Fault),
    }
}

/// Claims the job that is handed out; without memory it is let go.
fn claim(claims: &mut Vec<u32>, job: Boxed<Job>) -> Result<SharedTurn, TurnFault>
    ensures claims { claims.new.items ≡ claims_by result claims.old.items }
    ensures answer { (result ≡ Ok (shared_turn.Job job)) ⊎ (result ≡ Err turn_fault.Memory) }
{
    if claims.push(job.get().flow).is_err() {
        drop(job);
        return Err(TurnFault::Memory);
    }
    Ok(SharedTurn::Job { job })
}
