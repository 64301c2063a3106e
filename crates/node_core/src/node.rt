//! A node: up on its journal, or down with its disk.

ghost use Rattle.std.specs.Prelude.{◌≡◌, ◌↔◌, ◌<◌, ◌≤◌, true, false, IsTrue, IsSome, MatchOption, List, [], ℕ, Some, None};
ghost use Rattle.net_base.specs.Names.{IsIdentity};
ghost use Rattle.signing.specs.Marks.{keyed_mark};
ghost use Rattle.net_model.specs.Environment.{Judgement, environment, meaning, unjudged};
ghost use Rattle.ledger_acts.specs.Jobs.{IsRun};
ghost use Rattle.node_ledger.specs.Ledgered.{HoldsLedger, ledger_in};
ghost use Rattle.node_tables.specs.Journals.{state_of, causes_of};
ghost use Rattle.node_core.specs.Claims.{SettleAnswers, TurnAnswersBeside};
ghost use Rattle.node_core.specs.Disks.{roomless, CutsNow};
ghost use Rattle.node_core.specs.Seen.{StartAnswers, TurnAnswers, CutAnswers, BootsAs, IsBy, IsMember};
ghost use Rattle.node_core.specs.States.{disk_in, journal_in, is_fault, seen_in, seen_over, IsDown, IsWhole};
ghost use Rattle.node_core.specs.Takes.{TakeAnswers, SendAnswers};

use super::faults::CommitFault;
use super::up::Up;
use super::{
    BootFault, CutFault, SettleFault, SharedTurn, StartFault, TakeFault, Taken, TurnFault, Turned,
    UnackedFault,
};
use checkpoints::Flows;
use contract_verify::Judge;
use flow_machine::FlowSet;
use flow_steps::flow_in;
use ledger_acts::Done;
use ledger_tables::LedgerTables;
use net_base::{ByteList, Cause, Event, Identity, Moment, Spelt};
use outside::{Bay, Disk};
use session_frames::OutgoingList;
use std::alloc::Global;
use std::marker::Model;
use std::mem;

/// Where a node's disk is.
#[derive(Drop)]
pub enum State<D: Disk, F: Spelt + Drop> {
    Down { disk: D },
    Up { up: Up<D, F> },
    /// Within a call, while the disk is on its way.
    Moved,
}

/// One node on its journal.
///
/// Contracts see its identity, what its disk may leave, and, while it is up, the bodies of its journal's records and how many of the
/// items that it sent are acknowledged; all else is what the bodies make. Each call that commits appends one record, and at every
/// moment since the call began a power cut leaves the old records or these with the new one.
#[derive(Drop)]
pub struct Node<D: Disk, F: Spelt + Drop> {
    identity: Identity,
    state: State<D, F>,
}

impl<D: Disk, F: Spelt + Drop> Model for Node<D, F> {
    ghost use Rattle.node_core.specs.Seen.{NodeSeen};

    ghost Value = { NodeSeen };

    ghost use Rattle.node_core.specs.Seen.{IsMember};
    ghost use Rattle.node_core.specs.States.{disk_in, journal_in, acked_in, IsWhole};

    ghost view = { λ n. record {
      identity = n.identity;
      disk = disk_in D.seen n.state;
      journal = journal_in n.state;
      acked = acked_in n.state;
    } };

    ghost invariant = { λ n. IsMember n.identity × IsWhole n.identity n.state };
}

impl<D: Disk, F: Spelt + Drop> Node<D, F> {
    /// A node that is down. Its party and its notary are nodes of its network, which has 1 to 16. Takes no memory.
    pub fn new(disk: D, identity: Identity) -> Node<D, F>
        requires { IsMember identity }
        ensures identity { result.identity ≡ identity }
        ensures disk { result.disk ≡ roomless (D.seen disk) }
        ensures down { result.journal ≡ None }
        ensures acked { result.acked ≡ [] }
    {
        Node {
            identity,
            state: State::Down { disk },
        }
    }

    /// Which node of which network it is.
    pub fn identity(&self) -> &Identity
        ensures same { result.now ≡ self.now.identity }
        ensures member { IsMember self.now.identity }
    {
        &self.identity
    }

    /// Whether the node is up.
    pub fn is_up(&self) -> bool
        ensures { IsTrue result ↔ IsSome self.now.journal }
    {
        matches!(&self.state, State::Up { .. })
    }

    /// The flows, by number; `None` exactly where the node is down.
    pub fn flows(&self) -> Option<&Flows<F>>
        ensures { MatchOption result (self.now.journal ≡ None)
            (λ flows. (bodies : List (List ℕ)) × (self.now.journal ≡ Some bodies)
            × (flows.now.flows ≡ (state_of F.reading bodies).flows)) }
    {
        match &self.state {
            State::Up { up } => Some(up.flows()),
            _ => None,
        }
    }

    /// What the journal's records made of transactions, soft locks and entries; `None` exactly where the node is down.
    pub fn ledger(&self) -> Option<&LedgerTables>
        ensures { MatchOption result (self.now.journal ≡ None)
            (λ ledger. (bodies : List (List ℕ)) × (self.now.journal ≡ Some bodies)
            × HoldsLedger self.now.identity.party
            (ledger_in (state_of F.reading bodies)) ledger.now) }
    {
        match &self.state {
            State::Up { up } => Some(up.ledger()),
            _ => None,
        }
    }

    /// The causes of the journal's records, in order; `None` exactly where the node is down.
    pub fn causes(&self) -> Option<&[Cause]>
        ensures { MatchOption result (self.now.journal ≡ None)
            (λ causes. (bodies : List (List ℕ)) × (self.now.journal ≡ Some bodies)
            × (causes.now ≡ causes_of F.reading bodies)) }
    {
        match &self.state {
            State::Up { up } => Some(up.causes()),
            _ => None,
        }
    }

    /// The moment of the last cause, 0 without one or where the node is down.
    pub fn last_moment(&self) -> Moment
        ensures { MatchOption self.now.journal (result.0 ≡ 0)
            (λ bodies. result.0 ≡ (state_of F.reading bodies).moment) }
    {
        match &self.state {
            State::Up { up } => up.last_moment(),
            _ => Moment(0),
        }
    }

    /// The messages of the items that the node sent and that aren't acknowledged, by session in order of making and then by number, each
    /// with the session's other side as its addressee. They are sent until they are acknowledged; after a boot all are.
    ///
    /// # Errors
    ///
    /// `NodeDown` exactly where the node is down, and `Memory`.
    pub fn unacked(&self, alloc: Global) -> Result<OutgoingList, UnackedFault>
        ensures { SendAnswers F.reading self.now result }
    {
        match &self.state {
            State::Up { up } => Ok(up.unacked(alloc)?),
            _ => Err(UnackedFault::NodeDown),
        }
    }

    /// The disk.
    pub fn into_disk(self) -> D
        ensures { roomless (D.seen result) ≡ self.disk }
    {
        match self.state {
            State::Down { disk } => disk,
            State::Up { up } => up.into_disk(),
            _ => unreachable!(),
        }
    }

    /// Opens the journal, and rebuilds the node from its records. The flows go on from their checkpoints; none is resumed: a boot asks
    /// nothing of frames but how they are spelt.
    ///
    /// # Errors
    ///
    /// `Fault` only where the disk's count of faults rose; `NotAJournal`, `WrongNode` and `Damaged` exactly by the journal's format,
    /// and `Damaged` with the place of the gate of the first record that is none of this flow set's or doesn't fit; `Memory`. The node
    /// then stays down, and, but for `Fault`, its journal is as it was.
    pub fn boot(&mut self, alloc: Global) -> Result<(), BootFault>
        requires { self.old.journal ≡ None }
        ensures { BootsAs F.reading self.old result self.new }
    {
        let disk = take_disk(&mut self.state);
        let (state, answer) = opened(alloc, disk, self.identity);
        put(&mut self.state, state);
        answer
    }
}

impl<D: Disk, F: FlowSet> Node<D, F> {
    /// Starts a flow of the class at a moment, which is no less than that of the last cause, and gives its number.
    ///
    /// # Errors
    ///
    /// `NodeDown` exactly where the node is down; `UnknownClass` and `BadArgs` exactly where the flow set makes none; `Full` exactly
    /// where it makes one and the journal is full or the last stamp was given; `Memory`; `Fault` only where the disk's count of
    /// faults rose, and the node is then down. After any but `Fault` nothing has changed.
    pub fn start(
        &mut self,
        alloc: Global,
        now: Moment,
        class: u16,
        args: &ByteList,
    ) -> Result<u32, StartFault>
        requires { IsBy F.reading self.old.journal now.0 }
        ensures start { StartAnswers (environment (unjudged F.machine F.reading) self.old.identity)
            now.0 class args.now self.old result self.new }
        ensures by { IsBy F.reading self.new.journal now.0 }
    {
        let State::Up { up } = &mut self.state else {
            return Err(StartFault::NodeDown);
        };
        let number = up.flows().count();
        let step = up.begin(alloc, &self.identity, now, class, args)?;
        if up.is_full(0) {
            drop(step);
            return Err(StartFault::Full);
        }
        match up.commit_alone(alloc, &self.identity, now, step) {
            Ok(()) => Ok(number),
            Err(CommitFault::Memory) => Err(StartFault::Memory),
            Err(CommitFault::Fault) => {
                go_down(&mut self.state);
                Err(StartFault::Fault)
            }
        }
    }

    /// Lets the picked flow go on, or the one with the least number that can, at a moment that is no less than that of the last
    /// cause. It looks at live flows alone. A transaction that the flow has judged or recorded is judged by these contracts at once.
    /// What flows send is listed by `unacked`.
    ///
    /// # Errors
    ///
    /// `NodeDown` exactly where the node is down; `Full` exactly where a flow can go on and the journal is full or the last stamp was
    /// given; `Memory`; `Fault` only where the disk's count of faults rose, and the node is then down. After any but `Fault` nothing
    /// has changed.
    pub fn turn_whole<J: Judge>(
        &mut self,
        alloc: Global,
        now: Moment,
        pick: Option<u32>,
        contracts: &J,
    ) -> Result<Turned, TurnFault>
        requires { IsBy F.reading self.old.journal now.0 }
        ensures turn { TurnAnswers (environment
            (meaning F.machine F.reading (J.judges contracts.now)) self.old.identity) now.0 pick
            self.old result self.new }
        ensures by { IsBy F.reading self.new.journal now.0 }
    {
        let State::Up { up } = &mut self.state else {
            return Err(TurnFault::NodeDown);
        };
        let Some(picked) = up.pick(now, pick) else {
            return Ok(Turned::Idle);
        };
        if up.is_full(0) {
            return Err(TurnFault::Full);
        }
        let flow = flow_in(&picked.event);
        match up.go_on(alloc, &self.identity, now, picked, contracts) {
            Ok(()) => Ok(Turned::Moved { flow }),
            Err(CommitFault::Memory) => Err(TurnFault::Memory),
            Err(CommitFault::Fault) => {
                go_down(&mut self.state);
                Err(TurnFault::Fault)
            }
        }
    }

    /// Lets the picked flow go on, or the one with the least number that can, as `turn_whole` does; but a flow that waits for a job is
    /// not moved: its job is handed out. Flows that wait for a job that is out are passed over.
    pub(crate) fn turn_beside(
        &mut self,
        alloc: Global,
        now: Moment,
        pick: Option<u32>,
        claims: &[u32],
    ) -> Result<SharedTurn, TurnFault>
        requires { IsBy F.reading self.old.journal now.0 }
        ensures turn { (judge : Judgement)
            → TurnAnswersBeside (environment (meaning F.machine F.reading judge) self.old.identity)
            now.0 pick claims.now self.old result self.new }
        ensures by { IsBy F.reading self.new.journal now.0 }
    {
        let State::Up { up } = &mut self.state else {
            return Err(TurnFault::NodeDown);
        };
        let Some(picked) = up.pick_free(&self.identity, claims, now, pick) else {
            return Ok(SharedTurn::Idle);
        };
        if up.awaits(&self.identity, &picked.event) {
            let Ok(job) = up.hand_out(alloc, &self.identity, now, &picked.event) else {
                return Err(TurnFault::Memory);
            };
            return Ok(SharedTurn::Job { job });
        }
        if up.is_full(0) {
            return Err(TurnFault::Full);
        }
        let flow = flow_in(&picked.event);
        match up.go_on_free(alloc, &self.identity, now, picked) {
            Ok(()) => Ok(SharedTurn::Moved { flow }),
            Err(CommitFault::Memory) => Err(TurnFault::Memory),
            Err(CommitFault::Fault) => {
                go_down(&mut self.state);
                Err(TurnFault::Fault)
            }
        }
    }

    /// Lets the flow go on whose job was run over these contracts, at a moment that is no less than that of the last cause, and gives
    /// the flow. What may have changed since the job was handed out is asked again: the record is the machine's step as it is now.
    ///
    /// # Errors
    ///
    /// `NodeDown` exactly where the node is down; `Stale` exactly where the flow isn't live or is at another step than the job's;
    /// `Foreign` exactly where it is at that step and doesn't wait for just this job; `Full` exactly where it does and the journal is
    /// full or the last stamp was given; `Memory`; `Fault` only where the disk's count of faults rose, and the node is then down. After
    /// any but `Fault` nothing has changed.
    pub fn settle<J: Judge>(
        &mut self,
        alloc: Global,
        now: Moment,
        done: Done,
        contracts: &J,
    ) -> Result<u32, SettleFault>
        requires by { IsBy F.reading self.old.journal now.0 }
        requires run { IsRun (J.judges contracts.now) keyed_mark done }
        ensures settle { SettleAnswers (environment
            (meaning F.machine F.reading (J.judges contracts.now)) self.old.identity) now.0
            done.job self.old result self.new }
        ensures by { IsBy F.reading self.new.journal now.0 }
    {
        let State::Up { up } = &mut self.state else {
            drop(done);
            return Err(SettleFault::NodeDown);
        };
        if let Err(why) = up.check(&self.identity, &done.job) {
            drop(done);
            return Err(why);
        }
        if up.is_full(0) {
            drop(done);
            return Err(SettleFault::Full);
        }
        let flow = done.job.flow;
        match up.settle(alloc, &self.identity, now, done, contracts) {
            Ok(()) => Ok(flow),
            Err(CommitFault::Memory) => Err(SettleFault::Memory),
            Err(CommitFault::Fault) => {
                go_down(&mut self.state);
                Err(SettleFault::Fault)
            }
        }
    }

    /// Takes the frame that the bytes are, at a moment that is no less than that of the last cause. An item that comes next of its
    /// session is committed, by which a flow may begin; its stamp is no greater than the record's. An acknowledgement is noted until the
    /// node goes down. With `Took` and `Again` comes an acknowledgement to send.
    ///
    /// # Errors
    ///
    /// `NodeDown` exactly where the node is down; then `Garbled` exactly where the bytes are no frame, and `NotMine` exactly where the
    /// frame is for another. `Full` exactly where its item would be committed and the journal is full, or the last stamp was given,
    /// by the node or by the frame's sender. `Memory`, before anything is written. `Fault` only where the disk's count of faults
    /// rose, and the node is then down. After any but `Fault` nothing has changed.
    pub fn take(&mut self, alloc: Global, now: Moment, bytes: &[u8]) -> Result<Taken, TakeFault>
        requires { IsBy F.reading self.old.journal now.0 }
        ensures take { TakeAnswers (environment (unjudged F.machine F.reading) self.old.identity)
            now.0 bytes.now self.old result self.new }
        ensures by { IsBy F.reading self.new.journal now.0 }
    {
        let State::Up { up } = &mut self.state else {
            return Err(TakeFault::NodeDown);
        };
        let answer = up.take(alloc, &self.identity, now, bytes);
        if is_fault(&answer) {
            go_down(&mut self.state);
        }
        answer
    }
}

impl<D: Bay, F: Spelt + Drop> Node<D, F> {
    /// Cuts the disk's power now, where `calls` is 0, and takes the node down; or else lets it go at the write or sync that comes as
    /// number `calls` from now. The outcome, 0 to 3, says what is left of what was written since the last sync.
    ///
    /// # Errors
    ///
    /// `NodeDown` exactly where the node is down, `NoFuse` exactly where its disk is a file. Nothing changed then.
    pub fn cut_power(&mut self, calls: u64, outcome: u8) -> Result<(), CutFault>
        requires { outcome ≤ 3 }
        ensures { CutAnswers calls outcome self.old result self.new }
    {
        let State::Up { up } = &mut self.state else {
            return Err(CutFault::NodeDown);
        };
        if up.arm(calls.max(1), outcome).is_err() {
            return Err(CutFault::NoFuse);
        }
        if calls == 0 {
            go_down(&mut self.state);
            cut_now(&mut self.state, outcome);
        }
        Ok(())
    }

    /// Ends a cut of the disk's power, and disarms a fuse. A disk in memory is calm afterwards, and a file that was calm stays so.
    pub fn restore_power(&mut self)
        requires { self.old.journal ≡ None }
        ensures journal { self.new.journal ≡ None }
        ensures identity { self.new.identity ≡ self.old.identity }
        ensures disk { self.new.disk ≡ record self.old.disk {
          power = true;
          fuse = None;
          calm = self.new.disk.calm;
        } }
        ensures calm { self.old.disk.of_file ≡ false → self.new.disk.calm ≡ true }
        ensures stays_calm { self.old.disk.calm ≡ true → self.new.disk.calm ≡ true }
    {
        match &mut self.state {
            State::Down { disk } => disk.restore_power(),
            _ => unreachable!(),
        }
    }
}

/// Whether the disk failed.
fn is_fault(answer: &Result<Taken, TakeFault>) -> bool
    ensures { result ≡ is_fault answer.now }
{
    match answer {
        Err(TakeFault::Fault) => true,
        _ => false,
    }
}

/// Cuts the power of a node's disk, which is no file.
fn cut_now<D: Bay, F: Spelt + Drop>(state: &mut State<D, F>, outcome: u8)
    requires outcome { outcome ≤ 3 }
    requires down { IsDown state.old }
    requires memory { (disk_in D.seen state.old).of_file ≡ false }
    ensures cut { CutsNow outcome (disk_in D.seen state.old) (disk_in D.seen state.new) }
    ensures down { IsDown state.new }
{
    match state {
        State::Down { disk } => {
            let _ = disk.cut_power(0, outcome);
        }
        _ => unreachable!(),
    }
}

/// Takes a node down: its disk comes out of the journal.
fn go_down<D: Disk, F: Spelt + Drop>(state: &mut State<D, F>)
    requires { IsSome (journal_in state.old) }
    ensures disk { disk_in D.seen state.new ≡ disk_in D.seen state.old }
    ensures down { IsDown state.new }
{
    let disk = take_up(state).into_disk();
    put(state, State::Down { disk });
}

/// Takes out what is up.
fn take_up<D: Disk, F: Spelt + Drop>(state: &mut State<D, F>) -> Up<D, F>
    requires { IsSome (journal_in state.old) }
    ensures { state.old ≡ State.Up result }
{
    match mem::replace(state, State::Moved) {
        State::Up { up } => up,
        _ => unreachable!(),
    }
}

/// Takes out the disk of a node that is down.
fn take_disk<D: Disk, F: Spelt + Drop>(state: &mut State<D, F>) -> D
    requires { IsDown state.old }
    ensures { state.old ≡ State.Down result }
{
    match mem::replace(state, State::Moved) {
        State::Down { disk } => disk,
        _ => unreachable!(),
    }
}

/// What a boot makes of a disk: it is up on its journal, or down as before.
fn opened<D: Disk, F: Spelt + Drop>(
    alloc: Global,
    disk: D,
    identity: Identity,
) -> (State<D, F>, Result<(), BootFault>)
    requires { IsIdentity identity }
    ensures whole { IsWhole identity result.0 }
    ensures boots { BootsAs F.reading (seen_over identity (D.seen disk)) result.1
        (seen_in D.seen identity result.0) }
{
    match Up::open(alloc, disk, identity) {
        Ok(up) => (State::Up { up }, Ok(())),
        Err(refused) => (State::Down { disk: refused.disk }, Err(refused.why)),
    }
}

/// Puts a value where another one was, which is let go.
fn put<T: Drop>(place: &mut T, value: T)
    ensures { place.new ≡ value }
{
    *place = value;
}
