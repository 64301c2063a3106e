//! A node that is up: its journal, and the tables that its records make.

ghost use Rattle.std.specs.Prelude.{◌≡◌, [], ◌<◌, ◌≤◌, ◌^◌, ◌+◌, ◌-◌, max, map, true, false, OnOk, OnErr, IfOk, IfErr, length, List, ℕ, Some, None, Option, IfSome, option_map};
ghost use Rattle.net_base.specs.Names.{IsIdentity};
ghost use Rattle.net_base.specs.declared.names.Identity.{Identity as OfIdentity};
ghost use Rattle.disk_journal.specs.Journal.{is_full_at};
ghost use Rattle.transition_record.specs.Changes.{session_text};
ghost use Rattle.session_wire.specs.Sessions.{Sent, Session, session_of};
ghost use Rattle.session_table.specs.Changes.{room_for};
ghost use Rattle.session_table.specs.Tables.{raised, unacked};
ghost use Rattle.session_frames.specs.Items.{GoesFurther, IsNextItem};
ghost use Rattle.session_frames.specs.Judging.{IsJudged};
ghost use Rattle.session_frames.specs.Sending.{AreMessages};
ghost use Rattle.flow_records.specs.Steps.{step_record, IsStep};
ghost use Rattle.net_model.specs.Environment.{Judgement, environment, meaning, unjudged};
ghost use Rattle.net_model.specs.Steps.{next_cause};
ghost use Rattle.flow_steps.specs.Ready.{IsBegun, IsReady};
ghost use Rattle.node_ledger.specs.Ledgered.{HoldsLedger, ledger_in};
ghost use Rattle.node_tables.specs.Journals.{state_of, causes_of};
ghost use Rattle.node_tables.specs.Seen.{padded, HasRooms};
ghost use Rattle.node_core.specs.Journals.{is_full};
ghost use Rattle.node_core.specs.Disks.{roomless};
ghost use Rattle.node_core.specs.Seen.{CommitsAs, LogsAs, MayCommit, Tied, Booted, Unbooted, picked_at};
ghost use Rattle.node_core.specs.Takes.{accepting, unacked_at};
ghost use Rattle.node_core.specs.Idle.{AreIdle};

use super::BootFault;
use super::faults::CommitFault;
use super::idle::{Idle, Picked};
use checkpoints::Flows;
use contract_verify::Judge;
use disk_journal::{AppendFault, Journal};
use flow_machine::{FlowSet, MakeFault};
use flow_records::{Step, spell_step};
use flow_steps::{advance, answer_init, arrive_item, begin, flow_in, pick_event, settle, take_job};
use ledger_tables::LedgerTables;
use net_base::{ByteList, Cause, Event, Identity, Key, Moment, Spelt, Unlimited};
use node_tables::{NodeTables, rebuild};
use outside::{Bay, Disk, NoFuse};
use session_frames::{Judged, OutgoingList, frames_to_send, judge};
use session_table::Item;
use std::alloc::{AllocError, Global};
use std::marker::Model;

/// No stamp is greater.
const LAST_STAMP: u64 = 9_223_372_036_854_775_807;

/// A node that is up. Its tables are those of the node whose journal it is.
#[derive(Drop)]
pub struct Up<D: Disk, F: Spelt + Drop> {
    journal: Journal<D>,
    pub(crate) tables: NodeTables<F>,
    // the flows that a turn need not look at
    pub(crate) idle: Idle,
}

impl<D: Disk, F: Spelt + Drop> Model for Up<D, F> {
    ghost use Rattle.std.specs.Prelude.{◌≡◌};
    ghost use Rattle.node_tables.specs.Journals.{state_of};
    ghost use Rattle.node_core.specs.Seen.{UpSeen};
    ghost use Rattle.node_core.specs.Idle.{AreIdle};

    ghost Value = { UpSeen };

    ghost view = { λ u. record {
      journal = u.journal;
      bodies = u.tables.bodies;
      acked = u.tables.acked;
    } };

    ghost invariant = { λ u. (u.tables.party ≡ u.journal.of.party)
        × (u.tables.nodes ≡ u.journal.of.nodes)
        × AreIdle (state_of F.reading u.tables.bodies) u.idle
        × (u.tables.notary ≡ u.journal.of.notary) };
}

/// A boot was refused; the disk comes back.
#[derive(Drop)]
pub struct BootRefused<D: Disk> {
    pub disk: D,
    pub why: BootFault,
}

impl<D: Disk, F: Spelt + Drop> Up<D, F> {
    /// Opens the journal, and rebuilds the tables from its records.
    pub fn open(alloc: Global, disk: D, identity: Identity) -> Result<Up<D, F>, BootRefused<D>>
        requires { IsIdentity identity }
        ensures ok { IfOk result (λ up. (list : List (ℕ × List ℕ))
            × (up.bodies ≡ map (λ x. x.1) list)
            × (up.acked ≡ padded [] (state_of F.reading up.bodies).sessions)
            × Booted F.reading identity (roomless (D.seen disk)) (roomless up.journal.disk) list
            × Tied identity up.journal up.bodies) }
        ensures refused { IfErr result (λ r.
            Unbooted F.reading identity (roomless (D.seen disk)) r.why
            (roomless (D.seen r.disk))) }
    {
        let (journal, list) = match Journal::open(alloc, disk, identity) {
            Ok(opened) => opened,
            Err(refused) => {
                return Err(BootRefused {
                    disk: refused.disk,
                    why: BootFault::from(refused.why),
                });
            }
        };
        match rebuild(alloc, identity.party, identity.nodes, identity.notary, list) {
            Ok(tables) => Ok(Up {
                journal,
                tables,
                idle: Idle::NONE,
            }),
            Err(why) => Err(BootRefused {
                disk: journal.into_disk(),
                why: BootFault::from(why),
            }),
        }
    }

    /// Whether the node takes no more records over an item of the stamp, 0 without one.
    pub fn is_full(&self, stamp: u64) -> bool
        ensures { (id : OfIdentity) → Tied id self.now.journal self.now.bodies
            → result ≡ is_full F.reading stamp self.now.bodies }
    {
        self.journal.is_full() || (self.tables.is_late() || stamp >= LAST_STAMP)
    }

    /// What the node says of the frame that the bytes are, or that they are none. The only error is want of memory.
    pub fn judge(
        &self,
        alloc: Global,
        identity: &Identity,
        bytes: &[u8],
    ) -> Result<Judged, AllocError>
        requires { Tied identity.now self.now.journal self.now.bodies }
        ensures judged { IfOk result (λ said.
            IsJudged identity.now (state_of F.reading self.now.bodies).sessions bytes.now
            said) }
        ensures further { IfOk result (λ said.
            GoesFurther identity.now (state_of F.reading self.now.bodies).sessions said) }
    {
        self.tables.law_kept();
        judge(alloc, identity, self.tables.sessions(), bytes)
    }

    /// Notes that `upto` items of a direction of a session arrived.
    pub fn acknowledge(&mut self, key: &Key, direction: u8, upto: u32)
        requires { (s : Session) → session_of key.now (state_of F.reading self.old.bodies).sessions
            ≡ Some s → upto ≤ length s.sent }
        ensures journal { self.new.journal ≡ self.old.journal }
        ensures bodies { self.new.bodies ≡ self.old.bodies }
        ensures acked { self.new.acked ≡ raised self.old.journal.of.party key.now direction upto
            (state_of F.reading self.old.bodies).sessions self.old.acked }
    {
        self.tables.acknowledge(key, direction, upto);
    }

    /// The messages of the items that aren't acknowledged. The only error is want of memory.
    pub fn unacked(&self, alloc: Global) -> Result<OutgoingList, AllocError>
        ensures list { IfOk result (λ frames. frames
            ≡ unacked_at F.reading self.now.journal.of.party self.now.bodies self.now.acked) }
        ensures messages { AreMessages self.now.journal.of.party
            (unacked self.now.journal.of.party
            (state_of F.reading self.now.bodies).sessions self.now.acked) }
    {
        self.tables.law_kept();
        frames_to_send(alloc, self.tables.party(), self.tables.sessions())
    }

    /// The disk; the node is up no more.
    pub fn into_disk(self) -> D
        ensures { D.seen result ≡ self.journal.disk }
    {
        let Up {
            journal,
            tables,
            idle,
        } = self;
        drop(tables);
        drop(idle);
        journal.into_disk()
    }

    /// The moment of the last record, 0 before the first.
    pub fn last_moment(&self) -> Moment
        ensures { result.0 ≡ (state_of F.reading self.now.bodies).moment }
    {
        self.tables.last_moment()
    }

    /// The flows, by number.
    pub fn flows(&self) -> &Flows<F>
        ensures { result.now.flows ≡ (state_of F.reading self.now.bodies).flows }
    {
        self.tables.flows()
    }

    /// What its records made of transactions, soft locks and entries.
    pub fn ledger(&self) -> &LedgerTables
        ensures { HoldsLedger self.now.journal.of.party
            (ledger_in (state_of F.reading self.now.bodies)) result.now }
    {
        self.tables.ledger()
    }

    /// The causes, in order.
    pub fn causes(&self) -> &[Cause]
        ensures { result.now ≡ causes_of F.reading self.now.bodies }
    {
        self.tables.causes()
    }
}

impl<D: Disk, F: FlowSet> Up<D, F> {
    /// The event by which the picked flow goes on, or the first that can, and the flows that were seen to be idle.
    pub fn pick(&self, now: Moment, pick: Option<u32>) -> Option<Picked>
        ensures event { (id : OfIdentity) → option_map (λ p. p.event) result
            ≡ picked_at (environment (unjudged F.machine F.reading) id) now.0 pick self.now.bodies }
        ensures idle { IfSome result (λ p. AreIdle (state_of F.reading self.now.bodies) p.idle) }
    {
        self.tables.law_kept();
        let flows = self.tables.flows();
        let sessions = self.tables.sessions();
        let event = pick_event(flows, sessions, now, pick, self.idle.below_at(now))?;
        let idle = match pick {
            Some(_) => self.idle,
            None => Idle {
                at: now,
                below: flow_in(&event),
            },
        };
        Some(Picked { event, idle })
    }

    /// The stamp of a record over an item of this stamp, 0 without one.
    pub fn next_stamp(&self, stamp: u64) -> u64
        requires { stamp < 2 ^ 63 }
        ensures { result ≡ max (state_of F.reading self.now.bodies).stamp stamp + 1 }
    {
        self.tables.stamp().max(stamp) + 1
    }

    /// The step by which a flow goes on, by this cause, whose event was picked. What it has judged is judged by these contracts. The only
    /// error is want of memory.
    fn advance<J: Judge>(
        &self,
        alloc: Global,
        identity: &Identity,
        cause: Cause,
        contracts: &J,
    ) -> Result<Step<F>, AllocError>
        requires tied { Tied identity.now self.now.journal self.now.bodies }
        requires picked { (pick : Option ℕ)
            × (picked_at (environment (unjudged F.machine F.reading) identity.now) cause.moment.0
            pick self.now.bodies ≡ Some cause.event) }
        ensures cause { IfOk result (λ step. step.cause ≡ cause) }
        ensures ready { IfOk result (λ step.
            IsReady (environment (meaning F.machine F.reading (J.judges contracts.now))
            identity.now) identity.now.party.0 cause.moment.0 F.within
            (state_of F.reading self.now.bodies) None step) }
    {
        self.tables.law_kept();
        let flows = self.tables.flows();
        let sessions = self.tables.sessions();
        let ledger = self.tables.ledger();
        match take_job(alloc, identity, ledger, flows, &cause.event) {
            Ok(Some(job)) => settle(alloc, identity, flows, cause, job.run(contracts)),
            Ok(None) => advance(alloc, identity, flows, sessions, ledger, cause),
            Err(fault) => Err(fault),
        }
    }

    /// Lets a flow go on by this event, which was picked. What it has judged is judged by these contracts.
    pub fn go_on<J: Judge>(
        &mut self,
        alloc: Global,
        identity: &Identity,
        now: Moment,
        picked: Picked,
        contracts: &J,
    ) -> Result<(), CommitFault>
        requires tied { Tied identity.now self.old.journal self.old.bodies }
        requires by { (state_of F.reading self.old.bodies).moment ≤ now.0 }
        requires room { is_full F.reading 0 self.old.bodies ≡ false }
        requires picked { (pick : Option ℕ)
            × (picked_at (environment (unjudged F.machine F.reading) identity.now) now.0 pick
            self.old.bodies ≡ Some picked.event) }
        requires idle { AreIdle (state_of F.reading self.old.bodies) picked.idle }
        ensures commits { CommitsAs (environment
            (meaning F.machine F.reading (J.judges contracts.now)) identity.now) identity.now
            now.0 picked.event None self.old result self.new }
        ensures by { (state_of F.reading self.new.bodies).moment ≤ now.0 }
    {
        let Picked { event, idle } = picked;
        self.idle = idle;
        let cause = Cause {
            stamp: self.next_stamp(0),
            moment: now,
            event,
        };
        let step = self.advance(alloc, identity, cause, contracts)?;
        self.commit(alloc, identity, now, step)
    }

    /// Commits a step over no item.
    pub fn commit_alone(
        &mut self,
        alloc: Global,
        identity: &Identity,
        now: Moment,
        step: Step<F>,
    ) -> Result<(), CommitFault>
        requires tied { Tied identity.now self.old.journal self.old.bodies }
        requires by { (state_of F.reading self.old.bodies).moment ≤ now.0 }
        requires room { is_full F.reading 0 self.old.bodies ≡ false }
        requires cause { step.cause ≡ next_cause
            (state_of F.reading self.old.bodies) now.0 step.cause.event None }
        requires ready { IsReady (environment (unjudged F.machine F.reading) identity.now)
            identity.now.party.0 now.0 F.within (state_of F.reading self.old.bodies) None step }
        ensures commits { CommitsAs (environment (unjudged F.machine F.reading) identity.now)
            identity.now now.0 step.cause.event None self.old result self.new }
        ensures by { (state_of F.reading self.new.bodies).moment ≤ now.0 }
    {
        self.commit(alloc, identity, now, step)
    }

    /// The step by which a flow of a class begins.
    pub fn begin(
        &self,
        alloc: Global,
        identity: &Identity,
        now: Moment,
        class: u16,
        args: &ByteList,
    ) -> Result<Step<F>, MakeFault>
        requires { IsIdentity identity.now }
        ensures { IsBegun (environment (unjudged F.machine F.reading) identity.now)
            identity.now.party.0 (max (state_of F.reading self.now.bodies).stamp 0 + 1) now F.within
            (state_of F.reading self.now.bodies) class args.now result }
    {
        begin(
            alloc,
            identity,
            self.tables.flows().count(),
            self.next_stamp(0),
            now,
            class,
            args,
        )
    }

    /// Tells a proof that an item which comes next has another number behind its own. It does nothing when it runs.
    pub fn law_known_next(&self, identity: &Identity, item: &Item)
        requires { IsNextItem identity.now
            (state_of F.reading self.now.bodies).sessions item.now.peer item.now.key
            item.now.direction item.now.number item.now.stamp item.now.body }
        ensures { item.now.number + 1 < 2 ^ 32 }
    {
        let _ = identity;
        let _ = item;
        self.tables.law_kept();
    }

    /// The step by which an item that comes next is accepted. The only error is want of memory.
    pub fn accepting(
        &self,
        alloc: Global,
        identity: &Identity,
        now: Moment,
        item: Item,
    ) -> Result<Step<F>, AllocError>
        requires identity { IsIdentity identity.now }
        requires next { IsNextItem identity.now
            (state_of F.reading self.now.bodies).sessions item.peer item.key item.direction
            item.number item.stamp item.body }
        requires small { item.number + 1 < 2 ^ 32 }
        requires early { item.stamp < 2 ^ 63 }
        ensures cause { IfOk result (λ step. step.cause
            ≡ record {
              stamp = max (state_of F.reading self.now.bodies).stamp item.stamp + 1;
              moment = now;
              event = accepting (state_of F.reading self.now.bodies).sessions item.key
                  item.direction item.number;
            }) }
        ensures ready { IfOk result (λ step.
            IsReady (environment (unjudged F.machine F.reading) identity.now)
            identity.now.party.0 now.0 F.within (state_of F.reading self.now.bodies)
            (Some item.body) step) }
    {
        let stamp = self.next_stamp(item.stamp);
        let Item {
            peer: _,
            key,
            direction,
            number,
            stamp: _,
            body,
        } = item;
        if self.tables.sessions().peer(&key).is_some() {
            return Ok(arrive_item(alloc, stamp, now, key, direction, number, body));
        }
        let flow = self.tables.flows().count();
        answer_init(alloc, identity, flow, stamp, now, key, body)
    }

    /// Commits a step over an item, or over none: its record is appended to the journal, and then taken into the tables.
    pub fn commit(
        &mut self,
        alloc: Global,
        identity: &Identity,
        now: Moment,
        step: Step<F>,
    ) -> Result<(), CommitFault>
        requires tied { Tied identity.now self.old.journal self.old.bodies }
        requires by { (state_of F.reading self.old.bodies).moment ≤ now.0 }
        requires ready { (judge : Judgement) × (item : Option Sent)
            × MayCommit (environment (meaning F.machine F.reading judge) identity.now) identity.now
            now.0 F.within self.old.bodies item step }
        ensures commits { (judge : Judgement) (item : Option Sent)
            → MayCommit (environment (meaning F.machine F.reading judge) identity.now) identity.now
            now.0 F.within self.old.bodies item step
            → CommitsAs (environment (meaning F.machine F.reading judge) identity.now) identity.now
            now.0 step.cause.event item self.old result self.new }
        ensures by { (state_of F.reading self.new.bodies).moment ≤ now.0 }
    {
        self.tables.law_kept();
        now.law_known();
        let idle = self.idle.after(&step.cause.event);
        match log(alloc, &mut self.journal, &mut self.tables, &step) {
            Ok(body) => {
                self.tables.add(body, step);
                self.idle = idle;
                Ok(())
            }
            Err(fault) => {
                drop(step);
                Err(fault)
            }
        }
    }
}

impl<D: Bay, F: Spelt + Drop> Up<D, F> {
    /// Arms the fuse of the disk.
    pub fn arm(&mut self, calls: u64, outcome: u8) -> Result<(), NoFuse>
        requires calls { 0 < calls }
        requires outcome { outcome ≤ 3 }
        ensures file { OnErr result (self.old.journal.disk.of_file ≡ true) }
        ensures memory { OnOk result (self.old.journal.disk.of_file ≡ false) }
        ensures refused { OnErr result (self.new ≡ self.old) }
        ensures armed { OnOk result (self.new.journal.disk
            ≡ record self.old.journal.disk {
              fuse = Some (calls, outcome);
              calm = self.new.journal.disk.calm;
            }) }
        ensures bodies { self.new.bodies ≡ self.old.bodies }
        ensures acked { self.new.acked ≡ self.old.acked }
        ensures tied { (id : OfIdentity) → Tied id self.old.journal self.old.bodies
            → Tied id self.new.journal self.new.bodies }
    {
        self.journal.arm(calls, outcome)
    }
}

/// Appends the record of a step to the journal, and makes room for it in the tables. All memory is taken before the first write.
fn log<D: Disk, F: FlowSet>(
    alloc: Global,
    journal: &mut Journal<D>,
    tables: &mut NodeTables<F>,
    step: &Step<F>,
) -> Result<ByteList, CommitFault>
    requires tied { Tied journal.old.of journal.old tables.old.bodies }
    requires room { is_full_at journal.old.count journal.old.length ≡ false }
    requires limits { IsStep F.within step.now }
    requires short { length (session_text step.now.session) ≤ 50000 }
    ensures of { journal.new.of ≡ journal.old.of }
    ensures party { tables.new.party ≡ tables.old.party }
    ensures nodes { tables.new.nodes ≡ tables.old.nodes }
    ensures notary { tables.new.notary ≡ tables.old.notary }
    ensures rooms { OnOk result (HasRooms step.now.ledger tables.new.rooms) }
    ensures bodies { tables.new.bodies ≡ tables.old.bodies }
    ensures acked { tables.new.acked ≡ tables.old.acked }
    ensures room { OnOk result (room_for step.now.session ≤ tables.new.room) }
    ensures logs { LogsAs F.reading (step_record step.now) tables.old.bodies journal.old result
        journal.new }
{
    let body = spell_step(alloc, step)?;
    tables.make_room(alloc, &step.session, &step.ledger)?;
    journal.make_room(alloc, body.len())?;
    match journal.append(body.as_slice()) {
        Ok(()) => Ok(body),
        Err(AppendFault::Full) => unreachable!(),
        Err(AppendFault::Fault) => Err(CommitFault::Fault),
    }
}
