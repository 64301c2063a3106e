//! The tables of a node.

ghost use Rattle.std.specs.Prelude.{◌≡◌, ◌++◌, ◌∷◌, [], ◌<◌, ◌≤◌, ◌^◌, ◌+◌, ◌-◌, ◌&&◌, ◌==◌, is_none, OnOk, IfOk, IfSome, length, nat_lt, nat_le, Some, None, true, false, ℕ};
ghost use Rattle.std.specs.List.{AllByRecursion};
ghost use Rattle.net_base.specs.Names.{IsKey};
ghost use Rattle.checkpoints.specs.Tables.{IsNumbered};
ghost use Rattle.session_wire.specs.Sessions.{Session, session_of};
ghost use Rattle.session_wire.specs.Rules.{is_new_key, sessions_of, IsHeld};
ghost use Rattle.session_table.specs.Changes.{room_for};
ghost use Rattle.session_table.specs.Tables.{raised};
ghost use Rattle.session_frames.specs.Lawful.{AreLawful};
ghost use Rattle.net_model.specs.State.{flow_of};
ghost use Rattle.net_model.specs.Fits.{IsSound};
ghost use Rattle.net_model.specs.Sound.{AreNumbered, steps_of};
ghost use Rattle.flow_records.specs.declared.step.FlowAfter.{FlowAfter as After};
ghost use Rattle.flow_records.specs.Records.{record_of, IsFlow};
ghost use Rattle.flow_records.specs.Steps.{part_after, whole_part, effect_by, step_record, IsStep};
ghost use Rattle.ledger_tables.specs.Ledgers.{HasRecordRoom, HasEntryRoom};
ghost use Rattle.node_ledger.specs.Ledgered.{ledger_in, HoldsLedger, KeepsLedger};
ghost use Rattle.node_tables.specs.Journals.{state_of, causes_of};
ghost use Rattle.node_tables.specs.Fits.{rises, is_no_flow, only_accepts, arrives_in, fits_event, may_open, made_by, begun_by, fits_ledger, fits};
ghost use Rattle.node_tables.specs.Seen.{flows_after, padded, HasRooms, IsRead};

use crate::fitting::{
    LAST_STAMP, accepts_init, goes_on, is_lawful_item, is_new_flow, is_no_flow, made_by, rises,
};
use crate::roomy::Roomy;
use crate::trace::Trace;
use checkpoints::Flows;
use flow_records::{FlowAfter, Step, read_step};
use ledger_tables::LedgerTables;
use ledger_types::LedgerChange;
use net_base::{ByteList, Cause, Event, Key, Moment, Party, Spelt};
use node_ledger::{add_change, change_fits, make_change_room, new_ledger};
use session_table::Sessions;
use session_wire::SessionChange;
use std::alloc::{AllocError, Global};
use std::marker::Model;

/// The tables of a node, seen as the bodies of its records: all else is what these make, but how many of the items that it sent are
/// acknowledged. Nothing is asked of frames but how they are spelt, so no flow is resumed here. The bodies themselves are seen by
/// contracts alone, and stand on the disk, not in memory.
#[derive(Drop)]
pub struct NodeTables<F: Spelt + Drop> {
    party: Party,
    nodes: u8,
    notary: Party,
    bodies: Trace<ByteList>,
    causes: Roomy<Cause>,
    flows: Flows<F>,
    sessions: Sessions,
    ledger: LedgerTables,
    stamp: u64,
    moment: Moment,
}

impl<F: Spelt + Drop> Model for NodeTables<F> {
    ghost use Rattle.std.specs.Prelude.{◌≡◌, ◌≤◌, ◌&&◌, nat_lt, length, if◌then◌else◌};
    ghost use Rattle.node_tables.specs.Seen.{TablesSeen, Keeps};
    ghost use Rattle.node_tables.specs.Journals.{state_of};
    ghost use Rattle.node_ledger.specs.Ledgered.{ledger_in, HoldsLedger};

    ghost Value = { TablesSeen };

    ghost view = { λ t. record {
      party = t.party;
      nodes = t.nodes;
      notary = t.notary;
      rooms = record {
        store = t.ledger.store.room;
        vault = t.ledger.vault.room;
        book = t.ledger.book.room;
      };
      bodies = t.bodies;
      acked = t.sessions.acked;
      room = if nat_lt 0 t.causes.room && nat_lt 0 t.flows.room then t.sessions.room else 0;
    } };

    ghost invariant = { λ t. (t.sessions.party ≡ t.party)
        × Keeps t.party F.reading F.within t.bodies t.causes.items
        (ledger_in (state_of F.reading t.bodies)) t.flows.flows t.sessions.list t.stamp t.moment.0
        × (t.nodes ≤ 16) × (length t.sessions.acked ≡ length t.sessions.list)
        × HoldsLedger t.party (ledger_in (state_of F.reading t.bodies)) t.ledger };
}

impl<F: Spelt + Drop> NodeTables<F> {
    /// The tables of a node to which nothing has happened. A network has 16 nodes at most. Takes no memory.
    pub fn new(alloc: Global, party: Party, nodes: u8, notary: Party) -> NodeTables<F>
        requires party { party.0 < 16 }
        requires nodes { nodes ≤ 16 }
        ensures party { result.party ≡ party }
        ensures nodes { result.nodes ≡ nodes }
        ensures notary { result.notary ≡ notary }
        ensures bodies { result.bodies ≡ [] }
        ensures acked { result.acked ≡ [] }
    {
        NodeTables {
            party,
            nodes,
            notary,
            bodies: Trace::new(),
            causes: Roomy::new(alloc),
            flows: Flows::new(alloc),
            sessions: Sessions::new(alloc, party),
            ledger: new_ledger(alloc, party),
            stamp: 0,
            moment: Moment(0),
        }
    }

    /// Makes room for one more record, which changes this of the sessions and this of the ledger. Want of memory leaves the tables as
    /// they were.
    pub fn make_room(
        &mut self,
        alloc: Global,
        change: &SessionChange,
        ledger: &LedgerChange,
    ) -> Result<(), AllocError>
        ensures party { self.new.party ≡ self.old.party }
        ensures nodes { self.new.nodes ≡ self.old.nodes }
        ensures notary { self.new.notary ≡ self.old.notary }
        ensures bodies { self.new.bodies ≡ self.old.bodies }
        ensures acked { self.new.acked ≡ self.old.acked }
        ensures room { OnOk result (room_for change.now ≤ self.new.room) }
        ensures rooms { OnOk result (HasRooms ledger.now self.new.rooms) }
    {
        make_all_room(
            alloc,
            &mut self.causes,
            &mut self.flows,
            &mut self.sessions,
            &mut self.ledger,
            change,
            ledger,
        )
    }

    /// Whether a record fits here: whether its cause and what it makes of a flow and of the sessions follow on what there is.
    pub fn fits(&self, step: &Step<F>) -> bool
        requires { IsStep F.within step.now }
        ensures { result ≡ fits self.now.notary self.now.nodes self.now.party
            (state_of F.reading self.now.bodies) (step_record step.now) }
    {
        rises(self.stamp, self.moment, &step.cause)
            && (self.fits_event(step)
                && (self.may_open(step)
                    && (self.sessions.fits(&step.session) && self.fits_ledger(step))))
    }

    /// Whether what the record changes of the ledger fits.
    fn fits_ledger(&self, step: &Step<F>) -> bool
        requires { IsStep F.within step.now }
        ensures { result ≡ fits_ledger self.now.notary self.now.party
            (state_of F.reading self.now.bodies) (whole_part step.now.session step.now.ledger) }
    {
        change_fits(&self.ledger, self.notary, &step.ledger)
    }

    /// Whether the effect is one that such an event may have.
    fn fits_event(&self, step: &Step<F>) -> bool
        ensures { result ≡ fits_event self.now.nodes self.now.party
            (state_of F.reading self.now.bodies) step.now.cause.event
            (effect_by step.now.flow step.now.session step.now.ledger) }
    {
        let came = &step.session.came;
        match &step.cause.event {
            Event::Start { flow, class, .. } => {
                *flow == self.flows.count()
                    && (is_new_flow(*flow, *class, &step.flow) && came.is_none())
            }
            Event::Answer { key } => {
                let sent = step.session.sent.as_slice();
                self.is_new_key(key)
                    && accepts_init(self.flows.count(), key, &step.flow, sent, came)
            }
            Event::Arrive {
                key,
                direction,
                number,
            } => self.arrives(key, *direction, *number, step),
            Event::Move { flow } | Event::Lapse { flow } => {
                goes_on(&self.flows, *flow, &step.flow) && came.is_none()
            }
        }
    }

    /// Whether a key is new here, and its initiator is another node of the network.
    fn is_new_key(&self, key: &Key) -> bool
        ensures { result ≡ is_new_key self.now.nodes self.now.party
            (state_of F.reading self.now.bodies).sessions key.now }
    {
        let from = key.initiator.0;
        self.sessions.peer(key).is_none() && !(from == self.party.0 || self.nodes <= from)
    }

    /// Whether an item comes next in the session of the key, if it stands, and nothing else happens.
    fn arrives(&self, key: &Key, direction: u8, number: u32, step: &Step<F>) -> bool
        ensures { result ≡ arrives_in self.now.party key.now direction number
            (effect_by step.now.flow step.now.session step.now.ledger)
            (session_of key.now (state_of F.reading self.now.bodies).sessions) }
    {
        match self.sessions.expected(key, direction) {
            Some(next) => {
                number == next
                    && (is_lawful_item(direction, number, &step.session.came) && only_accepts(step))
            }
            None => false,
        }
    }

    /// Whether the flow that opens a session, if one does, opens it with a node of the network and owns 64 sessions at most with it.
    fn may_open(&self, step: &Step<F>) -> bool
        requires { IsStep F.within step.now }
        ensures { result ≡ may_open self.now.nodes
            (begun_by step.now.cause (effect_by step.now.flow step.now.session step.now.ledger)
            (state_of F.reading self.now.bodies).sessions)
            (flow_of (part_after step.now.flow)) step.now.session.opened }
    {
        match &step.session.opened {
            Some((_, peer)) => self.owns_few(*peer, &step.cause.event, &step.flow),
            None => true,
        }
    }

    /// Whether the peer is a node of the network, and the flow owns 64 sessions at most once the event and an opening made theirs.
    fn owns_few(&self, peer: Party, event: &Event, after: &Option<FlowAfter<F>>) -> bool
        ensures none { after.now ≡ None → result ≡ false }
        ensures some { (flow : After F) → after.now ≡ Some flow
            → result ≡ (nat_lt peer.0 self.now.nodes
            && nat_le (length (sessions_of flow.number
            (state_of F.reading self.now.bodies).sessions) + made_by event.now + 1) 64) }
    {
        match after {
            Some(flow) => {
                let owned = self.sessions.count_of_flow(flow.number) as u64;
                peer.0 < self.nodes && owned + made_by(event) + 1 <= 64
            }
            None => false,
        }
    }

    /// What a body is read as here: a record that fits, or none.
    ///
    /// # Errors
    ///
    /// Want of memory.
    pub fn read(&self, alloc: Global, body: &[u8]) -> Result<Option<Step<F>>, AllocError>
        ensures { IfOk result (λ r. IsRead self.now.notary self.now.nodes self.now.party F.reading
            F.within (state_of F.reading self.now.bodies) body.now r) }
    {
        let Some(step) = read_step::<F>(alloc, body)? else {
            return Ok(None);
        };
        let known = with_id(alloc, step)?;
        if self.fits(&known) {
            return Ok(Some(known));
        }
        let_go(known);
        Ok(None)
    }

    /// Takes a record that fits, in the room that was made.
    pub fn add(&mut self, body: ByteList, step: Step<F>)
        requires room { room_for step.session ≤ self.old.room }
        requires rooms { HasRooms step.ledger self.old.rooms }
        requires few { length self.old.bodies < 65536 }
        requires reads { record_of F.reading body ≡ Some (step_record step) }
        requires fits { fits self.old.notary self.old.nodes self.old.party
            (state_of F.reading self.old.bodies) (step_record step) ≡ true }
        requires limits { IsStep F.within step }
        ensures party { self.new.party ≡ self.old.party }
        ensures nodes { self.new.nodes ≡ self.old.nodes }
        ensures notary { self.new.notary ≡ self.old.notary }
        ensures bodies { self.new.bodies ≡ self.old.bodies ++ body ∷ [] }
        ensures acked { self.new.acked ≡ padded self.old.acked
            (state_of F.reading self.new.bodies).sessions }
    {
        let Step {
            cause,
            flow,
            session,
            ledger,
        } = step;
        let stamp = cause.stamp;
        self.stamp = stamp;
        self.moment = cause.moment;
        self.causes.add(cause);
        self.bodies.add(&body);
        self.sessions.apply(session, stamp);
        set_flow(&mut self.flows, flow);
        add_change::<F>(&mut self.ledger, self.notary, ledger);
    }

    /// Raises the number of acknowledged items of the session to `upto`, and never lowers it. Items of the direction in which this
    /// node sends nothing are never acknowledged, nor are those of a session that doesn't stand.
    pub fn acknowledge(&mut self, key: &Key, direction: u8, upto: u32)
        requires { (s : Session) → session_of key.now (state_of F.reading self.old.bodies).sessions
            ≡ Some s → upto ≤ length s.sent }
        ensures party { self.new.party ≡ self.old.party }
        ensures nodes { self.new.nodes ≡ self.old.nodes }
        ensures notary { self.new.notary ≡ self.old.notary }
        ensures bodies { self.new.bodies ≡ self.old.bodies }
        ensures acked { self.new.acked ≡ raised self.old.party key.now direction upto
            (state_of F.reading self.old.bodies).sessions self.old.acked }
    {
        self.sessions.acknowledge(key, direction, upto);
    }

    /// The node's party.
    pub fn party(&self) -> Party
        ensures { result ≡ self.now.party }
    {
        self.party
    }

    /// The network's notary.
    pub fn notary(&self) -> Party
        ensures { result ≡ self.now.notary }
    {
        self.notary
    }

    /// The ledger: what is recorded, locked and booked.
    pub fn ledger(&self) -> &LedgerTables
        ensures { HoldsLedger self.now.party
            (ledger_in (state_of F.reading self.now.bodies)) result.now }
    {
        &self.ledger
    }

    /// How many nodes the network has.
    pub fn nodes(&self) -> u8
        ensures { result ≡ self.now.nodes }
    {
        self.nodes
    }

    /// Whether the last stamp was given.
    pub fn is_late(&self) -> bool
        ensures { result ≡ nat_le (2 ^ 63 - 1) (state_of F.reading self.now.bodies).stamp }
    {
        self.stamp >= LAST_STAMP
    }

    /// The stamp of the last record, 0 before the first.
    pub fn stamp(&self) -> u64
        ensures same { result ≡ (state_of F.reading self.now.bodies).stamp }
        ensures small { result < 2 ^ 63 }
    {
        self.stamp
    }

    /// The moment of the last record, 0 before the first.
    pub fn last_moment(&self) -> Moment
        ensures { result.0 ≡ (state_of F.reading self.now.bodies).moment }
    {
        self.moment
    }

    /// The flows, by number.
    pub fn flows(&self) -> &Flows<F>
        ensures { result.now.flows ≡ (state_of F.reading self.now.bodies).flows }
    {
        &self.flows
    }

    /// The sessions, in order of making.
    pub fn sessions(&self) -> &Sessions
        ensures party { result.now.party ≡ self.now.party }
        ensures list { result.now.list ≡ (state_of F.reading self.now.bodies).sessions }
        ensures acked { result.now.acked ≡ self.now.acked }
    {
        &self.sessions
    }

    /// The causes, in order.
    pub fn causes(&self) -> &[Cause]
        ensures { result.now ≡ causes_of F.reading self.now.bodies }
    {
        self.causes.as_slice()
    }

    /// Tells a proof what the tables keep. It does nothing when it runs.
    pub fn law_kept(&self)
        ensures few { length self.now.bodies ≤ 65536 }
        ensures numbered { AreNumbered 0 (state_of F.reading self.now.bodies).flows }
        ensures sound { IsSound self.now.party.0 (state_of F.reading self.now.bodies) }
        ensures lawful { AreLawful self.now.party (state_of F.reading self.now.bodies).sessions }
        ensures owned { (f : ℕ) → length (sessions_of f
            (state_of F.reading self.now.bodies).sessions) ≤ 64 }
        ensures keys { AllByRecursion (λ session. IsKey session.key)
            (state_of F.reading self.now.bodies).sessions }
        ensures arrived { AllByRecursion IsHeld (state_of F.reading self.now.bodies).sessions }
        ensures few_came { AllByRecursion (λ session. length session.came ≤ length self.now.bodies)
            (state_of F.reading self.now.bodies).sessions }
        ensures late { (state_of F.reading self.now.bodies).stamp < 2 ^ 63 }
        ensures flows { length (state_of F.reading self.now.bodies).flows ≤ length self.now.bodies }
        ensures steps { AllByRecursion (λ flow. steps_of flow ≤ length self.now.bodies)
            (state_of F.reading self.now.bodies).flows }
        ensures limits { AllByRecursion (IsFlow F.within)
            (state_of F.reading self.now.bodies).flows }
        ensures network { self.now.nodes ≤ 16 }
    {
        let _ = &self.bodies;
    }
}

/// The step, the id of the transaction that it records beside that, since the tables ask for it more than once.
fn with_id<F: Spelt + Drop>(alloc: Global, step: Step<F>) -> Result<Step<F>, AllocError>
    requires { IsStep F.within step }
    ensures { IfOk result (λ s. s ≡ step) }
{
    let Step {
        cause,
        flow,
        session,
        ledger,
    } = step;
    match ledger.with_id(alloc) {
        Ok(ledger) => Ok(Step {
            cause,
            flow,
            session,
            ledger,
        }),
        Err(fault) => {
            drop(flow);
            drop(session);
            Err(fault)
        }
    }
}

/// Whether nothing was recorded, locked or booked.
fn leaves_ledger(change: &LedgerChange) -> bool
    ensures { result ≡ (is_none change.now.recorded
        && (length change.now.locked == 0 && is_none change.now.booked)) }
{
    change.recorded.is_none() && (change.locked.len() == 0 && change.booked.is_none())
}

/// Whether no flow changes, no session is opened, and nothing is sent, taken, recorded, locked or booked.
fn only_accepts<F>(step: &Step<F>) -> bool
    ensures { result ≡ only_accepts (effect_by step.now.flow step.now.session step.now.ledger) }
{
    is_no_flow(&step.flow)
        && (step.session.opened.is_none()
            && (step.session.sent.len() == 0
                && (step.session.taken.is_none() && leaves_ledger(&step.ledger))))
}

/// Makes room for one more record in each of the tables.
fn make_all_room<F: Drop>(
    alloc: Global,
    causes: &mut Roomy<Cause>,
    flows: &mut Flows<F>,
    sessions: &mut Sessions,
    ledger: &mut LedgerTables,
    session: &SessionChange,
    change: &LedgerChange,
) -> Result<(), AllocError>
    ensures causes { causes.new.items ≡ causes.old.items }
    ensures flows { flows.new.flows ≡ flows.old.flows }
    ensures party { sessions.new.party ≡ sessions.old.party }
    ensures list { sessions.new.list ≡ sessions.old.list }
    ensures acked { sessions.new.acked ≡ sessions.old.acked }
    ensures holds { KeepsLedger ledger.old ledger.new }
    ensures causes_room { OnOk result (0 < causes.new.room) }
    ensures flows_room { OnOk result (0 < flows.new.room) }
    ensures sessions_room { OnOk result (room_for session.now ≤ sessions.new.room) }
    ensures record_room { OnOk result (HasRecordRoom change.now.recorded ledger.new.store
        ledger.new.vault) }
    ensures entry_room { OnOk result (HasEntryRoom change.now.booked ledger.new.book) }
{
    causes.make_room()?;
    flows.make_room()?;
    sessions.make_room(alloc, session)?;
    make_change_room(alloc, ledger, change)
}

/// The flow is this one now, if one changed.
fn set_flow<F: Drop>(flows: &mut Flows<F>, after: Option<FlowAfter<F>>)
    requires room { 0 < flows.old.room }
    requires few { length flows.old.flows < 2 ^ 32 - 1 }
    requires place { IfSome after (λ flow. (flow.number ≤ length flows.old.flows)
        × IsNumbered flow.number flow.state) }
    ensures { flows.new.flows ≡ flows_after after flows.old.flows }
{
    if let Some(FlowAfter { number, state }) = after {
        flows.set(number, state);
    }
}

/// Lets a value go.
pub(crate) fn let_go<T: Drop>(value: T) {
    let _ = value;
}
