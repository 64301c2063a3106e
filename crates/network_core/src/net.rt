//! A network, and its steps.

ghost use Rattle.net_model.specs.Environment.{Judgement, meaning, unjudged};
ghost use Rattle.std.specs.Prelude.{◌≡◌, ◌≤◌, ◌<◌, List, ℕ, length, map, slice_get, Some, None, IsSome, IfOk, IfErr, true, false, [], vec_capacity};
ghost use Rattle.node_core.specs.Disks.{roomless};
ghost use Rattle.node_core.specs.Seen.{NodeSeen};
ghost use Rattle.network_core.specs.Worlds.{KeepsWorld};
ghost use Rattle.std.specs.List.{AllByRecursion};
ghost use Rattle.network_core.specs.Answers.{Answered, AtPlace, StartServes, TurnServes, PostServes, HandServes, LoseServes, CutServes, BootServes, ClockServes, BootClock, said};
ghost use Rattle.network_core.specs.Begins.{BeginsWorld, IsRefused, BootsUpTo, nodes_over as over_disks};
ghost use Rattle.network_core.specs.Drains.{Drains, Drives, room};
ghost use Rattle.network_core.specs.Parts.{IsNet, net_of};
ghost use Rattle.network_core.specs.Rounds.{DeliversAt, HandStops, HandsStop, InOrder, Posts, Round, RoundStops, StopsAt, Turns, TurnsAt, TurnsStop, drain_outcome, heard, joined, turned};
ghost use Rattle.network_core.specs.Following.{Serve, Follows, NetFollows, ServesPairs, FollowPairs};
ghost use Rattle.network_core.specs.declared.net.Turning.TheVariants as turning;

use super::begin::{BeginRefused, boot_all, disks_of, nodes_over};
use super::mail::{make_room, no_frames, send_all, settle};
use super::parts::NetParts;
use super::serving::{boot_at, cut_at, post_at, start_at, take_at, turn_at, waits_on};
use super::{Outcome, Refusal, Step};
use contract_verify::Judge;
use flow_machine::FlowSet;
use net_base::{ByteList, Moment, Party};
use node_core::{BootFault, Node};
use outside::Bay;
use std::alloc::{AllocError, Global};
use std::marker::Model;
use waiting_frames::Waiting;

/// A network: its nodes, in the order of their places, the frames that wait at each, and its moment.
///
/// Contracts see the nodes, the frames and the moment. A network that shows a coherent world goes to such a world by each step.
#[derive(Drop)]
pub struct Net<D: Bay, F: FlowSet> {
    nodes: Vec<Node<D, F>>,
    /// One list for each node.
    waiting: Vec<Waiting>,
    /// Without items, and with room for the disks of all nodes.
    spare: Vec<D>,
    now: Moment,
}

impl<D: Bay, F: FlowSet> Model for Net<D, F> {
    ghost use Rattle.std.specs.Prelude.{◌≡◌, ◌≤◌, [], length, map, vec_capacity};
    ghost use Rattle.std.specs.List.{AllByRecursion};
    ghost use Rattle.node_core.specs.Seen.{IsBy};
    ghost use Rattle.network_core.specs.Worlds.{NetSeen};

    ghost Value = { NetSeen };

    ghost view = { λ n. record {
      nodes = n.nodes.items;
      waiting = map (λ w. w.frames) n.waiting.items;
      now = n.now.0;
    } };

    ghost invariant = { λ n. AllByRecursion (λ k. IsBy F.reading k.journal n.now.0) n.nodes.items
        × (n.spare.items ≡ []) × (length n.nodes.items ≤ vec_capacity n.spare)
        × (length n.nodes.items ≤ 16) × (length n.waiting.items ≡ length n.nodes.items) };
}

impl<D: Bay, F: FlowSet> Net<D, F> {
    /// Boots the nodes of a network of 1 to 16, one over each disk in the order of their places. The moment is the greatest of their
    /// last causes', 0 without one, and no frame waits. A boot asks no contract, so what is said of worlds holds whatever contracts judge.
    ///
    /// # Errors
    ///
    /// The first boot that was refused; the nodes behind it were not booted. For want of memory also before all boots, and then as at
    /// node 0.
    pub fn begin(
        alloc: Global,
        nodes: u8,
        notary: Party,
        disks: Vec<D>,
    ) -> Result<Net<D, F>, BeginRefused<D>>
        requires nodes { nodes ≤ 16 }
        requires notary { notary.0 < nodes }
        requires disks { length disks.items ≡ nodes }
        ensures count { IfOk result (λ net. length net.nodes ≡ nodes) }
        ensures ok { IfOk result (λ net. (judge : Judgement)
            → BeginsWorld (meaning F.machine F.reading judge) nodes notary
            (map D.seen disks.items) net) }
        ensures boots { IfOk result (λ net.
            BootsUpTo F.reading nodes net.now (over_disks nodes notary 0
            (map D.seen disks.items)) net.nodes) }
        ensures waiting { IfOk result (λ net. net.waiting ≡ map (λ n. []) net.nodes) }
        ensures refused { IfErr result (λ r. (judge : Judgement)
            → IsRefused (meaning F.machine F.reading judge) nodes notary
            (map D.seen disks.items) r.node r.why (map D.seen r.disks.items)) }
    {
        let node = 0;
        let why = BootFault::Memory;
        let Ok(places) = Vec::with_capacity(alloc, disks.len()) else {
            return Err(BeginRefused { disks, node, why });
        };
        let Ok(spare) = Vec::with_capacity(alloc, disks.len()) else {
            return Err(BeginRefused { disks, node, why });
        };
        let Ok(lists) = Vec::with_capacity(alloc, disks.len()) else {
            return Err(BeginRefused { disks, node, why });
        };
        let mut places = nodes_over(nodes, notary, disks, places);
        match boot_all(alloc, &mut places) {
            Ok(now) => Ok(Net::from_parts(NetParts {
                waiting: no_frames(alloc, nodes as usize, lists),
                nodes: places,
                spare,
                now,
            })),
            Err(stopped) => Err(BeginRefused {
                disks: disks_of(places, spare),
                node: stopped.place,
                why: stopped.why,
            }),
        }
    }

    /// The nodes, in the order of their places.
    pub fn nodes(&self) -> &[Node<D, F>]
        ensures nodes { result.now ≡ self.entry.now.nodes }
        ensures few { length result.now ≤ 16 }
    {
        self.nodes.as_slice()
    }

    /// The moment.
    pub fn now(&self) -> Moment
        ensures { result.0 ≡ self.entry.now.now }
    {
        self.now
    }

    /// The disks of all nodes, in the order of their places.
    pub fn into_disks(self) -> Vec<D>
        ensures { map (λ d. roomless (D.seen d)) result.items ≡ map (λ n. n.disk) self.nodes }
    {
        let parts = self.into_parts();
        disks_of(parts.nodes, parts.spare)
    }

    /// Takes the network apart. Takes no memory.
    pub fn into_parts(self) -> NetParts<D, F>
        ensures same { self ≡ net_of result.nodes.items result.waiting.items result.now.0 }
        ensures whole { IsNet F.reading self }
        ensures empty { result.spare.items ≡ [] }
        ensures room { length result.nodes.items ≤ vec_capacity result.spare }
    {
        let Net {
            nodes,
            waiting,
            spare,
            now,
        } = self;
        NetParts {
            nodes,
            waiting,
            spare,
            now,
        }
    }

    /// The network of these parts. There are 16 nodes at most, each has a list of frames, and no cause of theirs is later than the moment;
    /// so it is with the parts of a network that was taken apart. Takes no memory.
    pub fn from_parts(parts: NetParts<D, F>) -> Net<D, F>
        requires whole { IsNet F.reading (net_of parts.nodes.items parts.waiting.items
            parts.now.0) }
        requires empty { parts.spare.items ≡ [] }
        requires room { length parts.nodes.items ≤ vec_capacity parts.spare }
        ensures { result ≡ net_of parts.nodes.items parts.waiting.items parts.now.0 }
    {
        Net {
            nodes: parts.nodes,
            waiting: parts.waiting,
            spare: parts.spare,
            now: parts.now,
        }
    }

    /// Makes one step, with these contracts for what has to be judged. Each answer has its cause, over any disks; over a coherent world it is also said what becomes of that world, and of
    /// a drain what becomes of both by each of its turns, posts and deliveries. So the laws of this crate say what power cuts may leave at
    /// every moment of the call (`calls_are_ways`, `kept_on_ways`).
    ///
    /// # Errors
    ///
    /// `AllocError` for want of memory. Nothing has changed then, but that a drain keeps what it did, and that a node that was to be
    /// booted has its power back.
    pub fn apply<J: Judge>(
        &mut self,
        alloc: Global,
        step: &Step,
        contracts: &J,
    ) -> Result<Outcome, AllocError>
        ensures serves { KeepsWorld (meaning F.machine F.reading (J.judges contracts.now)) self.old
            self.new (λ e w v. Serve e step.now w (said result) v) }
        ensures pairs { ServesPairs (meaning F.machine F.reading (J.judges contracts.now)) step.now
            (said result) self.old self.new }

        // Over any disks, also such as tell nothing, and whatever their journals hold.
        ensures answers { Answered (meaning F.machine F.reading (J.judges contracts.now)) step.now
            self.old result self.new }
        ensures count { length self.new.nodes ≡ length self.old.nodes }
    {
        match step {
            Step::Clock { to } => Ok(self.clock(*to)),
            Step::Start { node, class, args } => self.start(alloc, *node, *class, args),
            Step::Turn { node, pick } => self.turn(alloc, *node as usize, *pick, contracts),
            Step::Post { node } => self.post(alloc, *node as usize),
            Step::Deliver { node, at } => self.hand(alloc, *node as usize, *at as usize, false),
            Step::Repeat { node, at } => self.hand(alloc, *node as usize, *at as usize, true),
            Step::Lose { node, at } => self.lose(*node as usize, *at as usize),
            Step::Boot { node } => self.boot(alloc, *node),
            Step::Drain => match self.drain(alloc, contracts) {
                Ok(full) => Ok(Outcome::Drained { full }),
                Err(fault) => Err(fault),
            },
            Step::Cut {
                node,
                calls,
                outcome,
            } => {
                if *outcome > 3 {
                    return Ok(Outcome::Refused {
                        why: Refusal::Syntax,
                    });
                }
                self.cut(*node, *calls, *outcome)
            }
        }
    }

    /// Makes these steps, with these contracts for what has to be judged, as long as memory lasts, and adds their outcomes to the list, which has room for them. True exactly where
    /// each step has its outcome; else as many were made as the list has outcomes, and memory ran out in the next one. What is said of
    /// the worlds is also said of the networks with them, step by step.
    pub fn apply_all<J: Judge>(
        &mut self,
        alloc: Global,
        steps: &[Step],
        outcomes: &mut Vec<Outcome>,
        contracts: &J,
    ) -> bool
        requires { (outcomes.old.items ≡ []) × (length steps.now ≤ vec_capacity outcomes.old) }
        ensures worlds { KeepsWorld (meaning F.machine F.reading (J.judges contracts.now)) self.old
            self.new (λ e w v. Follows e steps.now outcomes.new.items result w v) }
        ensures pairs { FollowPairs (meaning F.machine F.reading (J.judges contracts.now)) steps.now
            outcomes.new.items result self.old self.new }

        // Over any disks, also such as tell nothing, and whatever their journals hold.
        ensures answers { NetFollows (meaning F.machine F.reading (J.judges contracts.now))
            steps.now outcomes.new.items result self.old self.new }
        ensures all { result ≡ true → length outcomes.new.items ≡ length steps.now }
        ensures fewer { result ≡ false → length outcomes.new.items < length steps.now }
        ensures count { length self.new.nodes ≡ length self.old.nodes }
    {
        'steps: for step in steps {
            let Ok(outcome) = self.apply(alloc, step, contracts) else {
                return false;
            };
            outcomes.push(outcome).unwrap();
        }
        true
    }

    /// Makes rounds, until one commits nothing: the answer is false. A round makes turns at each node in the order of places, until no flow of
    /// it can go on, its disk failed, or it is down; then it posts each node; then it delivers at each node one frame after another, until
    /// none is left of those that waited, or it is down. A turn or a delivery that meets a full journal ends all: the answer is true.
    ///
    /// Over a coherent world, where the answer is false, no flow at a node that is up can go on then, and what nodes that are up sent each
    /// other has arrived. The contracts are for what has to be judged, which only turns come to.
    ///
    /// # Errors
    ///
    /// `AllocError` for want of memory at a turn, a post or a delivery; what was done before it stays.
    pub fn drain<J: Judge>(&mut self, alloc: Global, contracts: &J) -> Result<bool, AllocError>
        ensures { Drains (meaning F.machine F.reading (J.judges contracts.now)) self.old
            (drain_outcome result) self.new }
    {
        'rounds: loop {
            match self.round(alloc, contracts)? {
                Turning::Quiet => return Ok(false),
                Turning::Full => return Ok(true),
                Turning::Moved => {}
            }
        }
    }

    /// Makes the turns, then the posts, then the deliveries, until something meets a full journal.
    fn round<J: Judge>(&mut self, alloc: Global, contracts: &J) -> Result<Turning, AllocError>
        ensures drives { Drives (meaning F.machine F.reading (J.judges contracts.now)) self.old
            self.new (λ W s w v. Turns result (Round s) (RoundStops s) w v) }
        ensures moved { IfOk result (λ t. t ≡ turning.Moved → room self.new < room self.old) }
    {
        let turns = self.turns(alloc, contracts)?;
        if is_full(turns) {
            return Ok(Turning::Full);
        }
        self.posts(alloc)?;
        let deliveries = self.deliveries(alloc)?;
        Ok(joined(turns, deliveries))
    }

    /// Makes the turns at each node in the order of places, until one meets a full journal.
    fn turns<J: Judge>(&mut self, alloc: Global, contracts: &J) -> Result<Turning, AllocError>
        ensures drives { Drives (meaning F.machine F.reading (J.judges contracts.now)) self.old
            self.new (λ W s w v. Turns result (InOrder (TurnsAt s) (s.count w)) (TurnsStop s) w v) }
        ensures moved { IfOk result (λ t. t ≡ turning.Moved → room self.new < room self.old) }
    {
        let mut any_moved = false;
        let count = self.nodes.len();
        'places: for place in 0..count {
            match self.turns_at(alloc, place, contracts)? {
                Turning::Quiet => {}
                Turning::Full => return Ok(Turning::Full),
                Turning::Moved => any_moved = true,
            }
        }
        Ok(turning_of(any_moved))
    }

    /// Makes turns at one node, until no flow of it can go on, its disk failed, or it is down; or until one meets a full journal.
    fn turns_at<J: Judge>(
        &mut self,
        alloc: Global,
        place: usize,
        contracts: &J,
    ) -> Result<Turning, AllocError>
        requires { place < length self.old.nodes }
        ensures drives { Drives (meaning F.machine F.reading (J.judges contracts.now)) self.old
            self.new (λ W s w v. Turns result (TurnsAt s place) (StopsAt s place) w v) }
        ensures moved { IfOk result (λ t. t ≡ turning.Moved → room self.new < room self.old) }
    {
        let mut moved = false;
        'turns: loop {
            let outcome = self.turn(alloc, place, None, contracts)?;
            match turned(outcome) {
                Turning::Quiet => return Ok(turning_of(moved)),
                Turning::Full => return Ok(Turning::Full),
                Turning::Moved => moved = true,
            }
        }
    }

    /// Posts each node, in the order of places. It asks no contract, so it is the same whatever they judge.
    fn posts(&mut self, alloc: Global) -> Result<(), AllocError>
        ensures { (judge : Judgement) → Drives (meaning F.machine F.reading judge) self.old self.new
            (λ W s w v. Posts s w result v) }
    {
        let count = self.nodes.len();
        'places: for place in 0..count {
            let _ = self.post(alloc, place)?;
        }
        Ok(())
    }

    /// Makes the deliveries at each node in the order of places, until one meets a full journal. They ask no contract.
    fn deliveries(&mut self, alloc: Global) -> Result<Turning, AllocError>
        ensures drives { (judge : Judgement)
            → Drives (meaning F.machine F.reading judge) self.old self.new
            (λ W s w v. Turns result (InOrder (DeliversAt s) (s.count w)) (HandsStop s) w v) }
        ensures moved { IfOk result (λ t. t ≡ turning.Moved → room self.new < room self.old) }
    {
        let mut any_moved = false;
        let count = self.nodes.len();
        'places: for place in 0..count {
            match self.deliveries_at(alloc, place)? {
                Turning::Quiet => {}
                Turning::Full => return Ok(Turning::Full),
                Turning::Moved => any_moved = true,
            }
        }
        Ok(turning_of(any_moved))
    }

    /// Delivers at one node the frames that wait there, one after another, as long as it is up; or until one meets a full journal. A node
    /// that takes a frame sends nothing to itself: so in a coherent world none waits in the end. A delivery asks no contract.
    fn deliveries_at(&mut self, alloc: Global, place: usize) -> Result<Turning, AllocError>
        requires { place < length self.old.nodes }
        ensures drives { (judge : Judgement)
            → Drives (meaning F.machine F.reading judge) self.old self.new
            (λ W s w v. Turns result (DeliversAt s place) (HandStops s place) w v) }
        ensures moved { IfOk result (λ t. t ≡ turning.Moved → room self.new < room self.old) }
    {
        let mut moved = false;
        let count = self.waiting[place].len();
        'frames: for _ in 0..count {
            let outcome = self.hand(alloc, place, 0, false)?;
            match heard(outcome) {
                Hearing::Over => return Ok(turning_of(moved)),
                Hearing::Full => return Ok(Turning::Full),
                Hearing::Noted => {}
                Hearing::Took => moved = true,
            }
        }
        Ok(turning_of(moved))
    }

    fn clock(&mut self, to: Moment) -> Outcome
        ensures { ClockServes to.0 self.old result self.new }
    {
        if to.0 < self.now.0 {
            return Outcome::Refused {
                why: Refusal::Backwards,
            };
        }
        self.now = to;
        Outcome::Fine
    }

    fn start(
        &mut self,
        alloc: Global,
        place: u8,
        class: u16,
        args: &ByteList,
    ) -> Result<Outcome, AllocError>
        ensures serves { AtPlace place self.old result self.new
            (λ n r k. StartServes (unjudged F.machine F.reading) self.old.now class args.now n r
            k) }
        ensures clock { self.new.now ≡ self.old.now }
    {
        let place = place as usize;
        if place >= self.nodes.len() {
            return Ok(Outcome::Refused {
                why: Refusal::UnknownNode,
            });
        }
        let now = self.now;
        let node = &mut self.nodes[place];
        start_at(alloc, node, now, class, args)
    }

    fn turn<J: Judge>(
        &mut self,
        alloc: Global,
        place: usize,
        pick: Option<u32>,
        contracts: &J,
    ) -> Result<Outcome, AllocError>
        ensures serves { AtPlace place self.old result self.new
            (λ n r k. TurnServes (meaning F.machine F.reading (J.judges contracts.now)) self.old.now
            pick n r k) }
        ensures clock { self.new.now ≡ self.old.now }
    {
        if place >= self.nodes.len() {
            return Ok(Outcome::Refused {
                why: Refusal::UnknownNode,
            });
        }
        let now = self.now;
        let node = &mut self.nodes[place];
        turn_at(alloc, node, now, pick, contracts)
    }

    fn post(&mut self, alloc: Global, place: usize) -> Result<Outcome, AllocError>
        ensures { PostServes F.reading place self.old result self.new }
    {
        if place >= self.nodes.len() {
            return Ok(Outcome::Refused {
                why: Refusal::UnknownNode,
            });
        }
        match post_at(alloc, &self.nodes[place])? {
            Some(frames) => {
                make_room(&mut self.waiting, frames.len())?;
                let count = send_all(&mut self.waiting, frames);
                Ok(Outcome::Posted { count })
            }
            None => Ok(Outcome::Refused {
                why: Refusal::NodeDown,
            }),
        }
    }

    /// Hands the frame at a place of a node to it, or a copy.
    fn hand(
        &mut self,
        alloc: Global,
        place: usize,
        at: usize,
        repeated: bool,
    ) -> Result<Outcome, AllocError>
        ensures { HandServes (unjudged F.machine F.reading) repeated place at self.old result
            self.new }
    {
        if place >= self.nodes.len() {
            return Ok(Outcome::Refused {
                why: Refusal::UnknownNode,
            });
        }
        if !self.nodes[place].is_up() {
            return Ok(Outcome::Refused {
                why: Refusal::NodeDown,
            });
        }
        if at >= self.waiting[place].len() {
            return Ok(Outcome::Refused {
                why: Refusal::NoFrame,
            });
        }
        self.hand_over(alloc, place, at, repeated)
    }

    /// Hands a frame that waits to its node. There is room for the acknowledgement before anything is committed.
    fn hand_over(
        &mut self,
        alloc: Global,
        place: usize,
        at: usize,
        repeated: bool,
    ) -> Result<Outcome, AllocError>
        requires node { (n : NodeSeen) × (slice_get self.old.nodes place ≡ Some n)
            × IsSome n.journal }
        requires frame { (frames : List (List ℕ)) × (slice_get self.old.waiting place ≡ Some frames)
            × (at < length frames) }
        ensures { HandServes (unjudged F.machine F.reading) repeated place at self.old result
            self.new }
    {
        make_room(&mut self.waiting, 1)?;
        let now = self.now;
        let bytes = self.waiting[place].get(at).unwrap();
        let node = &mut self.nodes[place];
        let delivery = take_at(alloc, node, now, bytes)?;
        let waits = waits_on(repeated, delivery.outcome);
        settle(&mut self.waiting, place, at, waits, delivery.ack);
        Ok(delivery.outcome)
    }

    fn lose(&mut self, place: usize, at: usize) -> Result<Outcome, AllocError>
        ensures { LoseServes place at self.old result self.new }
    {
        if place >= self.waiting.len() {
            return Ok(Outcome::Refused {
                why: Refusal::UnknownNode,
            });
        }
        match self.waiting[place].remove(at) {
            Some(_) => Ok(Outcome::Lost),
            None => Ok(Outcome::Refused {
                why: Refusal::NoFrame,
            }),
        }
    }

    fn boot(&mut self, alloc: Global, place: u8) -> Result<Outcome, AllocError>
        ensures serves { AtPlace place self.old result self.new
            (λ n r k. BootServes F.reading n r k) }
        ensures clock { BootClock F.reading place self.old result self.new }
    {
        let place = place as usize;
        if place >= self.nodes.len() {
            return Ok(Outcome::Refused {
                why: Refusal::UnknownNode,
            });
        }
        let node = &mut self.nodes[place];
        let outcome = boot_at(alloc, node);
        let last = node.last_moment();
        self.now = Moment(self.now.0.max(last.0));
        outcome
    }

    fn cut(&mut self, place: u8, calls: u64, outcome: u8) -> Result<Outcome, AllocError>
        requires { outcome ≤ 3 }
        ensures serves { AtPlace place self.old result self.new
            (λ n r k. CutServes calls outcome n r k) }
        ensures clock { self.new.now ≡ self.old.now }
    {
        let place = place as usize;
        if place >= self.nodes.len() {
            return Ok(Outcome::Refused {
                why: Refusal::UnknownNode,
            });
        }
        let node = &mut self.nodes[place];
        cut_at(node, calls, outcome)
    }
}

/// What turns or deliveries did: nothing was committed; something was; or the last met a full journal.
#[derive(Clone, Copy)]
pub enum Turning {
    Quiet,
    Moved,
    Full,
}

/// What one turn did, by its outcome.
fn turned(outcome: Outcome) -> Turning
    ensures { result ≡ turned outcome }
{
    match outcome {
        Outcome::Moved { .. } => Turning::Moved,
        Outcome::Refused { why: Refusal::Full } => Turning::Full,
        _ => Turning::Quiet,
    }
}

/// What one delivery did: no frame waits, or the node is down; the journal is full; a frame was taken away, and nothing was committed; or
/// a record was.
#[derive(Clone, Copy)]
pub enum Hearing {
    Over,
    Full,
    Noted,
    Took,
}

/// What one delivery did, by its outcome.
fn heard(outcome: Outcome) -> Hearing
    ensures { result ≡ heard outcome }
{
    match outcome {
        Outcome::Took { .. } => Hearing::Took,
        Outcome::Refused { why: Refusal::Full } => Hearing::Full,
        Outcome::Refused { .. } => Hearing::Over,
        _ => Hearing::Noted,
    }
}

/// Whether what was done met a full journal.
fn is_full(done: Turning) -> bool
    ensures full { result ≡ true → done ≡ turning.Full }
    ensures other { result ≡ false → done ≡ turning.Full → ⊥ }
{
    matches!(done, Turning::Full)
}

/// What turns and then deliveries did; the turns met no full journal.
fn joined(turns: Turning, deliveries: Turning) -> Turning
    ensures { result ≡ joined turns deliveries }
{
    match deliveries {
        Turning::Quiet => turns,
        _ => deliveries,
    }
}

/// What turns or deliveries did of which none met a full journal.
fn turning_of(moved: bool) -> Turning
    ensures moved { result ≡ turning.Moved → moved ≡ true }
    ensures quiet { result ≡ turning.Quiet → moved ≡ false }
    ensures more { result ≡ turning.Full → ⊥ }
{
    if moved {
        Turning::Moved
    } else {
        Turning::Quiet
    }
}
