//! What lies under a node's lock.

ghost use Rattle.std.specs.Prelude.{◌≡◌, ◌+◌, [], map, slice_get, Some, if◌then◌else◌};
ghost use Rattle.std.specs.List.{AllByRecursion};
ghost use Rattle.signing.specs.Marks.{keyed_mark};
ghost use Rattle.wire_queue.specs.declared.rule.Seen.{Seen};
ghost use Rattle.wire_queue.specs.Wire.{fresh, IsIn};
ghost use Rattle.wire_rows.specs.Exchanges.{Exchanges};
ghost use Rattle.net_model.specs.Environment.{meaning};
ghost use Rattle.ledger_acts.specs.Jobs.{IsRun};
ghost use Rattle.node_core.specs.Seen.{IsBy};
ghost use Rattle.flow_workers.specs.Desks.{Kept};
ghost use Rattle.flow_workers.specs.Steps.{HandsOut, committed};

use super::board::{Board, Call};
use super::counts::{Turn, heard, settle_count, turn_count, turn_of};
use contract_verify::Judge;
use flow_machine::FlowSet;
use ledger_acts::Done;
use net_base::ByteList;
use node_core::{Node, SharedNode};
use outside::Disk;
use std::alloc::Global;
use std::marker::{Model, PhantomData};
use std::sync::Wait;
use wire_queue::{Inbox, InboxPass};
use wire_rows::{post_ack, post_back, post_first, pull_from};

/// How many frames a node sends at once, at most.
const AT_ONCE: usize = 8;

/// What lies under a node's lock: the node, with the jobs of its flows that are out, its place, its pass of each inbox in the order of
/// places, and how many records it committed in the call.
#[derive(Drop)]
pub struct Desk<J: Call, D: Disk, F: FlowSet> {
    node: SharedNode<D, F>,
    place: usize,
    passes: Vec<InboxPass>,
    commits: u64,
    of: PhantomData<J>,
}

impl<J: Call, D: Disk, F: FlowSet> Model for Desk<J, D, F> {
    ghost use Rattle.std.specs.Prelude.{◌≡◌, map};
    ghost use Rattle.net_model.specs.Environment.{meaning};
    ghost use Rattle.flow_workers.specs.Desks.{DeskSeen, Kept};

    ghost Value = { DeskSeen };

    ghost view = { λ d. record {
      place = d.place;
      node = d.node.node;
      seen = map (λ p. p.seen) d.passes.items;
      commits = d.commits;
    } };

    ghost invariant = { λ d. (map (λ p. p.of) d.passes.items ≡ J.inboxes)
        × Kept (meaning F.machine F.reading J.judge) J.now J.came d.place d.node.node
        (map (λ p. p.seen) d.passes.items) d.commits };
}

/// What came out from under a node's lock.
#[derive(Drop)]
pub struct Left<D: Disk, F: FlowSet> {
    pub place: usize,
    pub node: Node<D, F>,
    pub passes: Vec<InboxPass>,
    pub commits: u64,
}

impl<J: Call, D: Disk, F: FlowSet> Desk<J, D, F> {
    /// The node of a place as it came, with fresh passes. No job is out.
    pub fn new(
        alloc: Global,
        node: Node<D, F>,
        place: usize,
        passes: Vec<InboxPass>,
    ) -> Desk<J, D, F>
        requires came { slice_get J.came place ≡ Some node }
        requires by { IsBy F.reading node.journal J.now }
        requires of { map (λ p. p.of) passes.items ≡ J.inboxes }
        requires fresh { AllByRecursion (λ p. p.seen ≡ fresh) passes.items }
        ensures node { result.node ≡ node }
        ensures place { result.place ≡ place }
        ensures commits { result.commits ≡ 0 }
    {
        Desk {
            node: SharedNode::new(alloc, node),
            place,
            passes,
            commits: 0,
            of: PhantomData,
        }
    }

    /// Lets a flow go on, and says how that ended. The job of a flow that waits for one is handed out, and is to be settled.
    pub fn turn<C: Judge>(&mut self, alloc: Global, board: &Board<J, C>) -> Turn
        ensures job { HandsOut result }
        ensures commits { self.new.commits ≡ self.old.commits + committed result }
        ensures seen { self.new.seen ≡ self.old.seen }
    {
        let answer = self.node.turn(alloc, board.now(), None);
        self.commits += turn_count(&answer);
        turn_of(answer)
    }

    /// Settles a job that was run, and says whether a record was committed. Its flow has no job out any more, whatever the node answered.
    pub fn settle<C: Judge>(&mut self, alloc: Global, board: &Board<J, C>, done: Done) -> bool
        requires { IsRun J.judge keyed_mark done }
        ensures commits { self.new.commits ≡ self.old.commits + (if result then 1 else 0) }
        ensures seen { self.new.seen ≡ self.old.seen }
    {
        let answer = self
            .node
            .settle(alloc, board.now(), done, board.contracts());
        let count = settle_count(&answer);
        self.commits += count;
        count > 0
    }

    /// Posts the first eight frames that the node has to send.
    pub fn send<C: Judge, R: Wait>(&mut self, rt: &R, alloc: Global, board: &Board<J, C>)
        ensures node { self.new.node ≡ self.old.node }
        ensures commits { self.new.commits ≡ self.old.commits }
    {
        let Ok(frames) = self.node.node().unacked(alloc) else {
            return;
        };
        post_first(rt, board.inboxes(), &mut self.passes, frames, AT_ONCE);
    }

    /// Pulls a frame from the node's inbox. By `chance` it is lost (0), taken and then posted there again (1), or taken. The
    /// acknowledgement that the node answers is posted. Says whether a record was committed.
    pub fn receive<C: Judge, R: Wait>(
        &mut self,
        rt: &R,
        alloc: Global,
        board: &Board<J, C>,
        chance: u32,
    ) -> bool
        ensures commits { self.new.commits ≡ self.old.commits + (if result then 1 else 0) }
    {
        let Some(frame) = pull_from(rt, board.inboxes(), &mut self.passes, self.place) else {
            return false;
        };
        if chance == 0 {
            return false;
        }
        let answer = self.node.take(alloc, board.now(), frame.as_slice());
        let (count, ack) = heard(answer);
        self.commits += count;
        post_again(
            rt,
            board.inboxes(),
            &mut self.passes,
            self.place,
            frame,
            chance == 1,
        );
        post_ack(rt, board.inboxes(), &mut self.passes, ack);
        count > 0
    }

    /// What lies here. No job of the node is out any more.
    pub fn into_parts(self) -> Left<D, F>
        ensures place { result.place ≡ self.place }
        ensures of { map (λ p. p.of) result.passes.items ≡ J.inboxes }
        ensures kept { Kept (meaning F.machine F.reading J.judge) J.now J.came result.place
            result.node (map (λ p. p.seen) result.passes.items) result.commits }
    {
        let Desk {
            node,
            place,
            passes,
            commits,
            of: _,
        } = self;
        Left {
            place,
            node: node.into_node(),
            passes,
            commits,
        }
    }
}

/// Posts a frame that was pulled from the inbox of a place to that inbox again, if it is to be.
fn post_again<R: Wait>(
    rt: &R,
    inboxes: &[Inbox],
    passes: &mut Vec<InboxPass>,
    at: usize,
    frame: ByteList,
    again: bool,
)
    requires of { map (λ p. p.of) passes.old.items ≡ inboxes.now }
    requires had { (s : Seen) → slice_get (map (λ p. p.seen) passes.old.items) at ≡ Some s
        → IsIn frame s.pulled }
    ensures of { map (λ p. p.of) passes.new.items ≡ inboxes.now }
    ensures moves { Exchanges at [] [] (map (λ p. p.seen) passes.old.items)
        (map (λ p. p.seen) passes.new.items) }
{
    if again {
        post_back(rt, inboxes, passes, at, frame);
    }
}
