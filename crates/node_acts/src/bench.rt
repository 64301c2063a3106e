//! A node that does what lines say.

ghost use Rattle.std.specs.Prelude.{◌<◌};
ghost use Rattle.node_core.specs.Seen.{IsBy};
ghost use Rattle.node_acts.specs.Script.{script_at};

use super::answers::{settle_text, taken_text};
use super::held::Held;
use super::script::Script;
use super::telling::{flow_text, ledger_text};
use anyhow::{Context, Result, bail, ensure};
use contract_verify::Judge;
use disk_mem::MemDisk;
use net_base::{ByteList, Identity, ListOf, Moment, Party};
use node_core::{Node, SharedNode, SharedTurn, TurnFault, Turned};
use std::alloc::Global;
use std::mem;

type TheNode = SharedNode<MemDisk, Script>;

/// A node of a network of three, whose notary is node 0; the moment that it is; and up to two jobs that are out, of this node or of
/// the one before it.
#[derive(Drop)]
pub struct Bench {
    node: TheNode,
    clock: u64,
    held: Option<Held>,
    other: Option<Held>,
}

/// Lets a value go. What holds a node or a job is let go of by this call, at one exit of a function: there a value of its own type would
/// have the proof look at each kind of value that may stand in it.
pub fn let_go<T: Drop>(_value: T) {}

/// Puts a value where another one was, which is let go.
fn put<T: Drop>(place: &mut T, value: T) {
    *place = value;
}

/// A node over an empty disk, which is down.
fn new_node(alloc: Global, party: u8) -> TheNode
    requires { party < 3 }
{
    let identity = Identity {
        party: Party(party),
        nodes: 3,
        notary: Party(0),
    };
    SharedNode::new(alloc, Node::new(MemDisk::new(alloc), identity))
}

/// The moment of the clock, or that of the node's last cause where it is later.
fn moment(node: &TheNode, clock: u64) -> Moment
    ensures { IsBy script_at node.now.node.journal result.0 }
{
    Moment(node.node().last_moment().0.max(clock))
}

/// What a turn did.
#[derive(Drop)]
enum Handed {
    Idle,
    Moved { flow: u32 },
    /// A job was handed out.
    Job { held: Held },
}

/// A turn.
fn turned(
    node: &mut TheNode,
    alloc: Global,
    now: Moment,
    pick: Option<u32>,
) -> Result<Handed, TurnFault>
    requires { IsBy script_at node.old.node.journal now.0 }
{
    match node.turn(alloc, now, pick) {
        Ok(SharedTurn::Idle) => Ok(Handed::Idle),
        Ok(SharedTurn::Moved { flow }) => Ok(Handed::Moved { flow }),
        Ok(SharedTurn::Job { job }) => Ok(Handed::Job {
            held: Held::new(job),
        }),
        Err(why) => Err(why),
    }
}

/// The bytes of words in hexadecimal.
fn bytes_of(alloc: Global, words: &[&str]) -> Result<ByteList> {
    let mut bytes = Vec::new(alloc);
    for word in words {
        bytes.extend_from_slice(hex::decode(alloc, word)?.as_slice())?;
    }
    Ok(ListOf::from_vec(bytes))
}

/// An answer of one word.
fn word(alloc: Global, word: &str) -> Result<String> {
    Ok(String::from_str(alloc, word)?)
}

impl Bench {
    /// A bench with node 1, which is down.
    pub fn new(alloc: Global) -> Bench {
        Bench {
            node: new_node(alloc, 1),
            clock: 0,
            held: None,
            other: None,
        }
    }

    /// Puts another node there, over an empty disk. The jobs that are out stay.
    fn put_node(&mut self, alloc: Global, party: u8) -> Result<String> {
        ensure!(party < 3, "no node of that number");
        put(&mut self.node, new_node(alloc, party));
        self.clock = 0;
        self.boot(alloc)
    }

    /// Brings the node up, where it is down.
    fn boot(&mut self, alloc: Global) -> Result<String> {
        ensure!(!self.node.node().is_up(), "the node is up");
        self.node.restore_power();
        self.node.boot(alloc)?;
        word(alloc, "up")
    }

    /// Starts a flow.
    fn start(&mut self, alloc: Global, class: u16, args: &ByteList) -> Result<String> {
        let now = moment(&self.node, self.clock);
        let flow = self.node.start(alloc, now, class, args)?;
        Ok(format!(in alloc; "flow {flow}")?)
    }

    /// Hands a frame to the node.
    fn take(&mut self, alloc: Global, frame: &[u8]) -> Result<String> {
        let now = moment(&self.node, self.clock);
        let taken = self.node.take(alloc, now, frame)?;
        Ok(taken_text(alloc, &taken)?)
    }

    /// Keeps a job that was handed out, and the one before it.
    fn hold(&mut self, held: Held) {
        let before = mem::replace(&mut self.held, Some(held));
        put(&mut self.other, before);
    }

    /// A turn.
    fn turn(&mut self, alloc: Global, pick: Option<u32>) -> Result<String> {
        let now = moment(&self.node, self.clock);
        match turned(&mut self.node, alloc, now, pick)? {
            Handed::Idle => word(alloc, "idle"),
            Handed::Moved { flow } => Ok(format!(in alloc; "moved {flow}")?),
            Handed::Job { held } => {
                let flow = held.flow();
                self.hold(held);
                Ok(format!(in alloc; "job {flow}")?)
            }
        }
    }

    /// Runs the job that was handed out last, and settles it.
    fn settle<J: Judge>(&mut self, alloc: Global, contracts: &J) -> Result<String> {
        let Some(held) = self.held.take() else {
            bail!("no job is out")
        };
        let done = held.run(contracts);
        let now = moment(&self.node, self.clock);
        match self.node.settle(alloc, now, done, contracts) {
            Ok(flow) => Ok(format!(in alloc; "settled {flow}")?),
            Err(why) => Ok(settle_text(alloc, why)?),
        }
    }

    /// A whole turn, before which the claims are ended; whether a flow went on.
    fn work<J: Judge>(&mut self, alloc: Global, contracts: &J) -> Result<bool> {
        self.node.unclaim();
        let now = moment(&self.node, self.clock);
        Ok(self.node.work(alloc, now, None, contracts)? != Turned::Idle)
    }

    /// Whole turns until no flow can go on.
    fn drain<J: Judge>(&mut self, alloc: Global, contracts: &J) -> Result<String> {
        for _ in 0..100u8 {
            if !self.work(alloc, contracts)? {
                break;
            }
        }
        word(alloc, "drained")
    }

    /// Cuts the power.
    fn cut(&mut self, alloc: Global, calls: u64, outcome: u8) -> Result<String> {
        ensure!(outcome <= 3, "no outcome of that number");
        self.node.cut_power(calls, outcome)?;
        word(alloc, "cut")
    }

    /// Has the two jobs change places.
    fn swap(&mut self, alloc: Global) -> Result<String> {
        mem::swap(&mut self.held, &mut self.other);
        word(alloc, "swapped")
    }

    /// The flows whose jobs are out.
    fn claims(&self, alloc: Global) -> Result<String> {
        let mut text = word(alloc, "claims")?;
        for flow in self.node.claims() {
            text.push_str(format!(in alloc; " {flow}")?.as_str())?;
        }
        Ok(text)
    }

    /// What is told of the node.
    fn told(&self, alloc: Global, words: &[&str]) -> Result<String> {
        match words {
            ["flow", number] => {
                let flows = self.node.node().flows().context("the node is down")?;
                Ok(flow_text(alloc, flows, number.parse::<u32>()?)?)
            }
            ["ledger"] => {
                let ledger = self.node.node().ledger().context("the node is down")?;
                Ok(ledger_text(alloc, ledger)?)
            }
            ["claims"] => self.claims(alloc),
            _ => bail!("no such command"),
        }
    }

    /// What is done with jobs.
    fn job<J: Judge>(&mut self, alloc: Global, words: &[&str], contracts: &J) -> Result<String> {
        match words {
            ["turn"] => self.turn(alloc, None),
            ["turn", number] => self.turn(alloc, Some(number.parse::<u32>()?)),
            ["settle"] => self.settle(alloc, contracts),
            ["drain"] => self.drain(alloc, contracts),
            ["swap"] => self.swap(alloc),
            ["unclaim"] => {
                self.node.unclaim();
                word(alloc, "unclaimed")
            }
            _ => self.told(alloc, words),
        }
    }

    /// What is done to the node from outside.
    fn outside<J: Judge>(
        &mut self,
        alloc: Global,
        words: &[&str],
        contracts: &J,
    ) -> Result<String> {
        match words {
            ["node", party] => self.put_node(alloc, party.parse::<u8>()?),
            ["boot"] => self.boot(alloc),
            ["cut", calls, outcome] => {
                self.cut(alloc, calls.parse::<u64>()?, outcome.parse::<u8>()?)
            }
            ["clock", now] => {
                self.clock = now.parse::<u64>()?;
                word(alloc, "ok")
            }
            ["start", class, args @ ..] => {
                let args = bytes_of(alloc, args)?;
                self.start(alloc, class.parse::<u16>()?, &args)
            }
            ["take", frame @ ..] => {
                let frame = bytes_of(alloc, frame)?;
                self.take(alloc, frame.as_slice())
            }
            _ => self.job(alloc, words, contracts),
        }
    }

    /// Does what a command says, and tells what was answered.
    pub fn command<J: Judge>(
        &mut self,
        alloc: Global,
        command: &str,
        contracts: &J,
    ) -> Result<String> {
        let words = command.split(' ').collect::<Vec<&str>>(alloc)?;
        self.outside(alloc, words.as_slice(), contracts)
    }
}
