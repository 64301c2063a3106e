ghost use Rattle.std.specs.Prelude.{◌≡◌};
ghost use Rattle.flow_machine.specs.Unnamed.{unnamed_code};

use ledger_types::{HeldList, IdList, NotaryAnswer, Request, SignedTx, Value, Verdict, WireTx};
use net_base::{Boxed, Hash32, Key, Moment, Party, Tag, Token};

/// What a live flow waits on. When the act is performed the flow's top frame is resumed with the result, once.
#[derive(Drop)]
pub enum Act<F> {
    /// Opens a session with another party's flow of the class: `Opened`; `Refused` with 48 where the party is this node's or
    /// no node's, with 57 where the flow has 64 sessions.
    Open { to: Party, class: u16, first: Value },
    /// Sends a value in a session: `Sent`; `Refused` with 58 where the flow doesn't own it.
    Send { key: Key, value: Value },
    /// Takes the next item of a session, once there is one: `Got`, `Rejected`, `Failed` or `Ended`; `Refused` with 58 where the flow
    /// doesn't own the session.
    Receive { key: Key },
    /// Like `Receive`, but with `Lapsed` where the moment has come, in milliseconds, and no item is there.
    ReceiveBy { key: Key, until: u64 },
    /// Waits until the moment has come, in milliseconds: `Lapsed`.
    Sleep { until: u64 },
    /// Calls a subflow, which begins with `Started`; `Refused` with 49, to the frame that asked, where the stack has 8 frames.
    Sub { frame: F },
    /// Has a transaction judged over the states that it names: `Verdict`; `Refused` with 35 where one of them cannot be had.
    Verify { tx: Boxed<WireTx> },
    /// Soft-locks coins of the token that reach the amount: `Coins`, or `Short`.
    Reserve { token: Token, amount: u64 },
    /// Looks for a recorded transaction: `Found`, or `Absent`.
    Lookup { id: Hash32 },
    /// Asks which transactions that this one names are not recorded: `Ids`.
    Missing { tx: Boxed<WireTx> },
    /// Has the node's party sign an id: `Tagged`; `Refused` with 46 at the notary's node.
    Sign { id: Hash32 },
    /// Has the node's book decide a request: `Answer`.
    Notarise { request: Boxed<Request> },
    /// Records a transaction that was accepted and has the tags that it needs: `Recorded`, also where its id is stored already and nothing
    /// more is done; `Refused` with 31 to 33 by its verdict, 34 where a tag is missing, 35 where a state that it names cannot be had, 41
    /// where it names another notary.
    Record { stx: Boxed<SignedTx> },
    /// Ends the frame with this value: the frame below is resumed with `Returned`, and at the bottom the flow has ended.
    Return { value: Value },
    /// Ends the whole flow with this code.
    Fail { code: u16 },
}

/// What a frame is resumed with.
#[derive(Drop)]
pub enum Resumed {
    /// The session is open.
    Opened { key: Key },
    /// The value was sent.
    Sent,
    /// The value that the other side sent.
    Got { value: Value },
    /// The other side knows no such class, or refused.
    Rejected { code: u16 },
    /// The other side's flow failed with this code.
    Failed { code: u16 },
    /// The other side's flow ended.
    Ended,
    /// The time has come.
    Lapsed,
    /// It is a subflow that begins.
    Started,
    /// What is said of the transaction.
    Verdict { verdict: Verdict },
    /// The states that are locked now, in the vault's order.
    Coins { list: HeldList },
    /// There are too few coins: the sum of those that there are, of the first 64.
    Short { have: u128 },
    /// The recorded transaction.
    Found { stx: Boxed<SignedTx> },
    /// No such transaction is recorded.
    Absent,
    /// The ids, each once, by first occurrence.
    Ids { list: IdList },
    /// The tag by the node's party.
    Tagged { tag: Tag },
    /// What the book answers.
    Answer { answer: Boxed<NotaryAnswer> },
    /// The transaction is recorded.
    Recorded,
    /// The subflow returned.
    Returned { value: Value },
    /// The act was not performed, for this reason.
    Refused { code: u16 },
}

impl Resumed {
    /// The code by which a flow fails on this result where it doesn't expect it: 50 to 52 of a session that was rejected, ended or
    /// failed, the reason of a refusal, 31 to 33 of a verdict that isn't `Accepted`, and else 54.
    pub fn unnamed_code(&self) -> u16
        ensures { result ≡ unnamed_code self.now }
    {
        match self {
            Resumed::Rejected { .. } => 50,
            Resumed::Ended => 51,
            Resumed::Failed { .. } => 52,
            Resumed::Refused { code } => *code,
            Resumed::Verdict { verdict } => match verdict {
                Verdict::Accepted => 54,
                Verdict::Broken { .. } => 31,
                Verdict::Refused { .. } => 32,
                Verdict::NoContract { .. } => 33,
            },
            _ => 54,
        }
    }
}

/// Where and when a frame is made or resumed.
#[derive(Clone, Copy)]
pub struct Place {
    /// The party of the node.
    pub me: Party,
    /// The network's notary.
    pub notary: Party,
    /// How many nodes the network has, 1 to 16.
    pub nodes: u8,
    /// The flow's number at its node, counted from 0.
    pub flow: u32,
    /// How often the flow was resumed before.
    pub step: u32,
    /// The moment of the cause.
    pub now: Moment,
}
