//! What all workers of a call read.

ghost use Rattle.std.specs.Prelude.{◌≡◌};

use contract_verify::Judge;
use net_base::Moment;
use std::marker::{Brand, Model, PhantomData};
use wire_queue::Inbox;

/// What stands fixed for one call of `work`, which picks it. It stands in proofs alone.
pub trait Call {
    ghost use Rattle.std.specs.Prelude.{ℕ, List};
    ghost use Rattle.atomic_table.specs.Seated.{TableId};
    ghost use Rattle.net_model.specs.Environment.{Judgement};
    ghost use Rattle.node_core.specs.Seen.{NodeSeen};

    /// The moment of the call.
    ghost now: { ℕ };

    /// The nodes as they came, in the order of their places.
    ghost came: { List NodeSeen };

    /// Which the inboxes are, in the order of their places.
    ghost inboxes: { List TableId };

    /// What the contracts say.
    ghost judge: { Judgement };
}

impl Call for Brand {
    ghost use Rattle.std.specs.Prelude.{[]};
    ghost use Rattle.net_model.specs.Environment.{judge_without_contracts};

    ghost now = { 0 };

    ghost came = { [] };

    ghost inboxes = { [] };

    ghost judge = { judge_without_contracts };
}

/// What all workers of a call read: the inboxes of all nodes, in the order of their places, the moment, and the contracts.
#[derive(Drop)]
pub struct Board<'a, J: Call, C: Judge> {
    inboxes: Vec<Inbox>,
    now: Moment,
    contracts: &'a C,
    of: PhantomData<J>,
}

impl<'a, J: Call, C: Judge> Model for Board<'a, J, C> {
    ghost use Rattle.std.specs.Prelude.{◌≡◌, List};
    ghost use Rattle.atomic_table.specs.Seated.{TableId};

    ghost Value = { List TableId };

    ghost view = { λ b. b.inboxes.items };

    ghost invariant = { λ b. (b.inboxes.items ≡ J.inboxes) × (b.now.0 ≡ J.now)
        × (C.judges b.contracts.now ≡ J.judge) };
}

impl<'a, J: Call, C: Judge> Board<'a, J, C> {
    /// The board of a call.
    pub fn new(inboxes: Vec<Inbox>, now: Moment, contracts: &'a C) -> Board<'a, J, C>
        requires inboxes { inboxes.items ≡ J.inboxes }
        requires now { now.0 ≡ J.now }
        requires contracts { C.judges contracts.now ≡ J.judge }
        ensures { result ≡ J.inboxes }
    {
        Board {
            inboxes,
            now,
            contracts,
            of: PhantomData,
        }
    }

    /// The inboxes, in the order of their places.
    pub fn inboxes(&self) -> &[Inbox]
        ensures { result.now ≡ J.inboxes }
    {
        self.inboxes.as_slice()
    }

    /// The moment.
    pub fn now(&self) -> Moment
        ensures { result.0 ≡ J.now }
    {
        self.now
    }

    /// The contracts.
    pub fn contracts(&self) -> &C
        ensures { C.judges result.now ≡ J.judge }
    {
        self.contracts
    }
}
