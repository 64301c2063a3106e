//! The fact.

ghost use Rattle.std.specs.Prelude.{◌≡◌, IfOk};
ghost use Rattle.deal_flows.specs.Fact.{statement, fields_of, begins, tells, with_id, form, kept, numbers};
ghost use Rattle.deal_flows.specs.FactLaws.{is_form, begins_within};

use flow_forms::{
    ByWords, Call, End, Fields, Frame, Goes, Machine, Numbered, Then, Worded, is_peer,
};
use flow_machine::{Act, Place, Resumed};
use flow_txs::{Concludes, alone, concluded, made, plain};
use ledger_types::{Deed, RefList, StateData, Tx, WireTx};
use net_base::{Boxed, Hash32, ListOf, PartFault, Party, Reader, Spelt, Writer};
use std::alloc::{AllocError, Global};

/// The arguments of a fact, in the order of their words: the party that it is shown to, the name and the value. A flow begins where the party
/// is another node of the network.
pub type FactArgs = Then<u8, Then<u64, Then<u64, End>>>;

/// A fact's frame, as a flow set has it: its flows begin by words.
pub type FactFrame = Frame<FactPlace, Fact, ByWords>;

/// Where a fact waits.
#[derive(Clone, Copy)]
pub enum FactPlace {
    /// On finality, which it called.
    Telling,
}

/// The fact, class 6, `fact P NAME VALUE`: it makes a fact of this party by one transaction, shows that to another node of the network, and
/// returns the transaction's id.
#[derive(Clone, Copy)]
pub struct Fact {
    /// The party that the fact is shown to.
    pub to: Party,
    pub name: u64,
    pub value: u64,
    /// The transaction, once it is final.
    pub id: Option<Hash32>,
}

type Gone = Goes<FactPlace, Fact>;

type Moved = Result<Gone, AllocError>;

/// The statement of the fact.
fn statement(alloc: Global, fact: &Fact, here: &Place) -> Result<Tx, AllocError>
    ensures { IfOk result (λ t. t ≡ statement fact.now here.entry.now) }
{
    let body = StateData::Fact {
        issuer: here.me,
        name: fact.name,
        value: fact.value,
    };
    let outputs = ListOf::from_slice(alloc, &[plain(here, body)])?;
    made(
        alloc,
        RefList::new(alloc),
        outputs,
        Deed::FactIssue,
        alone(here.me),
        here,
    )
}

fn fields_of(args: &FactArgs) -> Fact
    ensures { result ≡ fields_of args.now }
{
    Fact {
        to: Party(args.first),
        name: args.rest.first,
        value: args.rest.rest.first,
        id: None,
    }
}

impl Fact {
    fn tells(self, alloc: Global, here: &Place) -> Moved
        ensures { IfOk result (λ g. g ≡ tells self here.entry.now) }
    {
        let frame = Call::Finality {
            tx: Boxed::new(alloc, WireTx::new(statement(alloc, &self, here)?))?,
            peers: ListOf::from_slice(alloc, &[self.to])?,
        };
        Ok(Goes::on(FactPlace::Telling, self, Act::Sub { frame }))
    }
}

impl Concludes for Fact {
    ghost with_id = { with_id };

    fn with_id(self, id: Hash32) -> Fact {
        Fact {
            id: Some(id),
            ..self
        }
    }
}

impl Numbered for FactPlace {
    ghost numbers = { numbers };

    fn number(self) -> u8 {
        1
    }

    fn all() -> &'static [FactPlace] {
        &[FactPlace::Telling]
    }
}

impl Fields for Fact {
    ghost kept = { kept };

    fn read_fields(alloc: Global, from: &mut Reader) -> Result<Fact, PartFault> {
        Ok(Fact {
            to: Spelt::read_part(alloc, from)?,
            name: Spelt::read_part(alloc, from)?,
            value: Spelt::read_part(alloc, from)?,
            id: Spelt::read_part(alloc, from)?,
        })
    }

    fn write_fields(&self, alloc: Global, out: &mut Writer) -> Result<(), AllocError> {
        self.to.write_part(alloc, out)?;
        self.name.write_part(alloc, out)?;
        self.value.write_part(alloc, out)?;
        self.id.write_part(alloc, out)
    }

    fn copy_fields(&self, _alloc: Global) -> Result<Fact, AllocError> {
        Ok(*self)
    }
}

impl Machine<FactPlace> for Fact {
    ghost form = { form };

    ghost MACHINE = { 6 };

    ghost is_form = { is_form };

    const MACHINE: u8 = 6;

    fn start(self, alloc: Global, here: &Place) -> Moved {
        self.tells(alloc, here)
    }

    fn resume(self, _: Global, _: FactPlace, with: &Resumed, _: &Place) -> Moved {
        Ok(concluded(self, with))
    }

    fn weight(&self, _: FactPlace) -> u64 {
        1
    }

    fn called(&self) -> u64 {
        4873
    }
}

impl Worded<FactPlace> for Fact {
    ghost use Rattle.std.specs.Prelude.{codes};
    ghost use Rattle.std.proofs.Common.{arith};

    type Args = FactArgs;

    ghost name = { codes "fact" };

    ghost CLASS = { 6 };

    ghost begins = { begins };

    ghost args_fit = { omega arith };

    ghost begins_within = { begins_within };

    const CLASS: u16 = 6;

    fn is_named(word: &str) -> bool {
        word == "fact"
    }

    fn begin(args: FactArgs, here: &Place) -> Option<Fact> {
        if is_peer(args.first, here) {
            Some(fields_of(&args))
        } else {
            None
        }
    }
}
