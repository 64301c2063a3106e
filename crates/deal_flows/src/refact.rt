//! The changed fact.

ghost use Rattle.std.specs.Prelude.{◌≡◌, Some, IfOk};
ghost use Rattle.deal_flows.specs.Refact.{own_name, name_at, change, begins, looks_up, changes, looked_up, with_id, moves, weight, form, kept, numbers};
ghost use Rattle.deal_flows.specs.RefactLaws.{is_form, begins_within};

use flow_forms::{ByWords, Call, End, Fields, Frame, Goes, Machine, Numbered, Then, Worded};
use flow_machine::{Act, Place, Resumed};
use flow_txs::{Concludes, TxId, alone, concluded, free_output, made, plain};
use ledger_types::{Deed, StateData, Tx, TxState, WireTx};
use net_base::{Boxed, Hash32, ListOf, PartFault, Party, Reader, Spelt, StateRef, Writer};
use std::alloc::{AllocError, Global};

/// The arguments of a changed fact, in the order of their words: the id of a transaction, the place of its output, and the new value. A flow
/// begins by any of them.
pub type RefactArgs = Then<TxId, Then<u32, Then<u64, End>>>;

/// A changed fact's frame, as a flow set has it: its flows begin by words.
pub type RefactFrame = Frame<RefactPlace, Refact, ByWords>;

/// Where a changed fact waits, with the numbers of the places; 3 is that of Return.
#[derive(Clone, Copy)]
pub enum RefactPlace {
    /// On the transaction whose output it changes.
    LookingUp = 1,
    /// On finality, which it called.
    Changing = 2,
}

/// The changed fact, class 7, `refact ID INDEX VALUE`: it gives the fact that this output is another value, shows that to nobody, and returns
/// the transaction's id. It fails with 55 where no such output is recorded here, and where that isn't a fact that this party issued or has an
/// encumbrance.
#[derive(Clone, Copy)]
pub struct Refact {
    /// The output.
    pub reference: StateRef,
    /// The new value.
    pub value: u64,
    /// The transaction, once it is final.
    pub id: Option<Hash32>,
}

type Gone = Goes<RefactPlace, Refact>;

type Moved = Result<Gone, AllocError>;

fn own_name(me: Party, body: &StateData) -> Option<u64>
    ensures { result ≡ own_name me body.now }
{
    match body {
        StateData::Fact { issuer, name, .. } if issuer.0 == me.0 => Some(*name),
        _ => None,
    }
}

/// The name of the output at the place, where that is a fact that the party issued, without an encumbrance.
fn name_at(me: Party, outputs: &[TxState], index: u32) -> Option<u64>
    ensures { result ≡ name_at me outputs.now index }
{
    match free_output(outputs, index) {
        Some(body) => own_name(me, &body),
        None => None,
    }
}

/// The change of the fact of this name.
fn change(alloc: Global, refact: &Refact, name: u64, here: &Place) -> Result<Tx, AllocError>
    ensures { IfOk result (λ t. t ≡ change refact.now name here.entry.now) }
{
    let body = StateData::Fact {
        issuer: here.me,
        name,
        value: refact.value,
    };
    let inputs = ListOf::from_slice(alloc, &[refact.reference])?;
    let outputs = ListOf::from_slice(alloc, &[plain(here, body)])?;
    made(
        alloc,
        inputs,
        outputs,
        Deed::FactChange,
        alone(here.me),
        here,
    )
}

impl Refact {
    fn looks_up(self) -> Gone
        ensures { result ≡ looks_up self }
    {
        let act = Act::Lookup {
            id: self.reference.id,
        };
        Goes::on(RefactPlace::LookingUp, self, act)
    }

    fn renews(self, alloc: Global, name: u64, here: &Place) -> Moved
        ensures { IfOk result (λ g. g ≡ changes self (Some name) here.entry.now) }
    {
        let frame = Call::Finality {
            tx: Boxed::new(alloc, WireTx::new(change(alloc, &self, name, here)?))?,
            peers: ListOf::new(alloc),
        };
        Ok(Goes::on(RefactPlace::Changing, self, Act::Sub { frame }))
    }

    fn changes(self, alloc: Global, name: Option<u64>, here: &Place) -> Moved
        ensures { IfOk result (λ g. g ≡ changes self name here.entry.now) }
    {
        match name {
            Some(name) => self.renews(alloc, name, here),
            None => Ok(Goes::stops(self, 55)),
        }
    }

    fn looked_up(self, alloc: Global, with: &Resumed, here: &Place) -> Moved
        ensures { IfOk result (λ g. g ≡ looked_up self with.now here.entry.now) }
    {
        match with {
            Resumed::Found { stx } => {
                let outputs = stx.get().tx.outputs.as_slice();
                self.changes(alloc, name_at(here.me, outputs, self.reference.index), here)
            }
            Resumed::Absent => Ok(Goes::stops(self, 55)),
            _ => Ok(Goes::unnamed(self, with)),
        }
    }
}

impl Concludes for Refact {
    ghost with_id = { with_id };

    fn with_id(self, id: Hash32) -> Refact {
        Refact {
            id: Some(id),
            ..self
        }
    }
}

impl Numbered for RefactPlace {
    ghost numbers = { numbers };

    fn number(self) -> u8 {
        self as u8
    }

    fn all() -> &'static [RefactPlace] {
        &[RefactPlace::LookingUp, RefactPlace::Changing]
    }
}

impl Fields for Refact {
    ghost kept = { kept };

    fn read_fields(alloc: Global, from: &mut Reader) -> Result<Refact, PartFault> {
        Ok(Refact {
            reference: Spelt::read_part(alloc, from)?,
            value: Spelt::read_part(alloc, from)?,
            id: Spelt::read_part(alloc, from)?,
        })
    }

    fn write_fields(&self, alloc: Global, out: &mut Writer) -> Result<(), AllocError> {
        self.reference.write_part(alloc, out)?;
        self.value.write_part(alloc, out)?;
        self.id.write_part(alloc, out)
    }

    fn copy_fields(&self, _alloc: Global) -> Result<Refact, AllocError> {
        Ok(*self)
    }
}

impl Machine<RefactPlace> for Refact {
    ghost form = { form };

    ghost MACHINE = { 7 };

    ghost is_form = { is_form };

    const MACHINE: u8 = 7;

    fn start(self, _: Global, _: &Place) -> Moved {
        Ok(self.looks_up())
    }

    fn resume(self, alloc: Global, place: RefactPlace, with: &Resumed, here: &Place) -> Moved {
        match place {
            RefactPlace::LookingUp => self.looked_up(alloc, with, here),
            RefactPlace::Changing => Ok(concluded(self, with)),
        }
    }

    fn weight(&self, place: RefactPlace) -> u64 {
        match place {
            RefactPlace::LookingUp => 2300,
            RefactPlace::Changing => 1,
        }
    }

    fn called(&self) -> u64 {
        2301
    }
}

impl Worded<RefactPlace> for Refact {
    ghost use Rattle.std.specs.Prelude.{codes};
    ghost use Rattle.std.proofs.Common.{arith};

    type Args = RefactArgs;

    ghost name = { codes "refact" };

    ghost CLASS = { 7 };

    ghost begins = { begins };

    ghost args_fit = { omega arith };

    ghost begins_within = { begins_within };

    const CLASS: u16 = 7;

    fn is_named(word: &str) -> bool {
        word == "refact"
    }

    fn begin(args: RefactArgs, _: &Place) -> Option<Refact> {
        Some(Refact {
            reference: StateRef {
                id: args.first.0,
                index: args.rest.first,
            },
            value: args.rest.rest.first,
            id: None,
        })
    }
}
