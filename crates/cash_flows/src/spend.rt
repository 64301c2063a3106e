//! The spend.

ghost use Rattle.std.specs.Prelude.{◌≡◌, Some, IfOk};
ghost use Rattle.cash_flows.specs.Spend.{own_coin, coin_at, handover, fields_of, begins, looks_up, spends, looked_up, with_id, moves, weight, form, kept, numbers};
ghost use Rattle.cash_flows.specs.SpendLaws.{is_form, begins_within};

use crate::making::cash;
use flow_forms::{
    ByWords, Call, End, Fields, Frame, Goes, Machine, Numbered, Then, Worded, is_peer,
};
use flow_machine::{Act, Place, Resumed};
use flow_txs::{Concludes, TxId, alone, concluded, free_output, made};
use ledger_types::{Deed, StateData, Tx, TxState, WireTx};
use net_base::{Boxed, Hash32, ListOf, PartFault, Party, Reader, Spelt, StateRef, Token, Writer};
use std::alloc::{AllocError, Global};

/// The arguments of a spend, in the order of their words: the id of a transaction, the place of its output, and the party that gets it. A
/// flow begins where the party is another node of the network.
pub type SpendArgs = Then<TxId, Then<u32, Then<u8, End>>>;

/// A spend's frame, as a flow set has it: its flows begin by words.
pub type SpendFrame = Frame<SpendPlace, Spend, ByWords>;

/// Where a spend waits, with the numbers of the places; 3 is that of Return.
#[derive(Clone, Copy)]
pub enum SpendPlace {
    /// On the transaction whose output it spends.
    LookingUp = 1,
    /// On finality, which it called.
    Spending = 2,
}

/// The spend, class 8, `spend ID INDEX P`: it gives the cash that this output is to another node of the network, and returns the
/// transaction's id. It reserves nothing. It fails with 55 where no such output is recorded here, and where that isn't cash of this party
/// or has an encumbrance.
#[derive(Clone, Copy)]
pub struct Spend {
    /// The output.
    pub reference: StateRef,
    /// The party that gets it.
    pub to: Party,
    /// The transaction, once it is final.
    pub id: Option<Hash32>,
}

type Gone = Goes<SpendPlace, Spend>;

type Moved = Result<Gone, AllocError>;

fn own_coin(me: Party, body: &StateData) -> Option<(Token, u64)>
    ensures { result ≡ own_coin me body.now }
{
    match body {
        StateData::Cash {
            token,
            amount,
            owner,
        } if owner.0 == me.0 => Some((*token, *amount)),
        _ => None,
    }
}

/// The token and the amount of the output at the place, where that is cash of the party without an encumbrance.
fn coin_at(me: Party, outputs: &[TxState], index: u32) -> Option<(Token, u64)>
    ensures { result ≡ coin_at me outputs.now index }
{
    match free_output(outputs, index) {
        Some(body) => own_coin(me, &body),
        None => None,
    }
}

/// The handing over of a coin.
fn handover(
    alloc: Global,
    spend: &Spend,
    coin: (Token, u64),
    here: &Place,
) -> Result<Tx, AllocError>
    ensures { IfOk result (λ t. t ≡ handover spend.now coin here.entry.now) }
{
    let inputs = ListOf::from_slice(alloc, &[spend.reference])?;
    let outputs = ListOf::from_slice(alloc, &[cash(here, coin.0, coin.1, spend.to)])?;
    made(alloc, inputs, outputs, Deed::CashMove, alone(here.me), here)
}

fn fields_of(args: &SpendArgs) -> Spend
    ensures { result ≡ fields_of args.now }
{
    Spend {
        reference: StateRef {
            id: args.first.0,
            index: args.rest.first,
        },
        to: Party(args.rest.rest.first),
        id: None,
    }
}

impl Spend {
    fn looks_up(self) -> Gone
        ensures { result ≡ looks_up self }
    {
        let act = Act::Lookup {
            id: self.reference.id,
        };
        Goes::on(SpendPlace::LookingUp, self, act)
    }

    fn hands_over(self, alloc: Global, coin: (Token, u64), here: &Place) -> Moved
        ensures { IfOk result (λ g. g ≡ spends self (Some coin) here.entry.now) }
    {
        let frame = Call::Finality {
            tx: Boxed::new(alloc, WireTx::new(handover(alloc, &self, coin, here)?))?,
            peers: ListOf::from_slice(alloc, &[self.to])?,
        };
        Ok(Goes::on(SpendPlace::Spending, self, Act::Sub { frame }))
    }

    fn spends(self, alloc: Global, coin: Option<(Token, u64)>, here: &Place) -> Moved
        ensures { IfOk result (λ g. g ≡ spends self coin here.entry.now) }
    {
        match coin {
            Some(coin) => self.hands_over(alloc, coin, here),
            None => Ok(Goes::stops(self, 55)),
        }
    }

    fn looked_up(self, alloc: Global, with: &Resumed, here: &Place) -> Moved
        ensures { IfOk result (λ g. g ≡ looked_up self with.now here.entry.now) }
    {
        match with {
            Resumed::Found { stx } => {
                let outputs = stx.get().tx.outputs.as_slice();
                self.spends(alloc, coin_at(here.me, outputs, self.reference.index), here)
            }
            Resumed::Absent => Ok(Goes::stops(self, 55)),
            _ => Ok(Goes::unnamed(self, with)),
        }
    }
}

impl Concludes for Spend {
    ghost with_id = { with_id };

    fn with_id(self, id: Hash32) -> Spend {
        Spend {
            id: Some(id),
            ..self
        }
    }
}

impl Numbered for SpendPlace {
    ghost numbers = { numbers };

    fn number(self) -> u8 {
        self as u8
    }

    fn all() -> &'static [SpendPlace] {
        &[SpendPlace::LookingUp, SpendPlace::Spending]
    }
}

impl Fields for Spend {
    ghost kept = { kept };

    fn read_fields(alloc: Global, from: &mut Reader) -> Result<Spend, PartFault> {
        Ok(Spend {
            reference: Spelt::read_part(alloc, from)?,
            to: Spelt::read_part(alloc, from)?,
            id: Spelt::read_part(alloc, from)?,
        })
    }

    fn write_fields(&self, alloc: Global, out: &mut Writer) -> Result<(), AllocError> {
        self.reference.write_part(alloc, out)?;
        self.to.write_part(alloc, out)?;
        self.id.write_part(alloc, out)
    }

    fn copy_fields(&self, _alloc: Global) -> Result<Spend, AllocError> {
        Ok(*self)
    }
}

impl Machine<SpendPlace> for Spend {
    ghost form = { form };

    ghost MACHINE = { 8 };

    ghost is_form = { is_form };

    const MACHINE: u8 = 8;

    fn start(self, _: Global, _: &Place) -> Moved {
        Ok(self.looks_up())
    }

    fn resume(self, alloc: Global, place: SpendPlace, with: &Resumed, here: &Place) -> Moved {
        match place {
            SpendPlace::LookingUp => self.looked_up(alloc, with, here),
            SpendPlace::Spending => Ok(concluded(self, with)),
        }
    }

    fn weight(&self, place: SpendPlace) -> u64 {
        match place {
            SpendPlace::LookingUp => 4873,
            SpendPlace::Spending => 1,
        }
    }

    fn called(&self) -> u64 {
        4874
    }
}

impl Worded<SpendPlace> for Spend {
    ghost use Rattle.std.specs.Prelude.{codes};
    ghost use Rattle.std.proofs.Common.{arith};

    type Args = SpendArgs;

    ghost name = { codes "spend" };

    ghost CLASS = { 8 };

    ghost begins = { begins };

    ghost args_fit = { omega arith };

    ghost begins_within = { begins_within };

    const CLASS: u16 = 8;

    fn is_named(word: &str) -> bool {
        word == "spend"
    }

    fn begin(args: SpendArgs, here: &Place) -> Option<Spend> {
        if is_peer(args.rest.rest.first, here) {
            Some(fields_of(&args))
        } else {
            None
        }
    }
}
