//! The payment.

ghost use Rattle.std.specs.Prelude.{◌≡◌, IfOk};
ghost use Rattle.cash_flows.specs.Pay.{is_in_range, fields_of, begins, reserves, pays, reserved, with_id, moves, weight, form, pay};
ghost use Rattle.cash_flows.specs.PayLaws.{kept, numbers, is_form, begins_within};

use crate::options::PayOptions;
use crate::payment::payment;
use flow_forms::{ByWords, Call, Fields, Frame, Goes, Machine, Numbered, Then, Worded, is_peer};
use flow_machine::{Act, Place, Resumed};
use flow_txs::{Code, Concludes, concluded};
use ledger_types::{Held, Window, WireTx};
use net_base::{Boxed, Hash32, ListOf, PartFault, Party, Reader, Spelt, StateRef, Token, Writer};
use std::alloc::{AllocError, Global};

/// The arguments of a payment, in the order of their words: the payee, the code, the issuer, the amount, and the options. A flow begins where the payee
/// is another node of the network, the issuer is at most 15 and the amount at least 1.
pub type PayArgs = Then<u8, Then<Code, Then<u8, Then<u64, PayOptions>>>>;

/// A payment's frame, as a flow set has it: its flows begin by words.
pub type PayFrame = Frame<PayPlace, Pay, ByWords>;

/// Where a payment waits.
#[derive(Clone, Copy)]
pub enum PayPlace {
    /// On the reservation of coins.
    Reserving,
    /// On finality, which it called.
    Paying,
}

/// The payment, class 4, `pay P CODE ISSUER AMOUNT` and options: it reserves coins of the token, pays the amount to another node of the
/// network and the rest to this one, and returns the transaction's id. It fails with 47 where there are too few coins.
#[derive(Clone, Copy)]
pub struct Pay {
    /// The payee.
    pub to: Party,
    pub token: Token,
    /// At least 1 in each payment that words begin.
    pub amount: u64,
    /// The window of the transaction.
    pub window: Option<Window>,
    /// A state that the transaction refers to and leaves.
    pub reference: Option<StateRef>,
    /// The transaction, once it is final.
    pub id: Option<Hash32>,
}

type Gone = Goes<PayPlace, Pay>;

type Moved = Result<Gone, AllocError>;

fn is_in_range(args: &PayArgs, here: &Place) -> bool
    ensures { result ≡ is_in_range args.now here.entry.now }
{
    let issuer = args.rest.rest.first;
    let amount = args.rest.rest.rest.first;
    is_peer(args.first, here) && (issuer < 16 && amount > 0)
}

fn fields_of(args: &PayArgs) -> Pay
    ensures { result ≡ fields_of args.now }
{
    let options = &args.rest.rest.rest.rest;
    Pay {
        to: Party(args.first),
        token: Token {
            issuer: Party(args.rest.rest.first),
            code: args.rest.first.0,
        },
        amount: args.rest.rest.rest.first,
        window: options.window,
        reference: options.reference,
        id: None,
    }
}

impl Pay {
    fn reserves(self) -> Gone
        ensures { result ≡ reserves self }
    {
        let act = Act::Reserve {
            token: self.token,
            amount: self.amount,
        };
        Goes::on(PayPlace::Reserving, self, act)
    }

    fn pays(self, alloc: Global, coins: &[Held], here: &Place) -> Moved
        ensures { IfOk result (λ g. g ≡ pays self coins.now here.entry.now) }
    {
        let frame = Call::Finality {
            tx: Boxed::new(alloc, WireTx::new(payment(alloc, &self, coins, here)?))?,
            peers: ListOf::from_slice(alloc, &[self.to])?,
        };
        Ok(Goes::on(PayPlace::Paying, self, Act::Sub { frame }))
    }

    fn reserved(self, alloc: Global, with: &Resumed, here: &Place) -> Moved
        ensures { IfOk result (λ g. g ≡ reserved self with.now here.entry.now) }
    {
        match with {
            Resumed::Coins { list } => self.pays(alloc, list.as_slice(), here),
            Resumed::Short { .. } => Ok(Goes::stops(self, 47)),
            _ => Ok(Goes::unnamed(self, with)),
        }
    }
}

impl Concludes for Pay {
    ghost with_id = { with_id };

    fn with_id(self, id: Hash32) -> Pay {
        Pay {
            id: Some(id),
            ..self
        }
    }
}

impl Numbered for PayPlace {
    ghost numbers = { numbers };

    fn number(self) -> u8 {
        match self {
            PayPlace::Reserving => 1,
            PayPlace::Paying => 2,
        }
    }

    fn all() -> &'static [PayPlace] {
        &[PayPlace::Reserving, PayPlace::Paying]
    }
}

#[tactic(auto, unfolding(crate::specs::Pay::pay_at))]
impl Fields for Pay {
    ghost kept = { kept };

    fn read_fields(alloc: Global, from: &mut Reader) -> Result<Pay, PartFault> {
        Ok(Pay {
            to: Spelt::read_part(alloc, from)?,
            token: Spelt::read_part(alloc, from)?,
            amount: Spelt::read_part(alloc, from)?,
            window: Spelt::read_part(alloc, from)?,
            reference: Spelt::read_part(alloc, from)?,
            id: Spelt::read_part(alloc, from)?,
        })
    }

    fn write_fields(&self, alloc: Global, out: &mut Writer) -> Result<(), AllocError> {
        self.to.write_part(alloc, out)?;
        self.token.write_part(alloc, out)?;
        self.amount.write_part(alloc, out)?;
        self.window.write_part(alloc, out)?;
        self.reference.write_part(alloc, out)?;
        self.id.write_part(alloc, out)?;
        Ok(())
    }

    fn copy_fields(&self, _alloc: Global) -> Result<Pay, AllocError> {
        Ok(*self)
    }
}

impl Machine<PayPlace> for Pay {
    ghost form = { form };

    ghost MACHINE = { 4 };

    ghost is_form = { is_form };

    const MACHINE: u8 = 4;

    fn start(self, _alloc: Global, _here: &Place) -> Moved {
        Ok(self.reserves())
    }

    fn resume(self, alloc: Global, place: PayPlace, with: &Resumed, here: &Place) -> Moved {
        match place {
            PayPlace::Reserving => self.reserved(alloc, with, here),
            PayPlace::Paying => Ok(concluded(self, with)),
        }
    }

    fn weight(&self, place: PayPlace) -> u64 {
        match place {
            PayPlace::Reserving => 4873,
            PayPlace::Paying => 1,
        }
    }

    fn called(&self) -> u64 {
        4874
    }
}

impl Worded<PayPlace> for Pay {
    ghost use Rattle.std.specs.Prelude.{codes};
    ghost use Rattle.std.proofs.Common.{arith};

    type Args = PayArgs;

    ghost name = { codes "pay" };

    ghost CLASS = { 4 };

    ghost begins = { begins };

    ghost args_fit = { omega arith };

    ghost begins_within = { begins_within };

    const CLASS: u16 = 4;

    fn is_named(word: &str) -> bool {
        word == "pay"
    }

    fn begin(args: PayArgs, here: &Place) -> Option<Pay> {
        if is_in_range(&args, here) {
            Some(fields_of(&args))
        } else {
            None
        }
    }
}
