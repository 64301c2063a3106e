//! The exit.

ghost use Rattle.std.specs.Prelude.{◌≡◌, IfOk};
ghost use Rattle.cash_flows.specs.Exit.{redemption, begins, reserves, exits, reserved, with_id, moves, weight, form, kept, numbers};
ghost use Rattle.cash_flows.specs.ExitLaws.{is_form, begins_within};

use crate::making::{own, references, with_rest, worth};
use crate::words::AmountArgs;
use flow_forms::{ByWords, Call, Fields, Frame, Goes, Machine, Numbered, Worded};
use flow_machine::{Act, Place, Resumed};
use flow_txs::{Code, Concludes, alone, concluded, made};
use ledger_types::{Deed, Held, Tx, WireTx};
use net_base::{Boxed, Hash32, ListOf, PartFault, Reader, Spelt, Writer};
use std::alloc::{AllocError, Global};

/// An exit's frame, as a flow set has it: its flows begin by words.
pub type ExitFrame = Frame<ExitPlace, Exit, ByWords>;

/// Where an exit waits.
#[derive(Clone, Copy)]
pub enum ExitPlace {
    /// On the reservation of coins.
    Reserving,
    /// On finality, which it called.
    Exiting,
}

/// The exit, class 5, `exit CODE AMOUNT`: it reserves coins of this party's own token, takes the amount out of circulation by one
/// transaction, which leaves the rest to this party, and returns the transaction's id. It fails with 47 where there are too few coins.
#[derive(Clone, Copy)]
pub struct Exit {
    /// The code of the token, of which this party is the issuer.
    pub code: Code,
    /// At least 1 in each exit that words begin.
    pub amount: u64,
    /// The transaction, once it is final.
    pub id: Option<Hash32>,
}

type Gone = Goes<ExitPlace, Exit>;

type Moved = Result<Gone, AllocError>;

/// The exit of the amount by the coins.
fn redemption(alloc: Global, exit: &Exit, coins: &[Held], here: &Place) -> Result<Tx, AllocError>
    ensures { IfOk result (λ t. t ≡ redemption exit.now coins.now here.entry.now) }
{
    let (token, amount) = (own(here, exit.code), exit.amount);
    let inputs = references(alloc, coins)?;
    let outputs = with_rest(alloc, &[], token, amount, worth(coins), here)?;
    made(
        alloc,
        inputs,
        outputs,
        Deed::CashExit { token, amount },
        alone(here.me),
        here,
    )
}

impl Exit {
    fn reserves(self, here: &Place) -> Gone
        ensures { result ≡ reserves self here.entry.now }
    {
        let act = Act::Reserve {
            token: own(here, self.code),
            amount: self.amount,
        };
        Goes::on(ExitPlace::Reserving, self, act)
    }

    fn exits(self, alloc: Global, coins: &[Held], here: &Place) -> Moved
        ensures { IfOk result (λ g. g ≡ exits self coins.now here.entry.now) }
    {
        let frame = Call::Finality {
            tx: Boxed::new(alloc, WireTx::new(redemption(alloc, &self, coins, here)?))?,
            peers: ListOf::new(alloc),
        };
        Ok(Goes::on(ExitPlace::Exiting, self, Act::Sub { frame }))
    }

    fn reserved(self, alloc: Global, with: &Resumed, here: &Place) -> Moved
        ensures { IfOk result (λ g. g ≡ reserved self with.now here.entry.now) }
    {
        match with {
            Resumed::Coins { list } => self.exits(alloc, list.as_slice(), here),
            Resumed::Short { .. } => Ok(Goes::stops(self, 47)),
            _ => Ok(Goes::unnamed(self, with)),
        }
    }
}

impl Concludes for Exit {
    ghost with_id = { with_id };

    fn with_id(self, id: Hash32) -> Exit {
        Exit {
            id: Some(id),
            ..self
        }
    }
}

impl Numbered for ExitPlace {
    ghost numbers = { numbers };

    fn number(self) -> u8 {
        match self {
            ExitPlace::Reserving => 1,
            ExitPlace::Exiting => 2,
        }
    }

    fn all() -> &'static [ExitPlace] {
        &[ExitPlace::Reserving, ExitPlace::Exiting]
    }
}

impl Fields for Exit {
    ghost kept = { kept };

    fn read_fields(alloc: Global, from: &mut Reader) -> Result<Exit, PartFault> {
        Ok(Exit {
            code: Spelt::read_part(alloc, from)?,
            amount: Spelt::read_part(alloc, from)?,
            id: Spelt::read_part(alloc, from)?,
        })
    }

    fn write_fields(&self, alloc: Global, out: &mut Writer) -> Result<(), AllocError> {
        self.code.write_part(alloc, out)?;
        self.amount.write_part(alloc, out)?;
        self.id.write_part(alloc, out)
    }

    fn copy_fields(&self, _alloc: Global) -> Result<Exit, AllocError> {
        Ok(*self)
    }
}

impl Machine<ExitPlace> for Exit {
    ghost form = { form };

    ghost MACHINE = { 5 };

    ghost is_form = { is_form };

    const MACHINE: u8 = 5;

    fn start(self, _: Global, here: &Place) -> Moved {
        Ok(self.reserves(here))
    }

    fn resume(self, alloc: Global, place: ExitPlace, with: &Resumed, here: &Place) -> Moved {
        match place {
            ExitPlace::Reserving => self.reserved(alloc, with, here),
            ExitPlace::Exiting => Ok(concluded(self, with)),
        }
    }

    fn weight(&self, place: ExitPlace) -> u64 {
        match place {
            ExitPlace::Reserving => 2300,
            ExitPlace::Exiting => 1,
        }
    }

    fn called(&self) -> u64 {
        2301
    }
}

impl Worded<ExitPlace> for Exit {
    ghost use Rattle.std.specs.Prelude.{codes};
    ghost use Rattle.std.proofs.Common.{arith};

    type Args = AmountArgs;

    ghost name = { codes "exit" };

    ghost CLASS = { 5 };

    ghost begins = { begins };

    ghost args_fit = { omega arith };

    ghost begins_within = { begins_within };

    const CLASS: u16 = 5;

    fn is_named(word: &str) -> bool {
        word == "exit"
    }

    fn begin(args: AmountArgs, _: &Place) -> Option<Exit> {
        let amount = args.rest.first;
        if amount > 0 {
            Some(Exit {
                code: args.first,
                amount,
                id: None,
            })
        } else {
            None
        }
    }
}
