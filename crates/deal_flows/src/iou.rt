//! The debt.

ghost use Rattle.std.specs.Prelude.{◌≡◌, IfOk};
ghost use Rattle.deal_flows.specs.Iou.{debt, is_in_range, fields_of, begins, borrows, with_id, form, kept, numbers};
ghost use Rattle.deal_flows.specs.IouLaws.{is_form, begins_within};

use flow_forms::{
    ByWords, Call, End, Fields, Frame, Goes, Machine, Numbered, Then, Worded, is_peer,
};
use flow_machine::{Act, Place, Resumed};
use flow_txs::{Code, Concludes, both, concluded, made, plain};
use ledger_types::{Deed, RefList, StateData, Tx, WireTx};
use net_base::{Boxed, Hash32, ListOf, PartFault, Party, Reader, Spelt, Token, Writer};
use std::alloc::{AllocError, Global};

/// The arguments of a debt, in the order of their words: the lender, the code, the issuer and the amount. A flow begins where the lender is
/// another node of the network, the issuer is at most 15 and the amount at least 1.
pub type IouArgs = Then<u8, Then<Code, Then<u8, Then<u64, End>>>>;

/// A debt's frame, as a flow set has it: its flows begin by words.
pub type IouFrame = Frame<IouPlace, Iou, ByWords>;

/// Where a debt waits.
#[derive(Clone, Copy)]
pub enum IouPlace {
    /// On finality, which it called.
    Borrowing,
}

/// The debt, class 9, `iou P CODE ISSUER AMOUNT`: it makes a debt of this party to another node of the network by one transaction, which both
/// of them sign, and returns the transaction's id.
#[derive(Clone, Copy)]
pub struct Iou {
    /// The party that is owed.
    pub lender: Party,
    pub token: Token,
    /// At least 1 in each debt that words begin.
    pub amount: u64,
    /// The transaction, once it is final.
    pub id: Option<Hash32>,
}

type Gone = Goes<IouPlace, Iou>;

type Moved = Result<Gone, AllocError>;

/// The making of the debt.
fn debt(alloc: Global, iou: &Iou, here: &Place) -> Result<Tx, AllocError>
    ensures { IfOk result (λ t. t ≡ debt iou.now here.entry.now) }
{
    let body = StateData::Iou {
        lender: iou.lender,
        borrower: here.me,
        token: iou.token,
        amount: iou.amount,
    };
    let outputs = ListOf::from_slice(alloc, &[plain(here, body)])?;
    let signers = both(iou.lender, here.me);
    made(
        alloc,
        RefList::new(alloc),
        outputs,
        Deed::IouMake,
        signers,
        here,
    )
}

fn is_in_range(args: &IouArgs, here: &Place) -> bool
    ensures { result ≡ is_in_range args.now here.entry.now }
{
    let issuer = args.rest.rest.first;
    let amount = args.rest.rest.rest.first;
    is_peer(args.first, here) && (issuer < 16 && amount > 0)
}

fn fields_of(args: &IouArgs) -> Iou
    ensures { result ≡ fields_of args.now }
{
    Iou {
        lender: Party(args.first),
        token: Token {
            issuer: Party(args.rest.rest.first),
            code: args.rest.first.0,
        },
        amount: args.rest.rest.rest.first,
        id: None,
    }
}

impl Iou {
    fn borrows(self, alloc: Global, here: &Place) -> Moved
        ensures { IfOk result (λ g. g ≡ borrows self here.entry.now) }
    {
        let frame = Call::Finality {
            tx: Boxed::new(alloc, WireTx::new(debt(alloc, &self, here)?))?,
            peers: ListOf::from_slice(alloc, &[self.lender])?,
        };
        Ok(Goes::on(IouPlace::Borrowing, self, Act::Sub { frame }))
    }
}

impl Concludes for Iou {
    ghost with_id = { with_id };

    fn with_id(self, id: Hash32) -> Iou {
        Iou {
            id: Some(id),
            ..self
        }
    }
}

impl Numbered for IouPlace {
    ghost numbers = { numbers };

    fn number(self) -> u8 {
        1
    }

    fn all() -> &'static [IouPlace] {
        &[IouPlace::Borrowing]
    }
}

impl Fields for Iou {
    ghost kept = { kept };

    fn read_fields(alloc: Global, from: &mut Reader) -> Result<Iou, PartFault> {
        Ok(Iou {
            lender: Spelt::read_part(alloc, from)?,
            token: Spelt::read_part(alloc, from)?,
            amount: Spelt::read_part(alloc, from)?,
            id: Spelt::read_part(alloc, from)?,
        })
    }

    fn write_fields(&self, alloc: Global, out: &mut Writer) -> Result<(), AllocError> {
        self.lender.write_part(alloc, out)?;
        self.token.write_part(alloc, out)?;
        self.amount.write_part(alloc, out)?;
        self.id.write_part(alloc, out)
    }

    fn copy_fields(&self, _alloc: Global) -> Result<Iou, AllocError> {
        Ok(*self)
    }
}

impl Machine<IouPlace> for Iou {
    ghost form = { form };

    ghost MACHINE = { 9 };

    ghost is_form = { is_form };

    const MACHINE: u8 = 9;

    fn start(self, alloc: Global, here: &Place) -> Moved {
        self.borrows(alloc, here)
    }

    fn resume(self, _: Global, _: IouPlace, with: &Resumed, _: &Place) -> Moved {
        Ok(concluded(self, with))
    }

    fn weight(&self, _: IouPlace) -> u64 {
        1
    }

    fn called(&self) -> u64 {
        4873
    }
}

impl Worded<IouPlace> for Iou {
    ghost use Rattle.std.specs.Prelude.{codes};
    ghost use Rattle.std.proofs.Common.{arith};

    type Args = IouArgs;

    ghost name = { codes "iou" };

    ghost CLASS = { 9 };

    ghost begins = { begins };

    ghost args_fit = { omega arith };

    ghost begins_within = { begins_within };

    const CLASS: u16 = 9;

    fn is_named(word: &str) -> bool {
        word == "iou"
    }

    fn begin(args: IouArgs, here: &Place) -> Option<Iou> {
        if is_in_range(&args, here) {
            Some(fields_of(&args))
        } else {
            None
        }
    }
}
