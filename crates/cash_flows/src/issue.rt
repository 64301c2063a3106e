//! The issue.

ghost use Rattle.std.specs.Prelude.{◌≡◌, IfOk};
ghost use Rattle.cash_flows.specs.Issue.{issuance, begins, issues, with_id, form, kept, numbers};
ghost use Rattle.cash_flows.specs.IssueLaws.{is_form, begins_within};

use crate::making::{cash, own};
use crate::words::AmountArgs;
use flow_forms::{ByWords, Call, Fields, Frame, Goes, Machine, Numbered, Worded};
use flow_machine::{Act, Place, Resumed};
use flow_txs::{Code, Concludes, alone, concluded, made};
use ledger_types::{Deed, RefList, Tx, WireTx};
use net_base::{Boxed, Hash32, ListOf, PartFault, Reader, Spelt, Writer};
use std::alloc::{AllocError, Global};

/// An issue's frame, as a flow set has it: its flows begin by words.
pub type IssueFrame = Frame<IssuePlace, Issue, ByWords>;

/// Where an issue waits.
#[derive(Clone, Copy)]
pub enum IssuePlace {
    /// On finality, which it called.
    Issuing,
}

/// The issue, class 3, `issue CODE AMOUNT`: it makes cash of this party's own token by one transaction, owned by this party, and returns
/// the transaction's id.
#[derive(Clone, Copy)]
pub struct Issue {
    /// The code of the token, of which this party is the issuer.
    pub code: Code,
    /// At least 1 in each issue that words begin.
    pub amount: u64,
    /// The transaction, once it is final.
    pub id: Option<Hash32>,
}

type Gone = Goes<IssuePlace, Issue>;

type Moved = Result<Gone, AllocError>;

/// The issue of the amount.
fn issuance(alloc: Global, issue: &Issue, here: &Place) -> Result<Tx, AllocError>
    ensures { IfOk result (λ t. t ≡ issuance issue.now here.entry.now) }
{
    let (token, amount) = (own(here, issue.code), issue.amount);
    let outputs = ListOf::from_slice(alloc, &[cash(here, token, amount, here.me)])?;
    let deed = Deed::CashIssue { token, amount };
    made(
        alloc,
        RefList::new(alloc),
        outputs,
        deed,
        alone(here.me),
        here,
    )
}

impl Issue {
    fn issues(self, alloc: Global, here: &Place) -> Moved
        ensures { IfOk result (λ g. g ≡ issues self here.entry.now) }
    {
        let frame = Call::Finality {
            tx: Boxed::new(alloc, WireTx::new(issuance(alloc, &self, here)?))?,
            peers: ListOf::new(alloc),
        };
        Ok(Goes::on(IssuePlace::Issuing, self, Act::Sub { frame }))
    }
}

impl Concludes for Issue {
    ghost with_id = { with_id };

    fn with_id(self, id: Hash32) -> Issue {
        Issue {
            id: Some(id),
            ..self
        }
    }
}

impl Numbered for IssuePlace {
    ghost numbers = { numbers };

    fn number(self) -> u8 {
        1
    }

    fn all() -> &'static [IssuePlace] {
        &[IssuePlace::Issuing]
    }
}

impl Fields for Issue {
    ghost kept = { kept };

    fn read_fields(alloc: Global, from: &mut Reader) -> Result<Issue, PartFault> {
        Ok(Issue {
            code: Spelt::read_part(alloc, from)?,
            amount: Spelt::read_part(alloc, from)?,
            id: Spelt::read_part(alloc, from)?,
        })
    }

    fn write_fields(&self, alloc: Global, out: &mut Writer) -> Result<(), AllocError> {
        self.code.write_part(alloc, out)?;
        self.amount.write_part(alloc, out)?;
        self.id.write_part(alloc, out)
    }

    fn copy_fields(&self, _alloc: Global) -> Result<Issue, AllocError> {
        Ok(*self)
    }
}

impl Machine<IssuePlace> for Issue {
    ghost form = { form };

    ghost MACHINE = { 3 };

    ghost is_form = { is_form };

    const MACHINE: u8 = 3;

    fn start(self, alloc: Global, here: &Place) -> Moved {
        self.issues(alloc, here)
    }

    fn resume(self, _: Global, _: IssuePlace, with: &Resumed, _: &Place) -> Moved {
        Ok(concluded(self, with))
    }

    fn weight(&self, _: IssuePlace) -> u64 {
        1
    }

    fn called(&self) -> u64 {
        2300
    }
}

impl Worded<IssuePlace> for Issue {
    ghost use Rattle.std.specs.Prelude.{codes};
    ghost use Rattle.std.proofs.Common.{arith};

    type Args = AmountArgs;

    ghost name = { codes "issue" };

    ghost CLASS = { 3 };

    ghost begins = { begins };

    ghost args_fit = { omega arith };

    ghost begins_within = { begins_within };

    const CLASS: u16 = 3;

    fn is_named(word: &str) -> bool {
        word == "issue"
    }

    fn begin(args: AmountArgs, _: &Place) -> Option<Issue> {
        let amount = args.rest.first;
        if amount > 0 {
            Some(Issue {
                code: args.first,
                amount,
                id: None,
            })
        } else {
            None
        }
    }
}
