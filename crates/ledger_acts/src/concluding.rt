//! The result of a job that was run.

ghost use Rattle.std.specs.Prelude.{◌≡◌, true, false, Some, None, IfOk};
ghost use Rattle.net_base.specs.Parties.{members};
ghost use Rattle.ledger_types.specs.declared.verdict.Verdict.TheVariants.{Accepted};
ghost use Rattle.ledger_types.specs.Txs.{IsTx, IsTagList};
ghost use Rattle.ledger_acts.specs.Acts.{done_of, IsOutcome};
ghost use Rattle.ledger_acts.specs.Jobs.{refusal_of, recorded_by, conclusion, IsJob};

use crate::job::{Done, Job};
use crate::outcome::{LedgerOutcome, resumed};
use flow_machine::Resumed;
use ledger_types::{LedgerChange, SignedTx, TagList, Verdict, WireTx};
use net_base::{Boxed, ListOf, PartySet};
use std::alloc::{AllocError, Global};

/// Whether a party is in the set.
fn is_any(missing: PartySet) -> bool
    ensures some { result ≡ true → refusal_of Accepted (members missing) ≡ Some 34 }
    ensures none { result ≡ false → refusal_of Accepted (members missing) ≡ None }
{
    !missing.is_empty()
}

/// The code by which a transaction is not recorded, `None` where it is.
fn refusal(verdict: Verdict, missing: PartySet) -> Option<u16>
    ensures { result ≡ refusal_of verdict (members missing) }
{
    match verdict {
        Verdict::Accepted => if is_any(missing) { Some(34) } else { None },
        Verdict::Broken { .. } => Some(31),
        Verdict::Refused { .. } => Some(32),
        Verdict::NoContract { .. } => Some(33),
    }
}

/// The result of recording, by that code.
fn recorded(
    alloc: Global,
    flow: u32,
    tx: WireTx,
    tags: TagList,
    refusal: Option<u16>,
) -> Result<LedgerOutcome, AllocError>
    ensures done { IfOk result (λ p. done_of p
        ≡ recorded_by (record { tx = tx; tags = tags }) refusal) }
    ensures limits { IsTx tx → IsTagList tags → IfOk result (IsOutcome flow) }
{
    match refusal {
        None => Ok(LedgerOutcome {
            with: Resumed::Recorded,
            change: LedgerChange {
                recorded: Some(Boxed::new(alloc, SignedTx { tx, tags })?),
                locked: ListOf::new(alloc),
                owner: flow,
                ended: false,
                booked: None,
            },
        }),
        Some(code) => {
            drop(tx);
            drop(tags);
            Ok(resumed(alloc, flow, Resumed::Refused { code }))
        }
    }
}

/// The result of a job that was run: the frame is resumed with the verdict; but where tags were asked for the transaction is recorded if
/// it was accepted and nobody is missing, and else the frame is refused with 31 to 34. The only error is want of memory.
pub fn conclude(alloc: Global, done: Done) -> Result<LedgerOutcome, AllocError>
    ensures done { IfOk result (λ p. done_of p ≡ conclusion done) }
    ensures limits { IsJob done.job → IfOk result (IsOutcome done.job.flow) }
{
    let Done {
        job,
        verdict,
        missing,
    } = done;
    let Job {
        flow,
        tx,
        tags,
        resolved,
        ..
    } = job;
    drop(resolved);
    match tags {
        None => {
            drop(tx);
            Ok(resumed(alloc, flow, Resumed::Verdict { verdict }))
        }
        Some(tags) => recorded(alloc, flow, tx, tags, refusal(verdict, missing)),
    }
}
