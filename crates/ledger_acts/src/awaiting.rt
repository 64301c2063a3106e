//! The job that a live flow waits for.

ghost use Rattle.std.specs.Prelude.{◌≡◌, ◌↔◌, ◌&&◌, not, is_some, IsTrue, Some, IfOk, IfSome};
ghost use Rattle.std.specs.Option.{option_copied};
ghost use Rattle.ledger_types.specs.Rules.{is_other_notary};
ghost use Rattle.ledger_types.specs.Stores.{is_stored, resolved_of};
ghost use Rattle.ledger_types.specs.Txs.{IsTx, IsSignedTx, IsTagList};
ghost use Rattle.tx_store.specs.Stored.{HasEach};
ghost use Rattle.flow_machine.specs.declared.acts.Resumed.TheVariants.{Refused};
ghost use Rattle.flow_machine.specs.Limits.{IsAct, IsResumed};
ghost use Rattle.net_model.specs.State.{nothing};
ghost use Rattle.ledger_acts.specs.Acts.{done_of, IsOutcome};
ghost use Rattle.ledger_acts.specs.Jobs.{tx_job, is_open, record_job, unjudged, awaited, IsJob};

use crate::job::Job;
use crate::outcome::{LedgerOutcome, resumed};
use flow_machine::{Act, Checkpoint, Resumed};
use ledger_types::{Resolved, SignedTx, TagList, Tx, WireTx, same_tags};
use net_base::{Hash32, Identity, Party, Spelt};
use std::alloc::{AllocError, Global};
use tx_store::{ResolveFault, Store};

/// Whether no transaction of this id is recorded.
fn is_new(store: &Store, id: &Hash32) -> bool
    ensures { result ≡ not (is_stored store.now.list id.now) }
{
    store.get(id).is_none()
}

/// Whether a transaction names another notary.
fn is_other_notary(named: Option<Party>, notary: Party) -> bool
    ensures { result ≡ is_other_notary named notary }
{
    match named {
        None => false,
        Some(named) => named.0 != notary.0,
    }
}

/// Whether a transaction is open to be recorded: its id is new, and it names no other notary.
fn is_open(identity: &Identity, store: &Store, tx: &WireTx) -> bool
    requires { IsTx tx.now }
    ensures { result ≡ is_open identity.now store.now.list tx.now }
{
    is_new(store, &tx.id()) && !is_other_notary(tx.notary, identity.notary)
}

/// Whether recording a transaction waits for a job.
fn records_by_job(identity: &Identity, store: &Store, tx: &WireTx) -> bool
    requires { IsTx tx.now }
    ensures { result ≡ (is_open identity.now store.now.list tx.now
        && is_some (resolved_of store.now.list tx.now)) }
{
    is_open(identity, store, tx) && store.has_states(tx)
}

/// Whether a live flow waits for a job. Takes no memory.
#[tactic(auto, using(crate::proofs::Waiting::judging_waits, crate::proofs::Waiting::recording_waits))]
pub fn needs_job<F: Spelt>(identity: &Identity, store: &Store, at: &Checkpoint<F>) -> bool
    requires { IsAct F.within at.now.waiting }
    ensures { result ≡ is_some (awaited identity.now store.now.list at.now) }
{
    match &at.waiting {
        Act::Verify { tx } => store.has_states(tx.get()),
        Act::Record { stx } => records_by_job(identity, store, &stx.get().tx),
        _ => false,
    }
}

/// Refuses the frame with 35: a state that its transaction names can't be had. It is what becomes of a flow that has a transaction judged
/// and waits for no job. Takes no memory.
pub fn verify_unjudged(alloc: Global, flow: u32) -> LedgerOutcome
    ensures done { done_of result ≡ (Refused 35, nothing) }
    ensures limits { IsOutcome flow result }
{
    resumed(alloc, flow, Resumed::Refused { code: 35 })
}

/// What the frame is resumed with whose transaction is not recorded by a job.
fn unjudged(identity: &Identity, store: &Store, stx: &SignedTx) -> Resumed
    requires { IsTx stx.now.tx }
    ensures with { result ≡ unjudged identity.now store.now.list stx.now }
    ensures limits { IsResumed result }
{
    if !is_new(store, &stx.tx.id()) {
        Resumed::Recorded
    } else if is_other_notary(stx.tx.notary, identity.notary) {
        Resumed::Refused { code: 41 }
    } else {
        Resumed::Refused { code: 35 }
    }
}

/// What becomes of a flow that has a transaction recorded and waits for no job: the frame is resumed with `Recorded` where the id is
/// recorded already, and refused with 41 where the transaction names another notary, and else with 35, since a state that it names
/// can't be had. Nothing changes. Takes no memory.
pub fn record_unjudged(
    alloc: Global,
    identity: &Identity,
    store: &Store,
    flow: u32,
    stx: &SignedTx,
) -> LedgerOutcome
    requires { IsTx stx.now.tx }
    ensures done { done_of result ≡ (unjudged identity.now store.now.list stx.now, nothing) }
    ensures limits { IsOutcome flow result }
{
    resumed(alloc, flow, unjudged(identity, store, stx))
}

/// The states that a transaction names, `None` where one can't be had. The only error is want of memory.
fn states(alloc: Global, store: &Store, tx: &Tx) -> Result<Option<Resolved>, AllocError>
    ensures states { IfOk result (λ states. states ≡ resolved_of store.now.list tx.now) }
    ensures lengths { IfOk result (λ states. IfSome states (HasEach tx.now)) }
{
    match store.resolve(alloc, tx) {
        Ok(states) => Ok(Some(states)),
        Err(ResolveFault::Memory) => Err(AllocError),
        Err(ResolveFault::Lacking { .. }) => Ok(None),
        Err(ResolveFault::NoOutput { .. }) => Ok(None),
    }
}

/// The job of judging a transaction, and of recording it where there are tags; `None` where a state can't be had. The only error is want
/// of memory.
fn tx_job(
    alloc: Global,
    identity: &Identity,
    store: &Store,
    flow: u32,
    step: u32,
    tx: &WireTx,
    tags: Option<TagList>,
) -> Result<Option<Job>, AllocError>
    ensures job { IfOk result (λ job. job
        ≡ tx_job identity.now store.now.list flow step tx.now tags) }
    ensures limits { IsTx tx.now → IfSome tags IsTagList → IfOk result (λ job. IfSome job IsJob) }
{
    let Some(resolved) = states(alloc, store, tx)? else {
        return Ok(None);
    };
    Ok(Some(Job {
        node: identity.party,
        flow,
        step,
        tx: tx.copy(alloc)?,
        tags,
        resolved,
    }))
}

/// The job of recording a transaction, `None` where there is none. The only error is want of memory.
fn record_job(
    alloc: Global,
    identity: &Identity,
    store: &Store,
    flow: u32,
    step: u32,
    stx: &SignedTx,
) -> Result<Option<Job>, AllocError>
    requires { IsSignedTx stx.now }
    ensures job { IfOk result (λ job. job
        ≡ record_job identity.now store.now.list flow step stx.now) }
    ensures limits { IfOk result (λ job. IfSome job IsJob) }
{
    if !is_open(identity, store, &stx.tx) {
        return Ok(None);
    }
    let tags = stx.tags.copy(alloc)?;
    tx_job(alloc, identity, store, flow, step, &stx.tx, Some(tags))
}

/// The job that a live flow waits for, `None` where it waits for none. The only error is want of memory.
///
/// `Job::run` may run it.
pub fn take_job<F: Spelt>(
    alloc: Global,
    identity: &Identity,
    store: &Store,
    at: &Checkpoint<F>,
) -> Result<Option<Job>, AllocError>
    requires { IsAct F.within at.now.waiting }
    ensures job { IfOk result (λ job. job ≡ awaited identity.now store.now.list at.now) }
    ensures limits { IfOk result (λ job. IfSome job IsJob) }
{
    match &at.waiting {
        Act::Verify { tx } => tx_job(alloc, identity, store, at.flow, at.step, tx.get(), None),
        Act::Record { stx } => record_job(alloc, identity, store, at.flow, at.step, stx.get()),
        _ => Ok(None),
    }
}

/// Whether two lists of tags, where there are any, are the same.
fn same_some(a: Option<&TagList>, b: &Option<TagList>) -> bool
    ensures { IsTrue result ↔ (option_copied a.entry ≡ b.now) }
{
    match (a, b) {
        (None, None) => true,
        (Some(a), Some(b)) => same_tags(a, b),
        _ => false,
    }
}

/// Whether a job is that of judging a transaction, and of recording it where there are tags.
#[tactic(auto, using(crate::proofs::Waiting::is_of))]
fn is_tx_job(
    identity: &Identity,
    store: &Store,
    flow: u32,
    step: u32,
    tx: &WireTx,
    tags: Option<&TagList>,
    job: &Job,
) -> bool
    ensures { IsTrue result ↔ (tx_job identity.now store.now.list flow step tx.now
        (option_copied tags.entry) ≡ Some job.now) }
{
    (job.node == identity.party && (job.flow == flow && job.step == step))
        && (*tx.get() == *job.tx.get()
            && (same_some(tags, &job.tags) && store.resolves_to(tx, &job.resolved)))
}

/// Whether a job is that of recording a transaction.
#[tactic(auto, using(crate::proofs::Waiting::is_recording))]
fn is_record_job(
    identity: &Identity,
    store: &Store,
    flow: u32,
    step: u32,
    stx: &SignedTx,
    job: &Job,
) -> bool
    requires { IsTx stx.now.tx }
    ensures { IsTrue result ↔ (record_job identity.now store.now.list flow step stx.now
        ≡ Some job.now) }
{
    is_open(identity, store, &stx.tx)
        && is_tx_job(identity, store, flow, step, &stx.tx, Some(&stx.tags), job)
}

/// Whether a job is the one that a live flow waits for: it is the test of a job that comes back. Takes no memory.
pub fn is_awaited<F: Spelt>(
    identity: &Identity,
    store: &Store,
    at: &Checkpoint<F>,
    job: &Job,
) -> bool
    requires { IsAct F.within at.now.waiting }
    ensures { IsTrue result ↔ (awaited identity.now store.now.list at.now ≡ Some job.now) }
{
    match &at.waiting {
        Act::Verify { tx } => { is_tx_job(identity, store, at.flow, at.step, tx.get(), None, job) }
        Act::Record { stx } => { is_record_job(identity, store, at.flow, at.step, stx.get(), job) }
        _ => false,
    }
}
