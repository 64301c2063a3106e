//! Each call once, over the ledger of party 1 in which one transaction is recorded, which makes 100 of a token for it.

ghost use Rattle.std.specs.Prelude.{◌≡◌, ◌<◌, ◌≤◌, ◌^◌, IfOk, IfSome, None, length};
ghost use Rattle.signing.specs.Marks.{keyed_mark};
ghost use Rattle.ledger_types.specs.Txs.{IsSignedTx, IsTx};
ghost use Rattle.flow_machine.specs.Limits.{IsAct};
ghost use Rattle.ledger_acts.specs.Jobs.{IsRun};

use contract_verify::{ContractBook, Judge};
use flow_machine::{Act, Checkpoint, Resumed, Stack};
use ledger_acts::{
    Done, LedgerOutcome, acts_as_meant, conclude, concludes_as_meant, is_awaited, job_is_the_act,
    job_stays, jobs_are_within, look_up, missing, needs_job, notarise, record_unjudged, reserve,
    settles_as_meant, sign, take_job, unclaimed_is_picked, unjudged_as_meant, verify_unjudged,
};
use ledger_tables::LedgerTables;
use ledger_types::{LedgerChange, Request, SignedTx, Tx, Verdict, WireTx};
use net_base::{
    Boxed, Hash32, Identity, ListOf, Moment, Party, PartySet, Reader, Spelt, StateRef, Tag, Token,
    Writer,
};
use node_ledger::{add_change, change_fits, make_change_room, new_ledger};
use signing::{KeyedDigest, Signer};
use std::alloc::{AllocError, Global};
use std::mem::forget;
use std::test::Fail;
use tx_store::Store;
use tx_tear::tear;

const NOTARY: Party = Party(0);

/// The node of this party, of a network of two.
const fn node(party: Party) -> Identity {
    Identity {
        party,
        nodes: 2,
        notary: NOTARY,
    }
}

/// A transaction that makes an amount of a token for party 1, and consumes the state if there is one.
fn cash(alloc: Global, input: Option<StateRef>, amount: u8) -> Result<WireTx, Fail>
    ensures { IfOk result (λ tx. IsTx tx) }
{
    let mut out = Writer::new(alloc);
    out.put_hash(alloc, &Hash32([1; 32]))?;
    if let Some(r) = input {
        out.put_u8(alloc, 1)?;
        out.put_hash(alloc, &r.id)?;
        out.put_u32(alloc, r.index)?;
    } else {
        out.put_u8(alloc, 0)?;
    }
    out.put_bytes(
        alloc,
        &[1, 1, 3, b'E', b'U', b'R', 0, 0, 0, 0, 0, 0, 0, amount, 1],
    )?;
    out.put_bytes(alloc, &[0, 0, 0, 0, 1, 0, 0, 0])?;
    let bytes = out.into_bytes();
    let tx = Tx::decode(alloc, &mut Reader::new(bytes.as_slice()))?;
    Ok(WireTx::new(tx))
}

/// A transaction that makes 100 of a token for party 1, and consumes the state if there is one.
fn transaction(alloc: Global, input: Option<StateRef>) -> Result<WireTx, Fail>
    ensures { IfOk result (λ tx. IsTx tx) }
{
    cash(alloc, input, 100)
}

/// Applies a change where it fits.
fn apply(alloc: Global, ledger: &mut LedgerTables, change: LedgerChange) -> Result<bool, AllocError>
    requires recorded { IfSome change.recorded IsSignedTx }
    requires booked { change.booked ≡ None }
{
    make_change_room(alloc, ledger, &change)?;
    if !change_fits(ledger, NOTARY, &change) || ledger.store().count() > 9 {
        return Ok(false);
    }
    add_change::<u32>(ledger, NOTARY, change);
    Ok(true)
}

/// Records a transaction where it may be recorded.
fn record(alloc: Global, ledger: &mut LedgerTables, tx: WireTx) -> Result<bool, AllocError>
    requires { IsTx tx }
{
    let tags = ListOf::new(alloc);
    let change = LedgerChange {
        recorded: Some(Boxed::new(alloc, SignedTx { tx, tags })?),
        locked: ListOf::new(alloc),
        owner: 0,
        ended: false,
        booked: None,
    };
    apply(alloc, ledger, change)
}

/// What the frame is resumed with, in a number; how many states are locked, and whether something is recorded or booked.
fn shown(outcome: LedgerOutcome) -> (u16, usize, bool, bool) {
    let change = &outcome.change;
    let shown = (
        number_of(&outcome.with),
        change.locked.len(),
        change.recorded.is_some(),
        change.booked.is_some(),
    );
    forget(outcome);
    shown
}

fn number_of(with: &Resumed) -> u16 {
    match with {
        Resumed::Coins { list } => 100 + u16::from(list.len() == 1),
        Resumed::Found { .. } => 200,
        Resumed::Ids { list } => 300 + u16::from(list.len() == 1),
        Resumed::Tagged { tag } => 400 + u16::from(tag.by.0),
        Resumed::Answer { answer } => 500 + u16::from(answer.get().code()),
        Resumed::Verdict { verdict } => 600 + u16::from(*verdict == Verdict::Broken { rule: 3 }),
        Resumed::Recorded => 700,
        Resumed::Refused { code } => *code,
        _ => 0,
    }
}

/// What a request of party 1 for the notary's signature under a transaction is answered.
fn ask_notary(
    alloc: Global,
    ledger: &LedgerTables,
    tx: &WireTx,
) -> Result<(u16, usize, bool, bool), AllocError>
    requires { IsTx tx.now }
{
    let torn = tear(alloc, tx)?;
    let by = Party(1);
    let tag = Tag {
        by,
        of: torn.id,
        mark: KeyedDigest.mark(by, &torn.id),
    };
    let request = Request {
        party: by,
        flow: 4,
        torn,
        tag,
    };
    let answer = notarise(alloc, &node(NOTARY), ledger, 4, Moment(7), &request);
    forget(request);
    Ok(shown(answer?))
}

/// What is answered: which coins are reserved, whether a transaction is found, and which one that this names is missing.
fn ask(
    alloc: Global,
    ledger: &LedgerTables,
    id: &Hash32,
    tx: &WireTx,
) -> Result<[(u16, usize, bool, bool); 3], AllocError> {
    let token = Token {
        issuer: Party(3),
        code: *b"EUR",
    };
    Ok([
        shown(reserve(alloc, ledger, 4, &token, 60)?),
        shown(look_up(alloc, ledger, 4, id)?),
        shown(missing(alloc, ledger, 4, tx)?),
    ])
}

/// The ledger of party 1 in which the transaction is recorded.
fn ledger_with(alloc: Global, tx: WireTx) -> Result<LedgerTables, AllocError>
    requires { IsTx tx }
{
    let mut ledger = new_ledger(alloc, Party(1));
    match record(alloc, &mut ledger, tx) {
        Ok(_) => Ok(ledger),
        Err(fault) => {
            forget(ledger);
            Err(fault)
        }
    }
}

/// The state that the transaction of an id makes.
fn made_by(id: Hash32) -> StateRef {
    StateRef { id, index: 0 }
}

#[test]
fn acts_answer(rt: HostRuntime) -> Result<(), Fail> {
    let alloc = rt.alloc();
    let first = transaction(alloc, None)?;
    let id = first.id();
    let ledger = ledger_with(alloc, first)?;
    let other = transaction(alloc, Some(made_by(Hash32([9; 32]))))?;
    let asked = ask(alloc, &ledger, &id, &other);
    let notarised = ask_notary(alloc, &ledger, &other);
    forget(ledger);
    forget(other);
    assert_eq!(rt;
        asked?,
        [
            (101, 1, false, false),
            (200, 0, false, false),
            (301, 0, false, false)
        ]
    );
    assert_eq!(rt; notarised?, (500, 0, false, true));
    let signed = shown(sign(alloc, &node(Party(1)), 4, id));
    assert_eq!(rt; signed, (401, 0, false, false));
    let refused = shown(sign(alloc, &node(NOTARY), 4, id));
    assert_eq!(rt; refused, (46, 0, false, false));
    Ok(())
}

/// Locks a coin for flow 7, where it is one.
fn lock(alloc: Global, ledger: &mut LedgerTables, coin: StateRef) -> Result<bool, AllocError> {
    let mut locked = ListOf::new(alloc);
    locked.push(coin)?;
    let change = LedgerChange {
        recorded: None,
        locked,
        owner: 7,
        ended: false,
        booked: None,
    };
    apply(alloc, ledger, change)
}

/// How many coins a reservation names, and how many it locks; and what there is, where that is less than the amount.
fn reserved(
    alloc: Global,
    ledger: &LedgerTables,
    amount: u64,
) -> Result<(usize, usize, u128), AllocError> {
    let token = Token {
        issuer: Party(3),
        code: *b"EUR",
    };
    let outcome = reserve(alloc, ledger, 4, &token, amount)?;
    let shown = match &outcome.with {
        Resumed::Coins { list } => (list.len(), outcome.change.locked.len(), 0),
        Resumed::Short { have } => (0, outcome.change.locked.len(), *have),
        _ => (0, 0, 0),
    };
    forget(outcome);
    Ok(shown)
}

/// What 120 and 60 are answered before and behind a lock of the first coin.
fn reserved_around(
    alloc: Global,
    ledger: &mut LedgerTables,
    coin: StateRef,
) -> Result<[(usize, usize, u128); 4], AllocError> {
    let many = reserved(alloc, ledger, 120)?;
    let few = reserved(alloc, ledger, 60)?;
    lock(alloc, ledger, coin)?;
    Ok([
        many,
        few,
        reserved(alloc, ledger, 120)?,
        reserved(alloc, ledger, 60)?,
    ])
}

/// Coins of 100 and 50: 120 takes both; once the first is locked there are 50, so 60 can't be had.
#[test]
fn a_locked_coin_is_not_reserved(rt: HostRuntime) -> Result<(), Fail> {
    let alloc = rt.alloc();
    let first = transaction(alloc, None)?;
    let coin = made_by(first.id());
    let second = cash(alloc, None, 50)?;
    let mut ledger = ledger_with(alloc, first)?;
    let added = record(alloc, &mut ledger, second);
    let answers = reserved_around(alloc, &mut ledger, coin);
    forget(ledger);
    assert!(rt; added?);
    assert_eq!(rt; answers?, [(2, 2, 0), (1, 1, 0), (0, 0, 50), (0, 0, 50)]);
    Ok(())
}

/// The job that a flow waits for, once it was run.
fn run_awaited<F: Spelt, J: Judge>(
    alloc: Global,
    store: &Store,
    at: &Checkpoint<F>,
    contracts: &J,
) -> Result<Option<Done>, AllocError>
    requires { IsAct F.within at.now.waiting }
    ensures { IfOk result (λ done. IfSome done (IsRun (J.judges contracts.now) keyed_mark)) }
{
    match take_job(alloc, &node(Party(1)), store, at)? {
        None => Ok(None),
        Some(job) => Ok(Some(job.run(contracts))),
    }
}

/// Whether the job of a flow is awaited, and its result where no contract is known.
fn judge<F: Spelt>(
    alloc: Global,
    store: &Store,
    at: &Checkpoint<F>,
) -> Result<(bool, u16), AllocError>
    requires { IsAct F.within at.now.waiting }
{
    let contracts = ContractBook::new(Vec::new(alloc));
    match run_awaited(alloc, store, at, &contracts)? {
        None => Ok((false, 0)),
        Some(done) => {
            let is_it = is_awaited(&node(Party(1)), store, at, &done.job);
            Ok((is_it, shown(conclude(alloc, done)?).0))
        }
    }
}

/// The result of a flow's job where its transaction was accepted and nobody is missing.
fn accept<F: Spelt>(
    alloc: Global,
    store: &Store,
    at: &Checkpoint<F>,
) -> Result<(u16, usize, bool, bool), AllocError>
    requires { IsAct F.within at.now.waiting }
{
    match take_job(alloc, &node(Party(1)), store, at)? {
        None => Ok((0, 0, false, false)),
        Some(job) => Ok(shown(conclude(
            alloc,
            Done {
                job,
                verdict: Verdict::Accepted,
                missing: PartySet::empty(),
            },
        )?)),
    }
}

/// Whether a flow waits for a job; its result where no contract is known, and where it was accepted. It lets go of the
/// flow.
fn settle(
    alloc: Global,
    store: &Store,
    waiting: Act<u32>,
) -> Result<(bool, (bool, u16), (u16, usize, bool, bool)), AllocError>
    requires { IsAct (λ frame. frame < 2 ^ 32) waiting }
{
    let Ok(stack) = Stack::new(alloc, 1) else {
        forget(waiting);
        return Err(AllocError);
    };
    let at = Checkpoint {
        flow: 4,
        step: 2,
        class: 1,
        waiting,
        stack,
    };
    let needs = needs_job(&node(Party(1)), store, &at);
    let judged = judge(alloc, store, &at);
    let accepted = accept(alloc, store, &at);
    forget(at);
    Ok((needs, judged?, accepted?))
}

/// What becomes of a transaction that is to be judged.
fn settle_verify(
    alloc: Global,
    store: &Store,
    tx: WireTx,
) -> Result<(bool, (bool, u16), (u16, usize, bool, bool)), AllocError>
    requires { IsTx tx }
{
    let tx = Boxed::new(alloc, tx)?;
    settle(alloc, store, Act::Verify { tx })
}

/// What becomes of a transaction that is to be recorded, without tags.
fn settle_record(
    alloc: Global,
    store: &Store,
    tx: WireTx,
) -> Result<(bool, (bool, u16), (u16, usize, bool, bool)), AllocError>
    requires { IsTx tx }
{
    let tags = ListOf::new(alloc);
    let stx = Boxed::new(alloc, SignedTx { tx, tags })?;
    settle(alloc, store, Act::Record { stx })
}

#[test]
fn jobs_are_run(rt: HostRuntime) -> Result<(), Fail> {
    let alloc = rt.alloc();
    let first = transaction(alloc, None)?;
    let input = made_by(first.id());
    let ledger = ledger_with(alloc, first)?;
    let verified = settle_verify(alloc, ledger.store(), transaction(alloc, Some(input))?);
    let recorded = settle_record(alloc, ledger.store(), transaction(alloc, Some(input))?);
    forget(ledger);
    assert_eq!(rt; verified?, (true, (true, 601), (600, 0, false, false)));
    assert_eq!(rt; recorded?, (true, (true, 31), (700, 0, true, false)));
    assert_eq!(rt; shown(verify_unjudged(alloc, 4)), (35, 0, false, false));
    Ok(())
}

/// What becomes of a transaction that is to be recorded and waits for no job.
fn without_job(alloc: Global, store: &Store, stx: &SignedTx) -> (u16, usize, bool, bool)
    requires { IsTx stx.now.tx }
{
    shown(record_unjudged(alloc, &node(Party(1)), store, 4, stx))
}

#[test]
fn a_recorded_transaction_waits_for_no_job(rt: HostRuntime) -> Result<(), Fail> {
    let alloc = rt.alloc();
    let ledger = ledger_with(alloc, transaction(alloc, None)?)?;
    let tags = ListOf::new(alloc);
    let stx = SignedTx {
        tx: transaction(alloc, None)?,
        tags,
    };
    let again = without_job(alloc, ledger.store(), &stx);
    forget(stx);
    forget(ledger);
    assert_eq!(rt; again, (700, 0, false, false));
    acts_as_meant::<u32>();
    unjudged_as_meant::<u32>();
    job_is_the_act::<u32>();
    concludes_as_meant::<u32>();
    settles_as_meant::<u32>();
    job_stays::<u32>();
    jobs_are_within::<u32>();
    unclaimed_is_picked::<u32>();
    Ok(())
}
