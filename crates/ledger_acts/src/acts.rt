//! What the acts of a flow on its node's ledger do that wait for no job.

ghost use Rattle.std.specs.Prelude.{◌≡◌, ◌≤◌, Some, None, IfOk, IfSome, map, length, if◌then◌else◌};
ghost use Rattle.net_base.specs.Forms.{ListWithin};
ghost use Rattle.net_base.specs.Names.{IsStateRef, IsIdentity};
ghost use Rattle.tx_tear.specs.Limits.{IsVisible};
ghost use Rattle.ledger_types.specs.Tears.{visible_of};
ghost use Rattle.ledger_types.specs.Notary.{entry_of, inputs_of};
ghost use Rattle.ledger_types.specs.Requests.{IsRequest, IsEntry, IsNotaryAnswer};
ghost use Rattle.ledger_acts.specs.Acts.{Does, IsOutcome, done_of, reserving, finding, lacking, signing, notarising};

use crate::outcome::{LedgerOutcome, resumed};
use flow_machine::Resumed;
use ledger_tables::LedgerTables;
use ledger_types::{Entry, Held, LedgerChange, NotaryAnswer, RefList, Request, Visible, WireTx};
use net_base::{Boxed, Hash32, Identity, ListOf, Moment, Tag, Token, Unlimited, law_known_items};
use notary_book::Decision;
use signing::{KeyedDigest, Signer};
use std::alloc::{AllocError, Global};
use tx_tear::{TearFault, visible};
use vault::ReserveFault;

/// The references of coins, of which a reservation names 64 at most. The only error is want of memory.
fn references(alloc: Global, coins: &[Held]) -> Result<RefList, AllocError>
    requires { length coins.now ≤ 64 }
    ensures list { IfOk result (λ list. list ≡ map (λ h. h.reference) coins.now) }
    ensures limits { IfOk result (ListWithin 255 IsStateRef) }
{
    let mut list = ListOf::new(alloc);
    for coin in coins {
        list.push(coin.reference)?;
    }
    law_known_items(list.as_slice());
    Ok(list)
}

/// Reserves the first coins of a token that are worth the amount, of the first 64, and no more than are needed: they are locked for
/// the flow. The frame is resumed with `Coins`, or with `Short` and their sum where they are worth less. The only error is want of
/// memory.
pub fn reserve(
    alloc: Global,
    ledger: &LedgerTables,
    flow: u32,
    token: &Token,
    amount: u64,
) -> Result<LedgerOutcome, AllocError>
    ensures done { IfOk result (Does ledger.now (reserving token.now amount)) }
    ensures limits { IfOk result (IsOutcome flow) }
{
    match ledger.vault().reserve(alloc, token, amount) {
        Ok(list) => {
            let locked = references(alloc, list.as_slice())?;
            Ok(LedgerOutcome {
                with: Resumed::Coins { list },
                change: LedgerChange {
                    recorded: None,
                    locked,
                    owner: flow,
                    ended: false,
                    booked: None,
                },
            })
        }
        Err(ReserveFault::Short { have }) => Ok(resumed(alloc, flow, Resumed::Short { have })),
        Err(ReserveFault::Memory) => Err(AllocError),
    }
}

/// Looks for the recorded transaction of an id: the frame is resumed with `Found`, or with `Absent` where there is none. The only error
/// is want of memory.
pub fn look_up(
    alloc: Global,
    ledger: &LedgerTables,
    flow: u32,
    id: &Hash32,
) -> Result<LedgerOutcome, AllocError>
    ensures done { IfOk result (Does ledger.now (finding id.now)) }
    ensures limits { IfOk result (IsOutcome flow) }
{
    let with = match ledger.store().get(id) {
        Some(stx) => Resumed::Found {
            stx: Boxed::new(alloc, stx.copy(alloc)?)?,
        },
        None => Resumed::Absent,
    };
    Ok(resumed(alloc, flow, with))
}

/// Asks which transactions that this one names are not recorded: the frame is resumed with their ids, each once, those of its inputs
/// first. The only error is want of memory.
pub fn missing(
    alloc: Global,
    ledger: &LedgerTables,
    flow: u32,
    tx: &WireTx,
) -> Result<LedgerOutcome, AllocError>
    ensures done { IfOk result (Does ledger.now (lacking tx.now)) }
    ensures limits { IfOk result (IsOutcome flow) }
{
    let list = ledger.store().missing(alloc, tx)?;
    law_known_items(list.as_slice());
    Ok(resumed(alloc, flow, Resumed::Ids { list }))
}

/// Has the node's party sign an id: the frame is resumed with the tag. It is refused with 46 where the party is its network's notary,
/// which signs by its book alone. Takes no memory.
pub fn sign(alloc: Global, identity: &Identity, flow: u32, id: Hash32) -> LedgerOutcome
    ensures done { done_of result ≡ signing identity.now id }
    ensures limits { IsIdentity identity.now → IsOutcome flow result }
{
    if identity.notary.0 == identity.party.0 {
        return resumed(alloc, flow, Resumed::Refused { code: 46 });
    }
    let mark = KeyedDigest.mark(identity.party, &id);
    id.law_known();
    mark.law_known();
    let tag = Tag {
        by: identity.party,
        of: id,
        mark,
    };
    resumed(alloc, flow, Resumed::Tagged { tag })
}

/// What a request's tear-off shows, `None` where it is bad. The only error is want of memory.
fn seen_in(alloc: Global, request: &Request) -> Result<Option<Visible>, AllocError>
    ensures seen { IfOk result (λ seen. seen ≡ visible_of request.now.torn) }
    ensures limits { IsRequest request.now → IfOk result (λ seen. IfSome seen IsVisible) }
{
    match visible(alloc, &request.torn) {
        Ok(seen) => Ok(Some(seen)),
        Err(TearFault::BadTear) => Ok(None),
        Err(TearFault::Memory) => Err(AllocError),
    }
}

/// The inputs that a tear-off shows.
fn inputs_of(alloc: Global, seen: Option<Visible>) -> RefList
    ensures inputs { result ≡ inputs_of seen }
    ensures limits { IfSome seen IsVisible → ListWithin 64 IsStateRef result }
{
    match seen {
        Some(seen) => seen.inputs,
        None => ListOf::new(alloc),
    }
}

/// The entry that is added for a fresh answer. The only error is want of memory.
fn entry_of(
    alloc: Global,
    request: &Request,
    seen: Option<Visible>,
    answer: &NotaryAnswer,
) -> Result<Entry, AllocError>
    requires { seen ≡ visible_of request.now.torn }
    ensures entry { IfOk result (λ e. e ≡ entry_of request.now answer.now) }
    ensures limits { IsRequest request.now → IfSome seen IsVisible → IsNotaryAnswer answer.now
        → IfOk result IsEntry }
{
    Ok(Entry {
        request: request.copy(alloc)?,
        inputs: inputs_of(alloc, seen),
        answer: answer.copy(alloc)?,
    })
}

/// The entry of a decision, where it is fresh. The only error is want of memory.
fn booked_of(
    alloc: Global,
    request: &Request,
    seen: Option<Visible>,
    decision: &Decision,
) -> Result<Option<Boxed<Entry>>, AllocError>
    requires { seen ≡ visible_of request.now.torn }
    ensures entry { IfOk result (λ e. e
        ≡ (if decision.now.fresh then Some (entry_of request.now decision.now.answer)
        else None)) }
    ensures limits { IsRequest request.now → IfSome seen IsVisible
        → IsNotaryAnswer decision.now.answer → IfOk result (λ e. IfSome e IsEntry) }
{
    if decision.fresh {
        let entry = entry_of(alloc, request, seen, &decision.answer)?;
        Ok(Some(Boxed::new(alloc, entry)?))
    } else {
        drop(seen);
        Ok(None)
    }
}

/// Has the node's book decide a request at a moment: the frame is resumed with the answer, and an entry is booked where it is fresh. The
/// only error is want of memory.
pub fn notarise(
    alloc: Global,
    identity: &Identity,
    ledger: &LedgerTables,
    flow: u32,
    now: Moment,
    request: &Request,
) -> Result<LedgerOutcome, AllocError>
    ensures done { IfOk result (Does ledger.now (notarising identity.now now request.now)) }
    ensures limits { IsIdentity identity.now → IsRequest request.now
        → IfOk result (IsOutcome flow) }
{
    let seen = seen_in(alloc, request)?;
    let decision = ledger
        .book()
        .decide(alloc, request, seen.as_ref(), identity, now, &KeyedDigest)?;
    let booked = booked_of(alloc, request, seen, &decision)?;
    Ok(LedgerOutcome {
        with: Resumed::Answer {
            answer: Boxed::new(alloc, decision.answer)?,
        },
        change: LedgerChange {
            recorded: None,
            locked: ListOf::new(alloc),
            owner: flow,
            ended: false,
            booked,
        },
    })
}
