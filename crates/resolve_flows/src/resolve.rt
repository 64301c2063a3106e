//! Resolving.

ghost use Rattle.std.specs.Prelude.{◌≡◌, ◌-◌, IfOk, take, length};
ghost use Rattle.ledger_types.specs.Txs.{IsTx};
ghost use Rattle.flow_machine.specs.declared.acts.Act.TheVariants as act;
ghost use Rattle.flow_machine.specs.Limits.{IsResumed};
ghost use Rattle.flow_forms.specs.Calls.{call_weight};
ghost use Rattle.flow_forms.specs.declared.calls.Call.TheVariants as call;
ghost use Rattle.resolve_flows.specs.Resolve.{fresh, last_of, takes, asks_for, asks_next, records, lists, listed, sent, has_id, received, records_current, widens, lacked, recorded, ended, goes_on, form};
ghost use Rattle.resolve_flows.specs.ResolveLaws.{kept, numbers, is_form};

use crate::ids::{read_ids, widened, write_ids};
use flow_forms::{ByCall, Call, Fields, Frame, Goes, Machine, Numbered, copy_option};
use flow_machine::{Act, Place, Resumed};
use ledger_types::{IdList, SignedTx, Value, with_id};
use net_base::{Boxed, Hash32, Key, ListOf, PartFault, Reader, Spelt, TryCopy, Writer};
use std::alloc::{AllocError, Global};

/// The most ancestors that may be lacking or recorded here.
const MOST_ANCESTORS: usize = 256;

/// The most requests.
const MOST_ASKS: u16 = 512;

/// Where a resolving frame waits, with the numbers of the places; 7 is that of Return.
#[derive(Clone, Copy)]
pub enum ResolvePlace {
    /// Asks which ancestors of the transaction are lacking.
    Listing = 1,
    /// Sends the id of the last of them.
    Asking = 2,
    /// Waits for its transaction.
    Receiving = 3,
    /// Asks which ancestors of that one are lacking.
    Lacking = 4,
    /// Records it.
    Recording = 5,
    /// Records the transaction itself.
    Ending = 6,
}

/// Resolving, machine 32, a subflow: in a session it asks for the ancestors of a transaction that are lacking, the last of them first,
/// records each once its own ancestors are there, and then the transaction itself; it returns Unit. It fails with 62 where more than
/// 256 ancestors were recorded here or are lacking, or where it would ask more than 512 times, with 54 where another transaction comes
/// than it asked for, by the reason of an act that was refused, and with 54 at any other result that was not expected.
#[derive(Drop)]
pub struct Resolve {
    /// The session.
    pub key: Key,
    /// The transaction itself.
    pub stx: Boxed<SignedTx>,
    /// The ids that are lacking, at most 256; the last is asked for next.
    pub pending: IdList,
    /// How many ancestors were recorded here.
    pub done: u16,
    /// How often it asked; 0 to 512 where the frame was begun here.
    pub asks: u16,
    /// The ancestor that came last.
    pub current: Option<Boxed<SignedTx>>,
}

/// A frame of a resolving subflow: a flow calls it, and nothing else begins one.
pub type ResolveFrame = Frame<ResolvePlace, Resolve, ByCall>;

type Gone = Goes<ResolvePlace, Resolve>;

type Moved = Result<Gone, AllocError>;

/// The last of the ids.
fn last_of(pending: &IdList) -> Option<Hash32>
    ensures { result ≡ last_of pending.now }
{
    pending.as_slice().last().copied()
}

/// Whether the transaction has the id.
fn has_id(id: Option<Hash32>, stx: &SignedTx) -> bool
    requires { IsTx stx.now.tx }
    ensures { result ≡ has_id id stx.now }
{
    match id {
        None => false,
        Some(id) => stx.tx.id() == id,
    }
}

/// The act that asks what a transaction lacks.
fn missing(alloc: Global, stx: &SignedTx) -> Result<Act<Call>, AllocError>
    ensures { IfOk result (λ a. a ≡ act.Missing stx.now.tx) }
{
    let tx = Boxed::new(alloc, stx.tx.try_copy(alloc)?)?;
    Ok(Act::Missing { tx })
}

/// The ids but the last.
fn without_last(pending: IdList) -> IdList
    ensures { result ≡ take (length pending - 1) pending }
{
    let keep = pending.len().saturating_sub(1);
    let mut ids = pending.into_vec();
    ids.truncate(keep);
    ListOf::from_vec(ids)
}

impl Resolve {
    /// The subflow that is called for a transaction in a session, before it asked.
    pub fn new(alloc: Global, key: Key, stx: Boxed<SignedTx>) -> Resolve
        ensures value { result ≡ fresh key stx }
        ensures cost { form.called result ≡ call_weight (call.Resolve key stx) }
    {
        Resolve {
            key,
            stx,
            pending: ListOf::new(alloc),
            done: 0,
            asks: 0,
            current: None,
        }
    }

    fn asks_for(self, id: Option<Hash32>) -> Gone
        ensures { result ≡ asks_for id self }
    {
        match id {
            None => Goes::stops(self, 54),
            Some(id) => {
                let act = Act::Send {
                    key: self.key,
                    value: Value::Id(id),
                };
                Goes::on(ResolvePlace::Asking, self, act)
            }
        }
    }

    fn asks_next(self) -> Gone
        ensures { result ≡ asks_next self }
    {
        if self.asks < MOST_ASKS {
            let id = last_of(&self.pending);
            let asks = self.asks + 1;
            Resolve { asks, ..self }.asks_for(id)
        } else {
            Goes::stops(self, 62)
        }
    }

    fn records(self, alloc: Global) -> Moved
        ensures { IfOk result (λ g. g ≡ records self) }
    {
        let stx = self.stx.try_copy(alloc)?;
        Ok(Goes::on(ResolvePlace::Ending, self, Act::Record { stx }))
    }

    fn goes_on(self, alloc: Global) -> Moved
        ensures { IfOk result (λ g. g ≡ goes_on self) }
    {
        if self.pending.len() == 0 {
            self.records(alloc)
        } else {
            Ok(self.asks_next())
        }
    }

    fn lists(self, alloc: Global) -> Moved
        requires { IsTx self.stx.tx }
        ensures { IfOk result (λ g. g ≡ lists self) }
    {
        let stx = with_id(alloc, self.stx)?;
        let act = missing(alloc, stx.get())?;
        let fields = Resolve { stx, ..self };
        Ok(Goes::on(ResolvePlace::Listing, fields, act))
    }

    fn listed(self, alloc: Global, with: &Resumed) -> Moved
        ensures { IfOk result (λ g. g ≡ listed self with.now) }
    {
        match with {
            Resumed::Ids { list } => {
                if list.len() == 0 {
                    self.records(alloc)
                } else if list.len() > MOST_ANCESTORS {
                    Ok(Goes::stops(self, 62))
                } else {
                    let pending = list.copy(alloc)?;
                    Ok(Resolve { pending, ..self }.asks_next())
                }
            }
            _ => Ok(Goes::unnamed(self, with)),
        }
    }

    fn sent(self, with: &Resumed) -> Gone
        ensures { result ≡ sent self with.now }
    {
        match with {
            Resumed::Sent => {
                let act = Act::Receive { key: self.key };
                Goes::on(ResolvePlace::Receiving, self, act)
            }
            _ => Goes::unnamed(self, with),
        }
    }

    fn takes(self, alloc: Global, stx: Boxed<SignedTx>) -> Moved
        ensures { IfOk result (λ g. g ≡ takes stx self) }
    {
        let act = missing(alloc, stx.get())?;
        let current = Some(stx);
        let fields = Resolve { current, ..self };
        Ok(Goes::on(ResolvePlace::Lacking, fields, act))
    }

    fn received(self, alloc: Global, with: &Resumed) -> Moved
        requires { IsResumed with.now }
        ensures { IfOk result (λ g. g ≡ received self with.now) }
    {
        match with {
            Resumed::Got {
                value: Value::Tx(stx),
            } => {
                let stx = with_id(alloc, stx.try_copy(alloc)?)?;
                if has_id(last_of(&self.pending), stx.get()) {
                    self.takes(alloc, stx)
                } else {
                    Ok(Goes::stops(self, 54))
                }
            }
            _ => Ok(Goes::unnamed(self, with)),
        }
    }

    fn records_current(self, alloc: Global) -> Moved
        ensures { IfOk result (λ g. g ≡ records_current self.current self) }
    {
        match copy_option(alloc, &self.current)? {
            None => Ok(Goes::stops(self, 54)),
            Some(stx) => Ok(Goes::on(ResolvePlace::Recording, self, Act::Record { stx })),
        }
    }

    fn widens(self, pending: IdList) -> Gone
        ensures { result ≡ widens pending self }
    {
        let done = usize::from(self.done);
        if done > MOST_ANCESTORS || pending.len() > MOST_ANCESTORS - done {
            Goes::stops(self, 62)
        } else {
            Resolve { pending, ..self }.asks_next()
        }
    }

    fn lacked(self, alloc: Global, with: &Resumed) -> Moved
        ensures { IfOk result (λ g. g ≡ lacked self with.now) }
    {
        match with {
            Resumed::Ids { list } => {
                if list.len() == 0 {
                    self.records_current(alloc)
                } else {
                    let pending = widened(alloc, &self.pending, list)?;
                    Ok(self.widens(pending))
                }
            }
            _ => Ok(Goes::unnamed(self, with)),
        }
    }

    fn recorded(self, alloc: Global, with: &Resumed) -> Moved
        ensures { IfOk result (λ g. g ≡ recorded self with.now) }
    {
        match with {
            Resumed::Recorded => {
                let done = self.done.saturating_add(1);
                let pending = without_last(self.pending);
                let fields = Resolve {
                    pending,
                    done,
                    ..self
                };
                fields.goes_on(alloc)
            }
            _ => Ok(Goes::unnamed(self, with)),
        }
    }

    fn ended(self, with: &Resumed) -> Gone
        ensures { result ≡ ended self with.now }
    {
        match with {
            Resumed::Recorded => Goes::ends(self, Value::Unit),
            _ => Goes::unnamed(self, with),
        }
    }
}

impl Numbered for ResolvePlace {
    ghost numbers = { numbers };

    fn number(self) -> u8 {
        self as u8
    }

    fn all() -> &'static [ResolvePlace] {
        &[
            ResolvePlace::Listing,
            ResolvePlace::Asking,
            ResolvePlace::Receiving,
            ResolvePlace::Lacking,
            ResolvePlace::Recording,
            ResolvePlace::Ending,
        ]
    }
}

#[tactic(auto, unfolding(crate::specs::Resolve::resolve_at))]
impl Fields for Resolve {
    ghost kept = { kept };

    fn read_fields(alloc: Global, from: &mut Reader) -> Result<Resolve, PartFault> {
        Ok(Resolve {
            key: Spelt::read_part(alloc, from)?,
            stx: Spelt::read_part(alloc, from)?,
            pending: read_ids(alloc, from)?,
            done: Spelt::read_part(alloc, from)?,
            asks: Spelt::read_part(alloc, from)?,
            current: Spelt::read_part(alloc, from)?,
        })
    }

    fn write_fields(&self, alloc: Global, out: &mut Writer) -> Result<(), AllocError> {
        self.key.write_part(alloc, out)?;
        self.stx.write_part(alloc, out)?;
        write_ids(alloc, &self.pending, out)?;
        self.done.write_part(alloc, out)?;
        self.asks.write_part(alloc, out)?;
        self.current.write_part(alloc, out)
    }

    fn copy_fields(&self, alloc: Global) -> Result<Resolve, AllocError> {
        Ok(Resolve {
            key: self.key,
            stx: self.stx.try_copy(alloc)?,
            pending: self.pending.copy(alloc)?,
            done: self.done,
            asks: self.asks,
            current: copy_option(alloc, &self.current)?,
        })
    }
}

impl Machine<ResolvePlace> for Resolve {
    ghost form = { form };

    ghost MACHINE = { 32 };

    ghost is_form = { is_form };

    const MACHINE: u8 = 32;

    fn start(self, alloc: Global, _here: &Place) -> Moved {
        self.lists(alloc)
    }

    fn resume(self, alloc: Global, place: ResolvePlace, with: &Resumed, _here: &Place) -> Moved {
        match place {
            ResolvePlace::Listing => self.listed(alloc, with),
            ResolvePlace::Asking => Ok(self.sent(with)),
            ResolvePlace::Receiving => self.received(alloc, with),
            ResolvePlace::Lacking => self.lacked(alloc, with),
            ResolvePlace::Recording => self.recorded(alloc, with),
            ResolvePlace::Ending => Ok(self.ended(with)),
        }
    }

    fn weight(&self, place: ResolvePlace) -> u64 {
        let more = 5 * u64::from(512u16.saturating_sub(self.asks));
        match place {
            ResolvePlace::Listing | ResolvePlace::Recording => more + 2,
            ResolvePlace::Asking => more + 5,
            ResolvePlace::Receiving => more + 4,
            ResolvePlace::Lacking => more + 3,
            ResolvePlace::Ending => 1,
        }
    }

    fn called(&self) -> u64 {
        5 * u64::from(512u16.saturating_sub(self.asks)) + 3
    }
}
