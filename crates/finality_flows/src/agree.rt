//! Agreeing to a transaction.

ghost use Rattle.std.specs.Prelude.{◌≡◌, IfOk, IfSome, option_map};
ghost use Rattle.ledger_types.specs.Signatures.{tx_id};
ghost use Rattle.ledger_types.specs.Txs.{IsTx};
ghost use Rattle.finality_flows.specs.Agree.{is_debt_to, are_debts_to, only_lends, begins, judges, signs, received, verified, signed, sent, form, fresh, kept, numbers};
ghost use Rattle.finality_flows.specs.AgreeLaws.{is_form, answers_within};

use flow_forms::{Answers, ByInit, Fields, Frame, Goes, Machine, Numbered, copy_option};
use flow_machine::{Act, Place, Resumed};
use ledger_types::{StateData, Tx, TxState, Value, Verdict, WireTx};
use net_base::{Boxed, Hash32, Key, ListOf, PartFault, Party, Reader, Spelt, Tag, TryCopy, Writer};
use std::alloc::{AllocError, Global};

/// Where an agreeing frame waits, with the numbers of the places; 5 is that of Return.
#[derive(Clone, Copy)]
pub enum AgreePlace {
    /// Waits for the transaction.
    Receiving = 1,
    /// On the verdict.
    Verifying = 2,
    /// On this party's tag.
    Signing = 3,
    /// On the tag being sent.
    Sending = 4,
}

/// Agreeing, machine 22, with which a node answers an Init of class 22 (Corda 4 documentation, "Flow library", `SignTransactionFlow`): it
/// signs the transaction that comes where this makes nothing but debts to this party, uses no state, and is accepted, sends the tag
/// back, and returns Unit.
///
/// It fails with 56 where the transaction is another, with 31 to 33 where it is not accepted, with 46 where this party is the notary,
/// with 50 to 52 where the session goes wrong, by the reason of an act that was refused, and else with 54.
#[derive(Drop)]
pub struct Agree {
    /// The session.
    pub key: Key,
    /// The transaction without its tags, once it came and is one to agree to.
    pub tx: Option<Boxed<WireTx>>,
    /// This party's tag, once it was made.
    pub tag: Option<Tag>,
}

/// A frame of agreeing: an Init of class 22 begins it, and nothing else.
pub type AgreeFrame = Frame<AgreePlace, Agree, ByInit>;

type Gone = Goes<AgreePlace, Agree>;

type Moved = Result<Gone, AllocError>;

/// Whether the state is a debt to the party.
fn is_debt_to(me: Party, state: &StateData) -> bool
    ensures { result ≡ is_debt_to me state.now }
{
    match state {
        StateData::Iou { lender, .. } => lender.0 == me.0,
        _ => false,
    }
}

/// Whether each of the states is a debt to the party.
fn are_debts_to(me: Party, states: &[TxState]) -> bool
    ensures { result ≡ are_debts_to me states.now }
{
    states.iter().all(|state| is_debt_to(me, &state.body))
}

/// Whether the transaction has no input and no reference, and each output is a debt to the party.
fn only_lends(me: Party, tx: &Tx) -> bool
    ensures { result ≡ only_lends me tx.now }
{
    tx.inputs.len() == 0 && (tx.references.len() == 0 && are_debts_to(me, tx.outputs.as_slice()))
}

/// The id of a transaction that may be absent.
fn id_of(tx: &Option<Boxed<WireTx>>) -> Option<Hash32>
    requires { IfSome tx.now IsTx }
    ensures { result ≡ option_map tx_id tx.now }
{
    match tx {
        None => None,
        Some(tx) => Some(tx.get().id()),
    }
}

impl Agree {
    fn begins(self) -> Gone
        ensures { result ≡ begins self }
    {
        let act = Act::Receive { key: self.key };
        Goes::on(AgreePlace::Receiving, self, act)
    }

    fn judges(self, alloc: Global, tx: &WireTx) -> Moved
        ensures { IfOk result (λ g. g ≡ judges tx.now self) }
    {
        let tx = Boxed::new(alloc, tx.copy(alloc)?)?;
        let act = Act::Verify {
            tx: tx.try_copy(alloc)?,
        };
        let fields = Agree {
            tx: Some(tx),
            ..self
        };
        Ok(Goes::on(AgreePlace::Verifying, fields, act))
    }

    fn received(self, alloc: Global, with: &Resumed, here: &Place) -> Moved
        ensures { IfOk result (λ g. g ≡ received self with.now here.entry.now) }
    {
        match with {
            Resumed::Got {
                value: Value::Tx(stx),
            } => {
                let tx = &stx.get().tx;
                if only_lends(here.me, tx) {
                    self.judges(alloc, tx)
                } else {
                    Ok(Goes::stops(self, 56))
                }
            }
            _ => Ok(Goes::unnamed(self, with)),
        }
    }

    fn signs(self, id: Option<Hash32>) -> Gone
        ensures { result ≡ signs id self }
    {
        match id {
            None => Goes::stops(self, 54),
            Some(id) => Goes::on(AgreePlace::Signing, self, Act::Sign { id }),
        }
    }

    fn verified(self, with: &Resumed) -> Gone
        requires { IfSome self.tx IsTx }
        ensures { result ≡ verified self with.now }
    {
        match with {
            Resumed::Verdict {
                verdict: Verdict::Accepted,
            } => {
                let id = id_of(&self.tx);
                self.signs(id)
            }
            _ => Goes::unnamed(self, with),
        }
    }

    fn signed(self, alloc: Global, with: &Resumed) -> Moved
        ensures { IfOk result (λ g. g ≡ signed self with.now) }
    {
        match with {
            Resumed::Tagged { tag } => {
                let tags = ListOf::from_slice(alloc, &[*tag])?;
                let act = Act::Send {
                    key: self.key,
                    value: Value::Tags(tags),
                };
                let fields = Agree {
                    tag: Some(*tag),
                    ..self
                };
                Ok(Goes::on(AgreePlace::Sending, fields, act))
            }
            _ => Ok(Goes::unnamed(self, with)),
        }
    }

    fn sent(self, with: &Resumed) -> Gone
        ensures { result ≡ sent self with.now }
    {
        match with {
            Resumed::Sent => Goes::ends(self, Value::Unit),
            _ => Goes::unnamed(self, with),
        }
    }
}

impl Numbered for AgreePlace {
    ghost numbers = { numbers };

    fn number(self) -> u8 {
        self as u8
    }

    fn all() -> &'static [AgreePlace] {
        &[
            AgreePlace::Receiving,
            AgreePlace::Verifying,
            AgreePlace::Signing,
            AgreePlace::Sending,
        ]
    }
}

impl Fields for Agree {
    ghost kept = { kept };

    fn read_fields(alloc: Global, from: &mut Reader) -> Result<Agree, PartFault> {
        Ok(Agree {
            key: Spelt::read_part(alloc, from)?,
            tx: Spelt::read_part(alloc, from)?,
            tag: Spelt::read_part(alloc, from)?,
        })
    }

    fn write_fields(&self, alloc: Global, out: &mut Writer) -> Result<(), AllocError> {
        self.key.write_part(alloc, out)?;
        self.tx.write_part(alloc, out)?;
        self.tag.write_part(alloc, out)
    }

    fn copy_fields(&self, alloc: Global) -> Result<Agree, AllocError> {
        Ok(Agree {
            key: self.key,
            tx: copy_option(alloc, &self.tx)?,
            tag: self.tag,
        })
    }
}

impl Machine<AgreePlace> for Agree {
    ghost form = { form };

    ghost MACHINE = { 22 };

    ghost is_form = { is_form };

    const MACHINE: u8 = 22;

    fn start(self, _alloc: Global, _here: &Place) -> Moved {
        Ok(self.begins())
    }

    fn resume(self, alloc: Global, place: AgreePlace, with: &Resumed, here: &Place) -> Moved {
        match place {
            AgreePlace::Receiving => self.received(alloc, with, here),
            AgreePlace::Verifying => Ok(self.verified(with)),
            AgreePlace::Signing => self.signed(alloc, with),
            AgreePlace::Sending => Ok(self.sent(with)),
        }
    }

    fn weight(&self, place: AgreePlace) -> u64 {
        match place {
            AgreePlace::Receiving => 5,
            AgreePlace::Verifying => 4,
            AgreePlace::Signing => 3,
            AgreePlace::Sending => 1,
        }
    }

    fn called(&self) -> u64 {
        6
    }
}

impl Answers<AgreePlace> for Agree {
    ghost ANSWERED = { 22 };

    ghost answers = { fresh };

    ghost answers_within = { answers_within };

    const ANSWERED: u16 = 22;

    fn answer(key: &Key) -> Agree {
        Agree {
            key: *key,
            tx: None,
            tag: None,
        }
    }
}
