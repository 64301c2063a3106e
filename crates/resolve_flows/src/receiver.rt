//! The receiver.

ghost use Rattle.std.specs.Prelude.{◌≡◌, IfOk};
ghost use Rattle.resolve_flows.specs.Receiver.{begins, received, resolved, form, fresh, kept, numbers};
ghost use Rattle.resolve_flows.specs.ReceiverLaws.{is_form, answers_within};

use flow_forms::{Answers, ByInit, Call, Fields, Frame, Goes, Machine, Numbered};
use flow_machine::{Act, Place, Resumed};
use ledger_types::Value;
use net_base::{Key, PartFault, Reader, Spelt, TryCopy, Writer};
use std::alloc::{AllocError, Global};

/// Where a receiver waits, with the numbers of the places; 3 is that of Return.
#[derive(Clone, Copy)]
pub enum ReceiverPlace {
    /// Waits for the transaction.
    Receiving = 1,
    /// Waits until the subflow that resolves it has returned.
    Resolving = 2,
}

/// The receiver, machine 21, with which a node answers an Init of class 21 (Corda 4 documentation, "Flow library",
/// `ReceiveFinalityFlow`): it has the transaction that comes resolved in the session, so that it is recorded here behind all of its
/// ancestors, and returns Unit. Of what it is sent it asks nothing but that it is a transaction: what may be recorded is for the act
/// `Record` to say.
#[derive(Clone, Copy)]
pub struct Receiver {
    /// The session.
    pub key: Key,
}

/// A frame of a receiver: an Init of class 21 begins it, and nothing else.
pub type ReceiverFrame = Frame<ReceiverPlace, Receiver, ByInit>;

type Gone = Goes<ReceiverPlace, Receiver>;

type Moved = Result<Gone, AllocError>;

impl Receiver {
    fn begins(self) -> Gone
        ensures { result ≡ begins self }
    {
        let act = Act::Receive { key: self.key };
        Goes::on(ReceiverPlace::Receiving, self, act)
    }

    fn received(self, alloc: Global, with: &Resumed) -> Moved
        ensures { IfOk result (λ g. g ≡ received self with.now) }
    {
        match with {
            Resumed::Got {
                value: Value::Tx(stx),
            } => {
                let frame = Call::Resolve {
                    key: self.key,
                    stx: stx.try_copy(alloc)?,
                };
                Ok(Goes::on(ReceiverPlace::Resolving, self, Act::Sub { frame }))
            }
            _ => Ok(Goes::unnamed(self, with)),
        }
    }

    fn resolved(self, with: &Resumed) -> Gone
        ensures { result ≡ resolved self with.now }
    {
        match with {
            Resumed::Returned { .. } => Goes::ends(self, Value::Unit),
            _ => Goes::unnamed(self, with),
        }
    }
}

impl Numbered for ReceiverPlace {
    ghost numbers = { numbers };

    fn number(self) -> u8 {
        self as u8
    }

    fn all() -> &'static [ReceiverPlace] {
        &[ReceiverPlace::Receiving, ReceiverPlace::Resolving]
    }
}

impl Fields for Receiver {
    ghost kept = { kept };

    fn read_fields(alloc: Global, from: &mut Reader) -> Result<Receiver, PartFault> {
        Ok(Receiver {
            key: Spelt::read_part(alloc, from)?,
        })
    }

    fn write_fields(&self, alloc: Global, out: &mut Writer) -> Result<(), AllocError> {
        self.key.write_part(alloc, out)
    }

    fn copy_fields(&self, _alloc: Global) -> Result<Receiver, AllocError> {
        Ok(*self)
    }
}

impl Machine<ReceiverPlace> for Receiver {
    ghost form = { form };

    ghost MACHINE = { 21 };

    ghost is_form = { is_form };

    const MACHINE: u8 = 21;

    fn start(self, _alloc: Global, _here: &Place) -> Moved {
        Ok(self.begins())
    }

    fn resume(self, alloc: Global, place: ReceiverPlace, with: &Resumed, _here: &Place) -> Moved {
        match place {
            ReceiverPlace::Receiving => self.received(alloc, with),
            ReceiverPlace::Resolving => Ok(self.resolved(with)),
        }
    }

    fn weight(&self, place: ReceiverPlace) -> u64 {
        match place {
            ReceiverPlace::Receiving => 2565,
            ReceiverPlace::Resolving => 1,
        }
    }

    fn called(&self) -> u64 {
        2566
    }
}

impl Answers<ReceiverPlace> for Receiver {
    ghost ANSWERED = { 21 };

    ghost answers = { fresh };

    ghost answers_within = { answers_within };

    const ANSWERED: u16 = 21;

    fn answer(key: &Key) -> Receiver {
        Receiver { key: *key }
    }
}
