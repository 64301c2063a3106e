//! The notary service.

ghost use Rattle.std.specs.Prelude.{◌≡◌, IfOk};
ghost use Rattle.notary_flows.specs.Service.{begins, received, decided, sent, form, fresh};
ghost use Rattle.notary_flows.specs.ServiceLaws.{kept, numbers, is_form, answers_within};

use crate::NOTARY_CLASS;
use flow_forms::{Answers, ByInit, Fields, Frame, Goes, Machine, Numbered, copy_option};
use flow_machine::{Act, Place, Resumed};
use ledger_types::{NotaryAnswer, Request, Value};
use net_base::{Boxed, Key, PartFault, Reader, Spelt, TryCopy, Writer};
use std::alloc::{AllocError, Global};

/// Where a notary service waits, with the numbers of the places; 4 is that of Return.
#[derive(Clone, Copy)]
pub enum ServicePlace {
    /// Waits for the request.
    Receiving = 1,
    /// Has the node's book decide it.
    Deciding = 2,
    /// Sends the answer.
    Answering = 3,
}

/// The notary service, machine 20, with which a node answers an Init of class 20: it has the node's book decide the request that comes
/// and sends the answer; it returns Unit.
#[derive(Drop)]
pub struct Service {
    /// The session.
    pub key: Key,
    /// The request, once it came.
    pub request: Option<Boxed<Request>>,
    /// The book's answer, once it was given.
    pub answer: Option<Boxed<NotaryAnswer>>,
}

/// A frame of a notary service: an Init of class 20 begins it, and nothing else.
pub type ServiceFrame = Frame<ServicePlace, Service, ByInit>;

type Gone = Goes<ServicePlace, Service>;

type Moved = Result<Gone, AllocError>;

impl Service {
    fn begins(self) -> Gone
        ensures { result ≡ begins self }
    {
        let act = Act::Receive { key: self.key };
        Goes::on(ServicePlace::Receiving, self, act)
    }

    fn received(self, alloc: Global, with: &Resumed) -> Moved
        ensures { IfOk result (λ g. g ≡ received self with.now) }
    {
        match with {
            Resumed::Got {
                value: Value::Request(request),
            } => {
                let act = Act::Notarise {
                    request: request.try_copy(alloc)?,
                };
                let request = Some(request.try_copy(alloc)?);
                let fields = Service { request, ..self };
                Ok(Goes::on(ServicePlace::Deciding, fields, act))
            }
            _ => Ok(Goes::unnamed(self, with)),
        }
    }

    fn decided(self, alloc: Global, with: &Resumed) -> Moved
        ensures { IfOk result (λ g. g ≡ decided self with.now) }
    {
        match with {
            Resumed::Answer { answer } => {
                let act = Act::Send {
                    key: self.key,
                    value: Value::Answer(answer.try_copy(alloc)?),
                };
                let answer = Some(answer.try_copy(alloc)?);
                let fields = Service { answer, ..self };
                Ok(Goes::on(ServicePlace::Answering, fields, act))
            }
            _ => Ok(Goes::unnamed(self, with)),
        }
    }

    fn sent(self, with: &Resumed) -> Gone
        ensures { result ≡ sent self with.now }
    {
        match with {
            Resumed::Sent => Goes::ends(self, Value::Unit),
            _ => Goes::unnamed(self, with),
        }
    }
}

impl Numbered for ServicePlace {
    ghost numbers = { numbers };

    fn number(self) -> u8 {
        self as u8
    }

    fn all() -> &'static [ServicePlace] {
        &[
            ServicePlace::Receiving,
            ServicePlace::Deciding,
            ServicePlace::Answering,
        ]
    }
}

#[tactic(auto, unfolding(crate::specs::Service::service_at))]
impl Fields for Service {
    ghost kept = { kept };

    fn read_fields(alloc: Global, from: &mut Reader) -> Result<Service, PartFault> {
        Ok(Service {
            key: Spelt::read_part(alloc, from)?,
            request: Spelt::read_part(alloc, from)?,
            answer: Spelt::read_part(alloc, from)?,
        })
    }

    fn write_fields(&self, alloc: Global, out: &mut Writer) -> Result<(), AllocError> {
        self.key.write_part(alloc, out)?;
        self.request.write_part(alloc, out)?;
        self.answer.write_part(alloc, out)
    }

    fn copy_fields(&self, alloc: Global) -> Result<Service, AllocError> {
        Ok(Service {
            key: self.key,
            request: copy_option(alloc, &self.request)?,
            answer: copy_option(alloc, &self.answer)?,
        })
    }
}

impl Machine<ServicePlace> for Service {
    ghost form = { form };

    ghost MACHINE = { 20 };

    ghost is_form = { is_form };

    const MACHINE: u8 = 20;

    fn start(self, _alloc: Global, _here: &Place) -> Moved {
        Ok(self.begins())
    }

    fn resume(self, alloc: Global, place: ServicePlace, with: &Resumed, _here: &Place) -> Moved {
        match place {
            ServicePlace::Receiving => self.received(alloc, with),
            ServicePlace::Deciding => self.decided(alloc, with),
            ServicePlace::Answering => Ok(self.sent(with)),
        }
    }

    fn weight(&self, place: ServicePlace) -> u64 {
        match place {
            ServicePlace::Receiving => 4,
            ServicePlace::Deciding => 3,
            ServicePlace::Answering => 1,
        }
    }

    fn called(&self) -> u64 {
        5
    }
}

impl Answers<ServicePlace> for Service {
    ghost ANSWERED = { 20 };

    ghost answers = { fresh };

    ghost answers_within = { answers_within };

    const ANSWERED: u16 = NOTARY_CLASS;

    fn answer(key: &Key) -> Service {
        Service {
            key: *key,
            request: None,
            answer: None,
        }
    }
}
