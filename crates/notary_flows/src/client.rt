//! The notary client.

ghost use Rattle.std.specs.Prelude.{◌≡◌, IfOk};
ghost use Rattle.flow_forms.specs.Calls.{call_weight};
ghost use Rattle.flow_forms.specs.declared.calls.Call.TheVariants as call;
ghost use Rattle.notary_flows.specs.Client.{fresh, opens, opened, tried, answered, form};
ghost use Rattle.notary_flows.specs.ClientLaws.{kept, numbers, is_form};

use crate::NOTARY_CLASS;
use flow_forms::{ByCall, Fields, Frame, Goes, Machine, Numbered, copy_option};
use flow_machine::{Act, Place, Resumed};
use ledger_types::{NotaryAnswer, Request, Value};
use net_base::{Boxed, Key, PartFault, Reader, Spelt, TryCopy, Writer};
use std::alloc::{AllocError, Global};

/// How long a try waits for the answer, in milliseconds.
const WAIT: u64 = 30_000;

/// The most tries.
const MOST_TRIES: u8 = 3;

/// Where a notary client waits, with the numbers of the places; 3 is that of Return.
#[derive(Clone, Copy)]
pub enum ClientPlace {
    /// Opens a session with the notary.
    Opening = 1,
    /// Waits for the answer there.
    Receiving = 2,
}

/// The notary client, machine 31, a subflow: it opens a session of class 20 with the network's notary by the request, waits there for
/// the answer for 30,000 milliseconds, and returns it. It tries three times, each time in a new session, and then fails with 53.
#[derive(Drop)]
pub struct Client {
    /// What the notary is to decide.
    pub request: Boxed<Request>,
    /// How often no answer came in time: 0 to 2, and 3 once it failed.
    pub tries: u8,
    /// The session that was opened last.
    pub key: Option<Key>,
    /// The notary's answer, once it came.
    pub answer: Option<Boxed<NotaryAnswer>>,
}

/// A frame of a notary client: a flow calls it, and nothing else begins one.
pub type ClientFrame = Frame<ClientPlace, Client, ByCall>;

type Gone = Goes<ClientPlace, Client>;

type Moved = Result<Gone, AllocError>;

impl Client {
    /// The client that is called for a request, before its first try.
    pub fn new(request: Boxed<Request>) -> Client
        ensures value { result ≡ fresh request }
        ensures cost { form.called result ≡ call_weight (call.Client request) }
    {
        Client {
            request,
            tries: 0,
            key: None,
            answer: None,
        }
    }

    fn opens(self, alloc: Global, here: &Place) -> Moved
        ensures { IfOk result (λ g. g ≡ opens self here.entry.now) }
    {
        let act = Act::Open {
            to: here.notary,
            class: NOTARY_CLASS,
            first: Value::Request(self.request.try_copy(alloc)?),
        };
        Ok(Goes::on(ClientPlace::Opening, self, act))
    }

    fn opened(self, with: &Resumed, here: &Place) -> Gone
        ensures { result ≡ opened self with.now here.entry.now }
    {
        match with {
            Resumed::Opened { key } => {
                let fields = Client {
                    key: Some(*key),
                    ..self
                };
                let until = here.now.0.saturating_add(WAIT);
                Goes::on(
                    ClientPlace::Receiving,
                    fields,
                    Act::ReceiveBy { key: *key, until },
                )
            }
            _ => Goes::unnamed(self, with),
        }
    }

    fn tried(self, alloc: Global, here: &Place) -> Moved
        ensures { IfOk result (λ g. g ≡ tried self here.entry.now) }
    {
        if self.tries < MOST_TRIES {
            self.opens(alloc, here)
        } else {
            Ok(Goes::stops(self, 53))
        }
    }

    fn answered(self, alloc: Global, with: &Resumed, here: &Place) -> Moved
        ensures { IfOk result (λ g. g ≡ answered self with.now here.entry.now) }
    {
        match with {
            Resumed::Got {
                value: Value::Answer(answer),
            } => {
                let value = Value::Answer(answer.try_copy(alloc)?);
                let answer = Some(answer.try_copy(alloc)?);
                Ok(Goes::ends(Client { answer, ..self }, value))
            }
            Resumed::Lapsed => {
                let tries = self.tries.saturating_add(1);
                Client { tries, ..self }.tried(alloc, here)
            }
            _ => Ok(Goes::unnamed(self, with)),
        }
    }
}

impl Numbered for ClientPlace {
    ghost numbers = { numbers };

    fn number(self) -> u8 {
        self as u8
    }

    fn all() -> &'static [ClientPlace] {
        &[ClientPlace::Opening, ClientPlace::Receiving]
    }
}

#[tactic(auto, unfolding(crate::specs::Client::client_at))]
impl Fields for Client {
    ghost kept = { kept };

    fn read_fields(alloc: Global, from: &mut Reader) -> Result<Client, PartFault> {
        Ok(Client {
            request: Spelt::read_part(alloc, from)?,
            tries: Spelt::read_part(alloc, from)?,
            key: Spelt::read_part(alloc, from)?,
            answer: Spelt::read_part(alloc, from)?,
        })
    }

    fn write_fields(&self, alloc: Global, out: &mut Writer) -> Result<(), AllocError> {
        self.request.write_part(alloc, out)?;
        self.tries.write_part(alloc, out)?;
        self.key.write_part(alloc, out)?;
        self.answer.write_part(alloc, out)
    }

    fn copy_fields(&self, alloc: Global) -> Result<Client, AllocError> {
        Ok(Client {
            request: self.request.try_copy(alloc)?,
            tries: self.tries,
            key: self.key,
            answer: copy_option(alloc, &self.answer)?,
        })
    }
}

impl Machine<ClientPlace> for Client {
    ghost form = { form };

    ghost MACHINE = { 31 };

    ghost is_form = { is_form };

    const MACHINE: u8 = 31;

    fn start(self, alloc: Global, here: &Place) -> Moved {
        self.opens(alloc, here)
    }

    fn resume(self, alloc: Global, place: ClientPlace, with: &Resumed, here: &Place) -> Moved {
        match place {
            ClientPlace::Opening => Ok(self.opened(with, here)),
            ClientPlace::Receiving => self.answered(alloc, with, here),
        }
    }

    fn weight(&self, place: ClientPlace) -> u64 {
        let more = 12 * u64::from(2u8.saturating_sub(self.tries));
        match place {
            ClientPlace::Opening => more + 2,
            ClientPlace::Receiving => more + 1,
        }
    }

    fn called(&self) -> u64 {
        12 * u64::from(2u8.saturating_sub(self.tries)) + 13
    }
}
