//! How finality goes on, place by place.

ghost use Rattle.std.specs.Prelude.{◌≡◌, IfOk};
ghost use Rattle.ledger_types.specs.Txs.{IsTx};
ghost use Rattle.flow_machine.specs.Limits.{IsPlace};
ghost use Rattle.finality_flows.specs.Finality.{tagged, records, asked_of, asks_notary_with, notarises, asks_signer, signs_on, begins, verified, signed, signer_opened, is_asked_for, collects, collected, answered, notarised, peer_at, tells_peer, tells, recorded, serves, peer_opened, looks_up, served, sends, looked_up, sent};
ghost use Rattle.finality_flows.specs.Tagging.{with_tag};

use crate::finality::{Finality, FinalityPlace};
use crate::signers::{asks_notary, next_signer};
use crate::tagging::{tag_by, with_tag};
use flow_forms::{Call, Goes};
use flow_machine::{Act, Place, Resumed};
use ledger_types::{NotaryAnswer, Request, SignedTx, Value, Verdict, with_id};
use net_base::{Boxed, Hash32, Key, Party, Tag, TryCopy};
use std::alloc::{AllocError, Global};
use tx_tear::tear;

/// How finality goes on.
pub(crate) type Gone = Goes<FinalityPlace, Finality>;

/// The same where it takes memory.
pub(crate) type Moved = Result<Gone, AllocError>;

/// The transaction with one more tag.
fn tag_stx(alloc: Global, tag: Tag, stx: Boxed<SignedTx>) -> Result<Boxed<SignedTx>, AllocError>
    ensures { IfOk result (λ s. s ≡ record stx { tags = with_tag tag stx.tags }) }
{
    let SignedTx { tx, tags } = stx.into_inner();
    let tags = with_tag(alloc, tag, &tags)?;
    Boxed::new(alloc, SignedTx { tx, tags })
}

/// Where it goes.
impl Finality {
    pub(crate) fn begins(self, alloc: Global) -> Moved
        requires { IsTx self.stx.tx }
        ensures { IfOk result (λ g. g ≡ begins self) }
    {
        let stx = with_id(alloc, self.stx)?;
        let tx = Boxed::new(alloc, stx.get().tx.copy(alloc)?)?;
        let fields = Finality { stx, ..self };
        Ok(Goes::on(FinalityPlace::Verifying, fields, Act::Verify { tx }))
    }

    fn tagged(self, alloc: Global, tag: Tag) -> Result<Finality, AllocError>
        ensures { IfOk result (λ f. f ≡ tagged tag self) }
    {
        let stx = tag_stx(alloc, tag, self.stx)?;
        Ok(Finality { stx, ..self })
    }

    fn records(self, alloc: Global) -> Moved
        ensures { IfOk result (λ g. g ≡ records self) }
    {
        let stx = self.stx.try_copy(alloc)?;
        Ok(Goes::on(FinalityPlace::Recording, self, Act::Record { stx }))
    }

    fn request(&self, alloc: Global, tag: Tag, here: &Place) -> Result<Boxed<Request>, AllocError>
        requires { IsTx self.now.stx.tx }
        ensures { IfOk result (λ r. r ≡ asked_of tag self.now here.entry.now) }
    {
        let request = Request {
            party: here.me,
            flow: here.flow,
            torn: tear(alloc, &self.stx.get().tx)?,
            tag,
        };
        Boxed::new(alloc, request)
    }

    fn asks_notary_with(self, alloc: Global, tag: Option<Tag>, here: &Place) -> Moved
        requires { IsTx self.stx.tx }
        ensures { IfOk result (λ g. g ≡ asks_notary_with tag self here.entry.now) }
    {
        match tag {
            None => Ok(Goes::stops(self, 54)),
            Some(tag) => {
                let request = self.request(alloc, tag, here)?;
                let frame = Call::Client { request };
                Ok(Goes::on(FinalityPlace::Notarising, self, Act::Sub { frame }))
            }
        }
    }

    fn notarises(self, alloc: Global, here: &Place) -> Moved
        requires tx { IsTx self.stx.tx }
        requires place { IsPlace here.now }
        ensures { IfOk result (λ g. g ≡ notarises self here.entry.now) }
    {
        if asks_notary(&self.stx.get().tx, here) {
            let tag = tag_by(here.me, self.stx.get().tags.as_slice());
            self.asks_notary_with(alloc, tag, here)
        } else {
            self.records(alloc)
        }
    }

    fn asks_signer(self, alloc: Global, signer: Option<u8>, here: &Place) -> Moved
        requires tx { IsTx self.stx.tx }
        requires place { IsPlace here.now }
        ensures { IfOk result (λ g. g ≡ asks_signer signer self here.entry.now) }
    {
        match signer {
            None => self.notarises(alloc, here),
            Some(signer) => {
                let to = Party(signer);
                let first = Value::Tx(self.stx.try_copy(alloc)?);
                let act = Act::Open {
                    to,
                    class: 22,
                    first,
                };
                Ok(Goes::on(FinalityPlace::OpeningSigner, self, act))
            }
        }
    }

    fn signs_on(self, alloc: Global, here: &Place) -> Moved
        requires tx { IsTx self.stx.tx }
        requires place { IsPlace here.now }
        ensures { IfOk result (λ g. g ≡ signs_on self here.entry.now) }
    {
        let signer = next_signer(&self.stx.get().tx, self.asked, here);
        self.asks_signer(alloc, signer, here)
    }

    fn peer(&self) -> Option<Party>
        ensures { result ≡ peer_at self.now.told self.now.peers }
    {
        if self.told < 255 {
            self.peers.as_slice().get(usize::from(self.told)).copied()
        } else {
            None
        }
    }

    fn tells_peer(self, alloc: Global, peer: Option<Party>) -> Moved
        requires { IsTx self.stx.tx }
        ensures { IfOk result (λ g. g ≡ tells_peer peer self) }
    {
        match peer {
            None => {
                let id = self.stx.get().tx.id();
                Ok(Goes::ends(self, Value::Id(id)))
            }
            Some(to) => {
                let first = Value::Tx(self.stx.try_copy(alloc)?);
                let act = Act::Open {
                    to,
                    class: 21,
                    first,
                };
                Ok(Goes::on(FinalityPlace::OpeningPeer, self, act))
            }
        }
    }

    fn tells(self, alloc: Global) -> Moved
        requires { IsTx self.stx.tx }
        ensures { IfOk result (λ g. g ≡ tells self) }
    {
        let peer = self.peer();
        self.tells_peer(alloc, peer)
    }

    fn serves(self, key: Option<Key>) -> Gone
        ensures { result ≡ serves key self }
    {
        match key {
            None => Goes::stops(self, 54),
            Some(key) => Goes::on(FinalityPlace::Serving, self, Act::Receive { key }),
        }
    }

    fn looks_up(self, id: Hash32) -> Gone
        ensures { result ≡ looks_up id self }
    {
        if self.served <= 512 {
            Goes::on(FinalityPlace::LookingUp, self, Act::Lookup { id })
        } else {
            Goes::stops(self, 62)
        }
    }

    fn sends(self, key: Option<Key>, stx: Boxed<SignedTx>) -> Gone
        ensures { result ≡ sends key stx self }
    {
        match key {
            None => Goes::stops(self, 54),
            Some(key) => {
                let value = Value::Tx(stx);
                Goes::on(FinalityPlace::SendingTx, self, Act::Send { key, value })
            }
        }
    }
}

/// The places, by the results.
impl Finality {
    pub(crate) fn verified(self, with: &Resumed) -> Gone
        requires { IsTx self.stx.tx }
        ensures { result ≡ verified self with.now }
    {
        match with {
            Resumed::Verdict {
                verdict: Verdict::Accepted,
            } => {
                let id = self.stx.get().tx.id();
                Goes::on(FinalityPlace::Signing, self, Act::Sign { id })
            }
            _ => Goes::unnamed(self, with),
        }
    }

    pub(crate) fn signed(self, alloc: Global, with: &Resumed, here: &Place) -> Moved
        requires tx { IsTx self.stx.tx }
        requires place { IsPlace here.now }
        ensures { IfOk result (λ g. g ≡ signed self with.now here.entry.now) }
    {
        match with {
            Resumed::Tagged { tag } => self.tagged(alloc, *tag)?.signs_on(alloc, here),
            _ => Ok(Goes::unnamed(self, with)),
        }
    }

    pub(crate) fn signer_opened(self, with: &Resumed) -> Gone
        ensures { result ≡ signer_opened self with.now }
    {
        match with {
            Resumed::Opened { key } => {
                let key = *key;
                let fields = Finality {
                    key: Some(key),
                    ..self
                };
                Goes::on(FinalityPlace::ReceivingTags, fields, Act::Receive { key })
            }
            _ => Goes::unnamed(self, with),
        }
    }

    fn is_asked_for(&self, signer: Option<u8>, tag: &Tag) -> bool
        requires { IsTx self.now.stx.tx }
        ensures { result ≡ is_asked_for signer self.now tag.now }
    {
        match signer {
            None => false,
            Some(signer) => tag.by.0 == signer && tag.of == self.stx.get().tx.id(),
        }
    }

    fn collects(self, alloc: Global, tag: Tag, here: &Place) -> Moved
        requires tx { IsTx self.stx.tx }
        requires place { IsPlace here.now }
        ensures { IfOk result (λ g. g ≡ collects tag self here.entry.now) }
    {
        let signer = next_signer(&self.stx.get().tx, self.asked, here);
        if self.is_asked_for(signer, &tag) {
            let asked = self.asked.saturating_add(1);
            let tagged = self.tagged(alloc, tag)?;
            Finality { asked, ..tagged }.signs_on(alloc, here)
        } else {
            Ok(Goes::stops(self, 54))
        }
    }

    pub(crate) fn collected(self, alloc: Global, with: &Resumed, here: &Place) -> Moved
        requires tx { IsTx self.stx.tx }
        requires place { IsPlace here.now }
        ensures { IfOk result (λ g. g ≡ collected self with.now here.entry.now) }
    {
        match with {
            Resumed::Got {
                value: Value::Tags(tags),
            } => match tags.as_slice() {
                [tag] => self.collects(alloc, *tag, here),
                _ => Ok(Goes::unnamed(self, with)),
            },
            _ => Ok(Goes::unnamed(self, with)),
        }
    }

    fn answered(self, alloc: Global, answer: &NotaryAnswer) -> Moved
        ensures { IfOk result (λ g. g ≡ answered answer.now self) }
    {
        match answer {
            NotaryAnswer::Signed { tag } => self.tagged(alloc, *tag)?.records(alloc),
            _ => Ok(Goes::stops(self, u16::from(answer.code()))),
        }
    }

    pub(crate) fn notarised(self, alloc: Global, with: &Resumed) -> Moved
        ensures { IfOk result (λ g. g ≡ notarised self with.now) }
    {
        match with {
            Resumed::Returned {
                value: Value::Answer(answer),
            } => self.answered(alloc, answer.get()),
            _ => Ok(Goes::unnamed(self, with)),
        }
    }

    pub(crate) fn recorded(self, alloc: Global, with: &Resumed) -> Moved
        requires { IsTx self.stx.tx }
        ensures { IfOk result (λ g. g ≡ recorded self with.now) }
    {
        match with {
            Resumed::Recorded => self.tells(alloc),
            _ => Ok(Goes::unnamed(self, with)),
        }
    }

    pub(crate) fn peer_opened(self, with: &Resumed) -> Gone
        ensures { result ≡ peer_opened self with.now }
    {
        match with {
            Resumed::Opened { key } => {
                let key = Some(*key);
                Finality { key, ..self }.serves(key)
            }
            _ => Goes::unnamed(self, with),
        }
    }

    pub(crate) fn served(self, alloc: Global, with: &Resumed) -> Moved
        requires { IsTx self.stx.tx }
        ensures { IfOk result (λ g. g ≡ served self with.now) }
    {
        match with {
            Resumed::Got {
                value: Value::Id(id),
            } => {
                let served = self.served.saturating_add(1);
                Ok(Finality { served, ..self }.looks_up(*id))
            }
            Resumed::Ended => {
                let told = self.told.saturating_add(1);
                Finality { told, ..self }.tells(alloc)
            }
            _ => Ok(Goes::unnamed(self, with)),
        }
    }

    pub(crate) fn looked_up(self, alloc: Global, with: &Resumed) -> Moved
        ensures { IfOk result (λ g. g ≡ looked_up self with.now) }
    {
        match with {
            Resumed::Found { stx } => {
                let fetched = Some(stx.try_copy(alloc)?);
                let found = stx.try_copy(alloc)?;
                let key = self.key;
                Ok(Finality { fetched, ..self }.sends(key, found))
            }
            Resumed::Absent => Ok(Goes::stops(self, 35)),
            _ => Ok(Goes::unnamed(self, with)),
        }
    }

    pub(crate) fn sent(self, with: &Resumed) -> Gone
        ensures { result ≡ sent self with.now }
    {
        match with {
            Resumed::Sent => {
                let key = self.key;
                self.serves(key)
            }
            _ => Goes::unnamed(self, with),
        }
    }
}
