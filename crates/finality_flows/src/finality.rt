//! What finality keeps, where it waits, and its bytes.

ghost use Rattle.std.specs.Prelude.{◌≡◌, IfOk};
ghost use Rattle.flow_forms.specs.Calls.{call_weight};
ghost use Rattle.flow_forms.specs.declared.calls.Call.TheVariants as call;
ghost use Rattle.finality_flows.specs.Finality.{first, form};
ghost use Rattle.finality_flows.specs.FinalityLaws.{kept, numbers, is_form};

use crate::steps::Moved;
use flow_forms::{Fields, Machine, Numbered, copy_option};
use flow_machine::{Place, Resumed};
use ledger_types::{SignedTx, WireTx};
use net_base::{
    Boxed, Key, ListOf, PartFault, Party, Reader, Spelt, TryCopy, Writer, read_list, write_list,
};
use std::alloc::{AllocError, Global};

/// Where a finality frame waits. The places have the numbers 1 to 10 in this order, and 11 is the one that returns the id.
#[derive(Clone, Copy)]
pub enum FinalityPlace {
    /// On the verdict.
    Verifying = 1,
    /// On this party's tag.
    Signing = 2,
    /// On a session with the signer that is asked next, by class 22.
    OpeningSigner = 3,
    /// On that signer's tag.
    ReceivingTags = 4,
    /// On the notary's answer, by the notary client.
    Notarising = 5,
    /// On the transaction being recorded.
    Recording = 6,
    /// On a session with the peer that is told next, by class 21.
    OpeningPeer = 7,
    /// On the id of a transaction that the peer lacks, or on its end.
    Serving = 8,
    /// On that transaction.
    LookingUp = 9,
    /// On its being sent.
    SendingTx = 10,
}

/// The fields of the finality flow (Corda 4 documentation, "Flow library", `FinalityFlow`). It has the transaction judged, signs it, has
/// it signed by each other party that has to sign, in ascending order, and by the notary, records it, and shows it to the peers in their
/// order; to each it sends the transactions that it asks for. It returns the id.
///
/// It fails with 31 to 33 where the transaction is not accepted, 35 where a peer asks for what is not recorded here, 41 to 45 where the
/// notary refuses, 50 to 52 where a session goes wrong, 62 at the 513th request, by the reason of an act that was refused, 53 where the
/// notary gave no answer in three tries, and else 54.
/// What was recorded stays recorded then.
#[derive(Drop)]
pub struct Finality {
    /// The transaction with the tags so far.
    pub stx: Boxed<SignedTx>,
    /// The peers that are to be told, at most 255.
    pub peers: ListOf<Party>,
    /// How many other signers gave a tag.
    pub asked: u8,
    /// How many peers were told.
    pub told: u8,
    /// How many requests came, of all peers together.
    pub served: u16,
    /// The session that was opened last.
    pub key: Option<Key>,
    /// What was looked up last.
    pub fetched: Option<Boxed<SignedTx>>,
}

impl Finality {
    /// The fields with which finality is called: the transaction without a tag, and nobody asked or told. Its frame may cause just what
    /// is said of the call.
    ///
    /// # Errors
    ///
    /// `AllocError` for want of memory.
    pub fn new(
        alloc: Global,
        tx: Boxed<WireTx>,
        peers: ListOf<Party>,
    ) -> Result<Finality, AllocError>
        ensures fields { IfOk result (λ f. f ≡ first tx peers) }
        ensures weight { form.called (first tx peers) ≡ call_weight (call.Finality tx peers) }
    {
        let tx = tx.into_inner();
        let tags = ListOf::new(alloc);
        Ok(Finality {
            stx: Boxed::new(alloc, SignedTx { tx, tags })?,
            peers,
            asked: 0,
            told: 0,
            served: 0,
            key: None,
            fetched: None,
        })
    }
}

impl Numbered for FinalityPlace {
    ghost numbers = { numbers };

    fn number(self) -> u8 {
        self as u8
    }

    fn all() -> &'static [FinalityPlace] {
        &[
            FinalityPlace::Verifying,
            FinalityPlace::Signing,
            FinalityPlace::OpeningSigner,
            FinalityPlace::ReceivingTags,
            FinalityPlace::Notarising,
            FinalityPlace::Recording,
            FinalityPlace::OpeningPeer,
            FinalityPlace::Serving,
            FinalityPlace::LookingUp,
            FinalityPlace::SendingTx,
        ]
    }
}

#[tactic(auto, unfolding(crate::specs::Finality::finality_at))]
impl Fields for Finality {
    ghost kept = { kept };

    fn read_fields(alloc: Global, from: &mut Reader) -> Result<Finality, PartFault> {
        Ok(Finality {
            stx: Spelt::read_part(alloc, from)?,
            peers: read_list(alloc, from, 255)?,
            asked: Spelt::read_part(alloc, from)?,
            told: Spelt::read_part(alloc, from)?,
            served: Spelt::read_part(alloc, from)?,
            key: Spelt::read_part(alloc, from)?,
            fetched: Spelt::read_part(alloc, from)?,
        })
    }

    fn write_fields(&self, alloc: Global, out: &mut Writer) -> Result<(), AllocError> {
        self.stx.write_part(alloc, out)?;
        write_list(alloc, &self.peers, out)?;
        self.asked.write_part(alloc, out)?;
        self.told.write_part(alloc, out)?;
        self.served.write_part(alloc, out)?;
        self.key.write_part(alloc, out)?;
        self.fetched.write_part(alloc, out)?;
        Ok(())
    }

    fn copy_fields(&self, alloc: Global) -> Result<Finality, AllocError> {
        Ok(Finality {
            stx: self.stx.try_copy(alloc)?,
            peers: self.peers.copy(alloc)?,
            asked: self.asked,
            told: self.told,
            served: self.served,
            key: self.key,
            fetched: copy_option(alloc, &self.fetched)?,
        })
    }
}

impl Machine<FinalityPlace> for Finality {
    ghost form = { form };

    ghost MACHINE = { 30 };

    ghost is_form = { is_form };

    const MACHINE: u8 = 30;

    fn start(self, alloc: Global, _here: &Place) -> Moved {
        self.begins(alloc)
    }

    fn resume(self, alloc: Global, place: FinalityPlace, with: &Resumed, here: &Place) -> Moved {
        match place {
            FinalityPlace::Verifying => Ok(self.verified(with)),
            FinalityPlace::Signing => self.signed(alloc, with, here),
            FinalityPlace::OpeningSigner => Ok(self.signer_opened(with)),
            FinalityPlace::ReceivingTags => self.collected(alloc, with, here),
            FinalityPlace::Notarising => self.notarised(alloc, with),
            FinalityPlace::Recording => self.recorded(alloc, with),
            FinalityPlace::OpeningPeer => Ok(self.peer_opened(with)),
            FinalityPlace::Serving => self.served(alloc, with),
            FinalityPlace::LookingUp => self.looked_up(alloc, with),
            FinalityPlace::SendingTx => Ok(self.sent(with)),
        }
    }

    fn weight(&self, place: FinalityPlace) -> u64 {
        let requests = 4 * u64::from(512u16.saturating_sub(self.served));
        let peers = (self.peers.len() as u64).saturating_sub(u64::from(self.told));
        let here = requests + 2573 * peers;
        let next = requests + 2573 * peers.saturating_sub(1);
        let signers = 16u8.saturating_sub(self.asked);
        let all = here + 40 + 13 * u64::from(signers);
        let rest = here + 40 + 13 * u64::from(signers.saturating_sub(1));
        match place {
            FinalityPlace::Verifying => all + 1,
            FinalityPlace::Signing => all,
            FinalityPlace::OpeningSigner => rest + 1,
            FinalityPlace::ReceivingTags => rest,
            FinalityPlace::Notarising => here + 2,
            FinalityPlace::Recording => here + 1,
            FinalityPlace::OpeningPeer | FinalityPlace::SendingTx => next + 2,
            FinalityPlace::Serving => next + 1,
            FinalityPlace::LookingUp => next + 4,
        }
    }

    fn called(&self) -> u64 {
        self.weight(FinalityPlace::Verifying) + 1
    }
}
