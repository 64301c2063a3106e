//! What a notary is asked, answers and books.

ghost use Rattle.std.specs.Prelude.{◌≡◌, ◌<◌, ◌≤◌, ◌+◌, length, IfOk};
ghost use Rattle.net_base.specs.Parts.{Decodes};
ghost use Rattle.net_base.specs.Reading.{Puts};
ghost use Rattle.component_merkle.specs.Merkle.{digest_of};
ghost use Rattle.ledger_types.specs.Requests.{IsRequest, request, request_at, request_laws, IsRefKind, ref_kind, ref_kind_at, ref_kind_laws, IsConflictItem, conflict_item, conflict_item_at, conflict_item_laws, IsNotaryAnswer, answer_code, notary_answer, notary_answer_at, notary_answer_laws, IsEntry, entry, entry_at, entry_laws};

use crate::torn::TornTx;
use crate::tx::RefList;
use component_merkle::digest;
use net_base::{
    DecodeFault, Hash32, ListOf, Moment, PartFault, Party, Reader, Spelt, StateRef, Tag, TryCopy,
    Writer, decode, encode, read_kind, read_list, read_list_between, write_list,
};
use std::alloc::{AllocError, Global};

/// A request for a notary's signature. Its key is the party and the flow.
#[derive(Debug, Drop)]
pub struct Request {
    /// The party that asks.
    pub party: Party,
    /// That party's flow that asks.
    pub flow: u32,
    pub torn: TornTx,
    /// The party's tag over the transaction's id; a notary refuses another.
    pub tag: Tag,
}

/// How a transaction names a state.
#[derive(Clone, Copy, Debug, PartialEq, Eq)]
pub enum RefKind {
    Input,
    Reference,
}

/// A state that another transaction has consumed.
#[derive(Clone, Copy, Debug, PartialEq, Eq)]
pub struct ConflictItem {
    pub reference: StateRef,
    /// The digest of the consuming transaction's id.
    pub consumer_hash: Hash32,
    /// How the refused transaction names the state.
    pub kind: RefKind,
}

/// The states over which a request conflicts, 1 to 80.
pub type ConflictList = ListOf<ConflictItem>;

/// What a notary answers (Corda 4 documentation, "Notaries").
#[derive(Debug, Drop)]
pub enum NotaryAnswer {
    /// The notary's tag over the id.
    Signed { tag: Tag },
    /// The transaction names no notary or another one, or this node is none.
    WrongNotary,
    /// The tear-off doesn't give its id, hides what a notary must see, shows a component that spells nothing, or shows
    /// two notaries or two windows.
    BadTear,
    /// The request's tag isn't the asking party's over the id.
    BadRequestTag,
    /// States that other transactions have consumed.
    Conflict { list: ConflictList },
    /// The time window doesn't hold the notary's moment.
    OutsideWindow { now: Moment },
}

/// An entry of a notary's book.
#[derive(Debug, Drop)]
pub struct Entry {
    pub request: Request,
    /// The inputs that the notary saw, at most 64.
    pub inputs: RefList,
    pub answer: NotaryAnswer,
}

/// The digest of the id of a consuming transaction, by which a conflict names it.
pub fn consumer_hash(id: &Hash32) -> Hash32
    ensures { result.0 ≡ digest_of id.now.0 }
{
    Hash32(digest(&id.0))
}

impl NotaryAnswer {
    /// The code of the answer: 0 for a signature, and 41 to 45 for the refusals.
    pub fn code(&self) -> u8
        ensures { result ≡ answer_code self.now }
    {
        match self {
            NotaryAnswer::Signed { .. } => 0,
            NotaryAnswer::WrongNotary => 41,
            NotaryAnswer::BadTear => 42,
            NotaryAnswer::BadRequestTag => 43,
            NotaryAnswer::Conflict { .. } => 44,
            NotaryAnswer::OutsideWindow { .. } => 45,
        }
    }
}

#[tactic(auto, unfolding(crate::specs::Requests::request_at))]
impl Spelt for Request {
    ghost spelling = { request };

    ghost within = { IsRequest };

    ghost reading = { request_at };

    ghost laws = { request_laws };

    fn read_part(alloc: Global, from: &mut Reader) -> Result<Request, PartFault> {
        Ok(Request {
            party: Spelt::read_part(alloc, from)?,
            flow: Spelt::read_part(alloc, from)?,
            torn: Spelt::read_part(alloc, from)?,
            tag: Spelt::read_part(alloc, from)?,
        })
    }

    fn write_part(&self, alloc: Global, out: &mut Writer) -> Result<(), AllocError> {
        self.party.write_part(alloc, out)?;
        self.flow.write_part(alloc, out)?;
        self.torn.write_part(alloc, out)?;
        self.tag.write_part(alloc, out)?;
        Ok(())
    }
}

#[tactic(auto, unfolding(crate::specs::Requests::ref_kind_at))]
impl Spelt for RefKind {
    ghost spelling = { ref_kind };

    ghost within = { IsRefKind };

    ghost reading = { ref_kind_at };

    ghost laws = { ref_kind_laws };

    fn read_part(_alloc: Global, from: &mut Reader) -> Result<RefKind, PartFault> {
        match read_kind(from, &[0, 1])? {
            0 => Ok(RefKind::Input),
            _ => Ok(RefKind::Reference),
        }
    }

    fn write_part(&self, alloc: Global, out: &mut Writer) -> Result<(), AllocError> {
        match self {
            RefKind::Input => out.put_u8(alloc, 0),
            RefKind::Reference => out.put_u8(alloc, 1),
        }
    }
}

#[tactic(auto, unfolding(crate::specs::Requests::conflict_item_at))]
impl Spelt for ConflictItem {
    ghost spelling = { conflict_item };

    ghost within = { IsConflictItem };

    ghost reading = { conflict_item_at };

    ghost laws = { conflict_item_laws };

    fn read_part(alloc: Global, from: &mut Reader) -> Result<ConflictItem, PartFault> {
        Ok(ConflictItem {
            reference: Spelt::read_part(alloc, from)?,
            consumer_hash: Spelt::read_part(alloc, from)?,
            kind: Spelt::read_part(alloc, from)?,
        })
    }

    fn write_part(&self, alloc: Global, out: &mut Writer) -> Result<(), AllocError> {
        self.reference.write_part(alloc, out)?;
        self.consumer_hash.write_part(alloc, out)?;
        self.kind.write_part(alloc, out)?;
        Ok(())
    }
}

#[tactic(auto, unfolding(crate::specs::Requests::notary_answer_at))]
impl Spelt for NotaryAnswer {
    ghost spelling = { notary_answer };

    ghost within = { IsNotaryAnswer };

    ghost reading = { notary_answer_at };

    ghost laws = { notary_answer_laws };

    fn read_part(alloc: Global, from: &mut Reader) -> Result<NotaryAnswer, PartFault> {
        match read_kind(from, &[0, 41, 42, 43, 44, 45])? {
            0 => Ok(NotaryAnswer::Signed {
                tag: Spelt::read_part(alloc, from)?,
            }),
            41 => Ok(NotaryAnswer::WrongNotary),
            42 => Ok(NotaryAnswer::BadTear),
            43 => Ok(NotaryAnswer::BadRequestTag),
            44 => Ok(NotaryAnswer::Conflict {
                list: read_list_between(alloc, from, 1, 80)?,
            }),
            _ => Ok(NotaryAnswer::OutsideWindow {
                now: Spelt::read_part(alloc, from)?,
            }),
        }
    }

    fn write_part(&self, alloc: Global, out: &mut Writer) -> Result<(), AllocError> {
        out.put_u8(alloc, self.code())?;
        match self {
            NotaryAnswer::Signed { tag } => tag.write_part(alloc, out)?,
            NotaryAnswer::Conflict { list } => write_list(alloc, list, out)?,
            NotaryAnswer::OutsideWindow { now } => now.write_part(alloc, out)?,
            NotaryAnswer::WrongNotary | NotaryAnswer::BadTear | NotaryAnswer::BadRequestTag => {}
        }
        Ok(())
    }
}

#[tactic(auto, unfolding(crate::specs::Requests::entry_at))]
impl Spelt for Entry {
    ghost spelling = { entry };

    ghost within = { IsEntry };

    ghost reading = { entry_at };

    ghost laws = { entry_laws };

    fn read_part(alloc: Global, from: &mut Reader) -> Result<Entry, PartFault> {
        Ok(Entry {
            request: Spelt::read_part(alloc, from)?,
            inputs: read_list(alloc, from, 64)?,
            answer: Spelt::read_part(alloc, from)?,
        })
    }

    fn write_part(&self, alloc: Global, out: &mut Writer) -> Result<(), AllocError> {
        self.request.write_part(alloc, out)?;
        write_list(alloc, &self.inputs, out)?;
        self.answer.write_part(alloc, out)?;
        Ok(())
    }
}

impl Request {
    /// An equal value.
    pub fn copy(&self, alloc: Global) -> Result<Request, AllocError>
        ensures { IfOk result (λ v. v ≡ self.now) }
    {
        Ok(Request {
            party: self.party,
            flow: self.flow,
            torn: self.torn.copy(alloc)?,
            tag: self.tag,
        })
    }
}

impl NotaryAnswer {
    /// Writes the spelling at the end of `out`, which want of memory leaves as it was.
    pub fn encode(&self, alloc: Global, out: &mut Writer) -> Result<(), AllocError>
        requires { IsNotaryAnswer self.now }
        ensures { Puts (notary_answer self.now) result out.old out.new }
    {
        encode(alloc, self, out)
    }

    /// The value whose spelling begins at the reader's place, which then stands behind it.
    ///
    /// # Errors
    ///
    /// `Malformed` with the reader's place exactly where no spelling begins there, and `Memory`. The reader
    /// then stays where it was.
    pub fn decode(alloc: Global, from: &mut Reader) -> Result<NotaryAnswer, DecodeFault>
        ensures { Decodes IsNotaryAnswer notary_answer result from.old from.new }
    {
        decode(alloc, from)
    }

    /// An equal value.
    pub fn copy(&self, alloc: Global) -> Result<NotaryAnswer, AllocError>
        ensures { IfOk result (λ v. v ≡ self.now) }
    {
        match self {
            NotaryAnswer::Signed { tag } => Ok(NotaryAnswer::Signed { tag: *tag }),
            NotaryAnswer::WrongNotary => Ok(NotaryAnswer::WrongNotary),
            NotaryAnswer::BadTear => Ok(NotaryAnswer::BadTear),
            NotaryAnswer::BadRequestTag => Ok(NotaryAnswer::BadRequestTag),
            NotaryAnswer::Conflict { list } => Ok(NotaryAnswer::Conflict {
                list: list.copy(alloc)?,
            }),
            NotaryAnswer::OutsideWindow { now } => Ok(NotaryAnswer::OutsideWindow { now: *now }),
        }
    }
}

impl Entry {
    /// Writes the spelling, at most 17,573 bytes, at the end of `out`, which want of memory leaves as it was.
    pub fn encode(&self, alloc: Global, out: &mut Writer) -> Result<(), AllocError>
        requires { IsEntry self.now }
        ensures text { Puts (entry self.now) result out.old out.new }
        ensures short { length out.new ≤ length out.old + 17573 }
    {
        encode(alloc, self, out)
    }

    /// The value whose spelling begins at the reader's place, which then stands behind it.
    ///
    /// # Errors
    ///
    /// `Malformed` with the reader's place exactly where no spelling begins there, and `Memory`. The reader
    /// then stays where it was.
    pub fn decode(alloc: Global, from: &mut Reader) -> Result<Entry, DecodeFault>
        ensures { Decodes IsEntry entry result from.old from.new }
    {
        decode(alloc, from)
    }

    /// An equal value.
    pub fn copy(&self, alloc: Global) -> Result<Entry, AllocError>
        ensures { IfOk result (λ v. v ≡ self.now) }
    {
        Ok(Entry {
            request: self.request.copy(alloc)?,
            inputs: self.inputs.copy(alloc)?,
            answer: self.answer.copy(alloc)?,
        })
    }
}

impl TryCopy for Request {
    fn try_copy(&self, alloc: Global) -> Result<Request, AllocError> {
        self.copy(alloc)
    }
}

impl TryCopy for NotaryAnswer {
    fn try_copy(&self, alloc: Global) -> Result<NotaryAnswer, AllocError> {
        self.copy(alloc)
    }
}

impl TryCopy for Entry {
    fn try_copy(&self, alloc: Global) -> Result<Entry, AllocError> {
        self.copy(alloc)
    }
}
