//! What states, transactions, sessions and nodes are named by.

ghost use Rattle.std.specs.Prelude.{◌<◌};
ghost use Rattle.net_base.specs.Names.{IsStateRef, state_ref, state_ref_at, state_ref_laws, IsTag, tag, tag_at, tag_laws, by_of, tag_between_at, tag_between_laws, IsToken, token, token_at, token_laws, IsKey, key, key_at, key_laws, IsIdentity, identity, identity_at, identity_laws};

use crate::ascending::ByParty;
use crate::block::{Block, Component, write_component};
use crate::fault::PartFault;
use crate::part::read_between;
use crate::reader::Reader;
use crate::spelt::Spelt;
use crate::values::{Hash32, Party};
use crate::writer::Writer;
use std::alloc::{AllocError, Global};

/// A currency of an issuer.
#[derive(Clone, Copy, Debug, PartialEq, Eq, Hash)]
pub struct Token {
    pub issuer: Party,
    /// Three letters A to Z.
    pub code: [u8; 3],
}

/// A party's mark under a transaction id.
#[derive(Clone, Copy, Debug, PartialEq, Eq)]
pub struct Tag {
    pub by: Party,
    pub of: Hash32,
    pub mark: Hash32,
}

/// An output of a transaction: the transaction's id, and the output's place, counted from 0.
#[derive(Clone, Copy, Debug, PartialEq, Eq, Hash)]
pub struct StateRef {
    pub id: Hash32,
    pub index: u32,
}

/// A session: the party that opened it, and which of that party's sessions it is, counted from 0.
#[derive(Clone, Copy, Debug, PartialEq, Eq, Hash)]
pub struct Key {
    pub initiator: Party,
    pub number: u32,
}

/// Which node of which network a journal belongs to.
#[derive(Clone, Copy, Debug, PartialEq, Eq)]
pub struct Identity {
    pub party: Party,
    /// How many nodes the network has, 1 to 16.
    pub nodes: u8,
    pub notary: Party,
}

#[tactic(auto, unfolding(crate::specs::Names::token_at))]
impl Spelt for Token {
    ghost spelling = { token };

    ghost within = { IsToken };

    ghost reading = { token_at };

    ghost laws = { token_laws };

    fn read_part(alloc: Global, from: &mut Reader) -> Result<Token, PartFault> {
        Ok(Token {
            issuer: Spelt::read_part(alloc, from)?,
            code: [
                read_between(from, b'A', b'Z' + 1)?,
                read_between(from, b'A', b'Z' + 1)?,
                read_between(from, b'A', b'Z' + 1)?,
            ],
        })
    }

    fn write_part(&self, alloc: Global, out: &mut Writer) -> Result<(), AllocError> {
        write_component(alloc, self, out)
    }
}

impl Component for Token {
    ghost text = { token };

    ghost limits = { IsToken };

    ghost size = { 4 };

    fn put(&self, block: &mut Block) {
        self.issuer.put(block);
        block.put_bytes(&self.code);
    }
}

#[tactic(auto, unfolding(crate::specs::Names::tag_at))]
impl Spelt for Tag {
    ghost spelling = { tag };

    ghost within = { IsTag };

    ghost reading = { tag_at };

    ghost laws = { tag_laws };

    fn read_part(alloc: Global, from: &mut Reader) -> Result<Tag, PartFault> {
        Ok(Tag {
            by: Spelt::read_part(alloc, from)?,
            of: Spelt::read_part(alloc, from)?,
            mark: Spelt::read_part(alloc, from)?,
        })
    }

    fn write_part(&self, alloc: Global, out: &mut Writer) -> Result<(), AllocError> {
        self.by.write_part(alloc, out)?;
        self.of.write_part(alloc, out)?;
        self.mark.write_part(alloc, out)?;
        Ok(())
    }
}

#[tactic(auto, unfolding(crate::specs::Names::tag_between_at))]
impl ByParty for Tag {
    ghost party_of = { by_of };

    ghost reading_between = { tag_between_at };

    ghost is_party = { λ t h. h.0 };

    ghost between = { tag_between_laws };

    fn party(&self) -> u8 {
        self.by.0
    }

    fn read_between(alloc: Global, from: &mut Reader, low: u8, high: u8) -> Result<Tag, PartFault> {
        Ok(Tag {
            by: Party(read_between(from, low, high)?),
            of: Spelt::read_part(alloc, from)?,
            mark: Spelt::read_part(alloc, from)?,
        })
    }
}

#[tactic(auto, unfolding(crate::specs::Names::state_ref_at))]
impl Spelt for StateRef {
    ghost spelling = { state_ref };

    ghost within = { IsStateRef };

    ghost reading = { state_ref_at };

    ghost laws = { state_ref_laws };

    fn read_part(alloc: Global, from: &mut Reader) -> Result<StateRef, PartFault> {
        Ok(StateRef {
            id: Spelt::read_part(alloc, from)?,
            index: Spelt::read_part(alloc, from)?,
        })
    }

    fn write_part(&self, alloc: Global, out: &mut Writer) -> Result<(), AllocError> {
        write_component(alloc, self, out)
    }
}

impl Component for StateRef {
    ghost text = { state_ref };

    ghost limits = { IsStateRef };

    ghost size = { 36 };

    fn put(&self, block: &mut Block) {
        self.id.put(block);
        block.put_u32(self.index);
    }
}

#[tactic(auto, unfolding(crate::specs::Names::key_at))]
impl Spelt for Key {
    ghost spelling = { key };

    ghost within = { IsKey };

    ghost reading = { key_at };

    ghost laws = { key_laws };

    fn read_part(alloc: Global, from: &mut Reader) -> Result<Key, PartFault> {
        Ok(Key {
            initiator: Spelt::read_part(alloc, from)?,
            number: Spelt::read_part(alloc, from)?,
        })
    }

    fn write_part(&self, alloc: Global, out: &mut Writer) -> Result<(), AllocError> {
        self.initiator.write_part(alloc, out)?;
        self.number.write_part(alloc, out)?;
        Ok(())
    }
}

#[tactic(auto, unfolding(crate::specs::Names::identity_at))]
impl Spelt for Identity {
    ghost spelling = { identity };

    ghost within = { IsIdentity };

    ghost reading = { identity_at };

    ghost laws = { identity_laws };

    fn read_part(alloc: Global, from: &mut Reader) -> Result<Identity, PartFault> {
        Ok(Identity {
            party: Spelt::read_part(alloc, from)?,
            nodes: read_between(from, 1, 17)?,
            notary: Spelt::read_part(alloc, from)?,
        })
    }

    fn write_part(&self, alloc: Global, out: &mut Writer) -> Result<(), AllocError> {
        self.party.write_part(alloc, out)?;
        self.nodes.write_part(alloc, out)?;
        self.notary.write_part(alloc, out)?;
        Ok(())
    }
}
