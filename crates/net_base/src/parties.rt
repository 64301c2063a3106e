//! Sets of parties.

ghost use Rattle.std.specs.Prelude.{◌≡◌, ◌++◌, ◌+◌, ◌/◌, ◌%◌, ◌^◌, ◌≤◌, ◌<◌, ◌↔◌, ◌==◌, ◌||◌, ◌&&◌, not, false, IsTrue, [], ℕ, length};
ghost use Rattle.net_base.specs.Parts.{Gives};
ghost use Rattle.net_base.specs.Kinds.{between_at};
ghost use Rattle.net_base.specs.Runs.{ascending_at};
ghost use Rattle.net_base.specs.Combining.{mapped_at};
ghost use Rattle.net_base.specs.Parties.{has_party, members_from, bits_of, members, party_set, IsPartySet, party_set_at, party_set_laws};

use crate::block::{Block, Component, write_component};
use crate::fault::PartFault;
use crate::part::{read_below, read_between};
use crate::reader::Reader;
use crate::spelt::Spelt;
use crate::values::Party;
use crate::writer::Writer;
use std::alloc::{AllocError, Global};

/// A set of parties; bit `p` stands for party `p`.
#[derive(Clone, Copy, Debug, PartialEq, Eq)]
pub struct PartySet(pub u16);

impl PartySet {
    /// The set of no party.
    pub fn empty() -> PartySet
        ensures { (p : ℕ) → has_party result p ≡ false }
    {
        PartySet(0)
    }

    /// Whether the party is in the set.
    pub fn contains(self, party: Party) -> bool
        ensures { result ≡ has_party self party.0 }
    {
        has_bit(self.0, party.0)
    }

    /// The set with the party added.
    pub fn with(self, party: Party) -> PartySet
        requires { party.0 < 16 }
        ensures { (p : ℕ) → has_party result p ≡ (p == party.0 || has_party self p) }
    {
        PartySet(self.0 | 1 << party.0)
    }

    /// The parties that are in one of the sets, or in both.
    pub fn union(self, other: PartySet) -> PartySet
        ensures { (p : ℕ) → has_party result p ≡ (has_party self p || has_party other p) }
    {
        PartySet(self.0 | other.0)
    }

    /// The parties that are in this set and not in the other.
    pub fn without(self, other: PartySet) -> PartySet
        ensures { (p : ℕ) → has_party result p ≡ (has_party self p && not (has_party other p)) }
    {
        PartySet(without_bits(self.0, other.0))
    }

    /// Whether no party is in the set.
    pub fn is_empty(self) -> bool
        ensures { IsTrue result ↔ (members self ≡ []) }
    {
        self.len() == 0
    }

    /// How many parties are in the set, 0 to 16.
    pub fn len(self) -> u8
        ensures { result ≡ length (members self) }
    {
        count_members(self.0)
    }
}

/// Whether the bit is 1.
fn has_bit(bits: u16, place: u8) -> bool
    ensures { result ≡ (bits / 2 ^ place % 2 == 1) }
{
    place < 16 && (bits >> place) % 2 == 1
}

/// The bits that are not among the others.
fn without_bits(bits: u16, others: u16) -> u16
    ensures { (p : ℕ) → (result / 2 ^ p % 2 == 1)
        ≡ ((bits / 2 ^ p % 2 == 1) && not (others / 2 ^ p % 2 == 1)) }
{
    bits & !others
}

/// How many bits are 1.
fn count_members(bits: u16) -> u8
    ensures { result ≡ length (members_from 0 16 bits) }
{
    let mut rest = bits;
    let mut count = 0;
    for _ in 0..16u8 {
        count += (rest % 2) as u8;
        rest /= 2;
    }
    count
}

/// Writes the places of the bits that are 1, ascending.
fn put_members(bits: u16, block: &mut Block)
    requires { length block.old + 16 ≤ 64 }
    ensures text { block.new ≡ block.old ++ members_from 0 16 bits }
    ensures size { length block.new ≤ length block.old + 16 }
{
    let mut rest = bits;
    for party in 0..16u8 {
        if rest % 2 == 1 {
            block.put_u8(party);
        }
        rest /= 2;
    }
}

#[tactic(auto, unfolding(crate::specs::Parties::party_set))]
impl Component for PartySet {
    ghost text = { party_set };

    ghost limits = { IsPartySet };

    ghost size = { 17 };

    fn put(&self, block: &mut Block) {
        block.put_u8(count_members(self.0));
        put_members(self.0, block);
    }
}

/// Reads as many parties, strictly ascending.
fn read_members(from: &mut Reader, count: u8) -> Result<u16, PartFault>
    requires { count ≤ 16 }
    ensures { Gives (λ x. x) result from.old from.new
        (mapped_at bits_of (ascending_at (λ p. p) 16 between_at count) from.old.left) }
{
    let mut bits: u16 = 0;
    let mut low: u8 = 0;
    for i in 0..count {
        let party = read_between(from, low, 16 - (count - (i + 1)))?;
        bits += 2u16.pow(party as u32);
        low = party + 1;
    }
    Ok(bits)
}

#[tactic(auto, unfolding(crate::specs::Parties::party_set_at, crate::specs::Runs::ascending8_at))]
impl Spelt for PartySet {
    ghost spelling = { party_set };

    ghost within = { IsPartySet };

    ghost reading = { party_set_at };

    ghost laws = { party_set_laws };

    fn read_part(_alloc: Global, from: &mut Reader) -> Result<PartySet, PartFault> {
        let count = read_below(from, 17)?;
        Ok(PartySet(read_members(from, count)?))
    }

    fn write_part(&self, alloc: Global, out: &mut Writer) -> Result<(), AllocError> {
        write_component(alloc, self, out)
    }
}
