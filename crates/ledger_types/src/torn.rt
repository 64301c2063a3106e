//! Transactions of which only some components are shown.

ghost use Rattle.std.specs.Prelude.{◌≡◌, ◌≤◌, ◌<◌, ◌-◌, IfOk};
ghost use Rattle.net_base.specs.Reading.{Puts};
ghost use Rattle.net_base.specs.Parts.{Gives, Decodes};
ghost use Rattle.net_base.specs.Runs.{run_at};
ghost use Rattle.ledger_types.specs.Torn.{IsTornPart, torn_part, torn_part_at, torn_part_laws, torn_group, IsGroupWithin, group_at, shown_of, group_laws, group_step, group_next, IsTornTx, torn_tx, torn_tx_at, torn_tx_laws};

use crate::tx::{RefList, Window};
use net_base::{
    ByteList, DecodeFault, Hash32, ListOf, PartFault, Party, Reader, Spelt, TryCopy, Writer,
    decode, encode, read_below, read_bytes16, read_kind, read_list, write_bytes16, write_list,
};
use std::alloc::{AllocError, Global};

/// A component that is shown: its nonce and its bytes, at most 64 within the limits of a spelling.
#[derive(Debug, Drop)]
pub struct TornPart {
    pub nonce: Hash32,
    pub bytes: ByteList,
}

/// The components of a group that are shown.
pub type PartList = ListOf<TornPart>;

/// A component group of a tear-off.
#[derive(Debug, Drop)]
pub enum TornGroup {
    /// Only the group's value is told.
    Hidden { root: Hash32 },
    /// The components, at most 64: all of them, where the groups give the tear-off's id.
    Shown { parts: PartList },
}

/// The groups of a tear-off, by ordinal.
pub type TornList = ListOf<TornGroup>;

/// A tear-off: a transaction of which only some component groups are shown (Corda 4 documentation,
/// "Transaction tear-offs"). It is spelt with at most 9 groups, and at most 96 shown components together.
#[derive(Debug, Drop)]
pub struct TornTx {
    pub id: Hash32,
    pub groups: TornList,
}

/// What a notary sees of a transaction.
#[derive(Debug, Drop)]
pub struct Visible {
    pub id: Hash32,
    pub inputs: RefList,
    pub references: RefList,
    pub notary: Option<Party>,
    pub window: Option<Window>,
}

#[tactic(auto, unfolding(crate::specs::Torn::torn_part_at))]
impl Spelt for TornPart {
    ghost spelling = { torn_part };

    ghost within = { IsTornPart };

    ghost reading = { torn_part_at };

    ghost laws = { torn_part_laws };

    fn read_part(alloc: Global, from: &mut Reader) -> Result<TornPart, PartFault> {
        Ok(TornPart {
            nonce: Spelt::read_part(alloc, from)?,
            bytes: read_bytes16(alloc, from, 64)?,
        })
    }

    fn write_part(&self, alloc: Global, out: &mut Writer) -> Result<(), AllocError> {
        self.nonce.write_part(alloc, out)?;
        write_bytes16(alloc, &self.bytes, out)?;
        Ok(())
    }
}

/// A group with at most this number of shown parts.
#[tactic(auto, unfolding(crate::specs::Torn::group_at))]
fn read_group(alloc: Global, from: &mut Reader, room: u8) -> Result<TornGroup, PartFault>
    requires { room ≤ 96 }
    ensures given { Gives (λ x. x) result from.old from.new (group_at room from.old.left) }
    ensures few { IfOk result (λ g. shown_of g ≤ room) }
{
    match read_kind(from, &[0, 1])? {
        0 => Ok(TornGroup::Hidden {
            root: Spelt::read_part(alloc, from)?,
        }),
        _ => {
            let limit = if room < 64 { room } else { 64 };
            Ok(TornGroup::Shown {
                parts: read_list(alloc, from, limit)?,
            })
        }
    }
}

impl TornGroup {
    /// How many parts it shows.
    fn shown(&self) -> usize
        ensures { result ≡ shown_of self.now }
    {
        match self {
            TornGroup::Hidden { .. } => 0,
            TornGroup::Shown { parts } => parts.len(),
        }
    }
}

impl Spelt for TornGroup {
    ghost spelling = { torn_group };

    ghost within = { λ g. IsGroupWithin 96 g };

    ghost reading = { group_at 96 };

    ghost laws = { group_laws 96 };

    fn read_part(alloc: Global, from: &mut Reader) -> Result<TornGroup, PartFault> {
        read_group(alloc, from, 96)
    }

    fn write_part(&self, alloc: Global, out: &mut Writer) -> Result<(), AllocError> {
        match self {
            TornGroup::Hidden { root } => {
                out.put_u8(alloc, 0)?;
                root.write_part(alloc, out)?;
            }
            TornGroup::Shown { parts } => {
                out.put_u8(alloc, 1)?;
                write_list(alloc, parts, out)?;
            }
        }
        Ok(())
    }
}

fn read_group_items(
    alloc: Global,
    from: &mut Reader,
    count: u8,
) -> Result<Vec<TornGroup>, PartFault>
    ensures { Gives (λ x. x.items) result from.old from.new
        (run_at group_step group_next count 96 from.old.left) }
{
    let mut items = Vec::with_capacity(alloc, count as usize)?;
    let mut room = 96;
    for _ in 0..count {
        let group = read_group(alloc, from, room)?;
        room -= group.shown() as u8;
        items.push(group)?;
    }
    Ok(items)
}

#[tactic(auto, unfolding(crate::specs::Torn::torn_tx_at, crate::specs::Torn::groups_at))]
impl Spelt for TornTx {
    ghost spelling = { torn_tx };

    ghost within = { IsTornTx };

    ghost reading = { torn_tx_at };

    ghost laws = { torn_tx_laws };

    fn read_part(alloc: Global, from: &mut Reader) -> Result<TornTx, PartFault> {
        let id = Spelt::read_part(alloc, from)?;
        let count = read_below(from, 10)?;
        let groups = ListOf::from_vec(read_group_items(alloc, from, count)?);
        Ok(TornTx { id, groups })
    }

    fn write_part(&self, alloc: Global, out: &mut Writer) -> Result<(), AllocError> {
        self.id.write_part(alloc, out)?;
        write_list(alloc, &self.groups, out)?;
        Ok(())
    }
}

impl TryCopy for TornPart {
    fn try_copy(&self, alloc: Global) -> Result<TornPart, AllocError> {
        Ok(TornPart {
            nonce: self.nonce,
            bytes: self.bytes.copy(alloc)?,
        })
    }
}

impl TryCopy for TornGroup {
    fn try_copy(&self, alloc: Global) -> Result<TornGroup, AllocError> {
        match self {
            TornGroup::Hidden { root } => Ok(TornGroup::Hidden { root: *root }),
            TornGroup::Shown { parts } => Ok(TornGroup::Shown {
                parts: parts.copy_each(alloc)?,
            }),
        }
    }
}

impl TornTx {
    /// Writes the spelling at the end of `out`, which want of memory leaves as it was.
    pub fn encode(&self, alloc: Global, out: &mut Writer) -> Result<(), AllocError>
        requires { IsTornTx self.now }
        ensures { Puts (torn_tx self.now) result out.old out.new }
    {
        encode(alloc, self, out)
    }

    /// The value whose spelling begins at the reader's place, which then stands behind it.
    ///
    /// # Errors
    ///
    /// `Malformed` with the reader's place exactly where no spelling begins there, and `Memory`. The reader
    /// then stays where it was.
    pub fn decode(alloc: Global, from: &mut Reader) -> Result<TornTx, DecodeFault>
        ensures { Decodes IsTornTx torn_tx result from.old from.new }
    {
        decode(alloc, from)
    }

    /// An equal value.
    pub fn copy(&self, alloc: Global) -> Result<TornTx, AllocError>
        ensures { IfOk result (λ v. v ≡ self.now) }
    {
        Ok(TornTx {
            id: self.id,
            groups: self.groups.copy_each(alloc)?,
        })
    }
}

impl TryCopy for TornTx {
    fn try_copy(&self, alloc: Global) -> Result<TornTx, AllocError> {
        self.copy(alloc)
    }
}
