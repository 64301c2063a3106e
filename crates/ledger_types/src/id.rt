//! The id of a transaction.

ghost use Rattle.std.specs.Prelude.{◌≡◌, ◌≤◌, length, map};
ghost use Rattle.std.specs.List.{AllByRecursion};
ghost use Rattle.component_merkle.specs.Merkle.{nonce_of, leaf_of};
ghost use Rattle.ledger_types.specs.Ids.{value_of, id_of, groups, present};
ghost use Rattle.ledger_types.specs.Txs.{IsTx};

use crate::parts::{ItsDeed, ItsSigners, Part, Whole};
use crate::state::TxState;
use crate::tx::{Command, Tx, Window};
use component_merkle::{group, leaf, nonce, root};
use net_base::{Block, Hash32, Party, StateRef};

fn leaf_at<T, P: Part<T>>(salt: &[u8; 32], ordinal: u32, place: u32, item: &T) -> [u8; 32]
    requires size { P.size ≤ 64 }
    requires limits { P.limits item.now }
    ensures { result ≡ leaf_of (nonce_of salt.now ordinal place) (P.text item.now) }
{
    let mut block = Block::new();
    P::put(item, &mut block);
    leaf(&nonce(salt, ordinal, place), block.bytes())
}

/// The value of a group.
#[tactic(auto, unfolding(crate::specs::Ids::value_of))]
fn group_value<T, P: Part<T>>(salt: &[u8; 32], ordinal: u32, items: &[T]) -> [u8; 32]
    requires few { length items.now ≤ 64 }
    requires size { P.size ≤ 64 }
    requires limits { AllByRecursion P.limits items.now }
    ensures { result ≡ value_of salt.now ordinal (map P.text items.now) }
{
    let mut leaves = [[0; 32]; 64];
    let count = items.len();
    for i in 0..count {
        leaves[i] = leaf_at::<T, P>(salt, ordinal, i as u32, &items[i]);
    }
    group(&mut leaves[..count])
}

impl Tx {
    /// How many component groups its id is made of, 0 to 8: those up to the last that has a component.
    pub fn group_count(&self) -> usize
        ensures { result ≡ length (present (groups self.now)) }
    {
        if self.references.len() > 0 {
            8
        } else if self.commands.len() > 0 {
            7
        } else if self.window.is_some() {
            6
        } else if self.notary.is_some() {
            5
        } else if self.attachments.len() > 0 {
            4
        } else if self.outputs.len() > 0 {
            2
        } else if self.inputs.len() > 0 {
            1
        } else {
            0
        }
    }

    /// The root over the values of the component groups. It takes no memory.
    #[tactic(auto, unfolding(crate::specs::Ids::id_of))]
    pub fn id(&self) -> Hash32
        requires { IsTx self.now }
        ensures { result.0 ≡ id_of self.now }
    {
        let salt = &self.salt.0;
        let mut values = [
            group_value::<StateRef, Whole>(salt, 0, self.inputs.as_slice()),
            group_value::<TxState, Whole>(salt, 1, self.outputs.as_slice()),
            group_value::<Command, ItsDeed>(salt, 2, self.commands.as_slice()),
            group_value::<Hash32, Whole>(salt, 3, self.attachments.as_slice()),
            group_value::<Party, Whole>(salt, 4, self.notary.as_slice()),
            group_value::<Window, Whole>(salt, 5, self.window.as_slice()),
            group_value::<Command, ItsSigners>(salt, 6, self.commands.as_slice()),
            group_value::<StateRef, Whole>(salt, 7, self.references.as_slice()),
        ];
        let count = self.group_count();
        Hash32(root(&mut values[..count]))
    }
}
