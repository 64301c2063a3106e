//! What the transactions that flows make are made of.

ghost use Rattle.std.specs.Prelude.{◌≡◌, IfOk};
ghost use Rattle.flow_txs.specs.Making.{salt_of, alone, both, plain, made};

use component_merkle::digest;
use flow_machine::Place;
use ledger_types::{Command, Deed, HashList, RefList, StateData, StateList, Tx, TxState};
use net_base::{Block, Hash32, ListOf, Party, PartySet};
use std::alloc::{AllocError, Global};

/// The salt of the transaction that the flow makes at this step: the digest of `salt`, the node, the flow's number and the step.
pub fn salt_of(here: &Place) -> Hash32
    ensures { result ≡ salt_of here.entry.now }
{
    let mut text = Block::new();
    text.put_bytes(b"salt");
    text.put_u8(here.me.0);
    text.put_u32(here.flow);
    text.put_u32(here.step);
    Hash32(digest(text.bytes()))
}

/// The set of one party; of a number above 15 the empty one.
pub fn alone(party: Party) -> PartySet
    ensures { result ≡ alone party }
{
    PartySet(2u16.wrapping_pow(party.0 as u32))
}

/// The set of two parties.
pub fn both(one: Party, other: Party) -> PartySet
    ensures { result ≡ both one other }
{
    PartySet(alone(one).0 | alone(other).0)
}

/// A state under the network's notary, without an encumbrance.
pub fn plain(here: &Place, body: StateData) -> TxState
    ensures { result ≡ plain here.entry.now body }
{
    TxState {
        body,
        notary: here.notary,
        encumbrance: None,
    }
}

/// The transaction that the flow makes at this step of inputs, outputs and one command, under the network's notary.
///
/// # Errors
///
/// `AllocError` for want of memory.
pub fn made(
    alloc: Global,
    inputs: RefList,
    outputs: StateList,
    deed: Deed,
    signers: PartySet,
    here: &Place,
) -> Result<Tx, AllocError>
    ensures { IfOk result (λ t. t ≡ made inputs outputs deed signers here.entry.now) }
{
    Ok(Tx {
        salt: salt_of(here),
        inputs,
        outputs,
        commands: ListOf::from_slice(alloc, &[Command { deed, signers }])?,
        attachments: HashList::new(alloc),
        notary: Some(here.notary),
        window: None,
        references: RefList::new(alloc),
    })
}
