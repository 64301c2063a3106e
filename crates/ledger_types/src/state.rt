//! The states of the ledger.

ghost use Rattle.std.specs.Prelude.{◌≡◌, ◌<◌};
ghost use Rattle.ledger_types.specs.Verdicts.{contract_of};
ghost use Rattle.ledger_types.specs.States.{IsStateData, state_data, state_data_at, state_data_laws, IsTxState, tx_state, tx_state_at, tx_state_laws};

use net_base::{
    Block, Component, Moment, PartFault, Party, Reader, Spelt, Token, Writer, read_kind,
    write_component,
};
use std::alloc::{AllocError, Global};

/// What a state says.
#[derive(Clone, Copy, Debug, PartialEq, Eq)]
pub enum StateData {
    Cash {
        token: Token,
        amount: u64,
        owner: Party,
    },
    TimeLock {
        owner: Party,
        until: Moment,
    },
    Fact {
        issuer: Party,
        name: u64,
        value: u64,
    },
    Iou {
        lender: Party,
        borrower: Party,
        token: Token,
        amount: u64,
    },
}

/// A state under its notary.
#[derive(Clone, Copy, Debug, PartialEq, Eq)]
pub struct TxState {
    pub body: StateData,
    pub notary: Party,
    /// The output that encumbers this one.
    pub encumbrance: Option<u8>,
}

impl StateData {
    /// The number of the contract that governs the state, 1 to 4.
    pub fn contract(&self) -> u8
        ensures { result ≡ contract_of self.now }
    {
        match self {
            StateData::Cash { .. } => 1,
            StateData::TimeLock { .. } => 2,
            StateData::Fact { .. } => 3,
            StateData::Iou { .. } => 4,
        }
    }
}

#[tactic(auto, unfolding(crate::specs::States::state_data_at))]
impl Spelt for StateData {
    ghost spelling = { state_data };

    ghost within = { IsStateData };

    ghost reading = { state_data_at };

    ghost laws = { state_data_laws };

    fn read_part(alloc: Global, from: &mut Reader) -> Result<StateData, PartFault> {
        match read_kind(from, &[1, 2, 3, 4])? {
            1 => Ok(StateData::Cash {
                token: Spelt::read_part(alloc, from)?,
                amount: Spelt::read_part(alloc, from)?,
                owner: Spelt::read_part(alloc, from)?,
            }),
            2 => Ok(StateData::TimeLock {
                owner: Spelt::read_part(alloc, from)?,
                until: Spelt::read_part(alloc, from)?,
            }),
            3 => Ok(StateData::Fact {
                issuer: Spelt::read_part(alloc, from)?,
                name: Spelt::read_part(alloc, from)?,
                value: Spelt::read_part(alloc, from)?,
            }),
            _ => Ok(StateData::Iou {
                lender: Spelt::read_part(alloc, from)?,
                borrower: Spelt::read_part(alloc, from)?,
                token: Spelt::read_part(alloc, from)?,
                amount: Spelt::read_part(alloc, from)?,
            }),
        }
    }

    fn write_part(&self, alloc: Global, out: &mut Writer) -> Result<(), AllocError> {
        write_component(alloc, self, out)
    }
}

#[tactic(auto, unfolding(crate::specs::States::tx_state_at))]
impl Spelt for TxState {
    ghost spelling = { tx_state };

    ghost within = { IsTxState };

    ghost reading = { tx_state_at };

    ghost laws = { tx_state_laws };

    fn read_part(alloc: Global, from: &mut Reader) -> Result<TxState, PartFault> {
        Ok(TxState {
            body: Spelt::read_part(alloc, from)?,
            notary: Spelt::read_part(alloc, from)?,
            encumbrance: Spelt::read_part(alloc, from)?,
        })
    }

    fn write_part(&self, alloc: Global, out: &mut Writer) -> Result<(), AllocError> {
        write_component(alloc, self, out)
    }
}

impl Component for StateData {
    ghost text = { state_data };

    ghost limits = { IsStateData };

    ghost size = { 18 };

    fn put(&self, block: &mut Block) {
        match self {
            StateData::Cash {
                token,
                amount,
                owner,
            } => {
                block.put_u8(1);
                token.put(block);
                amount.put(block);
                owner.put(block);
            }
            StateData::TimeLock { owner, until } => {
                block.put_u8(2);
                owner.put(block);
                until.put(block);
            }
            StateData::Fact {
                issuer,
                name,
                value,
            } => {
                block.put_u8(3);
                issuer.put(block);
                name.put(block);
                value.put(block);
            }
            StateData::Iou {
                lender,
                borrower,
                token,
                amount,
            } => {
                block.put_u8(4);
                lender.put(block);
                borrower.put(block);
                token.put(block);
                amount.put(block);
            }
        }
    }
}

impl Component for TxState {
    ghost text = { tx_state };

    ghost limits = { IsTxState };

    ghost size = { 21 };

    fn put(&self, block: &mut Block) {
        self.body.put(block);
        self.notary.put(block);
        self.encumbrance.put(block);
    }
}
