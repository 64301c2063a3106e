//! Transactions.

ghost use Rattle.std.specs.Prelude.{◌≡◌, ◌<◌, ◌≤◌, ◌+◌, length, IfOk};
ghost use Rattle.net_base.specs.Parts.{Decodes};
ghost use Rattle.net_base.specs.Reading.{Puts};
ghost use Rattle.ledger_types.specs.Windows.{has_begun, is_before_end, window_holds};
ghost use Rattle.ledger_types.specs.Txs.{IsDeed, deed, deed_at, deed_laws, IsCommand, command, command_at, command_laws, IsWindow, window, window_at, window_laws, IsTx, tx, tx_at, tx_laws, IsSignedTx, signed_tx, signed_tx_at, signed_tx_laws};

use crate::state::TxState;
use crate::wire::WireTx;
use net_base::{
    Block, Component, DecodeFault, Hash32, ListOf, Moment, PartFault, Party, PartySet, Reader,
    Spelt, StateRef, Tag, Token, TryCopy, Unlimited, Writer, decode, encode, read_ascending,
    read_kind, read_list, write_component, write_list,
};
use std::alloc::{AllocError, Global};

/// References to states.
pub type RefList = ListOf<StateRef>;

/// States.
pub type StateList = ListOf<TxState>;

/// The commands of a transaction.
pub type CommandList = ListOf<Command>;

/// Hashes, of attachments or of transactions.
pub type HashList = ListOf<Hash32>;

/// Ids of transactions.
pub type IdList = HashList;

/// Tags, strictly ascending by party where they stand under a transaction.
pub type TagList = ListOf<Tag>;

/// What a command does to the states that a transaction consumes and makes.
#[derive(Clone, Copy, Debug, PartialEq, Eq)]
pub enum Deed {
    CashIssue { token: Token, amount: u64 },
    CashMove,
    CashExit { token: Token, amount: u64 },
    LockMake,
    LockOpen,
    FactIssue,
    FactChange,
    IouMake,
    IouSettle,
}

/// A deed and the parties that must sign it.
#[derive(Clone, Copy, Debug, PartialEq, Eq)]
pub struct Command {
    pub deed: Deed,
    pub signers: PartySet,
}

/// A time window: from its start on, and before its end (Corda 4 documentation, "Time-windows").
#[derive(Clone, Copy, Debug, PartialEq, Eq)]
pub struct Window {
    /// The first moment inside; `None` for no start.
    pub from: Option<Moment>,
    /// The first moment past the end; `None` for no end.
    pub until: Option<Moment>,
}

impl Window {
    /// Whether the moment is in the window: `from <= now < until`, an absent end asking nothing.
    pub fn holds(&self, now: Moment) -> bool
        ensures { result ≡ window_holds self.now now }
    {
        has_begun(&self.from, now) && is_before_end(&self.until, now)
    }
}

fn has_begun(from: &Option<Moment>, now: Moment) -> bool
    ensures { result ≡ has_begun from.now now }
{
    match from {
        None => true,
        Some(from) => from.0 <= now.0,
    }
}

fn is_before_end(until: &Option<Moment>, now: Moment) -> bool
    ensures { result ≡ is_before_end until.now now }
{
    match until {
        None => true,
        Some(until) => now.0 < until.0,
    }
}

/// A transaction (Corda 4 documentation, "Transactions").
#[derive(Debug, Drop)]
pub struct Tx {
    /// What the nonces of the components are made of.
    pub salt: Hash32,
    /// The states that it consumes, at most 64.
    pub inputs: RefList,
    /// The states that it makes, at most 64.
    pub outputs: StateList,
    /// At most 16.
    pub commands: CommandList,
    /// The hashes of attachments, at most 8.
    pub attachments: HashList,
    pub notary: Option<Party>,
    pub window: Option<Window>,
    /// The states that it refers to and leaves, at most 16.
    pub references: RefList,
}

/// A transaction with tags, at most 16, strictly ascending by party. That they are over its id is not asked of a spelling.
#[derive(Debug, Drop)]
pub struct SignedTx {
    pub tx: WireTx,
    pub tags: TagList,
}

/// The states that a transaction's inputs and references name, each list in the transaction's order.
#[derive(Debug, Drop)]
pub struct Resolved {
    pub inputs: StateList,
    pub references: StateList,
}

#[tactic(auto, unfolding(crate::specs::Txs::deed_at))]
impl Spelt for Deed {
    ghost spelling = { deed };

    ghost within = { IsDeed };

    ghost reading = { deed_at };

    ghost laws = { deed_laws };

    fn read_part(alloc: Global, from: &mut Reader) -> Result<Deed, PartFault> {
        match read_kind(from, &[1, 2, 3, 4, 5, 6, 7, 8, 9])? {
            1 => Ok(Deed::CashIssue {
                token: Spelt::read_part(alloc, from)?,
                amount: Spelt::read_part(alloc, from)?,
            }),
            2 => Ok(Deed::CashMove),
            3 => Ok(Deed::CashExit {
                token: Spelt::read_part(alloc, from)?,
                amount: Spelt::read_part(alloc, from)?,
            }),
            4 => Ok(Deed::LockMake),
            5 => Ok(Deed::LockOpen),
            6 => Ok(Deed::FactIssue),
            7 => Ok(Deed::FactChange),
            8 => Ok(Deed::IouMake),
            _ => Ok(Deed::IouSettle),
        }
    }

    fn write_part(&self, alloc: Global, out: &mut Writer) -> Result<(), AllocError> {
        write_component(alloc, self, out)
    }
}

impl Component for Deed {
    ghost text = { deed };

    ghost limits = { IsDeed };

    ghost size = { 13 };

    fn put(&self, block: &mut Block) {
        match self {
            Deed::CashIssue { token, amount } => {
                block.put_u8(1);
                token.put(block);
                amount.put(block);
            }
            Deed::CashMove => block.put_u8(2),
            Deed::CashExit { token, amount } => {
                block.put_u8(3);
                token.put(block);
                amount.put(block);
            }
            Deed::LockMake => block.put_u8(4),
            Deed::LockOpen => block.put_u8(5),
            Deed::FactIssue => block.put_u8(6),
            Deed::FactChange => block.put_u8(7),
            Deed::IouMake => block.put_u8(8),
            Deed::IouSettle => block.put_u8(9),
        }
    }
}

#[tactic(auto, unfolding(crate::specs::Txs::command_at))]
impl Spelt for Command {
    ghost spelling = { command };

    ghost within = { IsCommand };

    ghost reading = { command_at };

    ghost laws = { command_laws };

    fn read_part(alloc: Global, from: &mut Reader) -> Result<Command, PartFault> {
        Ok(Command {
            deed: Spelt::read_part(alloc, from)?,
            signers: Spelt::read_part(alloc, from)?,
        })
    }

    fn write_part(&self, alloc: Global, out: &mut Writer) -> Result<(), AllocError> {
        self.deed.write_part(alloc, out)?;
        self.signers.write_part(alloc, out)?;
        Ok(())
    }
}

#[tactic(auto, unfolding(crate::specs::Txs::window_at))]
impl Spelt for Window {
    ghost spelling = { window };

    ghost within = { IsWindow };

    ghost reading = { window_at };

    ghost laws = { window_laws };

    fn read_part(alloc: Global, from: &mut Reader) -> Result<Window, PartFault> {
        Ok(Window {
            from: Spelt::read_part(alloc, from)?,
            until: Spelt::read_part(alloc, from)?,
        })
    }

    fn write_part(&self, alloc: Global, out: &mut Writer) -> Result<(), AllocError> {
        write_component(alloc, self, out)
    }
}

impl Unlimited for Window {
    fn law_known(&self) {
        self.from.law_known();
        self.until.law_known();
    }
}

impl Component for Window {
    ghost text = { window };

    ghost limits = { IsWindow };

    ghost size = { 18 };

    fn put(&self, block: &mut Block) {
        self.from.put(block);
        self.until.put(block);
    }
}

#[tactic(auto, unfolding(crate::specs::Txs::tx_at))]
impl Spelt for Tx {
    ghost spelling = { tx };

    ghost within = { IsTx };

    ghost reading = { tx_at };

    ghost laws = { tx_laws };

    fn read_part(alloc: Global, from: &mut Reader) -> Result<Tx, PartFault> {
        Ok(Tx {
            salt: Spelt::read_part(alloc, from)?,
            inputs: read_list(alloc, from, 64)?,
            outputs: read_list(alloc, from, 64)?,
            commands: read_list(alloc, from, 16)?,
            attachments: read_list(alloc, from, 8)?,
            notary: Spelt::read_part(alloc, from)?,
            window: Spelt::read_part(alloc, from)?,
            references: read_list(alloc, from, 16)?,
        })
    }

    fn write_part(&self, alloc: Global, out: &mut Writer) -> Result<(), AllocError> {
        self.salt.write_part(alloc, out)?;
        write_list(alloc, &self.inputs, out)?;
        write_list(alloc, &self.outputs, out)?;
        write_list(alloc, &self.commands, out)?;
        write_list(alloc, &self.attachments, out)?;
        self.notary.write_part(alloc, out)?;
        self.window.write_part(alloc, out)?;
        write_list(alloc, &self.references, out)?;
        Ok(())
    }
}

impl Tx {
    /// Writes the spelling, at most 5,018 bytes, at the end of `out`, which want of memory leaves as it was.
    pub fn encode(&self, alloc: Global, out: &mut Writer) -> Result<(), AllocError>
        requires { IsTx self.now }
        ensures text { Puts (tx self.now) result out.old out.new }
        ensures short { length out.new ≤ length out.old + 5018 }
    {
        encode(alloc, self, out)
    }

    /// The value whose spelling begins at the reader's place, which then stands behind it.
    ///
    /// # Errors
    ///
    /// `Malformed` with the reader's place exactly where no spelling begins there, and `Memory`. The reader
    /// then stays where it was.
    pub fn decode(alloc: Global, from: &mut Reader) -> Result<Tx, DecodeFault>
        ensures { Decodes IsTx tx result from.old from.new }
    {
        decode(alloc, from)
    }

    /// An equal value.
    pub fn copy(&self, alloc: Global) -> Result<Tx, AllocError>
        ensures { IfOk result (λ v. v ≡ self.now) }
    {
        Ok(Tx {
            salt: self.salt,
            inputs: self.inputs.copy(alloc)?,
            outputs: self.outputs.copy(alloc)?,
            commands: self.commands.copy(alloc)?,
            attachments: self.attachments.copy(alloc)?,
            notary: self.notary,
            window: self.window,
            references: self.references.copy(alloc)?,
        })
    }
}

#[tactic(auto, unfolding(crate::specs::Txs::signed_tx_at))]
impl Spelt for SignedTx {
    ghost spelling = { signed_tx };

    ghost within = { IsSignedTx };

    ghost reading = { signed_tx_at };

    ghost laws = { signed_tx_laws };

    fn read_part(alloc: Global, from: &mut Reader) -> Result<SignedTx, PartFault> {
        Ok(SignedTx {
            tx: Spelt::read_part(alloc, from)?,
            tags: read_ascending(alloc, from)?,
        })
    }

    fn write_part(&self, alloc: Global, out: &mut Writer) -> Result<(), AllocError> {
        self.tx.write_part(alloc, out)?;
        write_list(alloc, &self.tags, out)?;
        Ok(())
    }
}

impl SignedTx {
    /// Writes the spelling, at most 6,059 bytes, at the end of `out`, which want of memory leaves as it was.
    pub fn encode(&self, alloc: Global, out: &mut Writer) -> Result<(), AllocError>
        requires { IsSignedTx self.now }
        ensures text { Puts (signed_tx self.now) result out.old out.new }
        ensures short { length out.new ≤ length out.old + 6059 }
    {
        encode(alloc, self, out)
    }

    /// The value whose spelling begins at the reader's place, which then stands behind it.
    ///
    /// # Errors
    ///
    /// `Malformed` with the reader's place exactly where no spelling begins there, and `Memory`. The reader
    /// then stays where it was.
    pub fn decode(alloc: Global, from: &mut Reader) -> Result<SignedTx, DecodeFault>
        ensures { Decodes IsSignedTx signed_tx result from.old from.new }
    {
        decode(alloc, from)
    }

    /// An equal value.
    pub fn copy(&self, alloc: Global) -> Result<SignedTx, AllocError>
        ensures { IfOk result (λ v. v ≡ self.now) }
    {
        Ok(SignedTx {
            tx: self.tx.copy(alloc)?,
            tags: self.tags.copy(alloc)?,
        })
    }
}

impl TryCopy for Tx {
    fn try_copy(&self, alloc: Global) -> Result<Tx, AllocError> {
        self.copy(alloc)
    }
}

impl TryCopy for SignedTx {
    fn try_copy(&self, alloc: Global) -> Result<SignedTx, AllocError> {
        self.copy(alloc)
    }
}
