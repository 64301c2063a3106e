//! A transaction with its id beside it.

ghost use Rattle.std.specs.Prelude.{◌≡◌, IfOk};
ghost use Rattle.ledger_types.specs.Ids.{id_of};
ghost use Rattle.ledger_types.specs.Txs.{IsTx, tx, tx_at, tx_laws};

use crate::tx::{SignedTx, Tx};
use net_base::{Boxed, Hash32, PartFault, Reader, Spelt, TryCopy, Writer};
use std::alloc::{AllocError, Global};
use std::marker::Model;
use std::ops::Deref;

/// A transaction with its id beside it, once that was computed (Corda 4 documentation, `WireTransaction`). Contracts see it as the
/// transaction, and it is spelt as the transaction. One that was just read has none: who goes on to ask for it computes it first
/// ([`WireTx::with_id`]).
#[derive(Debug, Drop)]
pub struct WireTx {
    tx: Tx,
    id: Option<Hash32>,
}

impl Model for WireTx {
    ghost use Rattle.std.specs.Prelude.{◌≡◌, IfSome};
    ghost use Rattle.ledger_types.specs.declared.tx.Tx.{Tx};

    ghost Value = { Tx };

    ghost use Rattle.ledger_types.specs.Ids.{id_of};

    ghost view = { λ w. w.tx };

    ghost invariant = { λ w. IfSome w.id (λ id. id.0 ≡ id_of w.tx) };
}

impl WireTx {
    /// The transaction, whose id was not computed yet.
    pub fn new(tx: Tx) -> WireTx
        ensures { result ≡ tx }
    {
        WireTx { tx, id: None }
    }

    /// The transaction with its id, which is computed here if it was not before, and no more from then on. It takes no memory.
    pub fn with_id(self) -> WireTx
        requires { IsTx self }
        ensures { result ≡ self }
    {
        let id = self.id();
        WireTx {
            tx: self.tx,
            id: Some(id),
        }
    }

    /// The transaction.
    pub fn get(&self) -> &Tx
        ensures { result.now ≡ self.now }
    {
        &self.tx
    }

    /// The id, computed anew where it was not before. It takes no memory.
    pub fn id(&self) -> Hash32
        requires { IsTx self.now }
        ensures { result.0 ≡ id_of self.now }
    {
        match self.id {
            Some(id) => id,
            None => self.tx.id(),
        }
    }

    /// The transaction, without its id.
    pub fn into_inner(self) -> Tx
        ensures { result ≡ self }
    {
        self.tx
    }

    /// An equal value, with its id where this has it.
    pub fn copy(&self, alloc: Global) -> Result<WireTx, AllocError>
        ensures { IfOk result (λ v. v ≡ self.now) }
    {
        Ok(WireTx {
            tx: self.tx.copy(alloc)?,
            id: self.id,
        })
    }
}

/// The signed transaction with its id beside it, for a holder who asks for the id more than once. The only error is want of memory.
pub fn with_id(alloc: Global, stx: Boxed<SignedTx>) -> Result<Boxed<SignedTx>, AllocError>
    requires { IsTx stx.tx }
    ensures { IfOk result (λ s. s ≡ stx) }
{
    let SignedTx { tx, tags } = stx.into_inner();
    let tx = tx.with_id();
    Boxed::new(alloc, SignedTx { tx, tags })
}

impl Deref for WireTx {
    type Target = Tx;

    ghost deref_gives = { λ w tx. tx ≡ w };

    /// The transaction.
    fn deref(&self) -> &Tx {
        &self.tx
    }
}

impl Spelt for WireTx {
    ghost spelling = { tx };

    ghost within = { IsTx };

    ghost reading = { tx_at };

    ghost laws = { tx_laws };

    fn read_part(alloc: Global, from: &mut Reader) -> Result<WireTx, PartFault> {
        Ok(WireTx::new(Tx::read_part(alloc, from)?))
    }

    fn write_part(&self, alloc: Global, out: &mut Writer) -> Result<(), AllocError> {
        self.tx.write_part(alloc, out)
    }
}

impl TryCopy for WireTx {
    fn try_copy(&self, alloc: Global) -> Result<WireTx, AllocError> {
        self.copy(alloc)
    }
}
