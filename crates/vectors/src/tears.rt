ghost use Rattle.ledger_types.specs.Txs.{IsTx};

use super::columns::{bytes, let_go};
use anyhow::{Result, bail};
use ledger_types::{TornTx, Tx, Visible, WireTx};
use net_base::{ByteList, Hash32, Reader, Writer};
use std::alloc::Global;
use tx_tear::{TearFault, tear, visible};

/// Whether what a tear-off shows is what the transaction has.
fn shows(seen: &Visible, id: &Hash32, tx: &Tx) -> bool {
    seen.id == *id
        && seen.inputs.as_slice() == tx.inputs.as_slice()
        && seen.references.as_slice() == tx.references.as_slice()
        && seen.notary == tx.notary
        && seen.window == tx.window
}

/// `id BYTES`: the id of the transaction.
pub fn id_of(alloc: Global, values: &[&str]) -> Result<String> {
    let [column] = values else {
        bail!("a transaction has one value")
    };
    let tx = Tx::decode(alloc, &mut Reader::new(bytes(alloc, column)?.as_slice()))?;
    let id = tx.id();
    let_go(tx);
    Ok(hex::encode(alloc, id.0)?)
}

/// Whether a copy of the transaction equals it.
fn is_copied(alloc: Global, tx: &Tx) -> Result<bool> {
    let copy = tx.copy(alloc)?;
    let same = copy == *tx;
    let_go(copy);
    Ok(same)
}

/// The bytes of the transaction's tear-off.
fn torn_bytes(alloc: Global, tx: &WireTx) -> Result<ByteList>
    requires { IsTx tx.now }
{
    let torn = tear(alloc, tx)?;
    let mut out = Writer::new(alloc);
    let written = torn.encode(alloc, &mut out);
    let_go(torn);
    written?;
    Ok(out.into_bytes())
}

/// What the tear-off of these bytes shows.
fn read_shown(alloc: Global, bytes: &[u8]) -> Result<Visible> {
    let torn = TornTx::decode(alloc, &mut Reader::new(bytes))?;
    let seen = visible(alloc, &torn);
    let_go(torn);
    Ok(seen?)
}

/// The id of a transaction and its tear-off, whose bytes are read again before it is looked at.
fn torn_text(alloc: Global, tx: &WireTx) -> Result<String>
    requires { IsTx tx.now }
{
    if !is_copied(alloc, tx)? {
        return Ok(String::from_str(alloc, "another copy")?);
    }
    let id = tx.id();
    let torn = torn_bytes(alloc, tx)?;
    if !shows(&read_shown(alloc, torn.as_slice())?, &id, tx) {
        return Ok(String::from_str(alloc, "another transaction")?);
    }
    let (id, torn) = (
        hex::encode(alloc, id.0)?,
        hex::encode(alloc, torn.as_slice())?,
    );
    Ok(format!(in alloc; "{id} {torn}")?)
}

/// `transaction BYTES`: its id, and its tear-off, whose bytes are read again before it is looked at.
pub fn transaction_of(alloc: Global, values: &[&str]) -> Result<String> {
    let [column] = values else {
        bail!("a transaction has one value")
    };
    let tx = Tx::decode(alloc, &mut Reader::new(bytes(alloc, column)?.as_slice()))?;
    let tx = WireTx::new(tx);
    let text = torn_text(alloc, &tx);
    let_go(tx.into_inner());
    text
}

/// `tear-off BYTES`: whether it shows anything, `good` or `bad`.
pub fn tear_off_of(alloc: Global, values: &[&str]) -> Result<String> {
    let [column] = values else {
        bail!("a tear-off has one value")
    };
    let torn = TornTx::decode(alloc, &mut Reader::new(bytes(alloc, column)?.as_slice()))?;
    let seen = visible(alloc, &torn);
    let_go(torn);
    match seen {
        Ok(_) => Ok(String::from_str(alloc, "good")?),
        Err(TearFault::BadTear) => Ok(String::from_str(alloc, "bad")?),
        Err(TearFault::Memory) => bail!("out of memory"),
    }
}
