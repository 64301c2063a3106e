//! The ledger of records that were spelt apart from this code. What holds a flow is let go without its destructor: a proof of a test
//! would go through each kind of value that may stand in it.

use ledger_tables::LedgerTables;
use net_base::{ByteList, ListOf, Party};
use node_ledger::change_fits_as_ruled;
use node_tables::{fits_as_ruled, rebuild};
use shipped_flows::ShippedFlow;
use std::alloc::{AllocError, Global};
use std::mem;
use std::test::Fail;

/// Flow 0 begins. A transaction is recorded: Cash of 100 for node 0, of 50 for node 1 and of 30 for node 0. An answer to node 1 is
/// booked.
const BEGUN: &str =
    "0000000000000001000000000000000001000000000001000400000001010000000000000000000105000000000000000001000a0101000000010000000100000000010000000000000000000000000000000000000000000000000000000000000001000301005553440000000000000064000000010055534400000000000000320100000100555344000000000000001e00000000000100000000000101000000004232efe1bb001b351f5b0837c9997926f2befc5c9731953cd539a3ffa160956f0100ad936fcbed631fa67e05c3ea03953905221c9d46af0616b70badf105a966fb11014232efe1bb001b351f5b0837c9997926f2befc5c9731953cd539a3ffa160956f0707070707070707070707070707070707070707070707070707070707070707002a";
/// It goes on. A second transaction consumes the first state, and makes Cash of 60 for node 1 and of 40 for node 0; that of 40 is
/// locked.
const WENT_ON: &str =
    "00000000000000020000000000000000050000000001000000000000000100010e01000000000000000101000a0102000000000000000100000000010000000000000000000000000000000000000000000000000000000000000002014232efe1bb001b351f5b0837c9997926f2befc5c9731953cd539a3ffa160956f00000000020100555344000000000000003c01000001005553440000000000000028000000000001000000000177235952df6fc7c9bcf1136dc336f583acd0a305bdfbbaa7846159de10334c040000000100";

/// The record of a text, with its place.
fn record(alloc: Global, at: u64, text: &str) -> Result<(u64, ByteList), Fail> {
    Ok((at, ListOf::from_vec(hex::decode(alloc, text)?)))
}

/// The place and the soft lock of each state of the vault.
fn states(alloc: Global, ledger: &LedgerTables) -> Result<Vec<(u32, Option<u32>)>, AllocError> {
    let mut found = Vec::new(alloc);
    let held = ledger.vault().unconsumed(alloc)?;
    for state in held.as_slice() {
        found.push((state.reference.index, state.locked))?;
    }
    Ok(found)
}

#[test]
fn the_ledger_is_that_of_the_records(rt: HostRuntime) -> Result<(), Fail> {
    fits_as_ruled::<ShippedFlow>();
    change_fits_as_ruled::<ShippedFlow>();
    let first = record(rt.alloc(), 16, BEGUN)?;
    let second = record(rt.alloc(), 317, WENT_ON)?;
    let list = ListOf::from_vec(vec![in rt.alloc(); first, second]?);
    let Ok(tables) = rebuild::<ShippedFlow>(rt.alloc(), Party(0), 2, Party(0), list) else {
        assert!(rt; false);
        return Ok(());
    };
    tables.law_kept();
    let ledger = tables.ledger();
    let counts = (ledger.store().count(), ledger.book().entries().len());
    let states = states(rt.alloc(), ledger);
    mem::forget(tables);
    assert_eq!(rt; counts, (2, 1));
    assert_eq!(rt; states?.as_slice(), [(2, None), (1, Some(0))].as_slice());
    Ok(())
}
