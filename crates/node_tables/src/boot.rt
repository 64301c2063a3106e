//! A node's tables, from the records of its journal.

ghost use Rattle.std.specs.Prelude.{◌≡◌, ◌≤◌, ◌<◌, ◌++◌, ◌∷◌, [], length, OnOk, Some, true};
ghost use Rattle.flow_records.specs.Records.{record_of};
ghost use Rattle.flow_records.specs.Steps.{step_record, IsStep};
ghost use Rattle.node_tables.specs.Journals.{state_of};
ghost use Rattle.node_tables.specs.Fits.{fits};
ghost use Rattle.node_tables.specs.Seen.{padded, RebuildsAs, TakesAs};

use crate::table::{NodeTables, let_go};
use flow_records::Step;
use net_base::{ByteList, Party, RecordList, Spelt};
use std::alloc::{AllocError, Global};
use thiserror::Error;

/// Why the tables were not rebuilt.
#[derive(Clone, Copy, Debug, PartialEq, Eq, Error)]
pub enum RebuildFault {
    /// The body whose gate is at this place is no record that fits.
    #[error("the record at {at} is damaged")]
    Damaged { at: u64 },
    /// Out of memory.
    #[error("out of memory")]
    Memory,
}

/// Takes a record that fits. Want of memory leaves the tables as they were.
fn take_step<F: Spelt + Drop>(
    tables: &mut NodeTables<F>,
    alloc: Global,
    body: ByteList,
    step: Step<F>,
) -> Result<(), AllocError>
    requires few { length tables.old.bodies < 65536 }
    requires reads { record_of F.reading body ≡ Some (step_record step) }
    requires fits { fits tables.old.notary tables.old.nodes tables.old.party
        (state_of F.reading tables.old.bodies) (step_record step) ≡ true }
    requires limits { IsStep F.within step }
    ensures party { tables.new.party ≡ tables.old.party }
    ensures nodes { tables.new.nodes ≡ tables.old.nodes }
    ensures notary { tables.new.notary ≡ tables.old.notary }
    ensures ok { OnOk result (tables.new.bodies ≡ tables.old.bodies ++ body ∷ []) }
    ensures acked { OnOk result (tables.new.acked
        ≡ padded tables.old.acked (state_of F.reading tables.new.bodies).sessions) }
{
    match tables.make_room(alloc, &step.session, &step.ledger) {
        Ok(()) => {
            tables.add(body, step);
            Ok(())
        }
        Err(error) => {
            let_go(step);
            Err(error)
        }
    }
}

/// Takes the record whose body this is, where it fits; its gate is at the place.
fn take<F: Spelt + Drop>(
    tables: &mut NodeTables<F>,
    alloc: Global,
    at: u64,
    body: ByteList,
) -> Result<(), RebuildFault>
    requires { length tables.old.bodies < 65536 }
    ensures party { tables.new.party ≡ tables.old.party }
    ensures nodes { tables.new.nodes ≡ tables.old.nodes }
    ensures notary { tables.new.notary ≡ tables.old.notary }
    ensures takes { TakesAs F.reading tables.old.notary tables.old.nodes tables.old.party
        tables.old.bodies at body result tables.new.bodies }
    ensures acked { OnOk result (tables.new.acked
        ≡ padded tables.old.acked (state_of F.reading tables.new.bodies).sessions) }
{
    match tables.read(alloc, body.as_slice()) {
        Ok(Some(step)) => match take_step(tables, alloc, body, step) {
            Ok(()) => Ok(()),
            Err(_) => Err(RebuildFault::Memory),
        },
        Ok(None) => Err(RebuildFault::Damaged { at }),
        Err(_) => Err(RebuildFault::Memory),
    }
}

/// The tables of a node of the party, in a network of this number of nodes, 16 at most, that these records make. No item that the node sent
/// is acknowledged there. Nothing is asked of frames but how they are spelt, so no flow is resumed.
///
/// # Errors
///
/// `Damaged` with the place of the first body that is no record of this flow set or doesn't fit, and `Memory`.
pub fn rebuild<F: Spelt + Drop>(
    alloc: Global,
    party: Party,
    nodes: u8,
    notary: Party,
    list: RecordList,
) -> Result<NodeTables<F>, RebuildFault>
    requires party { party.0 < 16 }
    requires nodes { nodes ≤ 16 }
    requires few { length list ≤ 65536 }
    ensures { RebuildsAs F.reading notary nodes party list result }
{
    let mut tables = NodeTables::new(alloc, party, nodes, notary);
    for (at, body) in list.into_vec() {
        if let Err(why) = take(&mut tables, alloc, at, body) {
            let_go(tables);
            return Err(why);
        }
    }
    Ok(tables)
}
