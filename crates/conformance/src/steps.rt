//! A row of steps that one call makes.

use anyhow::Result;
use contract_verify::ContractBook;
use disk_mem::MemDisk;
use net_base::Party;
use network_core::{Net, Outcome, Refusal, Step};
use shipped_flows::ShippedFlow;
use std::alloc::Global;

/// Whether a network of one node over an empty disk drains, and then refuses to boot the node, which is up: the outcomes in the order of
/// the steps.
pub fn are_answered_in_order(alloc: Global, contracts: &ContractBook) -> Result<bool> {
    let mut disks = Vec::with_capacity(alloc, 1)?;
    disks.push(MemDisk::new(alloc))?;
    let mut steps = Vec::with_capacity(alloc, 2)?;
    steps.push(Step::Drain)?;
    steps.push(Step::Boot { node: 0 })?;
    let mut outcomes = Vec::with_capacity(alloc, steps.len())?;
    match Net::<MemDisk, ShippedFlow>::begin(alloc, 1, Party(0), disks) {
        Err(_) => Ok(false),
        Ok(mut net) => {
            let all = net.apply_all(alloc, steps.as_slice(), &mut outcomes, contracts);
            let wanted = [
                Outcome::Drained { full: false },
                Outcome::Refused {
                    why: Refusal::NodeUp,
                },
            ];
            Ok(all && outcomes.as_slice() == wanted.as_slice())
        }
    }
}
