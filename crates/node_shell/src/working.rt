//! Work side by side on the nodes of a network.

ghost use Rattle.net_model.specs.Environment.{meaning};
ghost use Rattle.std.specs.Prelude.{◌≡◌, IfOk, length, false};
ghost use Rattle.node_shell.specs.Replies.{is_end};
ghost use Rattle.node_shell.specs.Loads.{WorksOrNot};
ghost use Rattle.node_shell.specs.Responds.{given, net_states};
ghost use Rattle.network_core.specs.Parts.{IsNet, net_of};
ghost use Rattle.flow_workers.specs.Ends.{WorkedOn};

use super::loads::are_up;
use super::replies::Reply;
use super::serving::refused;
use contract_verify::Judge;
use flow_machine::FlowSet;
use flow_workers::{Plan, WorkDone, work as work_on};
use net_base::Moment;
use network_core::{Net, NetParts, Refusal};
use outside::{Bay, Gate};
use std::alloc::{AllocError, Global};
use std::mem;
use std::sync::Wait;
use std::thread::Threads;

/// A network without nodes. Takes no memory.
fn nobody<B: Bay, F: FlowSet>(alloc: Global) -> Net<B, F> {
    Net::from_parts(NetParts {
        nodes: Vec::new(alloc),
        waiting: Vec::new(alloc),
        spare: Vec::new(alloc),
        now: Moment(0),
    })
}

/// Lets workers make turns at these nodes side by side, and says whether memory ran out before any turn was made.
fn work_at<
    B: Bay + Send,
    F: FlowSet + Send + Sync,
    J: Judge + Sync,
    R: Threads + Wait + Sync,
    G: Gate + Sync,
>(
    rt: &R,
    alloc: Global,
    net: Net<B, F>,
    plan: Plan,
    contracts: &J,
    gate: &G,
) -> (Net<B, F>, u64, bool)
    ensures { WorkedOn (meaning F.machine F.reading (J.judges contracts.now)) net result.0 result.1
        result.2 }
{
    let NetParts {
        nodes,
        waiting,
        spare,
        now,
    } = net.into_parts();
    let WorkDone {
        nodes,
        waiting,
        commits,
        short,
    } = work_on(rt, alloc, nodes, waiting, now, contracts, plan, gate);
    let net = Net::from_parts(NetParts {
        nodes,
        waiting,
        spare,
        now,
    });
    (net, commits, short)
}

/// Lets workers make turns at the nodes side by side, as many as the plan says. A node that is down is refused.
///
/// # Errors
///
/// `AllocError` for want of memory; no turn was made then.
pub fn work<
    B: Bay + Send,
    F: FlowSet + Send + Sync,
    J: Judge + Sync,
    R: Threads + Wait + Sync,
    G: Gate + Sync,
>(
    rt: &R,
    alloc: Global,
    net: &mut Net<B, F>,
    plan: Plan,
    contracts: &J,
    gate: &G,
) -> Result<Reply, AllocError>
    ensures goes { WorksOrNot (net_states (meaning F.machine F.reading (J.judges contracts.now)))
        net.old (given result) net.new }
    ensures count { length net.new.nodes ≡ length net.old.nodes }
    ensures goes_on { IfOk result (λ reply. is_end reply ≡ false) }
{
    if !are_up(net.nodes()) {
        return Ok(refused(Refusal::NodeDown));
    }
    let whole = mem::replace(net, nobody(alloc));
    let (worked, _, short) = work_at(rt, alloc, whole, plan, contracts, gate);
    *net = worked;
    if short {
        return Err(AllocError);
    }
    Ok(Reply::Worked)
}
