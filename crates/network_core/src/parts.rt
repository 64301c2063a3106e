//! The parts of a network.

use flow_machine::FlowSet;
use net_base::Moment;
use node_core::Node;
use outside::Bay;
use waiting_frames::Waiting;

/// The parts of a network that was taken apart: its nodes, in the order of their places, the frames that wait at each, and its
/// moment. Each may be worked on by itself, and then they can be put together again.
#[derive(Drop)]
pub struct NetParts<D: Bay, F: FlowSet> {
    pub nodes: Vec<Node<D, F>>,
    /// One list for each node.
    pub waiting: Vec<Waiting>,
    /// Without items, and with room for the disks of all nodes, so that putting together takes no memory.
    pub spare: Vec<D>,
    pub now: Moment,
}
