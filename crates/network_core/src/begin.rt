//! How a network begins.

ghost use Rattle.std.specs.Prelude.{◌≡◌, ◌≤◌, ◌<◌, ℕ, [], length, map, slice_get, vec_capacity, Some, None, IfOk, IfErr};
ghost use Rattle.node_core.specs.Disks.{roomless};
ghost use Rattle.node_core.specs.Seen.{BootsAs, NodeSeen};
ghost use Rattle.network_core.specs.Begins.{nodes_over, BootsUpTo, BootStops, IsLast};

use flow_machine::FlowSet;
use net_base::{Identity, Moment, Party};
use node_core::{BootFault, Node};
use outside::Bay;
use std::alloc::Global;

/// A network did not begin: the first node whose boot was refused, and why. The disks come back in their order.
#[derive(Drop)]
pub struct BeginRefused<D: Bay> {
    pub disks: Vec<D>,
    pub node: u8,
    pub why: BootFault,
}

/// The place of the first node whose boot was refused, and why.
#[derive(Clone, Copy)]
pub struct Stopped {
    pub place: u8,
    pub why: BootFault,
}

/// Nodes that are down over these disks, in the order of their places; the list for them is empty, and has room.
pub fn nodes_over<D: Bay, F: FlowSet>(
    nodes: u8,
    notary: Party,
    disks: Vec<D>,
    places: Vec<Node<D, F>>,
) -> Vec<Node<D, F>>
    requires nodes { nodes ≤ 16 }
    requires notary { notary.0 < nodes }
    requires disks { length disks.items ≡ nodes }
    requires empty { places.items ≡ [] }
    requires room { length disks.items ≤ vec_capacity places }
    ensures { result.items ≡ nodes_over nodes notary 0 (map D.seen disks.items) }
{
    let mut made = places;
    let mut place = 0;
    'disks: for disk in disks {
        let party = Party(place);
        let identity = Identity {
            party,
            nodes,
            notary,
        };
        made.push(Node::new(disk, identity)).unwrap();
        place += 1;
    }
    made
}

/// The disks of these nodes, in their order; the list for them is empty, and has room.
pub fn disks_of<D: Bay, F: FlowSet>(nodes: Vec<Node<D, F>>, spare: Vec<D>) -> Vec<D>
    requires empty { spare.items ≡ [] }
    requires room { length nodes.items ≤ vec_capacity spare }
    ensures { map (λ d. roomless (D.seen d)) result.items ≡ map (λ n. n.disk) nodes.items }
{
    let mut disks = spare;
    'nodes: for node in nodes {
        disks.push(node.into_disk()).unwrap();
    }
    disks
}

/// Boots a node, and gives the moment of its last cause.
fn boot_one<D: Bay, F: FlowSet>(alloc: Global, node: &mut Node<D, F>) -> Result<Moment, BootFault>
    requires { node.old.journal ≡ None }
    ensures boots { BootsAs F.reading node.old result node.new }
    ensures last { IfOk result (λ last. IsLast F.reading node.new.journal last.0) }
{
    match node.boot(alloc) {
        Ok(()) => Ok(node.last_moment()),
        Err(why) => Err(why),
    }
}

/// Boots nodes in order, until a boot is refused, and gives the greatest of the moments of their last causes.
pub fn boot_all<D: Bay, F: FlowSet>(
    alloc: Global,
    nodes: &mut Vec<Node<D, F>>,
) -> Result<Moment, Stopped>
    requires few { length nodes.old.items ≤ 16 }
    requires down { (p : ℕ) (n : NodeSeen) → slice_get nodes.old.items p ≡ Some n
        → n.journal ≡ None }
    ensures ok { IfOk result (λ now. BootsUpTo F.reading
        (length nodes.old.items) now.0 nodes.old.items nodes.new.items) }
    ensures err { IfErr result (λ s. BootStops F.reading s.place s.why nodes.old.items
        nodes.new.items) }
{
    let mut last = Moment(0);
    'places: for place in 0..nodes.len() {
        let node = &mut nodes[place];
        match boot_one(alloc, node) {
            Ok(moment) => last = Moment(last.0.max(moment.0)),
            Err(why) => {
                return Err(Stopped {
                    place: place as u8,
                    why,
                });
            }
        }
    }
    Ok(last)
}
