ghost use Rattle.network_core.specs.Acknowledged.{WhoIsUpAcknowledges, AcknowledgedStandsOnce};
ghost use Rattle.network_core.specs.Begins.{NewDisksAreCoherent};
ghost use Rattle.network_core.specs.Drains.{DrainsByTurns, RoundsAreBounded};
ghost use Rattle.network_core.specs.Left.{LeftIsCoherent};
ghost use Rattle.network_core.specs.Ways.{AcknowledgedAtAllMoments, CallsAreWays, KeptOnWays, PairsAreBoth, WaysHaveAllMoments, WaysMoveOneByOne};
ghost use Rattle.network_core.specs.Worlds.{CoherentIsFaithful};

use flow_machine::FlowSet;

/// The law that whichever journals a power cut leaves of a coherent world, they are those of one run of the network, which leads to the
/// states that these journals make.
pub fn coherent_is_faithful<F>()
    ensures { CoherentIsFaithful F }
{}

/// The law that over disks on which nothing was written a network whose nodes are down shows a coherent world: what the network's other clauses
/// say from there holds of a network that begins over new disks.
pub fn new_disks_are_coherent<F>()
    ensures { NewDisksAreCoherent F }
{}

/// The law that a drain makes turns, posts and deliveries and nothing else: where it ended by itself none of them met a full journal or
/// ran out of memory, and else the last one alone did.
pub fn drains_by_turns<F>()
    ensures { DrainsByTurns F }
{}

/// The law of every flow set that from a coherent world a drain has at most as many rounds in which a record is committed as `left` says of the
/// network of the world's journals at its start, whichever journal a power cut leaves of a node that is down.
pub fn rounds_are_bounded<F: FlowSet>()
    ensures { RoundsAreBounded F.machine }
{}

/// The law that what all journals share that a node's disk may spell, whether the node is up or down, stands once in the merged journals of every
/// world that steps lead to from there, whichever journals power cuts leave of that one (`stands`). A node that is up has one journal (`up`), and
/// what a start, a turn or a taken item was answered over is the last of it, so none of it is lost, and none of it is there twice.
pub fn acknowledged_stands_once<F>()
    ensures stands { AcknowledgedStandsOnce F }
    ensures up { WhoIsUpAcknowledges F }
{}

/// The law that what `apply`, `apply_all` and `drain` say of networks with their worlds is a way: steps one after another, each over what
/// the one before it left. So what holds of ways holds inside each of these calls too, and not only once it is over.
pub fn calls_are_ways<F>()
    ensures { CallsAreWays F }
{}

/// The law that what these calls say of networks with their worlds, they say of the worlds alone, and of the networks alone: one chain of
/// steps goes through both.
pub fn pairs_are_both<F>()
    ensures { PairsAreBoth F }
{}

/// The law of every moment since a way began, whichever image power cuts leave of each disk: the journals are those of one run of the
/// network; the causes of each begin with those of an image that its disk had as the way began, so nothing that was on a disk is lost;
/// and a node all of whose images were sound then has sound images, also while it is down.
pub fn kept_on_ways<F>()
    ensures { KeptOnWays F }
{}

/// The law of every moment of which all is as `kept_on_ways` says, whichever image power cuts leave of each disk: over disks that hold these
/// images, and tell it, a network whose nodes are down shows a coherent world; and no opening refuses one of them, where none refused an image
/// as the way began.
pub fn left_is_coherent<F>()
    ensures { LeftIsCoherent F }
{}

/// The law of every moment since a way began, whichever image power cuts leave of each disk: each cause that was acknowledged as the
/// way began stands once in the merged journals.
pub fn acknowledged_at_all_moments<F>()
    ensures { AcknowledgedAtAllMoments F }
{}

/// The law that no moment is left out: each moment of each disk since a way began is its moment at an instant on the way.
pub fn ways_have_all_moments<F>()
    ensures { WaysHaveAllMoments F }
{}

/// The law that between one network on a way and the next one disk went on at most. So what the others could leave is the same at each
/// moment between these two, and the instants on the way are the moments of the network, in their order.
pub fn ways_move_one_by_one<F>()
    ensures { WaysMoveOneByOne F }
{}
