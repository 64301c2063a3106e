//! Laws of nodes that are worked on side by side, each under a lock of its own, with the frames between them in inboxes.
//!
//! Nobody orders what different nodes do then. What is known of a node is the history of its own calls, each answered as its clause says,
//! and of a frame that it took that some node had sent it there. From that alone, once all calls are over, the journals are those of one
//! run of the network.
#![tactic(auto)]

ghost use Rattle.work_law.specs.Lasting.{HistoriesLast};
ghost use Rattle.work_law.specs.Passages.{AcknowledgedIsKept, AcknowledgedOnPassages, AcksAreKept, AttainedAreCoherent, KeptOnPassages, UnworkedAreWays};
ghost use Rattle.work_law.specs.Works.{WorksCoherently};

/// The law that from a coherent world which the nodes showed they go, by whatever they did side by side, to a coherent world which they
/// show. Whichever journals power cuts leave, each goes on from one of before by the records that its node committed, and where the node
/// went down by one more at most.
pub fn works_coherently<F>()
    ensures { WorksCoherently F }
{}

/// The law of a node's history, over any disk: the node's journal goes on by the records that it committed, at most 65,536; a node that was
/// down stays as it was; a node that was up is down only where its disk's count of faults rose; and the disk is attached as it was. Each
/// record burns four of the disk's fuse, with power to the end, and one with which the node went down up to four more; without power none
/// is committed, and no call brings power back. Of a disk that tells its content, at every moment since the history began: sound images
/// stay sound, and where each image spelt the journal that the node had, each spells one on the way from there to the journal that the node
/// has in the end, or where it went down to one of the records that it committed and one more at most.
pub fn histories_last<F>()
    ensures { HistoriesLast F }
{}

/// The law that each world which steps, turns, posts and deliveries lead to from a coherent one, and work side by side between them, is
/// coherent.
pub fn attained_are_coherent<F>()
    ensures { AttainedAreCoherent F }
{}

/// The law that what all journals share that a node's disk may spell (of a node that is up, its one journal) stands once in the merged journals
/// of every world that steps and work side by side lead to from there, whichever journals power cuts leave of that one. So none of what was
/// acknowledged is lost, and none of it is there twice.
pub fn acknowledged_is_kept<F>()
    ensures { AcknowledgedIsKept F }
{}

/// The law that in each world that a coherent one leads to, whichever journals power cuts leave of it, at least as many items have arrived as an
/// acknowledgement tells of that waits in the coherent one: also where the frame was lost since, or the node that posted it is down.
pub fn acks_are_kept<F>()
    ensures { AcksAreKept F }
{}

/// The law that a passage on which the nodes were never worked on side by side is a way.
pub fn unworked_are_ways<F>()
    ensures { UnworkedAreWays F }
{}

/// The law of every moment on ways one after another, with work side by side between one and the next, whichever image power cuts leave of
/// each disk: the journals are those of one run of the network; the causes of each begin with those of an image that its disk had as the
/// first way began, so nothing that was on a disk is lost; and a node all of whose images were sound then has sound images, also while it
/// is down.
pub fn kept_on_passages<F>()
    ensures { KeptOnPassages F }
{}

/// The law of every moment on such ways, whichever image power cuts leave of each disk: each cause that was acknowledged as the first way
/// began stands once in the merged journals.
pub fn acknowledged_on_passages<F>()
    ensures { AcknowledgedOnPassages F }
{}
