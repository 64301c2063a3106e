ghost use Rattle.std.specs.Prelude.{◌≡◌, [], length, map, string_bytes};
ghost use Rattle.net_model.specs.Environment.{meaning};
ghost use Rattle.node_disks.specs.Pair.{pair_seen};
ghost use Rattle.shell_words.specs.Program.{IsNetwork};
ghost use Rattle.node_shell.specs.Runs.{PlaysOwn, RanReady, RanInMemory, RanInFolder, number_of_status, IsRun};

use super::disks::{put_back, take_first};
use super::openings::{attach_all, refuse};
use super::session::session;
use super::statuses::Status;
use contract_verify::Judge;
use flow_machine::FlowSet;
use net_base::Party;
use network_core::Net;
use node_disks::NodeDisks;
use outside::{Bay, Gate, Sink, Source};
use shell_words::{NetworkWords, WordsFault, program_words};
use std::alloc::Global;
use std::sync::Wait;
use std::thread::Threads;

/// What a run leaves.
#[derive(Drop)]
pub struct Ended<B: Bay> {
    /// 0 where the script was read to its end or to `quit`; 2 where the words are refused; 3 where the script is too long; 4 after a read
    /// and 5 after a write that failed; 6 where a disk failed before the script; 7 for want of memory; 8 where the first opening of some
    /// node found no sound journal of its own.
    pub status: u8,
    /// The disks of all nodes, in the order in which they were handed in.
    pub disks: Vec<NodeDisks<B>>,
    /// How many bytes the source gave.
    pub bytes_read: u64,
}

/// Plays the script over the nodes on their disks, and gives the disks back.
fn play<
    R: Threads + Wait + Sync,
    S: Source,
    K: Sink,
    B: Bay + Send,
    F: FlowSet + Send + Sync,
    J: Judge + Sync,
    G: Gate + Sync,
>(
    rt: &R,
    alloc: Global,
    source: &mut S,
    sink: &mut K,
    network: NetworkWords,
    own: Vec<B>,
    contracts: &J,
    gate: &G,
) -> (Status, u64, Vec<B>)
    requires within { IsNetwork network }
    requires disks { length own.items ≡ network.nodes }
    ensures { PlaysOwn (meaning F.machine F.reading (J.judges contracts.now)) B.seen (record {
      words = [];
      disks = record { old = own.items; new = result.2.items };
      left = record { old = S.left source.old; new = S.left source.new };
      written = record { old = K.written sink.old; new = K.written sink.new };
      source_faults = record { old = S.faults source.old; new = S.faults source.new };
      sink_faults = record { old = K.faults sink.old; new = K.faults sink.new };
      count = result.1;
      status = number_of_status result.0;
    }) network }
{
    match Net::<B, F>::begin(alloc, network.nodes, Party(network.notary), own) {
        Ok(net) => {
            let mut net = net;
            let end = session(rt, alloc, &mut net, source, sink, contracts, gate);
            (end.status, end.bytes_read, net.into_disks())
        }
        Err(refused) => {
            let status = refuse(alloc, sink, refused.node, refused.why);
            (status, 0, refused.disks)
        }
    }
}

/// Runs a script over this network on disks that were made ready: opens the nodes, and plays.
fn run_ready<
    R: Threads + Wait + Sync,
    S: Source,
    K: Sink,
    B: Bay + Send,
    F: FlowSet + Send + Sync,
    J: Judge + Sync,
    G: Gate + Sync,
>(
    rt: &R,
    alloc: Global,
    network: NetworkWords,
    source: &mut S,
    sink: &mut K,
    disks: Vec<NodeDisks<B>>,
    contracts: &J,
    gate: &G,
) -> Ended<B>
    requires within { IsNetwork network }
    requires disks { length disks.items ≡ 16 }
    ensures { RanReady (meaning F.machine F.reading (J.judges contracts.now))
        (pair_seen B.seen)
        (record {
          words = [];
          disks = record { old = disks.items; new = result.disks.items };
          left = record { old = S.left source.old; new = S.left source.new };
          written = record { old = K.written sink.old; new = K.written sink.new };
          source_faults = record { old = S.faults source.old; new = S.faults source.new };
          sink_faults = record { old = K.faults sink.old; new = K.faults sink.new };
          count = result.bytes_read;
          status = result.status;
        }) network }
{
    let mut disks = disks;
    let nodes = network.nodes as usize;
    let Ok(mut own) = Vec::with_capacity(alloc, nodes) else {
        return end_with(Status::NoMemory, disks, 0);
    };
    take_first(&mut disks, &mut own, nodes);
    let (status, bytes_read, own) = play::<R, S, K, NodeDisks<B>, F, J, G>(
        rt, alloc, source, sink, network, own, contracts, gate,
    );
    put_back(&mut disks, own);
    end_with(status, disks, bytes_read)
}

/// Runs a script over this network in memory: makes the disks of its nodes ready, opens the nodes, and plays.
fn run_in_memory<
    R: Threads + Wait + Sync,
    S: Source,
    K: Sink,
    B: Bay + Send,
    F: FlowSet + Send + Sync,
    J: Judge + Sync,
    G: Gate + Sync,
>(
    rt: &R,
    alloc: Global,
    network: NetworkWords,
    source: &mut S,
    sink: &mut K,
    disks: Vec<NodeDisks<B>>,
    contracts: &J,
    gate: &G,
) -> Ended<B>
    requires within { IsNetwork network }
    requires disks { length disks.items ≡ 16 }
    ensures { RanInMemory (meaning F.machine F.reading (J.judges contracts.now))
        (pair_seen B.seen)
        (record {
          words = [];
          disks = record { old = disks.items; new = result.disks.items };
          left = record { old = S.left source.old; new = S.left source.new };
          written = record { old = K.written sink.old; new = K.written sink.new };
          source_faults = record { old = S.faults source.old; new = S.faults source.new };
          sink_faults = record { old = K.faults sink.old; new = K.faults sink.new };
          count = result.bytes_read;
          status = result.status;
        }) network }
{
    let mut disks = disks;
    match attach_all(alloc, None, &mut disks, network.nodes as usize) {
        Err(status) => end_with(status, disks, 0),
        Ok(()) => run_ready::<R, S, K, B, F, J, G>(
            rt, alloc, network, source, sink, disks, contracts, gate,
        ),
    }
}

/// Runs a script over this network on the files of a folder: makes the disks of its nodes ready there, opens the nodes, and plays.
fn run_at_path<
    R: Threads + Wait + Sync,
    S: Source,
    K: Sink,
    B: Bay + Send,
    F: FlowSet + Send + Sync,
    J: Judge + Sync,
    G: Gate + Sync,
>(
    rt: &R,
    alloc: Global,
    dir: &str,
    network: NetworkWords,
    source: &mut S,
    sink: &mut K,
    disks: Vec<NodeDisks<B>>,
    contracts: &J,
    gate: &G,
) -> Ended<B>
    requires within { IsNetwork network }
    requires disks { length disks.items ≡ 16 }
    ensures { RanInFolder (meaning F.machine F.reading (J.judges contracts.now))
        (pair_seen B.seen) dir.now
        (record {
          words = [];
          disks = record { old = disks.items; new = result.disks.items };
          left = record { old = S.left source.old; new = S.left source.new };
          written = record { old = K.written sink.old; new = K.written sink.new };
          source_faults = record { old = S.faults source.old; new = S.faults source.new };
          sink_faults = record { old = K.faults sink.old; new = K.faults sink.new };
          count = result.bytes_read;
          status = result.status;
        }) network }
{
    let mut disks = disks;
    match attach_all(alloc, Some(dir), &mut disks, network.nodes as usize) {
        Err(status) => end_with(status, disks, 0),
        Ok(()) => run_ready::<R, S, K, B, F, J, G>(
            rt, alloc, network, source, sink, disks, contracts, gate,
        ),
    }
}

/// The same where the folder's name is owned.
fn run_in_folder<
    R: Threads + Wait + Sync,
    S: Source,
    K: Sink,
    B: Bay + Send,
    F: FlowSet + Send + Sync,
    J: Judge + Sync,
    G: Gate + Sync,
>(
    rt: &R,
    alloc: Global,
    dir: String,
    network: NetworkWords,
    source: &mut S,
    sink: &mut K,
    disks: Vec<NodeDisks<B>>,
    contracts: &J,
    gate: &G,
) -> Ended<B>
    requires within { IsNetwork network }
    requires disks { length disks.items ≡ 16 }
    ensures { RanInFolder (meaning F.machine F.reading (J.judges contracts.now)) (pair_seen B.seen)
        (string_bytes dir) (record {
          words = [];
          disks = record { old = disks.items; new = result.disks.items };
          left = record { old = S.left source.old; new = S.left source.new };
          written = record { old = K.written sink.old; new = K.written sink.new };
          source_faults = record { old = S.faults source.old; new = S.faults source.new };
          sink_faults = record { old = K.faults sink.old; new = K.faults sink.new };
          count = result.bytes_read;
          status = result.status;
        }) network }
{
    run_at_path::<R, S, K, B, F, J, G>(
        rt,
        alloc,
        dir.as_str(),
        network,
        source,
        sink,
        disks,
        contracts,
        gate,
    )
}

/// Runs a script over a network of 1 to 16 nodes, line by line, and writes the answers.
///
/// The words are `--nodes n`, with 1 to 16, `--notary n`, with 0 to 15 and below the number of nodes, and `--dir path`, each at most once
/// and in any order; without them there are two nodes, node 0 is the notary, and the disks are in memory. Of the disks of 16 nodes node `n`
/// has those at place `n`, which are made ready as `node-n.a` and `node-n.b`, in the folder that `--dir` names or in memory; its journal
/// is on the first. All disks are made ready in order, and then the nodes are opened in order. The contracts are those by which the nodes verify transactions. A script has at most 16,777,216 bytes. Each line
/// of it is a command, which has one answer line or, a query or a load, several; a blank line, one that begins with `#` and `quit` have none. The
/// frames that wait when it ends are not kept.
///
/// Over disks that show a coherent world the script is one passage of the network together with that world (`scripts_are_passages`), and
/// each line but `workers` a way of its own (`lines_are_passages`). So at every moment of it but those within a line `workers`, also within
/// any call of a disk in the middle of a line, whichever image a power loss leaves of each disk, the journals are those of one run, what
/// was acknowledged at the end of an earlier line stands there once, and over disks that tell these images this network may begin again
/// (`network_core::left_is_coherent`). At every such moment, and after every line, the laws of `ledger_laws` hold of these journals
/// (`story_laws::ledgers_hold_in_scripts`): each state has at most one consumer in the notary's book, each tag by the notary is over an id that
/// the book signed, the back-chain of each recorded transaction is whole, and, where the digests of what was hashed to sign them do not
/// collide, no two recorded transactions of different ids have an input in common, and each with a time window (of 64-bit moments) was first
/// signed by the notary within it. Of the openings before it this is not said; and of a moment within `workers` only what each disk alone may
/// leave (`work_law::histories_last`).
///
/// As it ends, whichever journals power cuts leave of such disks, in the notary's book of their run each state has at most one consumer, and
/// each conflict names it (`Rests`, also where a node did not open).
///
/// The `Gate` hears of what workers do. For a line `workers` the call may wait for locks, for inboxes and for threads.
pub fn run<
    R: Threads + Wait + Sync,
    S: Source,
    K: Sink,
    B: Bay + Send,
    F: FlowSet + Send + Sync,
    J: Judge + Sync,
    G: Gate + Sync,
>(
    rt: &R,
    alloc: Global,
    words: &[String],
    source: &mut S,
    sink: &mut K,
    disks: Vec<NodeDisks<B>>,
    contracts: &J,
    gate: &G,
) -> Ended<B>
    requires { length disks.items ≡ 16 }
    ensures run { IsRun (meaning F.machine F.reading (J.judges contracts.now))
        (pair_seen B.seen)
        (record {
          words = map (λ s. string_bytes s) words.now;
          disks = record { old = disks.items; new = result.disks.items };
          left = record { old = S.left source.old; new = S.left source.new };
          written = record { old = K.written sink.old; new = K.written sink.new };
          source_faults = record { old = S.faults source.old; new = S.faults source.new };
          sink_faults = record { old = K.faults sink.old; new = K.faults sink.new };
          count = result.bytes_read;
          status = result.status;
        }) }
{
    match program_words(alloc, words) {
        Ok(asked) => {
            let network = asked.network;
            match asked.dir {
                None => run_in_memory::<R, S, K, B, F, J, G>(
                    rt, alloc, network, source, sink, disks, contracts, gate,
                ),
                Some(dir) => run_in_folder::<R, S, K, B, F, J, G>(
                    rt, alloc, dir, network, source, sink, disks, contracts, gate,
                ),
            }
        }
        Err(WordsFault::Refused) => end_with(Status::BadWords, disks, 0),
        Err(WordsFault::Memory) => end_with(Status::NoMemory, disks, 0),
    }
}

/// The end of a run.
fn end_with<B: Bay>(status: Status, disks: Vec<NodeDisks<B>>, bytes_read: u64) -> Ended<B>
    ensures { (result.status ≡ number_of_status status) × (result.disks ≡ disks)
        × (result.bytes_read ≡ bytes_read) }
{
    Ended {
        status: status.number(),
        disks,
        bytes_read,
    }
}
