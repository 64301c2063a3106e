//! How a run begins: the disks are made ready, and a first opening that was refused is told.

ghost use Rattle.std.specs.Prelude.{◌≡◌, ◌⊎◌, ◌≤◌, length, drop, map, option_map, IfErr, IsErrOf, IfOk, OnOk, OnErr, Some, None, string_bytes};
ghost use Rattle.outside.specs.Faults.{Rose};
ghost use Rattle.node_disks.specs.Pair.{pair_seen};
ghost use Rattle.node_shell.specs.Runs.{journal_line, RefusedWith, IsOpeningStatus, IsRefusedStatus, Fails, FailsBeside, SomeFails, SomeRises, StaysBut, StaysBeside, StayIn, NoneFalls, HasNames, HasFirstName, KeepsNames, AreNamed, StopsNaming};
ghost use Rattle.node_shell.specs.Names.{letter_of, disk_name, own_name, faults_beside};

use super::statuses::Status;
use super::streams::write_all;
use node_core::BootFault;
use node_disks::NodeDisks;
use outside::{AttachFault, Bay, Failed, Sink};
use std::alloc::{AllocError, Global};

/// The letter of a node's disk.
fn letter_of(second: bool) -> &'static str
    ensures { result.now ≡ letter_of second }
{
    if second { "b" } else { "a" }
}

/// The name of a node's first or second disk.
fn disk_name(alloc: Global, node: usize, second: bool) -> Result<String, AllocError>
    ensures { IfOk result (λ name. string_bytes name ≡ disk_name node second) }
{
    let letter = letter_of(second);
    let name = format!(in alloc; "node-{node}.{letter}")?;
    Ok(name)
}

/// Makes a node's first or second disk ready under its own name, in a folder or in memory.
fn attach<B: Bay>(
    alloc: Global,
    dir: Option<&str>,
    disk: &mut B,
    node: usize,
    second: bool,
) -> Result<(), Status>
    ensures stays { option_map (λ s. s.now) dir.entry ≡ None
        → StaysBut (B.seen disk.old) (B.seen disk.new) }
    ensures later { (B.seen disk.old).faults ≤ (B.seen disk.new).faults }
    ensures named { OnOk result ((B.seen disk.new).attached.own
        ≡ Some (own_name (option_map (λ s. s.now) dir.entry) node second)) }
    ensures unnamed { OnErr result ((B.seen disk.new).attached ≡ (B.seen disk.old).attached) }
    ensures kinds { IfErr result IsOpeningStatus }
    ensures cause { option_map (λ s. s.now) dir.entry ≡ None → IsErrOf result Status.DiskFault
        → Fails (B.seen disk.old) (B.seen disk.new) }
    ensures rose { IsErrOf result Status.DiskFault
        → Rose (B.seen disk.old).faults (B.seen disk.new).faults }
{
    let Ok(name) = disk_name(alloc, node, second) else {
        return Err(Status::NoMemory);
    };
    match disk.attach(alloc, dir, name.as_str()) {
        Ok(()) => Ok(()),
        Err(AttachFault::Failed) => Err(Status::DiskFault),
        Err(AttachFault::Memory) => Err(Status::NoMemory),
    }
}

/// The line for a first opening that found no sound journal of the node's own; empty for another refusal.
fn journal_line(alloc: Global, node: u8, why: BootFault) -> Result<String, AllocError>
    ensures { IfOk result (λ line. string_bytes line ≡ journal_line node why) }
{
    match why {
        BootFault::Damaged { at } => {
            let line = format!(in alloc; "! journal {node} damaged {at}\n")?;
            Ok(line)
        }
        BootFault::NotAJournal => {
            let line = format!(in alloc; "! journal {node} foreign\n")?;
            Ok(line)
        }
        BootFault::WrongNode { .. } => {
            let line = format!(in alloc; "! journal {node} wrong\n")?;
            Ok(line)
        }
        BootFault::Fault | BootFault::Memory => Ok(String::new(alloc)),
    }
}

/// Tells that a node's first opening was refused.
pub fn refuse<K: Sink>(alloc: Global, sink: &mut K, node: u8, why: BootFault) -> Status
    ensures refused { RefusedWith node why (K.written sink.old) (K.written sink.new) result }
    ensures kinds { IsRefusedStatus result }
    ensures cause { result ≡ Status.WriteFault → Rose (K.faults sink.old) (K.faults sink.new) }
    ensures later { K.faults sink.old ≤ K.faults sink.new }
{
    match why {
        BootFault::Fault => Status::DiskFault,
        BootFault::Memory => Status::NoMemory,
        BootFault::NotAJournal | BootFault::WrongNode { .. } | BootFault::Damaged { .. } => {
            let Ok(line) = journal_line(alloc, node, why) else {
                return Status::NoMemory;
            };
            match write_all(sink, line.as_bytes()) {
                Ok(()) => Status::BadJournal,
                Err(Failed) => Status::WriteFault,
            }
        }
    }
}

/// Makes both disks of a node ready, the first one first, in a folder or in memory.
fn attach_both<B: Bay>(
    alloc: Global,
    dir: Option<&str>,
    disks: &mut NodeDisks<B>,
    node: usize,
) -> Result<(), Status>
    ensures stays { option_map (λ s. s.now) dir.entry ≡ None
        → StaysBut (pair_seen B.seen disks.old) (pair_seen B.seen disks.new)
        × StaysBeside (pair_seen B.seen disks.old).attached.beside
        (pair_seen B.seen disks.new).attached.beside }
    ensures later { ((pair_seen B.seen disks.old).faults ≤ (pair_seen B.seen disks.new).faults)
        × (faults_beside (pair_seen B.seen disks.old)
        ≤ faults_beside (pair_seen B.seen disks.new)) }
    ensures named { OnOk result (HasNames (option_map (λ s. s.now) dir.entry) node
        (pair_seen B.seen disks.new)) }
    ensures half { OnErr result (KeepsNames (pair_seen B.seen disks.old)
        (pair_seen B.seen disks.new)
        ⊎ HasFirstName (option_map (λ s. s.now) dir.entry) node (pair_seen B.seen disks.old)
        (pair_seen B.seen disks.new)) }
    ensures kinds { IfErr result IsOpeningStatus }
    ensures cause { option_map (λ s. s.now) dir.entry ≡ None → IsErrOf result Status.DiskFault
        → Fails (pair_seen B.seen disks.old) (pair_seen B.seen disks.new)
        ⊎ FailsBeside (pair_seen B.seen disks.old) (pair_seen B.seen disks.new) }
    ensures rose { IsErrOf result Status.DiskFault
        → Rose (pair_seen B.seen disks.old).faults (pair_seen B.seen disks.new).faults
        ⊎ Rose (faults_beside (pair_seen B.seen disks.old))
        (faults_beside (pair_seen B.seen disks.new)) }
{
    match attach(alloc, dir, &mut disks.first, node, false) {
        Err(status) => Err(status),
        Ok(()) => attach(alloc, dir, &mut disks.second, node, true),
    }
}

/// Makes both disks of each of this many nodes ready, in order, in a folder or in memory.
pub fn attach_all<B: Bay>(
    alloc: Global,
    dir: Option<&str>,
    disks: &mut Vec<NodeDisks<B>>,
    nodes: usize,
) -> Result<(), Status>
    requires few { nodes ≤ 16 }
    requires disks { nodes ≤ length disks.old.items }
    ensures stay { StayIn (option_map (λ s. s.now) dir.entry)
        (map (pair_seen B.seen) disks.old.items) (map (pair_seen B.seen) disks.new.items) }
    ensures none_falls { NoneFalls (map (pair_seen B.seen) disks.old.items)
        (map (pair_seen B.seen) disks.new.items) }
    ensures named { OnOk result (AreNamed (option_map (λ s. s.now) dir.entry) nodes
        (map (pair_seen B.seen) disks.old.items) (map (pair_seen B.seen) disks.new.items)) }
    ensures stopped { OnErr result (StopsNaming (option_map (λ s. s.now) dir.entry) nodes
        (map (pair_seen B.seen) disks.old.items) (map (pair_seen B.seen) disks.new.items)) }
    ensures rest { drop nodes disks.new.items ≡ drop nodes disks.old.items }
    ensures kinds { IfErr result IsOpeningStatus }
    ensures cause { option_map (λ s. s.now) dir.entry ≡ None → IsErrOf result Status.DiskFault
        → SomeFails nodes (map (pair_seen B.seen) disks.old.items)
        (map (pair_seen B.seen) disks.new.items) }
    ensures rose { IsErrOf result Status.DiskFault
        → SomeRises nodes (map (pair_seen B.seen) disks.old.items)
        (map (pair_seen B.seen) disks.new.items) }
{
    'nodes: for node in 0..nodes {
        let own = &mut disks[node];
        match attach_both(alloc, dir, own, node) {
            Ok(()) => {}
            Err(status) => return Err(status),
        }
    }
    Ok(())
}
