use outside::{AttachFault, Bay, Disk, Failed, NoFuse};
use std::alloc::{AllocError, Global};

/// The two disks of a node.
///
/// Each call of [`Disk`] and of [`Bay`] goes to the first disk alone. Contracts see that one, and the second beside it
/// (`AttachedAs`), so whatever says that a disk is attached as it was says that the second disk is as it was.
#[derive(Drop)]
pub struct NodeDisks<D: Disk> {
    /// The disk that the node's journal is on.
    pub first: D,
    /// The other disk of the node.
    pub second: D,
}

impl<D: Disk> Disk for NodeDisks<D> {
    ghost use Rattle.node_disks.specs.Pair.{pair_seen};

    ghost seen = { pair_seen D.seen };

    fn length(&mut self) -> Result<u64, Failed> {
        self.first.length()
    }

    fn read_at(&mut self, at: u64, into: &mut [u8]) -> Result<(), Failed> {
        self.first.read_at(at, into)
    }

    fn write_at(&mut self, at: u64, from: &[u8]) -> Result<(), Failed> {
        self.first.write_at(at, from)
    }

    fn sync(&mut self) -> Result<(), Failed> {
        self.first.sync()
    }

    fn make_room(&mut self, alloc: Global, end: u64, writes: u32) -> Result<(), AllocError> {
        self.first.make_room(alloc, end, writes)
    }
}

impl<B: Bay> Bay for NodeDisks<B> {
    fn attach(&mut self, alloc: Global, dir: Option<&str>, name: &str) -> Result<(), AttachFault> {
        self.first.attach(alloc, dir, name)
    }

    fn cut_power(&mut self, calls: u64, outcome: u8) -> Result<(), NoFuse> {
        self.first.cut_power(calls, outcome)
    }

    fn restore_power(&mut self) {
        self.first.restore_power();
    }

    fn is_file(&self) -> bool {
        self.first.is_file()
    }
}
