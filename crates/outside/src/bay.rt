ghost use Rattle.std.specs.Prelude.{◌≡◌, ◌≤◌, ◌<◌, ◌↔◌, true, false, OnOk, OnErr, IsErr, IsErrOf, IsNone, Some, None, option_map};
ghost use Rattle.outside.specs.Disk.{SameRest, IfTold, CutsPower, LeavesBy};
ghost use Rattle.outside.specs.Faults.{Rose};

use crate::disk::Disk;
use std::alloc::Global;
use thiserror::Error;

/// Why a bay was not made ready.
#[derive(Clone, Copy, Debug, PartialEq, Eq, Error)]
pub enum AttachFault {
    /// The file could not be opened or made, or its folder is missing.
    #[error("the file can't be opened")]
    Failed,
    /// Out of memory.
    #[error("out of memory")]
    Memory,
}

/// The bay is a file, whose power can't be cut.
#[derive(Clone, Copy, Debug, PartialEq, Eq, Error)]
#[error("a file has no fuse")]
pub struct NoFuse;

/// A place for a disk: one in memory, whose power can be cut, or a file.
pub trait Bay: Disk {
    /// Makes the disk ready: the file of this name in a folder, or, where there is no folder, the disk in memory as it is.
    ///
    /// After `Ok` contracts see what it was attached as: the folder, if there is one, and the name. What stands beside it stays
    /// as it was. Without a folder nothing else changes but the count of faults. With one the disk may tell nothing from then on, and may be calm no longer; a
    /// disk that told nothing doesn't begin to tell. A refusal leaves all but the count of faults, which rises at
    /// [`AttachFault::Failed`] alone.
    fn attach(&mut self, alloc: Global, dir: Option<&str>, name: &str) -> Result<(), AttachFault>
        ensures attached { OnOk result ((Self.seen self.new).attached.own
            ≡ Some (record { folder = option_map (λ s. s.now) dir.entry; name = name.now })) }
        ensures beside { (Self.seen self.new).attached.beside
            ≡ (Self.seen self.old).attached.beside }
        ensures in_memory { IsNone dir.entry
            → Self.seen self.new ≡ record (Self.seen self.old) {
              faults = (Self.seen self.new).faults;
              attached = (Self.seen self.new).attached;
            } }
        ensures calm { IsNone dir.entry → (Self.seen self.old).calm ≡ true
            → ¬ (IsErrOf result AttachFault.Failed) }
        ensures refused { OnErr result (Self.seen self.new
            ≡ record (Self.seen self.old) { faults = (Self.seen self.new).faults }) }
        ensures silent { (Self.seen self.old).tells ≡ false → (Self.seen self.new).tells ≡ false }
        ensures later { (Self.seen self.old).faults ≤ (Self.seen self.new).faults }
        ensures cause { IsErrOf result AttachFault.Failed
            → Rose (Self.seen self.old).faults (Self.seen self.new).faults }
        ensures uncounted { (IsErrOf result AttachFault.Failed → ⊥)
            → (Self.seen self.new).faults ≡ (Self.seen self.old).faults };

    /// Cuts the power at the write or sync that comes as number `calls` from now, or now where that is 0, and leaves what
    /// the outcome says: of what was written since the last sync nothing (0), all of it (1), all but the second half of the
    /// last write (2), or 0xA5 in its place (3). Where nothing was written, nothing changes.
    ///
    /// The new fuse replaces an earlier one, and a cut now clears it.
    fn cut_power(&mut self, calls: u64, outcome: u8) -> Result<(), NoFuse>
        requires { outcome ≤ 3 }
        ensures refused { IsErr result ↔ ((Self.seen self.old).of_file ≡ true) }
        ensures unchanged { OnErr result (Self.seen self.new ≡ Self.seen self.old) }

        // A cut now.
        ensures now { calls ≡ 0 → OnOk result
            (IfTold (Self.seen self.old) (Self.seen self.new) CutsPower) }
        ensures outcome { calls ≡ 0
            → OnOk result (IfTold (Self.seen self.old) (Self.seen self.new) (LeavesBy outcome)) }
        ensures dark { calls ≡ 0 → OnOk result
            (((Self.seen self.new).power ≡ false) × ((Self.seen self.new).fuse ≡ None)) }

        // A fuse.
        ensures armed { 0 < calls → OnOk result
            (Self.seen self.new ≡ record (Self.seen self.old) {
              fuse = Some (calls, outcome);
              calm = (Self.seen self.new).calm;
            }) }
        ensures faults { (Self.seen self.new).faults ≡ (Self.seen self.old).faults }
        ensures rest { SameRest (Self.seen self.old) (Self.seen self.new) }
        ensures writes { (Self.seen self.new).room_writes ≡ (Self.seen self.old).room_writes };

    /// Ends a cut and disarms a fuse. A disk in memory is calm afterwards, and a file that was calm stays so.
    fn restore_power(&mut self)
        ensures restored { Self.seen self.new
            ≡ record (Self.seen self.old) {
              power = true;
              fuse = None;
              calm = (Self.seen self.new).calm;
            } }
        ensures calm { (Self.seen self.old).of_file ≡ false → (Self.seen self.new).calm ≡ true }
        ensures stays_calm { (Self.seen self.old).calm ≡ true → (Self.seen self.new).calm ≡ true };

    /// Whether this is a file. Only [`Bay::attach`] with a folder makes it one.
    fn is_file(&self) -> bool
        ensures { result ≡ (Self.seen self.now).of_file };
}
