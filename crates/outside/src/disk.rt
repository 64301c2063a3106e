ghost use Rattle.std.specs.Prelude.{◌≡◌, ◌≤◌, ◌<◌, ◌+◌, ◌⊎◌, ◌&&◌, not, ℕ, true, false, length, take, drop, IfOk, OnOk, OnErr, IsOk, IsErr, Some, if◌then◌else◌};
ghost use Rattle.outside.specs.Disk.{IsImage, EachImage, KeepsImage, CutsPower, FailsSyncing, FailsSyncingUncut, FailsWriting, FailsWritingUncut, Syncs, SameRest, IfTold, overwritten, clean, with_range, written, blows, burnt, burnt_by, Burns, BurnsUpTo};
ghost use Rattle.outside.specs.Faults.{HasCause};

use crate::fault::Failed;
use std::alloc::{AllocError, Global};

/// A disk, by what a read gives and what a power cut may leave.
///
/// Places and lengths are in bytes. Between two syncs each written range, and what lies past the old end, may hold any
/// bytes after a power cut; the length then lies between the synced length and the greatest written end, and all other
/// bytes stay. After a sync that succeeds a cut leaves what a read gives.
///
/// A disk may tell nothing of its content, as a real file, and then no clause on content speaks of it. Whether it tells
/// is a meaning that no call of this trait changes, as is whether it is a file.
///
/// A calm disk answers no [`Failed`], and no call of this trait ends its calm; cutting the power, arming a fuse and
/// attaching a bay to a folder may. A disk without power fails each call but [`Disk::make_room`], and its state stays as
/// it was. A fuse burns by one at each write and sync that has power, fails the last of these and takes the
/// power: no other call takes it, and none brings it back.
pub trait Disk: Drop {
    ghost use Rattle.outside.specs.Disk.{DiskSeen};

    ghost seen: { Self → DiskSeen };

    /// The length of the disk.
    fn length(&mut self) -> Result<u64, Failed>
        ensures value { (seen self.old).tells ≡ true
            → IfOk result (λ n. n ≡ length (seen self.old).state.kept) }
        ensures same { (seen self.new).state ≡ (seen self.old).state }
        ensures rest { SameRest (seen self.old) (seen self.new) }
        ensures writes { (seen self.new).room_writes ≡ (seen self.old).room_writes }
        ensures fuse { (seen self.new).fuse ≡ (seen self.old).fuse }
        ensures calm { (seen self.old).calm ≡ true → IsOk result × ((seen self.new).calm ≡ true) }
        ensures power { (seen self.new).power ≡ (seen self.old).power }
        ensures dark { (seen self.old).power ≡ false → IsErr result }
        ensures cause { HasCause (seen self.old).faults (seen self.new).faults result };

    /// Reads the bytes from `at` on, all of which lie within the length.
    fn read_at(&mut self, at: u64, into: &mut [u8]) -> Result<(), Failed>
        requires { (seen self.old).tells ≡ true
            → at + length into.old ≤ length (seen self.old).state.kept }
        ensures value { (seen self.old).tells ≡ true
            → OnOk result (into.new ≡ take (length into.old) (drop at (seen self.old).state.kept)) }
        ensures same { (seen self.new).state ≡ (seen self.old).state }
        ensures rest { SameRest (seen self.old) (seen self.new) }
        ensures writes { (seen self.new).room_writes ≡ (seen self.old).room_writes }
        ensures fuse { (seen self.new).fuse ≡ (seen self.old).fuse }
        ensures calm { (seen self.old).calm ≡ true → IsOk result × ((seen self.new).calm ≡ true) }
        ensures power { (seen self.new).power ≡ (seen self.old).power }
        ensures dark { (seen self.old).power ≡ false → IsErr result }
        ensures cause { HasCause (seen self.old).faults (seen self.new).faults result };

    /// Writes these bytes from `at` on, which is at most the length, in the room that [`Disk::make_room`] made.
    ///
    /// A write that failed left all as it was, or left its range pending, so that any part of it may stand. Where its fuse
    /// took the power, the range was pending as the power went, and nothing is pending afterwards.
    fn write_at(&mut self, at: u64, from: &[u8]) -> Result<(), Failed>
        requires place { (seen self.old).tells ≡ true → at ≤ length (seen self.old).state.kept }
        requires end { at + length from.now ≤ (seen self.old).room_end }
        requires writes { 0 < (seen self.old).room_writes }
        ensures done { (seen self.old).tells ≡ true
            → OnOk result ((seen self.new).state ≡ written (seen self.old).state at from.now) }
        ensures failed { OnErr result (IfTold (seen self.old) (seen self.new)
            (λ d e. FailsWriting d at (length from.now) e)) }
        ensures uncut { (seen self.new).power ≡ (seen self.old).power
            → OnErr result (IfTold (seen self.old) (seen self.new)
            (λ d e. FailsWritingUncut d at (length from.now) e)) }
        ensures cut { (seen self.old).power ≡ true → (seen self.new).power ≡ false
            → IfTold (seen self.old) (seen self.new) (λ d e. CutsPower (written d at from.now) e) }
        ensures rest { SameRest (seen self.old) (seen self.new) }
        ensures writes { (seen self.old).room_writes ≤ (seen self.new).room_writes + 1 }
        ensures fuse { (seen self.new).fuse
            ≡ (if (seen self.old).power then burnt (seen self.old).fuse else (seen self.old).fuse) }
        ensures blown { (outcome : ℕ) → (seen self.old).fuse ≡ Some (1, outcome)
            → IsErr result × ((seen self.new).power ≡ false) }
        ensures calm { (seen self.old).calm ≡ true → IsOk result × ((seen self.new).calm ≡ true) }
        ensures power { (seen self.new).power
            ≡ ((seen self.old).power && not (blows (seen self.old).fuse)) }
        ensures dark { (seen self.old).power ≡ false
            → IsErr result × ((seen self.new).state ≡ (seen self.old).state) }
        ensures cause { HasCause (seen self.old).faults (seen self.new).faults result };

    /// Makes what was written last through a power cut.
    ///
    /// A sync that failed left all as it was, or left pending what was, and a read may then give another of the images.
    /// Where its fuse took the power, nothing is pending afterwards.
    fn sync(&mut self) -> Result<(), Failed>
        ensures done { OnOk result (IfTold (seen self.old) (seen self.new) Syncs) }
        ensures failed { OnErr result (IfTold (seen self.old) (seen self.new) FailsSyncing) }
        ensures uncut { (seen self.new).power ≡ (seen self.old).power
            → OnErr result (IfTold (seen self.old) (seen self.new) FailsSyncingUncut) }
        ensures cut { (seen self.old).power ≡ true → (seen self.new).power ≡ false
            → IfTold (seen self.old) (seen self.new) CutsPower }

        // What is kept was one of the images.
        ensures kept { KeepsImage (seen self.old) }
        ensures rest { SameRest (seen self.old) (seen self.new) }
        ensures writes { (seen self.new).room_writes ≡ (seen self.old).room_writes }
        ensures fuse { (seen self.new).fuse
            ≡ (if (seen self.old).power then burnt (seen self.old).fuse else (seen self.old).fuse) }
        ensures blown { (outcome : ℕ) → (seen self.old).fuse ≡ Some (1, outcome)
            → IsErr result × ((seen self.new).power ≡ false) }
        ensures calm { (seen self.old).calm ≡ true → IsOk result × ((seen self.new).calm ≡ true) }
        ensures power { (seen self.new).power
            ≡ ((seen self.old).power && not (blows (seen self.old).fuse)) }
        ensures dark { (seen self.old).power ≡ false
            → IsErr result × ((seen self.new).state ≡ (seen self.old).state) }
        ensures cause { HasCause (seen self.old).faults (seen self.new).faults result };

    /// Makes room for the next `writes` writes that end at or below `end`. It changes nothing else.
    fn make_room(&mut self, alloc: Global, end: u64, writes: u32) -> Result<(), AllocError>
        ensures room { OnOk result ((end ≤ (seen self.new).room_end)
            × (writes ≤ (seen self.new).room_writes)) }
        ensures same { seen self.new ≡ record (seen self.old) {
          room_end = (seen self.new).room_end;
          room_writes = (seen self.new).room_writes;
        } }
        ensures end { (seen self.old).room_end ≤ (seen self.new).room_end }
        ensures writes { (seen self.old).room_writes ≤ (seen self.new).room_writes };
}

/// Writes these bytes and syncs them: after an `Ok` each image has them, and at each moment each image is one of the old
/// ones, or one that the write may leave, or has them.
pub fn write_synced<D: Disk>(disk: &mut D, at: u64, from: &[u8]) -> Result<(), Failed>
    requires place { (D.seen disk.old).tells ≡ true → at ≤ length (D.seen disk.old).state.kept }
    requires end { at + length from.now ≤ (D.seen disk.old).room_end }
    requires writes { 0 < (D.seen disk.old).room_writes }
    ensures done { OnOk result (IfTold (D.seen disk.old) (D.seen disk.new)
        (λ d e. (e.kept ≡ overwritten d.kept at from.now) × (e.now ≡ clean e.kept))) }
    ensures moments { IfTold (D.seen disk.old) (D.seen disk.new)
        (λ d e. EachImage d e (λ c. IsImage d.now c
        ⊎ (IsImage (with_range d.now at (length from.now)) c
        ⊎ (c ≡ overwritten d.kept at from.now)))) }
    ensures failed { OnErr result (IfTold (D.seen disk.old) (D.seen disk.new)
        (λ d e. (e.kept ≡ d.kept) ⊎ IsImage (with_range d.now at (length from.now)) e.kept)) }
    ensures rest { SameRest (D.seen disk.old) (D.seen disk.new) }
    ensures writes { (D.seen disk.old).room_writes ≤ (D.seen disk.new).room_writes + 1 }

    // The fuse counts both calls, and the power is there as before.
    ensures fuse { OnOk result ((D.seen disk.new).fuse ≡ burnt_by 2 (D.seen disk.old).fuse) }
    ensures power { OnOk result (((D.seen disk.old).power ≡ true)
        × ((D.seen disk.new).power ≡ true)) }
    ensures burns { OnOk result (Burns 2 (D.seen disk.old) (D.seen disk.new)) }
    ensures no_more { BurnsUpTo 2 (D.seen disk.old) (D.seen disk.new) }
    ensures calm { (D.seen disk.old).calm ≡ true → IsOk result × ((D.seen disk.new).calm ≡ true) }
    ensures cause { HasCause (D.seen disk.old).faults (D.seen disk.new).faults result }
{
    disk.write_at(at, from)?;
    disk.sync()
}
