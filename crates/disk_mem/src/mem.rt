ghost use Rattle.std.specs.Prelude.{◌≡◌, ◌≤◌, ◌<◌, ◌+◌, ◌↔◌, [], ℕ, length, take, drop, true, false, not, IsOk, Some, None, OnOk, OnErr, IfOk, option_map};
ghost use Rattle.outside.specs.Disk.{CutsPower, LeavesBy, KeepsImage, Syncs, written, burnt, blows, clean};
ghost use Rattle.outside.specs.Faults.{HasCause, Rose};
ghost use Rattle.disk_mem.specs.Mem.{CutsBy, answers, disk_of, wrote};

use crate::label::Label;
use crate::lay::{Fuse, Last, Medium, copy_out, cover, leave, note, put_bytes, remember, settle};
use outside::{AttachFault, Bay, Disk, Failed, NoFuse};
use std::alloc::{AllocError, Global};
use std::marker::Model;
use std::snapshot::Snapshot;

/// A disk in memory, whose power can be cut.
///
/// It is built so that a read copies what a read gives, and a sync copies the ranges written since the last one: records
/// that are appended are not copied again by later calls, but where the disk's room grows. Of each earlier moment it keeps
/// what contracts read, which takes no bytes.
#[derive(Drop)]
pub struct MemDisk {
    content: Vec<u8>,
    medium: Medium,
    last: Last,
    past: Vec<Snapshot<Medium>>,
    end: usize,
    writes: u32,
    faults: u64,
    powered: bool,
    fuse: Option<Fuse>,
    attached: Option<Label>,
}

impl Model for MemDisk {
    ghost use Rattle.disk_mem.specs.Mem.{MemSeen, state_of, last_of, fuse_of, attached_of, IsSound};

    ghost Value = { MemSeen };

    ghost view = { λ m. record {
      state = state_of m.content.items m.medium m.past.items;
      last = last_of m.last;
      faults = m.faults;
      power = m.powered;
      fuse = fuse_of m.fuse;
      attached = attached_of m.attached;
      room_end = m.end;
      room_writes = m.writes;
    } };

    ghost invariant = { λ m. IsSound m.content m.medium m.last m.past m.end m.writes };
}

impl MemDisk {
    /// An empty disk with power and no fuse. Takes no memory.
    pub fn new(alloc: Global) -> MemDisk
        ensures state { result.state ≡ record { kept = []; now = clean []; past = [] } }
        ensures calm { (result.power ≡ true) × (result.fuse ≡ None) × (result.faults ≡ 0) }
        ensures attached { result.attached ≡ None }
    {
        let content = Vec::new(alloc);
        let was = Snapshot::of(&content);
        MemDisk {
            content,
            medium: Medium {
                synced: Vec::new(alloc),
                pending: Vec::new(alloc),
            },
            last: Last {
                at: 0,
                count: 0,
                covered: Vec::new(alloc),
                before: 0,
                was,
            },
            past: Vec::new(alloc),
            end: 0,
            writes: 0,
            faults: 0,
            powered: true,
            fuse: None,
            attached: None,
        }
    }

    /// Counts a failure.
    fn fail(&mut self) -> Failed
        ensures same { self.new ≡ record self.old { faults = self.new.faults } }
        ensures rose { Rose self.old.faults self.new.faults × (self.old.faults ≤ self.new.faults) }
    {
        self.faults = self.faults.saturating_add(1);
        Failed
    }

    /// The write itself.
    fn write(&mut self, at: u64, from: &[u8])
        requires place { at ≤ length self.old.state.kept }
        requires end { at + length from.now ≤ self.old.room_end }
        requires writes { 0 < self.old.room_writes }
        ensures done { self.new ≡ record (wrote self.old at from.now) {
          room_writes = self.new.room_writes;
        } }
        ensures writes { self.old.room_writes ≡ self.new.room_writes + 1 }
    {
        let at = at as usize;
        remember(&mut self.past, &self.medium);
        note(&mut self.medium.pending, at, from.len());
        cover(&mut self.last, &self.content, at, from.len());
        put_bytes(&mut self.content, at, from);
        self.writes -= 1;
    }

    /// The power goes, and leaves what the outcome says.
    fn lose(&mut self, outcome: u8)
        ensures state { CutsPower self.old.state self.new.state }
        ensures outcome { LeavesBy outcome self.old.state self.new.state }
        ensures left { CutsBy outcome self.old self.new }
        ensures same { self.new ≡ record self.old { state = self.new.state; power = false } }
    {
        self.powered = false;
        if self.medium.pending.is_empty() {
            return;
        }
        remember(&mut self.past, &self.medium);
        leave(&mut self.content, &self.medium, &self.last, outcome);
        settle(&mut self.medium, &self.content);
    }

    /// The sync itself.
    fn keep(&mut self)
        ensures state { Syncs self.old.state self.new.state }
        ensures same { self.new ≡ record self.old { state = self.new.state } }
    {
        if self.medium.pending.is_empty() {
            return;
        }
        remember(&mut self.past, &self.medium);
        settle(&mut self.medium, &self.content);
    }
}

impl MemDisk {
    /// Counts a write or a sync down; false where it took the power.
    fn count_down(&mut self) -> bool
        requires { self.old.power ≡ true }
        ensures result { result ≡ not (blows self.old.fuse) }
        ensures yes { result ≡ true → self.new ≡ record self.old { fuse = burnt self.old.fuse } }
        ensures no { result ≡ false → CutsPower self.old.state self.new.state
            × Rose self.old.faults self.new.faults × (self.old.faults ≤ self.new.faults) }
        ensures left { (outcome : ℕ) → self.old.fuse ≡ Some (1, outcome)
            → CutsBy outcome self.old self.new }
        ensures dark { result ≡ false → self.new
            ≡ record self.old {
              state = self.new.state;
              faults = self.new.faults;
              power = false;
              fuse = None;
            } }
    {
        let Some(fuse) = self.fuse else {
            return true;
        };
        if fuse.calls == 1 {
            self.lose(fuse.outcome);
            self.fuse = None;
            self.fail();
            return false;
        }
        self.fuse = Some(Fuse {
            calls: fuse.calls.saturating_sub(1),
            outcome: fuse.outcome,
        });
        true
    }
}

impl MemDisk {
    /// Room for writes that end at or below this place.
    fn extend_to(&mut self, end: usize) -> Result<(), AllocError>
        ensures room { OnOk result (end ≤ self.new.room_end) }
        ensures more { self.old.room_end ≤ self.new.room_end }
        ensures same { self.new ≡ record self.old { room_end = self.new.room_end } }
    {
        if end <= self.end {
            return Ok(());
        }
        self.content.reserve(end - self.content.len())?;
        self.medium.synced.reserve(end - self.medium.synced.len())?;
        self.last.covered.reserve(end)?;
        self.end = end;
        Ok(())
    }

    /// Room for this number of writes.
    fn allow(&mut self, writes: u32) -> Result<(), AllocError>
        ensures room { OnOk result (writes ≤ self.new.room_writes) }
        ensures more { self.old.room_writes ≤ self.new.room_writes }
        ensures same { self.new ≡ record self.old { room_writes = self.new.room_writes } }
    {
        if writes <= self.writes {
            return Ok(());
        }
        self.medium.pending.reserve(writes as usize)?;
        self.past.reserve(2 * writes as usize + 1)?;
        self.writes = writes;
        Ok(())
    }
}

impl Disk for MemDisk {
    ghost seen = { λ m. disk_of m };

    fn length(&mut self) -> Result<u64, Failed>
        ensures answers { IsOk result ↔ (self.old.power ≡ true) }
        ensures value { IfOk result (λ n. n ≡ length self.old.state.kept) }
        ensures done { OnOk result (self.new ≡ self.old) }
        ensures same { self.new ≡ record self.old { faults = self.new.faults } }
        ensures cause { HasCause self.old.faults self.new.faults result }
    {
        if !self.powered {
            return Err(self.fail());
        }
        Ok(self.content.len() as u64)
    }

    fn read_at(&mut self, at: u64, into: &mut [u8]) -> Result<(), Failed>
        requires { at + length into.old ≤ length self.old.state.kept }
        ensures answers { IsOk result ↔ (self.old.power ≡ true) }
        ensures value { OnOk result (into.new
            ≡ take (length into.old) (drop at self.old.state.kept)) }
        ensures done { OnOk result (self.new ≡ self.old) }
        ensures same { self.new ≡ record self.old { faults = self.new.faults } }
        ensures cause { HasCause self.old.faults self.new.faults result }
    {
        if !self.powered {
            return Err(self.fail());
        }
        copy_out(&self.content, at as usize, into);
        Ok(())
    }

    fn write_at(&mut self, at: u64, from: &[u8]) -> Result<(), Failed>
        requires place { at ≤ length self.old.state.kept }
        requires end { at + length from.now ≤ self.old.room_end }
        requires writes { 0 < self.old.room_writes }
        ensures answers { IsOk result ↔ (answers self.old ≡ true) }
        ensures done { OnOk result (self.new
            ≡ record (wrote self.old at from.now) {
              fuse = burnt self.old.fuse;
              room_writes = self.new.room_writes;
            }) }

        // Without power nothing changes but the count of faults. Where the fuse blew, the outcome says what is left, the
        // failing write included.
        ensures dark { self.old.power ≡ false
            → self.new ≡ record self.old { faults = self.new.faults } }
        ensures blown { (outcome : ℕ) → self.old.power ≡ true → self.old.fuse ≡ Some (1, outcome)
            → CutsBy outcome (wrote self.old at from.now) self.new }
        ensures cut { self.old.power ≡ true
            → OnErr result (CutsPower (written self.old.state at from.now) self.new.state
            × (self.new ≡ record self.old {
              state = self.new.state;
              last = self.new.last;
              faults = self.new.faults;
              power = false;
              fuse = None;
              room_writes = self.new.room_writes;
            })) }
        ensures writes { self.old.power ≡ true → self.old.room_writes ≡ self.new.room_writes + 1 }
        ensures cause { HasCause self.old.faults self.new.faults result }
    {
        if !self.powered {
            return Err(self.fail());
        }
        self.write(at, from);
        if self.count_down() {
            Ok(())
        } else {
            Err(Failed)
        }
    }

    fn sync(&mut self) -> Result<(), Failed>
        ensures answers { IsOk result ↔ (answers self.old ≡ true) }
        ensures done { OnOk result (Syncs self.old.state self.new.state
            × (self.new ≡ record self.old {
              state = self.new.state;
              fuse = burnt self.old.fuse;
            })) }

        // Without power nothing changes but the count of faults. Where the fuse blew, the outcome says what is left.
        ensures dark { self.old.power ≡ false
            → self.new ≡ record self.old { faults = self.new.faults } }
        ensures blown { (outcome : ℕ) → self.old.power ≡ true → self.old.fuse ≡ Some (1, outcome)
            → CutsBy outcome self.old self.new }
        ensures cut { self.old.power ≡ true
            → OnErr result (CutsPower self.old.state self.new.state
            × (self.new ≡ record self.old {
              state = self.new.state;
              faults = self.new.faults;
              power = false;
              fuse = None;
            })) }
        ensures kept { KeepsImage (disk_of self.old) }
        ensures cause { HasCause self.old.faults self.new.faults result }
    {
        if !self.powered {
            return Err(self.fail());
        }
        if !self.count_down() {
            return Err(Failed);
        }
        self.keep();
        Ok(())
    }

    fn make_room(&mut self, _alloc: Global, end: u64, writes: u32) -> Result<(), AllocError> {
        self.extend_to(end as usize)?;
        self.allow(writes)
    }
}

impl Bay for MemDisk {
    fn attach(&mut self, _alloc: Global, dir: Option<&str>, name: &str) -> Result<(), AttachFault>
        ensures answers { IsOk result }
        ensures attached { self.new.attached
            ≡ Some (record { folder = option_map (λ s. s.now) dir.entry; name = name.now }) }
        ensures same { self.new ≡ record self.old { attached = self.new.attached } }
    {
        self.attached = Some(Label::of(dir, name));
        Ok(())
    }

    fn cut_power(&mut self, calls: u64, outcome: u8) -> Result<(), NoFuse>
        ensures answers { IsOk result }
        ensures left { calls ≡ 0 → CutsBy outcome self.old self.new }
        ensures outcome { calls ≡ 0 → LeavesBy outcome self.old.state self.new.state }
        ensures now { calls ≡ 0 → CutsPower self.old.state self.new.state
            × (self.new ≡ record self.old { state = self.new.state; power = false; fuse = None }) }
        ensures armed { 0 < calls → self.new ≡ record self.old { fuse = Some (calls, outcome) } }
    {
        self.fuse = None;
        if calls == 0 {
            self.lose(outcome);
            return Ok(());
        }
        self.fuse = Some(Fuse { calls, outcome });
        Ok(())
    }

    fn restore_power(&mut self)
        ensures { self.new ≡ record self.old { power = true; fuse = None } }
    {
        self.powered = true;
        self.fuse = None;
    }

    fn is_file(&self) -> bool
        ensures { result ≡ false }
    {
        let _powered = self.powered;
        false
    }
}
