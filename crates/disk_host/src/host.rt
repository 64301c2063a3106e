ghost use Rattle.std.specs.Prelude.{◌≡◌, ◌≤◌, [], true, false, None, Some, IsNone, IsSome, IsOk, IsErrOf, OnOk, OnErr, option_map};
ghost use Rattle.outside.specs.Disk.{by_itself, clean};
ghost use Rattle.outside.specs.Faults.{HasCause, Rose};
ghost use Rattle.disk_host.specs.Host.{file_view};

use crate::file::LockedFile;
use disk_mem::MemDisk;
use outside::{AttachFault, Bay, Disk, Failed, NoFuse};
use std::alloc::{AllocError, Global};
use std::fs::File;
use std::marker::Model;
use std::rt::Files;

/// A disk in memory, or, once it was attached to a folder, over a file.
///
/// In memory it is a [`MemDisk`]. Over a file it tells nothing of its content and is never
/// calm: whether a real file keeps what was written no contract can say. What is promised of it
/// is that it answers [`Failed`] only where its count of faults rose, that it has no fuse, and
/// that it stays a file.
#[derive(Drop)]
pub struct HostDisk<'a, R: Files<File = File>> {
    rt: &'a R,
    // The disk where there is no file. Beside a file nothing of it is read but what the bay was
    // attached as.
    memory: MemDisk,
    file: Option<LockedFile>,
    faults: u64,
}

impl<'a, R: Files<File = File>> Model for HostDisk<'a, R> {
    ghost use Rattle.outside.specs.Disk.{DiskSeen};
    ghost use Rattle.disk_host.specs.Host.{host_of};

    ghost Value = { DiskSeen };

    ghost view = { λ d. host_of d.file d.memory d.faults };
}

impl<'a, R: Files<File = File>> HostDisk<'a, R> {
    /// An empty disk in memory, with power and no fuse. Takes no memory. Files are opened by
    /// way of `rt`.
    pub fn new(alloc: Global, rt: &'a R) -> HostDisk<'a, R>
        ensures state { result.state ≡ record { kept = []; now = clean []; past = [] } }
        ensures tells { result.tells ≡ true }
        ensures calm { (result.calm ≡ true) × (result.power ≡ true) × (result.fuse ≡ None)
            × (result.faults ≡ 0) }
        ensures attached { result.attached ≡ by_itself None }
    {
        HostDisk {
            rt,
            memory: MemDisk::new(alloc),
            file: None,
            faults: 0,
        }
    }

    /// Counts a failure.
    fn fail(&mut self) -> Failed
        ensures same { self.new ≡ record self.old { faults = self.new.faults } }
        ensures rose { Rose self.old.faults self.new.faults × (self.old.faults ≤ self.new.faults) }
    {
        self.faults = self.faults.saturating_add(1);
        Failed
    }
}

impl<'a, R: Files<File = File>> Disk for HostDisk<'a, R> {
    ghost seen = { λ d. d };

    fn length(&mut self) -> Result<u64, Failed> {
        let length = match &self.file {
            Some(file) => file.length(),
            None => self.memory.length(),
        };
        match length {
            Ok(length) => Ok(length),
            Err(Failed) => Err(self.fail()),
        }
    }

    fn read_at(&mut self, at: u64, into: &mut [u8]) -> Result<(), Failed> {
        let read = match &self.file {
            Some(file) => file.read_at(at, into),
            None => self.memory.read_at(at, into),
        };
        match read {
            Ok(()) => Ok(()),
            Err(Failed) => Err(self.fail()),
        }
    }

    fn write_at(&mut self, at: u64, from: &[u8]) -> Result<(), Failed> {
        let written = match &self.file {
            Some(file) => file.write_at(at, from),
            None => self.memory.write_at(at, from),
        };
        match written {
            Ok(()) => Ok(()),
            Err(Failed) => Err(self.fail()),
        }
    }

    fn sync(&mut self) -> Result<(), Failed> {
        let synced = match &mut self.file {
            Some(file) => file.sync(),
            None => self.memory.sync(),
        };
        match synced {
            Ok(()) => Ok(()),
            Err(Failed) => Err(self.fail()),
        }
    }

    fn make_room(&mut self, alloc: Global, end: u64, writes: u32) -> Result<(), AllocError> {
        match &self.file {
            Some(_) => Ok(()),
            None => self.memory.make_room(alloc, end, writes),
        }
    }
}

impl<'a, R: Files<File = File>> Bay for HostDisk<'a, R> {
    fn attach(&mut self, alloc: Global, dir: Option<&str>, name: &str) -> Result<(), AttachFault>
        ensures file { IsSome dir.entry → OnOk result
            (self.new ≡ file_view self.old.faults self.new.attached.own) }
        ensures done { IsNone dir.entry → IsOk result }
        ensures beside { self.new.attached.beside ≡ self.old.attached.beside }
        ensures attached { OnOk result (self.new.attached.own
            ≡ Some (record { folder = option_map (λ s. s.now) dir.entry; name = name.now })) }
        ensures in_memory { IsNone dir.entry
            → self.new ≡ record self.old {
              faults = self.new.faults;
              attached = self.new.attached;
            } }
        ensures calm { IsNone dir.entry → self.old.calm ≡ true
            → ¬ (IsErrOf result AttachFault.Failed) }
        ensures refused { OnErr result (self.new ≡ record self.old { faults = self.new.faults }) }
        ensures silent { self.old.tells ≡ false → self.new.tells ≡ false }
        ensures later { self.old.faults ≤ self.new.faults }
        ensures cause { IsErrOf result AttachFault.Failed → Rose self.old.faults self.new.faults }
        ensures uncounted { (IsErrOf result AttachFault.Failed → ⊥)
            → self.new.faults ≡ self.old.faults }
    {
        if let Some(dir) = dir {
            match LockedFile::open(self.rt, alloc, dir, name) {
                Ok(file) => self.file = Some(file),
                Err(AttachFault::Memory) => return Err(AttachFault::Memory),
                Err(AttachFault::Failed) => {
                    self.fail();
                    return Err(AttachFault::Failed);
                }
            }
        }
        self.memory.attach(alloc, dir, name)
    }

    fn cut_power(&mut self, calls: u64, outcome: u8) -> Result<(), NoFuse> {
        match &self.file {
            Some(_) => Err(NoFuse),
            None => self.memory.cut_power(calls, outcome),
        }
    }

    fn restore_power(&mut self) {
        if self.file.is_none() {
            self.memory.restore_power();
        }
    }

    fn is_file(&self) -> bool {
        self.file.is_some()
    }
}
