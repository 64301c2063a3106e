//! The file of a disk: each function makes calls of the system, whose answers no contract tells.

use outside::{AttachFault, Failed};
use std::alloc::Global;
use std::fs::{self, File, OpenOptions};
use std::io::{self, ErrorKind};
use std::os::unix::fs::FileExt;
use std::rt::Files;

/// An open file, locked so that no other process opens it as one.
#[derive(Drop)]
pub struct LockedFile {
    file: File,
    // A sync failed. The kernel may have dropped what was to be written and yet report the next
    // sync as done, so nothing that this open file says is trusted any more.
    is_lost: bool,
}

/// Opens the file for reading and writing, and makes it where it is missing.
///
/// The file and its folder are synced, so that what is read is on the device, also the name of
/// a file that was just made.
fn open_locked<R: Files<File = File>>(rt: &R, dir: &str, path: &str) -> io::Result<File> {
    if !fs::metadata(rt, dir)?.is_dir() {
        return Err(ErrorKind::NotADirectory.into());
    }
    let mut how = OpenOptions::new();
    how.read(true).write(true).create(true);
    let file = how.open(rt, path)?;
    file.try_lock()?;
    file.sync_all()?;
    File::open(rt, dir)?.sync_all()?;
    Ok(file)
}

impl LockedFile {
    /// Opens the file of this name in a folder, and makes it where it is missing. The folder
    /// has to be there.
    pub fn open<R: Files<File = File>>(
        rt: &R,
        alloc: Global,
        dir: &str,
        name: &str,
    ) -> Result<LockedFile, AttachFault> {
        let Ok(path) = format!(in alloc; "{dir}/{name}") else {
            return Err(AttachFault::Memory);
        };
        match open_locked(rt, dir, path.as_str()) {
            Ok(file) => Ok(LockedFile {
                file,
                is_lost: false,
            }),
            Err(_) => Err(AttachFault::Failed),
        }
    }

    /// The length of the file in bytes.
    pub fn length(&self) -> Result<u64, Failed> {
        if self.is_lost {
            return Err(Failed);
        }
        match self.file.metadata() {
            Ok(data) => Ok(data.len()),
            Err(_) => Err(Failed),
        }
    }

    /// Fills the slice from a place on. A file that ends before is a fault.
    pub fn read_at(&self, at: u64, into: &mut [u8]) -> Result<(), Failed> {
        if self.is_lost {
            return Err(Failed);
        }
        match self.file.read_exact_at(into, at) {
            Ok(()) => Ok(()),
            Err(_) => Err(Failed),
        }
    }

    /// Writes all bytes from a place on. After a fault any part of them may stand.
    pub fn write_at(&self, at: u64, from: &[u8]) -> Result<(), Failed> {
        if self.is_lost {
            return Err(Failed);
        }
        match self.file.write_all_at(from, at) {
            Ok(()) => Ok(()),
            Err(_) => Err(Failed),
        }
    }

    /// Has the device keep all that was written, and the length (`fdatasync`).
    pub fn sync(&mut self) -> Result<(), Failed> {
        if self.is_lost {
            return Err(Failed);
        }
        match self.file.sync_data() {
            Ok(()) => Ok(()),
            Err(_) => {
                self.is_lost = true;
                Err(Failed)
            }
        }
    }
}
