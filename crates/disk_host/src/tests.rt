use crate::{HostDisk, StdSink, StdSource};
use outside::{AttachFault, Bay, Disk, Failed, NoFuse, Sink, Source};
use std::alloc::Global;
use std::fs::{self, File, OpenOptions};
use std::test::Fail;

const FOLDER: &str = "disk_host_test";

// Makes the file, and writes four bytes, and three over the last two of them: whether it is a file, how long it was, and how a cut is answered.
fn write_five(
    alloc: Global,
    disk: &mut HostDisk<'_, HostRuntime>,
) -> Option<(bool, u64, Result<(), NoFuse>)> {
    disk.attach(alloc, Some(FOLDER), "a").ok()?;
    let length = disk.length().ok()?;
    disk.make_room(alloc, 8, 2).ok()?;
    disk.write_at(0, b"abcd").ok()?;
    disk.write_at(2, b"xyz").ok()?;
    disk.sync().ok()?;
    Some((disk.is_file(), length, disk.cut_power(0, 1)))
}

// The file's length, its last four bytes, and how four bytes that pass its end are answered.
fn read_four(
    alloc: Global,
    disk: &mut HostDisk<'_, HostRuntime>,
) -> Option<(u64, [u8; 4], Result<(), Failed>)> {
    disk.attach(alloc, Some(FOLDER), "a").ok()?;
    let length = disk.length().ok()?;
    let mut back = [0; 4];
    disk.read_at(1, &mut back).ok()?;
    let mut past = [0; 4];
    Some((length, back, disk.read_at(2, &mut past)))
}

// A file keeps its bytes from one disk to the next, has no fuse, and is one disk's at a time.
#[test]
fn a_file_keeps_its_bytes(rt: HostRuntime) -> Result<(), Fail> {
    let alloc = rt.alloc();
    let _ = fs::remove_dir_all(&rt, FOLDER);
    fs::create_dir(&rt, FOLDER)?;
    let mut disk = HostDisk::new(alloc, &rt);
    let mut other = HostDisk::new(alloc, &rt);
    let written = write_five(alloc, &mut disk);
    let held = other.attach(alloc, Some(FOLDER), "a");
    let is_file = other.is_file();
    drop(disk);
    let read = read_four(alloc, &mut other);
    drop(other);
    fs::remove_dir_all(&rt, FOLDER)?;
    assert_eq!(rt; written, Some((true, 0, Err(NoFuse))));
    assert_eq!(rt; held, Err(AttachFault::Failed));
    assert!(rt; !is_file);
    assert_eq!(rt; read, Some((5, *b"bxyz", Err(Failed))));
    Ok(())
}

// A source over a reader gives its bytes; a folder opens as a file of which each read fails.
#[test]
fn a_source_counts_failed_reads(rt: HostRuntime) -> Result<(), Fail> {
    let mut source = StdSource::new(b"abc".as_slice());
    let mut into = [0; 2];
    assert_eq!(rt; source.read(&mut into), Ok(2));
    assert_eq!(rt; into, *b"ab");
    assert_eq!(rt; source.read(&mut into), Ok(1));
    assert_eq!(rt; source.read(&mut into), Ok(0));
    let mut source = StdSource::new(File::open(&rt, ".")?);
    assert_eq!(rt; source.read(&mut into), Err(Failed));
    Ok(())
}

// A sink over a writer hands its bytes on; a device without room fails each write.
#[test]
fn a_sink_counts_failed_writes(rt: HostRuntime) -> Result<(), Fail> {
    let mut how = OpenOptions::new();
    how.write(true);
    let mut sink = StdSink::new(how.open(&rt, "/dev/null")?);
    assert_eq!(rt; sink.write(b"abc"), Ok(3));
    let mut sink = StdSink::new(how.open(&rt, "/dev/full")?);
    assert_eq!(rt; sink.write(b"abc"), Err(Failed));
    assert_eq!(rt; sink.write(b""), Ok(0));
    Ok(())
}
