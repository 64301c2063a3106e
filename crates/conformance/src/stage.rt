use super::checks::{Check, Played, first_difference};
use super::sections::Section;
use anyhow::{Context, Result, bail, ensure};
use app_flows::AppFlow;
use contract_verify::ContractBook;
use disk_mem::MemDisk;
use node_disks::NodeDisks;
use node_shell::run;
use outside::{Bay, Disk, MemSink, MemSource, NoGate};
use std::alloc::{AllocError, Global};
use std::mem;
use std::sync::Wait;
use std::thread::Threads;

/// How many bytes of answers a run may write. One that writes more ends with the status of a failed write.
const ROOM: usize = 4_194_304;

/// Where cases are played: the disks of the case that is under way, the calls that are to fail in its next run, and how its last run
/// ended.
#[derive(Drop)]
pub struct Stage<'a> {
    name: &'a str,
    disks: Vec<NodeDisks<MemDisk>>,
    failing_reads: Vec<u64>,
    failing_writes: Vec<u64>,
    played: Option<Played>,
}

/// The disks of a run, all empty.
fn empty_disks(alloc: Global) -> Result<Vec<NodeDisks<MemDisk>>, AllocError> {
    let mut disks = Vec::new(alloc);
    for _ in 0..16u8 {
        disks.push(NodeDisks {
            first: MemDisk::new(alloc),
            second: MemDisk::new(alloc),
        })?;
    }
    Ok(disks)
}

/// The bytes that lines spell in hexadecimal, one line after the other.
fn bytes_of(alloc: Global, lines: &str) -> Result<Vec<u8>> {
    let mut bytes = Vec::new(alloc);
    for line in lines.lines() {
        bytes.extend_from_slice(hex::decode(alloc, line)?.as_slice())?;
    }
    Ok(bytes)
}

/// The numbers that stand in a section's first line.
fn numbers_of(alloc: Global, values: &str) -> Result<Vec<u64>> {
    let mut numbers = Vec::new(alloc);
    for value in values.split_whitespace() {
        numbers.push(value.parse::<u64>()?)?;
    }
    Ok(numbers)
}

/// The words of a run, parted by spaces.
fn words_of(alloc: Global, values: &str) -> Result<Vec<String>, AllocError> {
    values
        .split_whitespace()
        .map(|word| String::from_str(alloc, word))
        .try_collect(alloc)
}

/// The lines, and behind them this many `#`.
fn filled(alloc: Global, lines: &str, count: usize) -> Result<String> {
    let mut bytes = lines.as_bytes().to_vec(alloc)?;
    let length = bytes.len().saturating_add(count);
    bytes.resize(length, b'#')?;
    String::from_utf8(bytes)
        .ok()
        .context("the lines are no text")
}

/// A disk that holds the bytes.
fn disk_of(alloc: Global, bytes: &[u8]) -> Result<MemDisk> {
    let mut disk = MemDisk::new(alloc);
    disk.make_room(alloc, bytes.len() as u64, 1)?;
    disk.write_at(0, bytes).ok().context("a write failed")?;
    disk.sync().ok().context("a sync failed")?;
    Ok(disk)
}

/// What a disk holds.
fn content(alloc: Global, disk: &mut MemDisk) -> Result<Vec<u8>> {
    let length = disk.length().ok().context("a disk has no power")?;
    let mut bytes = vec![in alloc; 0u8; length as usize]?;
    disk.read_at(0, bytes.as_mut_slice())
        .ok()
        .context("a read failed")?;
    Ok(bytes)
}

impl<'a> Stage<'a> {
    /// A stage with no case on it.
    pub fn new(alloc: Global) -> Stage<'a> {
        Stage {
            name: "before the first case",
            disks: Vec::new(alloc),
            failing_reads: Vec::new(alloc),
            failing_writes: Vec::new(alloc),
            played: None,
        }
    }

    /// The name of the case that is under way.
    pub fn name(&self) -> &'a str {
        self.name
    }

    /// Makes room for the next case.
    fn begin(&mut self, alloc: Global, name: &'a str) -> Result<()> {
        self.name = name;
        self.played = None;
        self.failing_reads.clear();
        self.failing_writes.clear();
        self.disks = empty_disks(alloc)?;
        Ok(())
    }

    /// The disk at a place: node `n` has those at `2n` and `2n + 1`.
    fn disk_at(&mut self, place: usize) -> Result<&mut MemDisk> {
        let own = self
            .disks
            .get_mut(place / 2)
            .context("no disk at that place")?;
        if place % 2 == 0 {
            Ok(&mut own.first)
        } else {
            Ok(&mut own.second)
        }
    }

    /// The disk whose place stands in a section's first line.
    fn disk(&mut self, values: &str) -> Result<&mut MemDisk> {
        let place = values.parse::<usize>()?;
        self.disk_at(place)
    }

    /// Cuts the power of a disk, now or at one of its next writes and syncs.
    fn cut(&mut self, alloc: Global, values: &str) -> Result<()> {
        let numbers = numbers_of(alloc, values)?;
        let [place, calls, outcome] = numbers.as_slice() else {
            bail!("a cut has a place, a number of calls and an outcome")
        };
        ensure!(*outcome <= 3, "no outcome of that number");
        let disk = self.disk_at(*place as usize)?;
        disk.cut_power(*calls, *outcome as u8)
            .ok()
            .context("no cut")
    }

    /// Plays a script over the disks that stand there.
    fn run<R: Threads + Wait + Sync>(
        &mut self,
        rt: &R,
        alloc: Global,
        values: &str,
        script: &str,
        contracts: &ContractBook,
    ) -> Result<()> {
        let words = words_of(alloc, values)?;
        let reads = mem::replace(&mut self.failing_reads, Vec::new(alloc));
        let writes = mem::replace(&mut self.failing_writes, Vec::new(alloc));
        let mut source = MemSource::new(script.as_bytes().to_vec(alloc)?, reads);
        let mut answers = MemSink::new(alloc, ROOM, writes)?;
        let disks = mem::replace(&mut self.disks, Vec::new(alloc));
        ensure!(disks.len() == 16, "no case is under way");
        let ended = run::<_, _, _, _, AppFlow, _, _>(
            rt,
            alloc,
            words.as_slice(),
            &mut source,
            &mut answers,
            disks,
            contracts,
            &NoGate,
        );
        self.disks = ended.disks;
        self.played = Some(Played {
            status: ended.status,
            answers,
        });
        Ok(())
    }

    /// Compares how the last run ended with the status and the answers that are wanted.
    fn compare(&self, alloc: Global, status: &str, wanted: &str) -> Result<Option<String>> {
        let played = self.played.as_ref().context("nothing was played")?;
        let status = status.parse::<u8>()?;
        if played.is_wanted(status, wanted) {
            return Ok(None);
        }
        let got = str::from_utf8(played.answers.bytes())?;
        let line = first_difference(alloc, got, wanted)?;
        let got = played.status;
        Ok(Some(format!(in alloc; "status {got}, wanted {status}{line}")?))
    }

    /// Compares what a disk holds with what is wanted.
    fn compare_disk(&mut self, alloc: Global, place: &str, lines: &str) -> Result<Option<String>> {
        let got = content(alloc, self.disk(place)?)?;
        let wanted = bytes_of(alloc, lines)?;
        if got == wanted {
            return Ok(None);
        }
        let got = hex::encode(alloc, got.as_slice())?;
        Ok(Some(format!(in alloc; "disk {place} holds {got}")?))
    }

    /// Does what a section says, and tells what a check found.
    ///
    /// # Errors
    ///
    /// Where there is no such section, or it can't be done, and for want of memory.
    pub fn take<R: Threads + Wait + Sync>(
        &mut self,
        rt: &R,
        alloc: Global,
        section: &Section<'a>,
        contracts: &ContractBook,
    ) -> Result<Option<Check>> {
        let Section {
            word,
            values,
            lines,
        } = *section;
        match word {
            "case" => self.begin(alloc, values)?,
            "disk" => {
                let bytes = bytes_of(alloc, lines)?;
                *self.disk(values)? = disk_of(alloc, bytes.as_slice())?;
            }
            "cut" => self.cut(alloc, values)?,
            "power" => self.disk(values)?.restore_power(),
            "failing-reads" => self.failing_reads = numbers_of(alloc, values)?,
            "failing-writes" => self.failing_writes = numbers_of(alloc, values)?,
            "run" => self.run(rt, alloc, values, lines, contracts)?,
            "run-unended" => {
                let script = lines.strip_suffix('\n').unwrap_or(lines);
                self.run(rt, alloc, values, script, contracts)?;
            }
            "run-filled" => {
                let (count, words) = values.split_once(' ').unwrap_or((values, ""));
                let script = filled(alloc, lines, count.parse::<usize>()?)?;
                self.run(rt, alloc, words, script.as_str(), contracts)?;
            }
            "answers" | "differs" => {
                return Ok(Some(Check {
                    difference: self.compare(alloc, values, lines)?,
                    differs: word == "differs",
                }));
            }
            "holds" => {
                return Ok(Some(Check {
                    difference: self.compare_disk(alloc, values, lines)?,
                    differs: false,
                }));
            }
            _ if word.starts_with('#') => {}
            _ => bail!("no section `@{word}`"),
        }
        Ok(None)
    }
}
