ghost use Rattle.std.specs.Prelude.{◌≡◌, ◌≤◌, ◌<◌, ◌+◌, ◌++◌, ◌∷◌, [], ◌↔◌, ℕ, length, true, Some, false, OnOk, OnErr, IsErr, IsErrOf, IfOk, IfErr, MatchResult, None, List, ◌⊎◌, vec_capacity, ◌^◌};
ghost use Rattle.outside.specs.Disk.{EachImage, IfTold, SameRest, IsImage, clean, burnt, burnt_by, Burns, BurnsUpTo};
ghost use Rattle.outside.specs.Faults.{Rose};
ghost use Rattle.net_base.specs.Names.{IsIdentity};
ghost use Rattle.disk_journal.specs.Journal.{IsReady, HasRoom, IsSound, IsYoung, IsOldOrNew, GivesUp, WasSpelt, journal_of, is_full_at, entry, refusal, placed, size_of, is_unformatted, formatted, opening_calls};

use crate::fault::{AppendFault, OpenFault};
use crate::open::prepare;
use net_base::{Identity, RecordList};
use outside::{Bay, Disk, NoFuse, write_synced};
use std::alloc::{AllocError, Global};
use std::marker::Model;

/// A journal that was not opened: its disk comes back.
#[derive(Drop)]
pub struct OpenRefused<D: Disk> {
    pub disk: D,
    pub why: OpenFault,
}

/// The journal of a node over its disk: records behind gates, each of which is there whole or not at all after a power cut.
///
/// Byte 0 is the format gate, bytes 1 to 15 name the format and the node, and byte 16 is the first record's gate. A record
/// is its gate, 1 where it is open, the length of its body in four bytes, most significant first, and its body of at most
/// 524,288 bytes. The next gate stands behind it. The first gate that isn't open ends the journal.
///
/// Each step of formatting and of appending is one write and one sync, as a fuse of the disk counts them.
#[derive(Drop)]
pub struct Journal<D: Disk> {
    disk: D,
    of: Identity,
    length: u64,
    count: u32,
    buffer: Vec<u8>,
}

impl<D: Disk> Model for Journal<D> {
    ghost use Rattle.std.specs.Prelude.{◌≤◌, vec_capacity};
    ghost use Rattle.disk_journal.specs.Journal.{JournalSeen};

    ghost Value = { JournalSeen };

    ghost view = { λ j. record {
      disk = D.seen j.disk;
      of = j.of;
      length = j.length;
      count = j.count;
      buffer = vec_capacity j.buffer;
    } };

    ghost invariant = { λ j. 17 ≤ j.length };
}

/// Spells the length, the body and a closed gate, where there is room.
fn spell(buffer: &mut Vec<u8>, body: &[u8])
    requires small { length body.now < 2 ^ 32 }
    requires room { 5 + length body.now ≤ vec_capacity buffer.old }
    ensures items { buffer.new.items ≡ entry body.now }
    ensures capacity { vec_capacity buffer.old ≤ vec_capacity buffer.new }
{
    buffer.clear();
    buffer
        .extend_from_slice(&(body.len() as u32).to_be_bytes())
        .unwrap();
    buffer.extend_from_slice(body).unwrap();
    buffer.push(0).unwrap();
}

impl<D: Disk> Journal<D> {
    /// Opens the journal of a node, and gives its records, each with the place of its gate in bytes from the start.
    ///
    /// It syncs the disk and reads all of it. Where no journal was begun or finished, it formats the disk: byte 0 is
    /// written as 0, unless it reads so, then bytes 1 to 16, then byte 0 as 1, and each of these writes is synced. No other
    /// disk is written: at each moment a power cut leaves there what it might have left before the call.
    ///
    /// The identity's party and notary are below 16, and it has 1 to 16 nodes. A refusal leaves each byte as it was, synced,
    /// and the power on, but for [`OpenFault::Fault`]: what that leaves spells records that a power cut might have left
    /// before.
    pub fn open(
        alloc: Global,
        disk: D,
        identity: Identity,
    ) -> Result<(Journal<D>, RecordList), OpenRefused<D>>
        requires { IsIdentity identity }
        ensures opened { (D.seen disk).tells ≡ true
            → OnOk result (refusal identity (D.seen disk).state.kept ≡ None) }
        ensures list { (D.seen disk).tells ≡ true
            → IfOk result (λ r. r.1 ≡ placed 16 (journal_of (D.seen disk).state.kept)) }
        ensures ready { IfOk result (λ r. IsReady r.0 × (r.0.of ≡ identity)) }
        ensures same { IfOk result (λ r. IfTold (D.seen disk) r.0.disk
            (λ d e. journal_of e.kept ≡ journal_of d.kept)) }

        // Also over a disk that tells nothing.
        ensures counts { IfOk result (λ r. (r.0.count ≡ length r.1)
            × (r.0.length ≡ 17 + size_of r.1) × (r.0.count ≤ 65536)) }
        ensures refused { (D.seen disk).tells ≡ true
            → IfErr result (λ r. GivesUp r.why
            ⊎ (refusal identity (D.seen disk).state.kept ≡ Some r.why)) }

        // Over a disk that had length 0 once nothing else can come.
        ensures begun { (D.seen disk).tells ≡ true → IsYoung identity (D.seen disk).state.kept
            → IfErr result (λ r. GivesUp r.why) }
        ensures kept { IfErr result (λ r. (r.why ≡ OpenFault.Fault → ⊥)
            → IfTold (D.seen disk) (D.seen r.disk)
            (λ d e. journal_of e.kept ≡ journal_of d.kept)) }

        // Only a disk on which no journal was begun, or not finished, is written, and that not before a refusal for want of
        // memory.
        ensures left { IfOk result (λ r. IfTold (D.seen disk) r.0.disk
            (λ d e. e.kept ≡ formatted identity d.kept)) }
        ensures bytes { IfErr result (λ r. (r.why ≡ OpenFault.Fault → ⊥)
            → IfTold (D.seen disk) (D.seen r.disk)
            (λ d e. (e.kept ≡ d.kept) × (e.now ≡ clean e.kept))) }
        ensures unwritten { MatchResult result
            (λ r. IfTold (D.seen disk) r.0.disk
            (λ d e. is_unformatted d.kept ≡ false → EachImage d e (IsImage d.now)))
            (λ r. IfTold (D.seen disk) (D.seen r.disk)
            (λ d e. is_unformatted d.kept ≡ false
            → EachImage d e (IsImage d.now) × IsImage d.now e.kept)) }

        // A fuse counts each write and sync.
        ensures fuse { (D.seen disk).tells ≡ true
            → IfOk result (λ r. r.0.disk.fuse ≡ burnt_by (opening_calls (D.seen disk).state.kept)
            (D.seen disk).fuse) }
        ensures power { IfOk result (λ r. ((D.seen disk).power ≡ true) × (r.0.disk.power ≡ true)) }

        // A refusal that is no fault comes after the one sync alone, with the power on.
        ensures refused_fuse { IfErr result
            (λ r. (r.why ≡ OpenFault.Fault → ⊥) → (D.seen r.disk).fuse ≡ burnt (D.seen disk).fuse) }
        ensures refused_power { IfErr result
            (λ r. (r.why ≡ OpenFault.Fault → ⊥)
            → ((D.seen disk).power ≡ true) × ((D.seen r.disk).power ≡ true)) }

        // No call of it brings power back, and where a fuse ends within its calls, it fails.
        ensures burns { (D.seen disk).tells ≡ true
            → IfOk result (λ r. Burns (opening_calls (D.seen disk).state.kept)
            (D.seen disk) r.0.disk) }
        ensures refused_burns { IfErr result
            (λ r. (r.why ≡ OpenFault.Fault → ⊥) → Burns 1 (D.seen disk) (D.seen r.disk)) }
        ensures no_more { MatchResult result
            (λ r. BurnsUpTo 7 (D.seen disk) r.0.disk)
            (λ r. BurnsUpTo 7 (D.seen disk) (D.seen r.disk)) }

        // What was kept as the call began was one of the images then.
        ensures was { (D.seen disk).tells ≡ true
            → IsImage (D.seen disk).state.now (D.seen disk).state.kept }

        // At each moment each image spells a list that an image spelt as the call began,
        ensures moments { MatchResult result
            (λ r. IfTold (D.seen disk) r.0.disk (λ d e. EachImage d e (WasSpelt d)))
            (λ r. IfTold (D.seen disk) (D.seen r.disk)
            (λ d e. EachImage d e (WasSpelt d) × WasSpelt d e.kept)) }

        // is one over which an opening gives no refusal, where each image was,
        ensures young { MatchResult result
            (λ r. IfTold (D.seen disk) r.0.disk
            (λ d e. ((c : List ℕ) → IsImage d.now c → IsYoung identity c)
            → EachImage d e (IsYoung identity)))
            (λ r. IfTold (D.seen disk) (D.seen r.disk)
            (λ d e. ((c : List ℕ) → IsImage d.now c → IsYoung identity c)
            → EachImage d e (IsYoung identity))) }

        // and is sound, where each image was.
        ensures sound { MatchResult result
            (λ r. IfTold (D.seen disk) r.0.disk
            (λ d e. ((c : List ℕ) → IsImage d.now c → IsSound identity c)
            → EachImage d e (IsSound identity)))
            (λ r. IfTold (D.seen disk) (D.seen r.disk)
            (λ d e. ((c : List ℕ) → IsImage d.now c → IsSound identity c)
            → EachImage d e (IsSound identity))) }
        ensures cause { IfErr result (λ r. r.why ≡ OpenFault.Fault
            → Rose (D.seen disk).faults (D.seen r.disk).faults) }
        ensures later { MatchResult result (λ r. (D.seen disk).faults ≤ r.0.disk.faults)
            (λ r. (D.seen disk).faults ≤ (D.seen r.disk).faults) }
        ensures calm { (D.seen disk).calm ≡ true
            → MatchResult result (λ r. r.0.disk.calm ≡ true)
            (λ r. ((D.seen r.disk).calm ≡ true) × (r.why ≡ OpenFault.Fault → ⊥)) }
        ensures attached { MatchResult result (λ r. r.0.disk.attached ≡ (D.seen disk).attached)
            (λ r. (D.seen r.disk).attached ≡ (D.seen disk).attached) }
        ensures of_file { MatchResult result
            (λ r. (r.0.disk.of_file ≡ (D.seen disk).of_file)
            × (r.0.disk.tells ≡ (D.seen disk).tells))
            (λ r. ((D.seen r.disk).of_file ≡ (D.seen disk).of_file)
            × ((D.seen r.disk).tells ≡ (D.seen disk).tells)) }
    {
        let mut disk = disk;
        match prepare(alloc, &mut disk, &identity) {
            Ok(reading) => {
                let journal = Journal {
                    disk,
                    of: identity,
                    length: reading.gate + 1,
                    count: reading.count,
                    buffer: Vec::new(alloc),
                };
                Ok((journal, reading.list))
            }
            Err(why) => Err(OpenRefused { disk, why }),
        }
    }

    /// Makes room for one record with a body of this number of bytes. It changes nothing else.
    pub fn make_room(&mut self, alloc: Global, bytes: usize) -> Result<(), AllocError>
        ensures room { OnOk result (HasRoom self.new bytes) }
        ensures more { (size : ℕ) → HasRoom self.old size → HasRoom self.new size }
        ensures same { self.new ≡ record self.old {
          disk = self.new.disk;
          buffer = self.new.buffer;
        } }
        ensures disk { self.new.disk ≡ record self.old.disk {
          room_end = self.new.disk.room_end;
          room_writes = self.new.disk.room_writes;
        } }
        ensures ready { IsReady self.old → IsReady self.new }
    {
        let size = bytes.checked_add(5).ok_or(AllocError)?;
        let end = self.length.checked_add(size as u64).ok_or(AllocError)?;
        self.disk.make_room(alloc, end, 2)?;
        self.buffer.clear();
        self.buffer.reserve(size)
    }

    /// How many records there are.
    pub fn count(&self) -> u32
        ensures { result ≡ self.now.count }
    {
        self.count
    }

    /// One more than the place of the closed gate that ends the journal, in bytes, whatever stands behind it.
    pub fn length(&self) -> u64
        ensures { result ≡ self.now.length }
    {
        self.length
    }

    /// The disk, and no journal any more.
    pub fn into_disk(self) -> D
        ensures { D.seen result ≡ self.disk }
    {
        let Journal { disk, .. } = self;
        disk
    }

    /// Whether it takes no more records: it has 65,536, or its length is above 133,693,435 bytes.
    pub fn is_full(&self) -> bool
        ensures { result ≡ is_full_at self.now.count self.now.length }
    {
        self.count >= 65_536 || self.length > 133_693_435
    }

    /// Appends a record, by four writes and syncs of the disk: the length, the body and a closed gate behind the open place
    /// are written and synced, and then the gate in front is opened and synced.
    ///
    /// The body has at most 524,288 bytes, and there is room for it. No earlier call answered [`AppendFault::Fault`].
    /// After `Ok` each image has the record. After [`AppendFault::Fault`] it may stand or not.
    pub fn append(&mut self, body: &[u8]) -> Result<(), AppendFault>
        requires ready { IsReady self.old }
        requires room { HasRoom self.old (length body.now) }
        requires small { length body.now ≤ 524288 }
        ensures full { IsErrOf result AppendFault.Full ↔ is_full_at self.old.count self.old.length
            ≡ true }
        ensures unchanged { IsErrOf result AppendFault.Full → self.new ≡ self.old }
        ensures ready { OnOk result (IsReady self.new) }
        ensures done { OnOk result (IfTold self.old.disk self.new.disk
            (λ d e. journal_of e.kept ≡ journal_of d.kept ++ body.now ∷ [])) }
        ensures counts { OnOk result ((self.new.length ≡ self.old.length + 5 + length body.now)
            × (self.new.count ≡ self.old.count + 1)) }
        ensures fuse { OnOk result (self.new.disk.fuse ≡ burnt_by 4 self.old.disk.fuse) }
        ensures power { OnOk result ((self.old.disk.power ≡ true) × (self.new.disk.power ≡ true)) }

        // No call of it brings power back, and where a fuse ends within its calls, it fails.
        ensures burns { OnOk result (Burns 4 self.old.disk self.new.disk) }
        ensures no_more { BurnsUpTo 4 self.old.disk self.new.disk }

        // At each moment each image spells the old records or these with the new one, and is sound.
        ensures moments { IfTold self.old.disk self.new.disk
            (λ d e. EachImage d e (λ c. IsOldOrNew (journal_of d.kept) body.now c
            × IsSound self.old.of c)) }
        ensures kept { IfTold self.old.disk self.new.disk
            (λ d e. IsOldOrNew (journal_of d.kept) body.now e.kept) }
        ensures later { self.old.disk.faults ≤ self.new.disk.faults }
        ensures cause { IsErrOf result AppendFault.Fault
            → Rose self.old.disk.faults self.new.disk.faults }
        ensures calm { self.old.disk.calm ≡ true
            → (self.new.disk.calm ≡ true) × (IsErrOf result AppendFault.Fault → ⊥) }
        ensures rest { SameRest self.old.disk self.new.disk × (self.new.of ≡ self.old.of) }
    {
        if self.is_full() {
            return Err(AppendFault::Full);
        }
        spell(&mut self.buffer, body);
        write_synced(&mut self.disk, self.length, &self.buffer)?;
        write_synced(&mut self.disk, self.length - 1, &[1])?;
        self.length += 5 + body.len() as u64;
        self.count += 1;
        Ok(())
    }
}

impl<D: Bay> Journal<D> {
    /// Arms the fuse of the bay: its power goes at the write or sync that comes as number `calls` from now, which is at
    /// least 1, and leaves what the outcome, 0 to 3, says.
    pub fn arm(&mut self, calls: u64, outcome: u8) -> Result<(), NoFuse>
        requires calls { 0 < calls }
        requires outcome { outcome ≤ 3 }
        ensures refused { IsErr result ↔ (self.old.disk.of_file ≡ true) }
        ensures unchanged { OnErr result (self.new ≡ self.old) }
        ensures armed { OnOk result (self.new.disk
            ≡ record self.old.disk {
              fuse = Some (calls, outcome);
              calm = self.new.disk.calm;
            }) }
        ensures same { self.new ≡ record self.old { disk = self.new.disk } }
        ensures ready { IsReady self.old → IsReady self.new }
        ensures room { (size : ℕ) → HasRoom self.old size → HasRoom self.new size }
    {
        self.disk.cut_power(calls, outcome)
    }
}
