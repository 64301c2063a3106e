ghost use Rattle.std.specs.Prelude.{◌^◌, ◌≡◌, ◌≤◌, ◌<◌, ◌+◌, ◌-◌, ◌⊎◌, ◌++◌, ◌∷◌, [], ℕ, List, length, drop, true, false, Some, None, IfOk, IfErr, slice_index, ◌≢◌, OnOk, IsOk, IsErrOf};
ghost use Rattle.outside.specs.Disk.{EachImage, IfTold, SameRest, IsImage, clean, burnt, burnt_by, Burns, BurnsUpTo};
ghost use Rattle.outside.specs.Faults.{Rose, HasCause};
ghost use Rattle.net_base.specs.Names.{IsIdentity};
ghost use Rattle.disk_journal.specs.Journal.{GivesUp, WasSpelt, IsSound, IsYoung, header, journal_of, is_unformatted, refusal, placed, size_of, record_limit, extent, Opened, formatted, is_shut, formatting_calls, opening_calls};

use crate::fault::OpenFault;
use crate::scan::{Reading, found, is_same, is_shut, is_unformatted, read_records};
use net_base::{Identity, RecordList};
use outside::{Disk, Failed, write_synced};
use std::alloc::Global;

/// Reads all of the disk, and changes nothing of it.
fn read_kept<D: Disk>(alloc: Global, disk: &mut D) -> Result<Vec<u8>, OpenFault>
    ensures bytes { (D.seen disk.old).tells ≡ true
        → IfOk result (λ v. v.items ≡ (D.seen disk.old).state.kept) }
    ensures same { (D.seen disk.new).state ≡ (D.seen disk.old).state }
    ensures fuse { (D.seen disk.new).fuse ≡ (D.seen disk.old).fuse }
    ensures power { (D.seen disk.new).power ≡ (D.seen disk.old).power }
    ensures dark { (D.seen disk.old).power ≡ false → IsErrOf result OpenFault.Fault }
    ensures only { IfErr result (λ why. GivesUp why) }
    ensures later { (D.seen disk.old).faults ≤ (D.seen disk.new).faults }
    ensures cause { IsErrOf result OpenFault.Fault
        → Rose (D.seen disk.old).faults (D.seen disk.new).faults }
    ensures calm { (D.seen disk.old).calm ≡ true
        → ((D.seen disk.new).calm ≡ true) × (IsErrOf result OpenFault.Fault → ⊥) }
    ensures rest { SameRest (D.seen disk.old) (D.seen disk.new) }
{
    let n = disk.length()?;
    let mut bytes = vec![in alloc; 0u8; n as usize]?;
    disk.read_at(0, &mut bytes)?;
    Ok(bytes)
}

/// Syncs the disk and reads all of it.
#[tactic(auto, using(outside::proofs::Moments::kept_image))]
fn read_all<D: Disk>(alloc: Global, disk: &mut D) -> Result<Vec<u8>, OpenFault>
    ensures bytes { (D.seen disk.old).tells ≡ true
        → IfOk result (λ v. v.items ≡ (D.seen disk.old).state.kept) }
    ensures was { (D.seen disk.old).tells ≡ true
        → IsImage (D.seen disk.old).state.now (D.seen disk.old).state.kept }
    ensures done { OnOk result (IfTold (D.seen disk.old) (D.seen disk.new)
        (λ d e. (e.kept ≡ d.kept) × (e.now ≡ clean e.kept))) }
    ensures moments { IfTold (D.seen disk.old) (D.seen disk.new)
        (λ d e. EachImage d e (IsImage d.now)) }
    ensures kept { IfTold (D.seen disk.old) (D.seen disk.new) (λ d e. IsImage d.now e.kept) }
    ensures memory { IsErrOf result OpenFault.Memory
        → IfTold (D.seen disk.old) (D.seen disk.new)
        (λ d e. (e.kept ≡ d.kept) × (e.now ≡ clean e.kept)) }
    ensures fuse { OnOk result ((D.seen disk.new).fuse ≡ burnt (D.seen disk.old).fuse) }
    ensures power { OnOk result (((D.seen disk.old).power ≡ true)
        × ((D.seen disk.new).power ≡ true)) }
    ensures memory_fuse { IsErrOf result OpenFault.Memory
        → (D.seen disk.new).fuse ≡ burnt (D.seen disk.old).fuse }
    ensures memory_power { IsErrOf result OpenFault.Memory
        → ((D.seen disk.old).power ≡ true) × ((D.seen disk.new).power ≡ true) }
    ensures burns { Burns 1 (D.seen disk.old) (D.seen disk.new) }
    ensures only { IfErr result (λ why. GivesUp why) }
    ensures later { (D.seen disk.old).faults ≤ (D.seen disk.new).faults }
    ensures cause { IsErrOf result OpenFault.Fault
        → Rose (D.seen disk.old).faults (D.seen disk.new).faults }
    ensures calm { (D.seen disk.old).calm ≡ true
        → ((D.seen disk.new).calm ≡ true) × (IsErrOf result OpenFault.Fault → ⊥) }
    ensures rest { SameRest (D.seen disk.old) (D.seen disk.new) }
{
    disk.sync()?;
    read_kept(alloc, disk)
}

/// Writes bytes 1 to 16, and then the open format gate.
fn finish<D: Disk>(disk: &mut D, id: &Identity) -> Result<(), Failed>
    requires start { (D.seen disk.old).tells ≡ true
        → ((D.seen disk.old).state.now ≡ clean (D.seen disk.old).state.kept)
        × (0 < length (D.seen disk.old).state.kept) × (length (D.seen disk.old).state.kept ≤ 17) }
    requires end { 17 ≤ (D.seen disk.old).room_end }
    requires writes { 2 ≤ (D.seen disk.old).room_writes }
    ensures young { IfTold (D.seen disk.old) (D.seen disk.new)
        (λ d e. slice_index d.kept 0 ≡ 0 → EachImage d e (IsYoung id.now)) }
    ensures done { OnOk result (IfTold (D.seen disk.old) (D.seen disk.new)
        (λ d e. (e.kept ≡ header id.now ++ 0 ∷ []) × (e.now ≡ clean e.kept))) }
    ensures moments { IfTold (D.seen disk.old) (D.seen disk.new)
        (λ d e. EachImage d e (λ c. length c ≤ 17)) }
    ensures kept { IfTold (D.seen disk.old) (D.seen disk.new) (λ d e. length e.kept ≤ 17) }
    ensures fuse { OnOk result ((D.seen disk.new).fuse ≡ burnt_by 4 (D.seen disk.old).fuse) }
    ensures power { OnOk result (((D.seen disk.old).power ≡ true)
        × ((D.seen disk.new).power ≡ true)) }
    ensures burns { OnOk result (Burns 4 (D.seen disk.old) (D.seen disk.new)) }
    ensures no_more { BurnsUpTo 4 (D.seen disk.old) (D.seen disk.new) }
    ensures calm { (D.seen disk.old).calm ≡ true → IsOk result × ((D.seen disk.new).calm ≡ true) }
    ensures cause { HasCause (D.seen disk.old).faults (D.seen disk.new).faults result }
    ensures rest { SameRest (D.seen disk.old) (D.seen disk.new) }
{
    write_synced(disk, 1, &tail(id))?;
    write_synced(disk, 0, &[1])
}

/// Bytes 1 to 16: the header behind the format gate, and a closed gate.
#[tactic(auto, unfolding(crate::specs::Journal::header))]
fn tail(id: &Identity) -> [u8; 16]
    ensures { 1 ∷ result ≡ header id.now ++ 0 ∷ [] }
{
    [
        b'C',
        b'O',
        b'R',
        b'D',
        b'A',
        b'J',
        b'N',
        b'L',
        1,
        id.party.0,
        id.nodes,
        id.notary.0,
        0,
        0,
        0,
        0,
    ]
}

/// Formats a disk, with the format gate closed first unless it is.
fn format<D: Disk>(disk: &mut D, id: &Identity, is_shut: bool) -> Result<(), Failed>
    requires start { (D.seen disk.old).tells ≡ true
        → ((D.seen disk.old).state.now ≡ clean (D.seen disk.old).state.kept)
        × (is_shut ≡ true → (0 < length (D.seen disk.old).state.kept)
        × (slice_index (D.seen disk.old).state.kept 0 ≡ 0))
        × (is_shut ≡ false → (length (D.seen disk.old).state.kept ≡ 0)
        ⊎ (slice_index (D.seen disk.old).state.kept 0 ≢ 0))
        × (length (D.seen disk.old).state.kept ≤ 17) }
    requires end { 17 ≤ (D.seen disk.old).room_end }
    requires writes { 3 ≤ (D.seen disk.old).room_writes }
    ensures young { IfTold (D.seen disk.old) (D.seen disk.new)
        (λ d e. is_unformatted d.kept ≡ true → IsYoung id.now d.kept
        → EachImage d e (IsYoung id.now)) }
    ensures done { OnOk result (IfTold (D.seen disk.old) (D.seen disk.new)
        (λ d e. (e.kept ≡ header id.now ++ 0 ∷ []) × (e.now ≡ clean e.kept))) }
    ensures moments { IfTold (D.seen disk.old) (D.seen disk.new)
        (λ d e. EachImage d e (λ c. length c ≤ 17)) }
    ensures kept { IfTold (D.seen disk.old) (D.seen disk.new) (λ d e. length e.kept ≤ 17) }
    ensures fuse { OnOk result ((D.seen disk.new).fuse
        ≡ burnt_by (formatting_calls is_shut) (D.seen disk.old).fuse) }
    ensures power { OnOk result (((D.seen disk.old).power ≡ true)
        × ((D.seen disk.new).power ≡ true)) }
    ensures burns { OnOk result (Burns (formatting_calls is_shut) (D.seen disk.old)
        (D.seen disk.new)) }
    ensures no_more { BurnsUpTo 6 (D.seen disk.old) (D.seen disk.new) }
    ensures calm { (D.seen disk.old).calm ≡ true → IsOk result × ((D.seen disk.new).calm ≡ true) }
    ensures cause { HasCause (D.seen disk.old).faults (D.seen disk.new).faults result }
    ensures rest { SameRest (D.seen disk.old) (D.seen disk.new) }
{
    if is_shut {
        return finish(disk, id);
    }
    write_synced(disk, 0, &[0])?;
    finish(disk, id)
}

/// Reads the journal of this node, or says why it can't.
fn judge(alloc: Global, bytes: &[u8], id: &Identity) -> Result<Reading, OpenFault>
    requires { is_unformatted bytes.now ≡ false }
    ensures opened { OnOk result (refusal id.now bytes.now ≡ None) }
    ensures sound { OnOk result (IsSound id.now bytes.now) }
    ensures list { IfOk result (λ r. r.list ≡ placed 16 (journal_of bytes.now)) }
    ensures count { IfOk result (λ r. r.count ≡ length (journal_of bytes.now)) }
    ensures sizes { IfOk result (λ r. (r.count ≡ length r.list) × (r.gate ≡ 16 + size_of r.list)
        × (r.count ≤ 65536)) }
    ensures gate { IfOk result (λ r. r.gate ≡ 16 + extent record_limit (drop 16 bytes.now)) }
    ensures place { IfOk result (λ r. (16 ≤ r.gate) × (r.gate ≤ length bytes.now)) }
    ensures refused { IfErr result (λ why. (why ≡ OpenFault.Memory)
        ⊎ (refusal id.now bytes.now ≡ Some why)) }
    ensures no_fault { IsErrOf result OpenFault.Fault → ⊥ }
{
    let Some(node) = found(bytes) else {
        return Err(OpenFault::NotAJournal);
    };
    if !is_same(&node, id) {
        return Err(OpenFault::WrongNode { found: node });
    }
    let reading = read_records(alloc, bytes, 16, 65_536)?;
    if !reading.is_closed {
        return Err(OpenFault::Damaged { at: reading.gate });
    }
    Ok(reading)
}

/// Formats a disk on which no journal was begun, or not finished.
#[tactic(auto, unfolding(crate::specs::Journal::is_shut))]
fn begin<D: Disk>(alloc: Global, disk: &mut D, id: &Identity, bytes: &[u8]) -> Result<(), OpenFault>
    requires start { (D.seen disk.old).tells ≡ true
        → ((D.seen disk.old).state.now ≡ clean (D.seen disk.old).state.kept)
        × (bytes.now ≡ (D.seen disk.old).state.kept) }
    requires short { length bytes.now ≤ 17 }
    ensures young { IfTold (D.seen disk.old) (D.seen disk.new)
        (λ d e. is_unformatted d.kept ≡ true → IsYoung id.now d.kept
        → EachImage d e (IsYoung id.now)) }
    ensures done { OnOk result (IfTold (D.seen disk.old) (D.seen disk.new)
        (λ d e. (e.kept ≡ header id.now ++ 0 ∷ []) × (e.now ≡ clean e.kept))) }
    ensures moments { IfTold (D.seen disk.old) (D.seen disk.new)
        (λ d e. EachImage d e (λ c. length c ≤ 17)) }
    ensures kept { IfTold (D.seen disk.old) (D.seen disk.new) (λ d e. length e.kept ≤ 17) }
    ensures memory { IsErrOf result OpenFault.Memory
        → (D.seen disk.new).state ≡ (D.seen disk.old).state }
    ensures fuse { OnOk result ((D.seen disk.new).fuse
        ≡ burnt_by (formatting_calls (is_shut bytes.now)) (D.seen disk.old).fuse) }
    ensures power { OnOk result (((D.seen disk.old).power ≡ true)
        × ((D.seen disk.new).power ≡ true)) }
    ensures memory_fuse { IsErrOf result OpenFault.Memory
        → (D.seen disk.new).fuse ≡ (D.seen disk.old).fuse }
    ensures memory_power { IsErrOf result OpenFault.Memory
        → (D.seen disk.new).power ≡ (D.seen disk.old).power }
    ensures burns { OnOk result (Burns (formatting_calls (is_shut bytes.now)) (D.seen disk.old)
        (D.seen disk.new)) }
    ensures no_more { BurnsUpTo 6 (D.seen disk.old) (D.seen disk.new) }
    ensures only { IfErr result (λ why. GivesUp why) }
    ensures later { (D.seen disk.old).faults ≤ (D.seen disk.new).faults }
    ensures cause { IsErrOf result OpenFault.Fault
        → Rose (D.seen disk.old).faults (D.seen disk.new).faults }
    ensures calm { (D.seen disk.old).calm ≡ true
        → ((D.seen disk.new).calm ≡ true) × (IsErrOf result OpenFault.Fault → ⊥) }
    ensures attached { (D.seen disk.new).attached ≡ (D.seen disk.old).attached }
    ensures of_file { ((D.seen disk.new).of_file ≡ (D.seen disk.old).of_file)
        × ((D.seen disk.new).tells ≡ (D.seen disk.old).tells) }
{
    disk.make_room(alloc, 17, 3)?;
    format(disk, id, is_shut(bytes))?;
    Ok(())
}

/// The whole of an opening, but that it hands the disk back.
pub fn prepare<D: Disk>(alloc: Global, disk: &mut D, id: &Identity) -> Result<Reading, OpenFault>
    requires { IsIdentity id.now }
    ensures opened { (D.seen disk.old).tells ≡ true
        → OnOk result (refusal id.now (D.seen disk.old).state.kept ≡ None) }
    ensures list { (D.seen disk.old).tells ≡ true
        → IfOk result (λ r. r.list ≡ placed 16 (journal_of (D.seen disk.old).state.kept)) }
    ensures place { IfOk result (λ r. (16 ≤ r.gate) × (r.gate < 2 ^ 63)) }
    ensures sizes { IfOk result (λ r. (r.count ≡ length r.list) × (r.gate ≡ 16 + size_of r.list)
        × (r.count ≤ 65536)) }
    ensures stands { IfOk result (λ r.
        IfTold (D.seen disk.old) (D.seen disk.new) (λ d e. Opened id.now r.gate r.count d e)) }
    ensures refused { (D.seen disk.old).tells ≡ true
        → IfErr result (λ why. GivesUp why
        ⊎ (refusal id.now (D.seen disk.old).state.kept ≡ Some why)) }
    ensures same { (IsErrOf result OpenFault.Fault → ⊥)
        → IfTold (D.seen disk.old) (D.seen disk.new)
        (λ d e. journal_of e.kept ≡ journal_of d.kept) }

    ensures left { OnOk result (IfTold (D.seen disk.old) (D.seen disk.new)
        (λ d e. e.kept ≡ formatted id.now d.kept)) }
    ensures bytes { IfErr result (λ why. (why ≡ OpenFault.Fault → ⊥)
        → IfTold (D.seen disk.old) (D.seen disk.new)
        (λ d e. (e.kept ≡ d.kept) × (e.now ≡ clean e.kept))) }
    ensures unwritten { IfTold (D.seen disk.old) (D.seen disk.new)
        (λ d e. is_unformatted d.kept ≡ false
        → EachImage d e (IsImage d.now) × IsImage d.now e.kept) }
    ensures fuse { (D.seen disk.old).tells ≡ true
        → OnOk result ((D.seen disk.new).fuse
        ≡ burnt_by (opening_calls (D.seen disk.old).state.kept) (D.seen disk.old).fuse) }
    ensures power { OnOk result (((D.seen disk.old).power ≡ true)
        × ((D.seen disk.new).power ≡ true)) }
    ensures refused_fuse { IfErr result
        (λ why. (why ≡ OpenFault.Fault → ⊥)
        → (D.seen disk.new).fuse ≡ burnt (D.seen disk.old).fuse) }
    ensures refused_power { IfErr result
        (λ why. (why ≡ OpenFault.Fault → ⊥)
        → ((D.seen disk.old).power ≡ true) × ((D.seen disk.new).power ≡ true)) }

    // No call of it brings power back.
    ensures burns { (D.seen disk.old).tells ≡ true
        → OnOk result (Burns (opening_calls (D.seen disk.old).state.kept) (D.seen disk.old)
        (D.seen disk.new)) }
    ensures refused_burns { IfErr result
        (λ why. (why ≡ OpenFault.Fault → ⊥) → Burns 1 (D.seen disk.old) (D.seen disk.new)) }
    ensures no_more { BurnsUpTo 7 (D.seen disk.old) (D.seen disk.new) }

    // What is kept was one of the images.
    ensures was { (D.seen disk.old).tells ≡ true
        → IsImage (D.seen disk.old).state.now (D.seen disk.old).state.kept }

    // At each moment each image spells a list that an image spelt as the call began,
    ensures moments { IfTold (D.seen disk.old) (D.seen disk.new)
        (λ d e. EachImage d e (WasSpelt d)) }
    ensures kept { IfTold (D.seen disk.old) (D.seen disk.new) (λ d e. WasSpelt d e.kept) }

    // is young, where each image was,
    ensures young { IfTold (D.seen disk.old) (D.seen disk.new)
        (λ d e. ((c : List ℕ) → IsImage d.now c → IsYoung id.now c)
        → EachImage d e (IsYoung id.now)) }

    // and is sound, where each image was.
    ensures sound { IfTold (D.seen disk.old) (D.seen disk.new)
        (λ d e. ((c : List ℕ) → IsImage d.now c → IsSound id.now c)
        → EachImage d e (IsSound id.now)) }
    ensures later { (D.seen disk.old).faults ≤ (D.seen disk.new).faults }
    ensures cause { IsErrOf result OpenFault.Fault
        → Rose (D.seen disk.old).faults (D.seen disk.new).faults }
    ensures calm { (D.seen disk.old).calm ≡ true
        → ((D.seen disk.new).calm ≡ true) × (IsErrOf result OpenFault.Fault → ⊥) }
    ensures attached { (D.seen disk.new).attached ≡ (D.seen disk.old).attached }
    ensures of_file { ((D.seen disk.new).of_file ≡ (D.seen disk.old).of_file)
        × ((D.seen disk.new).tells ≡ (D.seen disk.old).tells) }
{
    let bytes = read_all(alloc, disk)?;
    if is_unformatted(&bytes) {
        begin(alloc, disk, id, &bytes)?;
        return Ok(Reading {
            list: RecordList::new(alloc),
            count: 0,
            gate: 16,
            is_closed: true,
        });
    }
    judge(alloc, &bytes, id)
}
