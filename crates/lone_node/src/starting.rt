//! A node of a test is made, and starts: what a start needs is tested on the records of its disk.
ghost use Rattle.std.specs.Prelude.{◌≡◌, ◌<◌, List, length, true, IfSome};
ghost use Rattle.std.specs.List.{AllByRecursion, list_all};
ghost use Rattle.block_disk.specs.MemDisk.{DiskState, blank};
ghost use Rattle.node_disk.specs.Starts.{CanBeStarted};
ghost use Rattle.lone_node.specs.Played.{undo_extents, bytes_of, images_of, decided_at as decided_at_by, scn_in as scn_in_by, boot_in as boot_in_by, is_synonym as is_synonym_by, is_low as is_low_by, IsLow, IsAlone, IsSmallPlace};
ghost use Rattle.record_log.specs.Held.{HoldRecords};
ghost use Rattle.redo_record.specs.declared.record.RedoRecord.{RedoRecord as RedoRecordBy};

use block_disk::{Disk, MemDisk};
use node_disk::Node;
use node_spell_laws::messages_fit;
use record_log::{RecordLog, Records, hold_one_list};
use redo_record::{Decision, Place, RedoRecord};
use std::alloc::Global;

/// The SCN of a decision.
fn decided_at(decision: &Decision) -> u64
    ensures { result ≡ decided_at_by decision.now }
{
    match decision {
        Decision::Commit(scn) => *scn,
        Decision::Rollback => 0,
    }
}

/// The SCN of a record, and 0 where it has none.
fn scn_in(redo: &RedoRecord) -> u64
    ensures { result ≡ scn_in_by redo.now }
{
    match redo {
        RedoRecord::Sealed(sealed) => sealed.scn,
        RedoRecord::Decided(decided) => decided.scn,
        RedoRecord::Ended { decision, .. } => decided_at(decision),
        RedoRecord::Forced { decision, .. } => decided_at(decision),
        RedoRecord::Met { decision, .. } => decided_at(decision),
        RedoRecord::Image(image) => image.clock,
        _ => 0,
    }
}

/// The number of a start, and 0 for other records.
fn boot_in(redo: &RedoRecord) -> u32
    ensures { result ≡ boot_in_by redo.now }
{
    match redo {
        RedoRecord::Boot(boot) => *boot,
        _ => 0,
    }
}

/// Whether a record is a synonym's.
fn is_synonym(redo: &RedoRecord) -> bool
    ensures { result ≡ is_synonym_by redo.now }
{
    matches!(redo, RedoRecord::Synonym(_))
}

/// Whether a record has low numbers, and is no synonym's.
#[tactic(auto, unfolding(crate::specs::Played::is_low))]
fn is_low(redo: &RedoRecord) -> bool
    ensures { result ≡ is_low_by redo.now }
{
    !is_synonym(redo) && (scn_in(redo) < 1001 && boot_in(redo) < 1001)
}

/// Whether all of these records are so.
fn are_low(records: &[RedoRecord]) -> bool
    ensures { result ≡ list_all is_low_by records.now }
{
    records.iter().all(|redo| is_low(redo))
}

/// Writes these bytes to an empty disk. None where memory runs out.
fn fill(disk: &mut MemDisk, bytes: &[u8]) -> Option<()>
    requires blank { disk.old ≡ blank }
    requires some { 0 < length bytes.now }
    ensures { IfSome result (λ done. bytes_of disk.new ≡ bytes.now) }
{
    disk.room(bytes.len() as u64, 1).ok()?;
    disk.write_at(0, bytes).ok()?;
    disk.sync().ok()?;
    Some(())
}

/// A disk that holds these bytes. None where memory runs out.
fn disk_of(alloc: Global, bytes: &[u8]) -> Option<MemDisk>
    requires { 0 < length bytes.now }
    ensures { IfSome result (λ disk. bytes_of disk ≡ bytes.now) }
{
    let mut disk = MemDisk::new(alloc);
    if fill(&mut disk, bytes).is_some() {
        Some(disk)
    } else {
        drop(disk);
        None
    }
}

/// These records, where they are low.
fn low(records: Records) -> Option<Records>
    ensures same { IfSome result (λ rs. rs ≡ records) }
    ensures low { IfSome result (λ rs. list_all is_low_by rs ≡ true) }
{
    if are_low(records.as_slice()) {
        Some(records)
    } else {
        drop(records);
        None
    }
}

/// The records that these bytes hold, where they are low. None where memory runs out.
fn records_of(alloc: Global, bytes: &[u8]) -> Option<Records>
    requires { (rs : List RedoRecordBy) × HoldRecords rs bytes.now }
    ensures held { IfSome result (λ records. HoldRecords records bytes.now) }
    ensures low { IfSome result (λ records. list_all is_low_by records ≡ true) }
{
    if bytes.is_empty() {
        return None;
    }
    let disk = disk_of(alloc, bytes)?;
    match RecordLog::load(alloc, disk) {
        Ok((log, records)) => {
            drop(log);
            low(records)
        }
        Err(err) => {
            drop(err);
            None
        }
    }
}

/// The node that is made of a place. None where memory runs out.
#[tactic(auto, using(crate::proofs::StartLemmas::made_alone))]
pub(crate) fn makes(alloc: Global, place: Place) -> Option<Node<MemDisk>>
    requires { IsSmallPlace place }
    ensures { IfSome result (IsAlone 1000) }
{
    messages_fit();
    match Node::make(alloc, MemDisk::new(alloc), place) {
        Ok(node) => Some(node),
        Err(err) => {
            drop(err);
            None
        }
    }
}

/// The node that starts from a disk with these records. None where memory runs out.
#[tactic(auto, using(crate::proofs::StartLemmas::boots_few))]
fn starts_from(
    alloc: Global,
    disk: MemDisk,
    place: Place,
    records: &[RedoRecord],
) -> Option<Node<MemDisk>>
    requires held { HoldRecords records.now (bytes_of disk) }
    requires low { AllByRecursion IsLow records.now }
    requires starts { CanBeStarted undo_extents bytes_of images_of disk }
    requires small { IsSmallPlace place }
    ensures { IfSome result (IsAlone 1000) }
{
    messages_fit();
    hold_one_list();
    // Only for the proof: the disk's bytes are those of a slice, so they are fewer than 2^63.
    let _bytes = disk.bytes().len();
    match Node::start(alloc, disk, place) {
        Ok(node) => Some(node),
        Err(err) => {
            drop(err);
            None
        }
    }
}

/// The node that starts from a disk. None where a condition of the start does not hold, or memory runs out.
#[tactic(auto, using(crate::proofs::StartLemmas::all_low))]
pub(crate) fn starts(alloc: Global, disk: MemDisk, place: Place) -> Option<Node<MemDisk>>
    requires starts { CanBeStarted undo_extents bytes_of images_of disk }
    requires small { IsSmallPlace place }
    ensures { IfSome result (IsAlone 1000) }
{
    match records_of(alloc, disk.bytes()) {
        Some(records) => {
            let node = starts_from(alloc, disk, place, records.as_slice());
            drop(records);
            node
        }
        None => {
            drop(place);
            drop(disk);
            None
        }
    }
}
