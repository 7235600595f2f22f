//! Logs of records by examples: that calls over a disk in memory succeed, and what is loaded after a crash.
ghost use Rattle.std.specs.Prelude.{◌≡◌, ◌≢◌, [], ◌∷◌, List, IfOk};
ghost use Rattle.redo_record.specs.declared.record.RedoRecord.TheVariants as records;
ghost use Rattle.record_log.specs.Held.{HoldRecords};
ghost use Rattle.record_log.specs.Log.{disk_of as disk_of_log};

use crate::logs::disk_of;
use block_disk::{Disk, MemDisk};
use record_log::{
    AppendErr, LoadErr, RecordLog, Records, begun_hold_none, hold_one_list, logs_hold,
};
use redo_record::RedoRecord;
use std::alloc::{AllocError, Global};

/// What is written behind the gate at which the record of the second start begins: its body's length, its body, and the
/// next gate, closed.
const SECOND: [u8; 11] = [0, 0, 0, 6, 1, 1, 0, 0, 0, 2, 0];

/// A log of the records of two starts.
#[tactic(auto, using(crate::proofs::FirstStart::boot_fits))]
fn two_starts(alloc: Global) -> Result<RecordLog<MemDisk>, AppendErr>
    ensures { IfOk result (λ log. HoldRecords (records.Boot 1 ∷ records.Boot 2 ∷ []) (⟦<MemDisk as Disk>⟧.content (disk_of_log log))) }
{
    match RecordLog::create(alloc, MemDisk::new(alloc)) {
        Ok(mut log) => {
            log.append(&RedoRecord::Boot(1))?;
            log.append(&RedoRecord::Boot(2))?;
            Ok(log)
        }
        Err(_) => Err(AppendErr::NoMemory),
    }
}

/// The records that are loaded from a disk with these bytes, which stays as it was.
fn loaded(alloc: Global, bytes: &[u8]) -> Option<Records>
    requires { (rs : List RedoRecord) × HoldRecords rs bytes.now }
{
    if bytes.is_empty() {
        return None;
    }
    match RecordLog::load(alloc, disk_of(alloc, bytes).ok()?) {
        Ok((log, records)) if log.disk().bytes() == bytes => Some(records),
        Ok(_changed) => None,
        Err(
            LoadErr {
                disk: _disk,
                why: _why,
            },
        ) => None,
    }
}

/// Whether this is the record of the start with this number.
fn is_start(record: &RedoRecord, number: u32) -> bool {
    matches!(record, RedoRecord::Boot(boot) if *boot == number)
}

/// Whether these are the records of the first two starts.
fn are_two_starts(records: &Records) -> bool {
    matches!(records.as_slice(), [first, second] if is_start(first, 1) && is_start(second, 2))
}

/// Whether this is the record of the first start alone.
fn is_first_start(records: &Records) -> bool {
    matches!(records.as_slice(), [first] if is_start(first, 1))
}

/// Whether two records are laid out one behind the other, and loaded.
fn loads_two_starts(alloc: Global) -> bool {
    match two_starts(alloc) {
        Ok(log) => {
            let bytes = log.disk().bytes();
            bytes
                == b"\x01\x00\x00\x00\x06\x01\x01\x00\x00\x00\x01\x01\x00\x00\x00\x06\x01\x01\x00\x00\x00\x02\x00".as_slice()
                && matches!(&loaded(alloc, bytes), Some(records) if are_two_starts(records))
        }
        Err(_) => false,
    }
}

#[test]
fn records_are_loaded_as_they_were_appended(rt: HostRuntime) {
    assert!(rt; loads_two_starts(rt.alloc()));
}

/// The cell of the first start's record, a gate that is not open, and these bytes behind it.
#[tactic(auto, using(crate::proofs::FirstStart::holds_first))]
fn with_end(alloc: Global, gate: u8, behind: &[u8]) -> Result<Vec<u8>, AllocError>
    requires { gate ≢ 1 }
    ensures { IfOk result (λ bytes. HoldRecords (records.Boot 1 ∷ []) bytes.items) }
{
    let mut bytes = vec![in alloc; 1, 0, 0, 0, 6, 1, 1, 0, 0, 0, 1, gate]?;
    bytes.extend_from_slice(behind)?;
    Ok(bytes)
}

/// Whether the record of the first start alone is loaded where such a gate and these bytes end the disk.
fn has_the_first_alone(alloc: Global, gate: u8, behind: &[u8]) -> bool
    requires { gate ≢ 1 }
{
    match with_end(alloc, gate, behind) {
        Ok(bytes) => matches!(
            &loaded(alloc, &bytes),
            Some(records) if is_first_start(records)
        ),
        Err(AllocError) => false,
    }
}

#[test]
fn part_of_a_record_behind_a_closed_gate_does_not_count(rt: HostRuntime) {
    for count in 0..=SECOND.len() {
        assert!(rt;
            has_the_first_alone(rt.alloc(), 0, &SECOND[..count]),
            "{count}"
        );
    }
}

#[test]
fn a_record_behind_a_torn_gate_does_not_count(rt: HostRuntime) {
    assert!(rt; has_the_first_alone(rt.alloc(), 2, &SECOND));
    assert!(rt; has_the_first_alone(rt.alloc(), 255, &SECOND));
}

#[test]
fn bytes_hold_one_list_of_records() {
    hold_one_list();
    logs_hold();
    begun_hold_none();
}
