//! Logs by examples: how their bytes are laid out, and that calls over a disk in memory succeed.
ghost use Rattle.std.specs.Prelude.{◌≡◌, ◌<◌, length, IfOk, IfSome};
ghost use Rattle.redo_log.specs.Log.{IsUsable};

use block_disk::{Disk, MemDisk};
use redo_log::{Bodies, LoadErr, LoadWhy, Log, LogErr, cell, count};
use std::alloc::Global;

/// A log of the one body `ab`.
pub(crate) const ONE_BODY: [u8; 8] = *b"\x01\x00\x00\x00\x02ab\x00";

/// A disk that holds these bytes.
pub(crate) fn disk_of(alloc: Global, bytes: &[u8]) -> Result<MemDisk, LoadWhy>
    requires { 0 < length bytes.now }
    ensures { IfOk result (λ disk. ⟦<MemDisk as Disk>⟧.content disk ≡ bytes.now) }
{
    let mut disk = MemDisk::new(alloc);
    disk.room(bytes.len() as u64, 1)?;
    disk.write_at(0, bytes)?;
    disk.sync()?;
    Ok(disk)
}

/// A log of no body.
pub(crate) fn new_log(alloc: Global) -> Option<Log<MemDisk>>
    ensures { IfSome result (IsUsable ⟦<MemDisk as Disk>⟧.content ⟦<MemDisk as Disk>⟧.images) }
{
    Log::create(alloc, MemDisk::new(alloc)).ok()
}

/// Whether a body is appended.
pub(crate) fn takes(log: &mut Log<MemDisk>, body: &[u8]) -> bool
    requires usable { IsUsable ⟦<MemDisk as Disk>⟧.content ⟦<MemDisk as Disk>⟧.images log.old }
    requires some { 0 < length body.now }
    ensures { IsUsable ⟦<MemDisk as Disk>⟧.content ⟦<MemDisk as Disk>⟧.images log.new }
{
    log.append(body).is_ok()
}

/// Whether the log is laid out as these bytes.
fn is_laid_out(log: &Log<MemDisk>, bytes: &[u8]) -> bool {
    log.disk().bytes() == bytes
}

/// Whether a log has a closed gate alone, and then the cell of `ab` before it.
fn lays_out_a_cell(alloc: Global) -> bool {
    match new_log(alloc) {
        Some(mut log) => {
            is_laid_out(&log, b"\x00") && takes(&mut log, b"ab") && is_laid_out(&log, &ONE_BODY)
        }
        None => false,
    }
}

#[test]
fn a_cell_is_a_gate_a_length_and_a_body(rt: HostRuntime) {
    assert!(rt; lays_out_a_cell(rt.alloc()));
}

/// Whether the log is of the bodies `ab` and 258 bytes of 0.
fn has_two_cells(log: &Log<MemDisk>) -> bool {
    let bytes = log.disk().bytes();
    bytes.starts_with(b"\x01\x00\x00\x00\x02ab\x01\x00\x00\x01\x02\x00")
        && bytes.len() == 271
        && bytes.last() == Some(&0)
}

/// Whether a cell is laid out behind another.
fn lays_out_two_cells(alloc: Global) -> bool {
    match new_log(alloc) {
        Some(mut log) => {
            takes(&mut log, b"ab") && takes(&mut log, &[0; 258]) && has_two_cells(&log)
        }
        None => false,
    }
}

#[test]
fn a_cell_stands_behind_another(rt: HostRuntime) {
    assert!(rt; lays_out_two_cells(rt.alloc()));
}

/// The bodies in the log on a disk with these bytes, and whether its disk is as it was.
fn loaded(alloc: Global, bytes: &[u8]) -> Result<(Bodies, bool), LoadWhy>
    requires { 0 < length bytes.now }
{
    match Log::load(alloc, disk_of(alloc, bytes)?) {
        Ok((log, bodies)) => Ok((bodies, is_laid_out(&log, bytes))),
        Err(LoadErr { disk: _disk, why }) => Err(why),
    }
}

/// Whether the log of `ab` is loaded with its body, and its disk is as it was.
fn is_loaded(alloc: Global) -> Result<bool, LoadWhy> {
    let (bodies, is_as_it_was) = loaded(alloc, &ONE_BODY)?;
    Ok(is_as_it_was && bodies.len() == 1 && bodies.at(0) == b"ab".as_slice())
}

#[test]
fn a_log_is_loaded_with_its_bodies(rt: HostRuntime) {
    assert!(rt; is_loaded(rt.alloc()) == Ok(true));
}

/// How many bodies the log of `ab` has with this byte as its first gate.
fn count_behind(alloc: Global, gate: u8) -> Result<usize, LoadWhy> {
    let mut bytes = ONE_BODY;
    bytes[0] = gate;
    let (bodies, _is_as_it_was) = loaded(alloc, &bytes)?;
    Ok(bodies.len())
}

#[test]
fn nothing_counts_behind_a_closed_gate(rt: HostRuntime) {
    for gate in [0, 2, 255] {
        assert!(rt; count_behind(rt.alloc(), gate) == Ok(0), "{gate}");
    }
}

/// Whether the bytes of an empty disk are said to be no log.
fn is_nothing_no_log(alloc: Global) -> bool {
    match Log::load(alloc, MemDisk::new(alloc)) {
        Ok(_loaded) => false,
        Err(LoadErr { disk: _disk, why }) => why == LoadWhy::NotALog,
    }
}

/// Whether a log without the byte at its end is said to be none.
fn is_part_no_log(alloc: Global) -> bool {
    matches!(loaded(alloc, &ONE_BODY[..7]), Err(LoadWhy::NotALog))
}

#[test]
fn bytes_without_a_closed_gate_are_no_log(rt: HostRuntime) {
    assert!(rt; is_nothing_no_log(rt.alloc()));
    assert!(rt; is_part_no_log(rt.alloc()));
}

/// Whether a body of so many bytes is too long, and leaves the log as it was.
fn is_too_long(alloc: Global, length: usize) -> Result<bool, LogErr>
    requires { 0 < length }
{
    let body = vec![in alloc; 0; length]?;
    match new_log(alloc) {
        Some(mut log) => Ok(refuses(&mut log, &body) && is_laid_out(&log, b"\x00")),
        None => Ok(false),
    }
}

/// Whether a body is said to be too long.
fn refuses(log: &mut Log<MemDisk>, body: &[u8]) -> bool
    requires usable { IsUsable ⟦<MemDisk as Disk>⟧.content ⟦<MemDisk as Disk>⟧.images log.old }
    requires some { 0 < length body.now }
{
    log.append(body) == Err(LogErr::TooLong)
}

#[test]
fn a_body_of_more_than_16_mebibytes_is_too_long(rt: HostRuntime) {
    assert!(rt; is_too_long(rt.alloc(), 16_777_217) == Ok(true));
}

/// Whether so many bodies count in these bytes.
fn has_bodies(bytes: &[u8], wanted: Option<u64>) -> bool {
    count(bytes) == wanted
}

#[test]
fn plain_bytes_are_counted(rt: HostRuntime) {
    for (bytes, wanted) in [
        (ONE_BODY.as_slice(), Some(1)),
        (&ONE_BODY[..7], None),
        (&[0, 1], Some(0)),
    ] {
        assert!(rt; has_bodies(bytes, wanted));
    }
}

/// Whether the cell of this number in these bytes has this body, or there is none.
fn has_cell(bytes: &[u8], number: u64, body: Option<&[u8]>) -> bool {
    cell(bytes, number) == body
}

#[test]
fn plain_bytes_are_numbered(rt: HostRuntime) {
    for (bytes, number, body) in [
        (ONE_BODY.as_slice(), 0, None),
        (&ONE_BODY, 1, Some(b"ab".as_slice())),
        (&ONE_BODY, 2, None),
        (&ONE_BODY[..7], 1, None),
    ] {
        assert!(rt; has_cell(bytes, number, body));
    }
}
