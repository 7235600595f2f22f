//! Appends that an order strikes by examples: what is on the disk then, and how many bodies are loaded from it.
ghost use Rattle.redo_log.specs.Log.{IsUsable};
ghost use Rattle.std.specs.Prelude.{IfSome};

use crate::logs::{new_log, takes};
use block_disk::{Disk, DiskFault, How, MemDisk, Stop};
use redo_log::{LoadErr, Log, LogErr};
use std::alloc::Global;

/// A log of the one body `ab`, which takes 8 bytes.
pub(crate) fn one_body(alloc: Global) -> Option<Log<MemDisk>>
    ensures { IfSome result (IsUsable ⟦<MemDisk as Disk>⟧.content ⟦<MemDisk as Disk>⟧.images) }
{
    let mut log = new_log(alloc)?;
    if takes(&mut log, b"ab") {
        Some(log)
    } else {
        None
    }
}

/// The disk on which an order struck the append of `cd` behind the body `ab`, once its power is on again. The append
/// writes 7 bytes behind the gate at place 7, and then this gate.
fn struck(alloc: Global, order: DiskFault) -> Option<MemDisk> {
    let mut log = one_body(alloc)?;
    log.arm(order);
    match log.append(b"cd") {
        Err(LogErr::Fault) => {
            let mut disk = log.into_disk();
            disk.power_on();
            Some(disk)
        }
        _ => None,
    }
}

/// How many bytes such a disk has, and how many bodies are loaded from it.
fn left_by(alloc: Global, order: DiskFault) -> Option<(usize, usize)> {
    let disk = struck(alloc, order)?;
    let length = disk.bytes().len();
    match Log::load(alloc, disk) {
        Ok((_log, bodies)) => Some((length, bodies.len())),
        Err(
            LoadErr {
                disk: _disk,
                why: _why,
            },
        ) => None,
    }
}

/// The same where a write keeps so many bytes.
fn kept(alloc: Global, write: u32, count: u32) -> Option<(usize, usize)> {
    let how = How::Keep(count);
    left_by(alloc, DiskFault::Stop(Stop { write, how }))
}

/// The same where a write leaves these bytes.
fn left(alloc: Global, write: u32, bytes: &[u8]) -> Option<(usize, usize)> {
    let how = How::Leave(bytes.to_vec(alloc).ok()?);
    left_by(alloc, DiskFault::Stop(Stop { write, how }))
}

#[test]
fn a_body_that_is_written_in_part_does_not_count(rt: HostRuntime) {
    for count in 0..=7u8 {
        let due = Some((8 + usize::from(count), 1));
        assert!(rt; kept(rt.alloc(), 1, u32::from(count)) == due, "{count}");
    }
    assert!(rt; kept(rt.alloc(), 1, 8) == Some((15, 1)));
}

#[test]
fn whatever_is_left_behind_a_closed_gate_does_not_count(rt: HostRuntime) {
    assert!(rt; left(rt.alloc(), 1, b"") == Some((8, 1)));
    assert!(rt; left(rt.alloc(), 1, b"\x01\xff") == Some((10, 1)));
    assert!(rt; left(rt.alloc(), 1, b"\x00\x00\x00\x02cd\x01behind") == Some((15, 1)));
}

#[test]
fn a_body_counts_once_its_gate_is_open(rt: HostRuntime) {
    assert!(rt; kept(rt.alloc(), 2, 0) == Some((15, 1)));
    assert!(rt; kept(rt.alloc(), 2, 1) == Some((15, 2)));
    assert!(rt; left(rt.alloc(), 2, b"") == Some((15, 1)));
    assert!(rt; left(rt.alloc(), 2, b"\x02") == Some((15, 1)));
    assert!(rt; left(rt.alloc(), 2, b"\x01\x01") == Some((15, 2)));
}

#[test]
fn a_call_that_fails_writes_nothing(rt: HostRuntime) {
    assert!(rt; left_by(rt.alloc(), DiskFault::Fault(1)) == Some((8, 1)));
    assert!(rt; left_by(rt.alloc(), DiskFault::Fault(2)) == Some((15, 1)));
    assert!(rt; left_by(rt.alloc(), DiskFault::Fault(3)) == Some((15, 1)));
    assert!(rt; left_by(rt.alloc(), DiskFault::Fault(4)) == Some((15, 2)));
}

#[test]
fn an_order_past_the_calls_of_an_append_does_not_strike_it(rt: HostRuntime) {
    assert!(rt; kept(rt.alloc(), 3, 0) == None);
    assert!(rt; left_by(rt.alloc(), DiskFault::Fault(5)) == None);
}
