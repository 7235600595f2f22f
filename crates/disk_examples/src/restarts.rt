//! Logs that begin anew by examples: what is on the disk then, and what an order leaves that strikes meanwhile.
ghost use Rattle.redo_log.specs.Log.{IsUsable};
ghost use Rattle.std.specs.Prelude.{◌<◌, length};

use crate::logs::takes;
use crate::struck_logs::one_body;
use block_disk::{Disk, DiskFault, How, MemDisk, Stop};
use redo_log::{LoadErr, Log, LogErr};
use std::alloc::Global;

/// Whether the log begins anew with this body.
fn begins_anew(log: &mut Log<MemDisk>, body: &[u8]) -> bool
    requires usable { IsUsable ⟦<MemDisk as Disk>⟧.content ⟦<MemDisk as Disk>⟧.images log.old }
    requires some { 0 < length body.now }
    ensures { IsUsable ⟦<MemDisk as Disk>⟧.content ⟦<MemDisk as Disk>⟧.images log.new }
{
    log.restart(body).is_ok()
}

/// How many bodies are loaded from a disk, and the first byte of the first.
fn bodies_of(alloc: Global, disk: MemDisk) -> Option<(usize, u8)> {
    match Log::load(alloc, disk) {
        Ok((_log, bodies)) => {
            if bodies.len() == 0 {
                Some((0, 0))
            } else {
                Some((bodies.len(), *bodies.at(0).first()?))
            }
        }
        Err(
            LoadErr {
                disk: _disk,
                why: _why,
            },
        ) => None,
    }
}

/// Whether the log of `ab` and a longer body holds `cd` alone once it began anew, with what stood behind left there, and `ef`
/// behind it then.
fn holds_the_new_body(alloc: Global) -> Option<bool> {
    let mut log = one_body(alloc)?;
    let is_done = takes(&mut log, &[7; 20]) && begins_anew(&mut log, b"cd");
    let is_laid_out = log
        .disk()
        .bytes()
        .starts_with(b"\x01\x00\x00\x00\x02cd\x00\x00\x00\x00\x14\x07")
        && log.disk().bytes().len() == 33;
    let is_longer = takes(&mut log, b"ef");
    Some(
        is_done && is_laid_out && is_longer && bodies_of(alloc, log.into_disk()) == Some((2, b'c')),
    )
}

#[test]
fn a_log_begins_anew_with_one_body(rt: HostRuntime) {
    assert!(rt; holds_the_new_body(rt.alloc()) == Some(true));
}

/// What is loaded from the disk on which an order struck while the log of `ab` was to begin anew with `cd`.
fn left_by(alloc: Global, order: DiskFault) -> Option<(usize, u8)> {
    let mut log = one_body(alloc)?;
    log.arm(order);
    match log.restart(b"cd") {
        Err(LogErr::Fault) => {
            let mut disk = log.into_disk();
            disk.power_on();
            bodies_of(alloc, disk)
        }
        _ => None,
    }
}

/// The same where a write keeps so many bytes.
fn kept(alloc: Global, write: u32, count: u32) -> Option<(usize, u8)> {
    let how = How::Keep(count);
    left_by(alloc, DiskFault::Stop(Stop { write, how }))
}

/// The same where a write leaves these bytes.
fn left(alloc: Global, write: u32, bytes: &[u8]) -> Option<(usize, u8)> {
    let how = How::Leave(bytes.to_vec(alloc).ok()?);
    left_by(alloc, DiskFault::Stop(Stop { write, how }))
}

#[test]
fn the_old_list_counts_until_it_is_shut(rt: HostRuntime) {
    assert!(rt; kept(rt.alloc(), 1, 0) == Some((1, b'a')));
    assert!(rt; left(rt.alloc(), 1, b"\x01") == Some((1, b'a')));
    assert!(rt; kept(rt.alloc(), 1, 1) == Some((0, 0)));
    assert!(rt; left(rt.alloc(), 1, b"\xff\x00") == Some((0, 0)));
}

#[test]
fn the_new_body_counts_once_its_gate_is_open(rt: HostRuntime) {
    assert!(rt; kept(rt.alloc(), 2, 3) == Some((0, 0)));
    assert!(rt; left(rt.alloc(), 2, b"\x01\xff") == Some((0, 0)));
    assert!(rt; kept(rt.alloc(), 3, 0) == Some((0, 0)));
    assert!(rt; left(rt.alloc(), 3, b"\x02") == Some((0, 0)));
    assert!(rt; kept(rt.alloc(), 3, 1) == Some((1, b'c')));
    assert!(rt; kept(rt.alloc(), 4, 0) == None);
}

#[test]
fn a_call_that_fails_leaves_one_list_or_none(rt: HostRuntime) {
    assert!(rt; left_by(rt.alloc(), DiskFault::Fault(1)) == Some((1, b'a')));
    assert!(rt; left_by(rt.alloc(), DiskFault::Fault(2)) == Some((0, 0)));
    assert!(rt; left_by(rt.alloc(), DiskFault::Fault(5)) == Some((0, 0)));
    assert!(rt; left_by(rt.alloc(), DiskFault::Fault(6)) == Some((1, b'c')));
    assert!(rt; left_by(rt.alloc(), DiskFault::Fault(7)) == None);
}
