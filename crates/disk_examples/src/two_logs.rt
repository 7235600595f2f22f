//! Two logs by examples: which one is active, and what is loaded of them.
ghost use Rattle.std.specs.Prelude.{◌<◌, length};

use crate::logs::{ONE_BODY, disk_of};
use block_disk::MemDisk;
use checkpoint::{LoadWhy, PairErr, Side, TwoLogs, active_of};
use std::alloc::Global;

/// A log of an image of generation 1.
const ONE_IMAGE: [u8; 16] = *b"\x01\x00\x00\x00\x0a\x01\x0d\x00\x00\x00\x00\x00\x00\x00\x01\x00";

/// Whether this log of two disks with these bytes is active.
fn is_active(first: &[u8], second: &[u8], due: Option<Side>) -> bool {
    active_of(first, second) == due
}

#[test]
fn the_list_of_the_greater_generation_is_active(rt: HostRuntime) {
    for (first, second, due) in [
        (ONE_BODY.as_slice(), b"\x00".as_slice(), Some(Side::First)),
        (b"\x00", &ONE_BODY, Some(Side::Second)),
        (&ONE_BODY, &ONE_BODY, Some(Side::First)),
        (&ONE_BODY, &ONE_IMAGE, Some(Side::Second)),
        (&ONE_IMAGE, &ONE_BODY, Some(Side::First)),
        (&ONE_IMAGE, &ONE_IMAGE, Some(Side::First)),
    ] {
        assert!(rt; is_active(first, second, due));
    }
}

#[test]
fn no_log_is_active_where_one_is_missing_or_both_are_empty(rt: HostRuntime) {
    for (first, second) in [
        (b"\x00".as_slice(), b"\x00".as_slice()),
        (b"", &ONE_IMAGE),
        (&ONE_IMAGE, b""),
    ] {
        assert!(rt; is_active(first, second, None));
    }
}

/// Which of the logs on two disks with these bytes is loaded, and how long its first body is.
fn loaded(alloc: Global, first: &[u8], second: &[u8]) -> Result<(Side, usize), LoadWhy>
    requires first { 0 < length first.now }
    requires second { 0 < length second.now }
{
    let (first, second) = (disk_of(alloc, first)?, disk_of(alloc, second)?);
    match TwoLogs::load(alloc, first, second) {
        Ok((logs, bodies)) => {
            let length = if bodies.len() == 0 {
                0
            } else {
                bodies.at(0).len()
            };
            Ok((logs.active(), length))
        }
        Err(
            PairErr {
                first: _first,
                second: _second,
                why,
            },
        ) => Err(why),
    }
}

#[test]
fn the_active_log_is_loaded(rt: HostRuntime) {
    assert!(rt; loaded(rt.alloc(), &ONE_BODY, &ONE_IMAGE) == Ok((Side::Second, 10)));
    assert!(rt; loaded(rt.alloc(), &ONE_BODY, b"\x00") == Ok((Side::First, 2)));
    assert!(rt; loaded(rt.alloc(), b"\x00", b"\x00") == Err(LoadWhy::NotALog));
}

/// Whether two new logs take the body `ab`, and the first disk has it alone.
fn takes_a_body(alloc: Global) -> Option<bool> {
    let mut logs = TwoLogs::create(alloc, MemDisk::new(alloc), MemDisk::new(alloc)).ok()?;
    let is_done = logs.append(b"ab").is_ok();
    let is_there = logs.first_disk().bytes() == ONE_BODY.as_slice();
    Some(is_done && is_there && logs.second_disk().bytes() == b"\x00".as_slice())
}

#[test]
fn a_body_goes_to_the_active_log(rt: HostRuntime) {
    assert!(rt; takes_a_body(rt.alloc()) == Some(true));
}
