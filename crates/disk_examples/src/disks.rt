//! A disk in memory by examples: its calls succeed, and a long run of them takes neither much time nor much memory.
ghost use Rattle.std.specs.Prelude.{◌<◌, length};
ghost use Rattle.block_disk.specs.Spare.{HasRoom};

use block_disk::{Disk, Failed, MemDisk};
use std::alloc::{AllocError, Global};

/// Writes bytes at a place of the disk, for which it makes room first.
fn put(disk: &mut MemDisk, at: u64, bytes: &[u8]) -> Result<(), Failed> {
    if bytes.is_empty() || (disk.bytes().len() as u64) < at {
        return Err(Failed);
    }
    match disk.room(bytes.len() as u64, 1) {
        Ok(()) => disk.write_at(at, bytes),
        Err(AllocError) => Err(Failed),
    }
}

/// A disk with `abcd`, which has been synced.
fn abcd(alloc: Global) -> Result<MemDisk, Failed> {
    let mut disk = MemDisk::new(alloc);
    put(&mut disk, 0, b"abcd")?;
    disk.sync()?;
    Ok(disk)
}

/// Whether the disk holds these bytes once these parts were written, each at its place.
fn holds(alloc: Global, parts: &[(u64, &[u8])], bytes: &[u8]) -> Result<bool, Failed> {
    let mut disk = abcd(alloc)?;
    for (at, part) in parts {
        put(&mut disk, *at, part)?;
    }
    Ok(disk.bytes() == bytes)
}

#[test]
fn bytes_stand_where_they_were_written(rt: HostRuntime) {
    let parts = [(3, b"XY".as_slice()), (1, b"z"), (5, b"e")];
    assert!(rt; holds(rt.alloc(), &parts, b"azcXYe") == Ok(true));
}

/// The length of the disk.
fn length_of(disk: Result<MemDisk, Failed>) -> Result<u64, Failed> {
    disk?.len()
}

#[test]
fn a_disk_has_a_length(rt: HostRuntime) {
    assert!(rt; length_of(Ok(MemDisk::new(rt.alloc()))) == Ok(0));
    assert!(rt; length_of(abcd(rt.alloc())) == Ok(4));
}

/// The three bytes of the disk from this place on.
fn three_at(alloc: Global, at: u8) -> Result<[u8; 3], Failed> {
    let mut disk = abcd(alloc)?;
    let mut part = [0; 3];
    if disk.bytes().len() < usize::from(at) + 3 {
        return Err(Failed);
    }
    disk.read(u64::from(at), &mut part)?;
    Ok(part)
}

/// Reads no bytes of a new disk.
fn read_nothing(alloc: Global) -> Result<(), Failed> {
    MemDisk::new(alloc).read(0, &mut [])
}

#[test]
fn a_part_is_read(rt: HostRuntime) {
    assert!(rt; read_nothing(rt.alloc()) == Ok(()));
    assert!(rt; three_at(rt.alloc(), 0) == Ok(*b"abc"));
    assert!(rt; three_at(rt.alloc(), 1) == Ok(*b"bcd"));
}

/// Writes 64 bytes behind all that a disk holds, and then the first of them again.
fn put_twice(disk: &mut MemDisk) -> Result<(), Failed> {
    let end = disk.bytes().len() as u64;
    put(disk, end, &[0; 64])?;
    disk.sync()?;
    put(disk, end, &[1])?;
    disk.sync()
}

/// How many bytes a disk holds on which that was done so often, and how many of them are 1.
fn counts(alloc: Global, often: u32) -> Result<(usize, usize), Failed> {
    let mut disk = MemDisk::new(alloc);
    for _ in 0..often {
        put_twice(&mut disk)?;
    }
    let bytes = disk.bytes();
    Ok((bytes.len(), bytes.iter().filter(|byte| **byte == 1).count()))
}

#[test]
fn a_log_of_a_mebibyte_is_written(rt: HostRuntime) {
    assert!(rt; counts(rt.alloc(), 16384) == Ok((1_048_576, 16384)));
}

/// Whether there is no room for all bytes that there are, and a byte is written then.
fn goes_on_without_room(alloc: Global) -> Result<bool, Failed> {
    let mut disk = abcd(alloc)?;
    let is_refused = disk.room(u64::MAX, 1).is_err();
    put(&mut disk, 4, b"e")?;
    Ok(is_refused && disk.bytes() == b"abcde".as_slice())
}

#[test]
fn more_room_than_there_is_leaves_the_disk_as_it_was(rt: HostRuntime) {
    assert!(rt; goes_on_without_room(rt.alloc()) == Ok(true));
}

/// Writes behind all that a disk holds.
fn append<D: Disk>(disk: &mut D, bytes: &[u8]) -> Result<(), Failed>
    requires some { 0 < length bytes.now }
    requires room { HasRoom (length bytes.now) 1 (D.spare disk.old) }
{
    let end = disk.len()?;
    disk.write_at(end, bytes)?;
    disk.sync()
}

/// Writes `ef` behind all that a disk in memory holds.
fn append_ef(disk: &mut MemDisk) -> Result<(), Failed> {
    match disk.room(2, 1) {
        Ok(()) => append(disk, b"ef"),
        Err(AllocError) => Err(Failed),
    }
}

/// Whether `ef` is written behind `abcd`.
fn is_appended(alloc: Global) -> Result<bool, Failed> {
    let mut disk = abcd(alloc)?;
    append_ef(&mut disk)?;
    Ok(disk.bytes() == b"abcdef".as_slice())
}

#[test]
fn code_over_any_disk_runs_over_one_in_memory(rt: HostRuntime) {
    assert!(rt; is_appended(rt.alloc()) == Ok(true));
}
