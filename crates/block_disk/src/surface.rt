//! What a disk in memory is written on: its bytes, and its past.
ghost use Rattle.std.specs.Prelude.{◌≡◌, ◌+◌, ◌≤◌, ◌<◌, [], ◌∷◌, ◌++◌, max, length, take, drop, vec_len, vec_capacity, OnOk, OnErr};
ghost use Rattle.block_disk.specs.Happenings.{Wrote, content_of, wrote, synced};
ghost use Rattle.block_disk.specs.Spare.{no_spare, HasRoom, with_room, spent, spent_on};

use crate::past::Past;
use std::alloc::{AllocError, Global};
use std::marker::Model;

/// The bytes of a disk in memory, and its writes and syncs, so that what a crash at each moment might have left is known.
#[derive(Drop)]
pub struct Surface {
    bytes: Vec<u8>,
    past: Past,
}

impl Model for Surface {
    ghost use Rattle.std.specs.Prelude.{◌≡◌, ◌+◌, ◌≤◌, vec_len, vec_capacity};
    ghost use Rattle.block_disk.specs.Happenings.{content_of};
    ghost use Rattle.block_disk.specs.Past.{PastState};

    ghost Value = { PastState };

    ghost view = { λ disk. disk.past };

    // The bytes are what was written to an empty disk, and there is room for what may still be written.
    ghost invariant = { λ disk.
        (disk.bytes.items ≡ content_of disk.past.happenings)
        × (vec_len disk.bytes + disk.past.spare.bytes ≤ vec_capacity disk.bytes) };
}

impl Surface {
    /// No bytes, and nothing can be written before `reserve`.
    pub fn new(alloc: Global) -> Surface
        ensures happenings { result.happenings ≡ [] }
        ensures spare { result.spare ≡ no_spare }
    {
        Surface {
            bytes: Vec::new(alloc),
            past: Past::new(alloc),
        }
    }

    /// What a read gives.
    pub fn bytes(&self) -> &[u8]
        ensures { result.now ≡ content_of self.now.happenings }
    {
        self.bytes.as_slice()
    }

    /// Makes room for this many bytes to be written, in this many writes. Fails where memory runs out, and has changed nothing then that
    /// contracts see.
    pub fn reserve(&mut self, bytes: usize, writes: usize) -> Result<(), AllocError>
        ensures happenings { self.new.happenings ≡ self.old.happenings }
        ensures spare { OnOk result (self.new.spare ≡ with_room bytes writes self.old.spare) }
        ensures err { OnErr result (self.new.spare ≡ self.old.spare) }
    {
        self.bytes.reserve(bytes)?;
        self.past.reserve(bytes, writes)
    }

    /// Writes bytes at a place within the length or at the end.
    pub fn write(&mut self, at: u64, bytes: &[u8])
        requires within { at ≤ length (content_of self.old.happenings) }
        requires some { 0 < length bytes.now }
        requires room { HasRoom (length bytes.now) 1 self.old.spare }
        ensures happenings { self.new.happenings ≡ Wrote at bytes.now ∷ self.old.happenings }
        ensures spare { self.new.spare ≡ spent (length bytes.now) self.old.spare }
    {
        overwrite(&mut self.bytes, at as usize, bytes);
        self.past.push_write(at, bytes);
    }

    /// Writes what a write leaves that was cut short, which may be nothing.
    pub fn write_part(&mut self, at: u64, bytes: &[u8])
        requires within { at ≤ length (content_of self.old.happenings) }
        requires room { HasRoom (length bytes.now) 1 self.old.spare }
        ensures happenings { self.new.happenings ≡ wrote at bytes.now self.old.happenings }
        ensures spare { self.new.spare ≡ spent_on bytes.now self.old.spare }
    {
        if !bytes.is_empty() {
            self.write(at, bytes);
        }
    }

    /// What was written is on the disk from now on.
    pub fn sync(&mut self)
        ensures happenings { self.new.happenings ≡ synced self.old.happenings }
        ensures spare { self.new.spare ≡ self.old.spare }
    {
        self.past.push_sync();
    }
}

// Puts these bytes at a place within the length or at the end. The capacity is enough.
fn overwrite(bytes: &mut Vec<u8>, at: usize, with: &[u8])
    requires within { at ≤ vec_len bytes.old }
    requires room { at + length with.now ≤ vec_capacity bytes.old }
    ensures items { bytes.new.items ≡ take at bytes.old.items ++ with.now ++ drop (at + length with.now) bytes.old.items }
    ensures length { vec_len bytes.new ≡ max (vec_len bytes.old) (at + length with.now) }
    ensures capacity { vec_capacity bytes.old ≤ vec_capacity bytes.new }
{
    let (over, behind) = with.split_at(with.len().min(bytes.len() - at));
    bytes[at..at + over.len()].copy_from_slice(over);
    bytes.extend_from_slice(behind).unwrap();
}
