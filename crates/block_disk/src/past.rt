//! The past of a disk in memory: its writes and syncs.
ghost use Rattle.std.specs.Prelude.{◌≡◌, ◌<◌, [], ◌∷◌, length, OnOk, OnErr};
ghost use Rattle.block_disk.specs.Happenings.{Wrote, synced};
ghost use Rattle.block_disk.specs.Spare.{no_spare, HasRoom, with_room, spent};

use std::alloc::{AllocError, Global};
use std::marker::Model;

/// A write or a sync.
#[derive(Clone, Copy, Debug)]
pub enum Event {
    /// `count` bytes were written at the place `at`.
    Write { at: u64, count: usize },
    /// A sync after a write.
    Sync,
}

/// The writes and syncs of a disk, with the bytes that were written, oldest first. `bytes` more bytes can be written, in
/// `writes` writes with a sync after each, before memory is needed.
#[derive(Drop)]
pub struct Past {
    events: Vec<Event>,
    written: Vec<u8>,
    bytes: usize,
    writes: usize,
    is_synced: bool,
}

impl Model for Past {
    ghost use Rattle.std.specs.Prelude.{◌≡◌, ◌+◌, ◌*◌, ◌≤◌, if◌then◌else◌, reverse, vec_len, vec_capacity};
    ghost use Rattle.block_disk.specs.Happenings.{is_settled};
    ghost use Rattle.block_disk.specs.Past.{PastState, happenings_of};

    ghost Value = { PastState };

    ghost view = { λ past. record {
      happenings = happenings_of (reverse past.events.items) past.written.items;
      spare = record { bytes = past.bytes; writes = past.writes };
    } };

    // There is room for each byte, for a write and a sync each time, and for the sync after the last write.
    ghost invariant = { λ past.
        (past.is_synced ≡ is_settled (happenings_of (reverse past.events.items) past.written.items))
        × (vec_len past.events + 2 * past.writes + (if past.is_synced then 0 else 1) ≤ vec_capacity past.events)
        × (vec_len past.written + past.bytes ≤ vec_capacity past.written) };
}

impl Past {
    /// Nothing was written yet, and nothing can be written before `reserve`.
    pub fn new(alloc: Global) -> Past
        ensures happenings { result.happenings ≡ [] }
        ensures spare { result.spare ≡ no_spare }
    {
        Past {
            events: Vec::new(alloc),
            written: Vec::new(alloc),
            bytes: 0,
            writes: 0,
            is_synced: true,
        }
    }

    /// Makes room for this many bytes to be written, in this many writes. Fails where memory runs out, and has changed nothing then that
    /// contracts see.
    pub fn reserve(&mut self, bytes: usize, writes: usize) -> Result<(), AllocError>
        ensures happenings { self.new.happenings ≡ self.old.happenings }
        ensures spare { OnOk result (self.new.spare ≡ with_room bytes writes self.old.spare) }
        ensures err { OnErr result (self.new.spare ≡ self.old.spare) }
    {
        let Some(events) = writes.checked_mul(2) else {
            return Err(AllocError);
        };
        self.events.reserve(events.saturating_add(1))?;
        self.written.reserve(bytes)?;
        self.bytes = self.bytes.max(bytes);
        self.writes = self.writes.max(writes);
        Ok(())
    }

    /// Keeps a write.
    pub fn push_write(&mut self, at: u64, bytes: &[u8])
        requires some { 0 < length bytes.now }
        requires room { HasRoom (length bytes.now) 1 self.old.spare }
        ensures happenings { self.new.happenings ≡ Wrote at bytes.now ∷ self.old.happenings }
        ensures spare { self.new.spare ≡ spent (length bytes.now) self.old.spare }
    {
        let count = bytes.len();
        self.events.push(Event::Write { at, count }).unwrap();
        self.written.extend_from_slice(bytes).unwrap();
        self.bytes -= count;
        self.writes -= 1;
        self.is_synced = false;
    }

    /// Keeps a sync, where something was written since the last one.
    pub fn push_sync(&mut self)
        ensures happenings { self.new.happenings ≡ synced self.old.happenings }
        ensures spare { self.new.spare ≡ self.old.spare }
    {
        if !self.is_synced {
            self.events.push(Event::Sync).unwrap();
            self.is_synced = true;
        }
    }
}
