//! The pool.
ghost use Rattle.std.specs.Prelude.{◌≡◌, ◌+◌, ◌-◌, ◌*◌, ◌≤◌, ◌<◌, [], ◌∷◌, ◌++◌, length, take, drop, remove, slice_index_or, slice_set, IfOk, OnOk, OnErr, MatchOption, MatchResult};
ghost use Rattle.undo_pool.specs.Extents.{Held, extent_size, stream_of, count_of, room_of, ArePacked, IsLast, IsLastOf, OthersKeep};
ghost use Rattle.undo_pool.specs.Pool.{all_extents, bytes_of, extents_of, needed as needed_of, OthersStay};

use crate::Full;
use crate::extent::{EXTENT_SIZE, Extent};
use std::alloc::{AllocError, Global};
use std::marker::Model;

/// A pool of extents. It takes no memory once it is made.
#[derive(Drop)]
pub struct Pool {
    // The extents in use, oldest first.
    used: Vec<Extent>,
    free: Vec<Extent>,
}

impl Model for Pool {
    ghost use Rattle.std.specs.Prelude.{◌+◌, ◌≤◌, vec_len, vec_capacity};
    ghost use Rattle.undo_pool.specs.Extents.{AllFit, ArePacked};
    ghost use Rattle.undo_pool.specs.Pool.{PoolState};

    ghost Value = { PoolState };

    ghost view = { λ p. record { used = p.used.items; free = vec_len p.free } };

    // Each list has room for all extents; and each owner's extents are full but for its last.
    ghost invariant = { λ p.
        (vec_len p.used + vec_len p.free ≤ 1024)
        × (vec_len p.used + vec_len p.free ≤ vec_capacity p.used)
        × (vec_len p.used + vec_len p.free ≤ vec_capacity p.free)
        × AllFit p.used.items
        × ArePacked p.used.items };
}

impl Pool {
    /// A pool of so many extents, all of them free, for which it takes the memory. At most 1,024.
    pub fn new(alloc: Global, extents: u32) -> Result<Pool, AllocError>
        requires { extents ≤ 1024 }
        ensures { IfOk result (λ pool. pool ≡ record { used = []; free = extents }) }
    {
        let count = extents as usize;
        let used = Vec::with_capacity(alloc, count)?;
        let mut free = Vec::with_capacity(alloc, count)?;
        for _ in 0..count {
            free.push(Extent::new(alloc)?)?;
        }
        Ok(Pool { used, free })
    }

    /// The number of free extents.
    pub fn free(&self) -> u32
        ensures { result ≡ self.now.free }
    {
        self.free.len() as u32
    }

    /// The number of an owner's bytes.
    pub fn held(&self, owner: u32) -> u32
        ensures { result ≡ length (bytes_of self.now owner) }
    {
        let mut held: u32 = 0;
        for extent in self.used.as_slice() {
            if extent.owner() == owner {
                held += extent.bytes().len() as u32;
            }
        }
        held
    }

    /// Fills the buffer with an owner's bytes from a place on.
    pub fn back(&self, owner: u32, at: u32, out: &mut [u8])
        requires { at + length out.old ≤ length (bytes_of self.now owner) }
        ensures { out.new ≡ take (length out.old) (drop at (bytes_of self.now owner)) }
    {
        let mut skip = at as usize;
        let mut filled: usize = 0;
        for extent in self.used.as_slice() {
            let bytes = extent.part_of(owner);
            let some = part(bytes, skip, out.len() - filled);
            write(out, filled, some);
            filled += some.len();
            skip = skip.saturating_sub(bytes.len());
        }
    }

    /// Adds bytes behind an owner's own. Fails exactly where they need more extents than are free, and all is as before then.
    pub fn put(&mut self, owner: u32, bytes: &[u8]) -> Result<(), Full>
        ensures ok { OnOk result (bytes_of self.new owner ≡ bytes_of self.old owner ++ bytes.now) }
        ensures full { let need = needed_of self.old owner (length bytes.now) in
            MatchResult result (λ _. need ≤ self.old.free) (λ full. (full.need ≡ need) × (full.free ≡ self.old.free) × (self.old.free < need)) }
        ensures err { OnErr result (self.new ≡ self.old) }
        ensures free { self.new.free + extents_of self.new owner ≡ self.old.free + extents_of self.old owner }
        ensures all { all_extents self.new ≡ all_extents self.old }
        ensures others { OthersStay self.old self.new owner }
    {
        self.are_packed();
        let room = self.room(owner);
        let (first, rest) = bytes.split_at(bytes.len().min(room));
        let need = rest.len().div_ceil(EXTENT_SIZE) as u64;
        let free = u64::from(self.free());
        if free < need {
            return Err(Full { need, free });
        }
        self.fill(owner, first);
        self.add(owner, rest);
        self.are_packed();
        Ok(())
    }

    /// Drops an owner's bytes behind the first so many.
    pub fn cut(&mut self, owner: u32, keep: u32)
        requires { keep ≤ length (bytes_of self.old owner) }
        ensures bytes { bytes_of self.new owner ≡ take keep (bytes_of self.old owner) }
        ensures free { self.new.free + extents_of self.new owner ≡ self.old.free + extents_of self.old owner }
        ensures all { all_extents self.new ≡ all_extents self.old }
        ensures others { OthersStay self.old self.new owner }
    {
        self.are_packed();
        let mut more = (self.held(owner) - keep) as usize;
        while 0 < more {
            let Some(place) = self.last_of(owner) else {
                return;
            };
            let len = self.used[place].bytes().len();
            if more < len {
                self.shorten(place, len - more);
                more = 0;
            } else {
                self.let_go(place);
                more -= len;
            }
        }
        self.are_packed();
    }

    /// Drops all of an owner's bytes.
    pub fn release(&mut self, owner: u32)
        ensures bytes { bytes_of self.new owner ≡ [] }
        ensures free { self.new.free ≡ self.old.free + extents_of self.old owner }
        ensures all { all_extents self.new ≡ all_extents self.old }
        ensures others { OthersStay self.old self.new owner }
    {
        self.are_packed();
        while let Some(place) = self.last_of(owner) {
            self.let_go(place);
        }
    }

    /// Each owner's extents are full but for its last.
    pub(crate) fn are_packed(&self)
        ensures { ArePacked self.now.used }
    {
        let _used = &self.used;
    }

    // The bytes that an owner's last extent still takes.
    fn room(&self, owner: u32) -> usize
        ensures { result ≡ room_of self.now.used owner }
    {
        match self.last_of(owner) {
            Some(place) => EXTENT_SIZE - self.used[place].bytes().len(),
            None => 0,
        }
    }

    // Adds bytes to an owner's last extent, which has room for them.
    fn fill(&mut self, owner: u32, bytes: &[u8])
        requires { length bytes.now ≤ room_of self.old.used owner }
        ensures bytes { stream_of self.new.used owner ≡ stream_of self.old.used owner ++ bytes.now }
        ensures count { count_of self.new.used owner ≡ count_of self.old.used owner }
        ensures room { room_of self.new.used owner + length bytes.now ≡ room_of self.old.used owner }
        ensures others { OthersKeep self.old.used self.new.used owner }
        ensures all { length self.new.used ≡ length self.old.used }
        ensures free { self.new.free ≡ self.old.free }
    {
        if bytes.is_empty() {
            return;
        }
        if let Some(place) = self.last_of(owner) {
            self.lengthen(place, bytes);
        }
    }

    // Adds bytes in extents of their own, of which enough are free. The owner's last extent is full.
    fn add(&mut self, owner: u32, bytes: &[u8])
        requires fits { length bytes.now ≤ extent_size * self.old.free }
        requires full { 0 < length bytes.now → room_of self.old.used owner ≡ 0 }
        ensures bytes { stream_of self.new.used owner ≡ stream_of self.old.used owner ++ bytes.now }
        ensures count { self.new.free + count_of self.new.used owner ≡ self.old.free + count_of self.old.used owner }
        ensures all { all_extents self.new ≡ all_extents self.old }
        ensures others { OthersKeep self.old.used self.new.used owner }
    {
        let mut rest = bytes;
        while !rest.is_empty() {
            let (some, later) = rest.split_at(rest.len().min(EXTENT_SIZE));
            self.take(owner, some);
            rest = later;
        }
    }

    // Puts bytes into a free extent. The owner's last extent is full.
    fn take(&mut self, owner: u32, bytes: &[u8])
        requires free { 0 < self.old.free }
        requires some { 0 < length bytes.now }
        requires fits { length bytes.now ≤ extent_size }
        requires full { room_of self.old.used owner ≡ 0 }
        ensures used { self.new.used ≡ self.old.used ++ (record { owner = owner; bytes = bytes.now }) ∷ [] }
        ensures free { self.new.free + 1 ≡ self.old.free }
    {
        let mut extent = self.free.pop().unwrap();
        extent.give(owner);
        extent.push(bytes);
        self.used.push(extent).unwrap();
    }

    // Adds bytes to the extent at a place, its owner's last, which has room for them.
    fn lengthen(&mut self, place: usize, bytes: &[u8])
        requires last { IsLast self.old.used place }
        requires some { 0 < length bytes.now }
        requires fits { (x : Held) → length (slice_index_or self.old.used place x).bytes + length bytes.now ≤ extent_size }
        ensures used { (x : Held) → let it = slice_index_or self.old.used place x in self.new.used ≡ slice_set self.old.used place (record it { bytes = it.bytes ++ bytes.now }) }
        ensures free { self.new.free ≡ self.old.free }
    {
        self.used[place].push(bytes);
    }

    // Keeps the first so many bytes of the extent at a place, its owner's last, and at least one.
    fn shorten(&mut self, place: usize, keep: usize)
        requires last { IsLast self.old.used place }
        requires some { 0 < keep }
        requires within { (x : Held) → keep ≤ length (slice_index_or self.old.used place x).bytes }
        ensures used { (x : Held) → let it = slice_index_or self.old.used place x in self.new.used ≡ slice_set self.old.used place (record it { bytes = take keep it.bytes }) }
        ensures free { self.new.free ≡ self.old.free }
    {
        self.used[place].truncate(keep);
    }

    // Lets go of the extent at a place, its owner's last.
    fn let_go(&mut self, place: usize)
        requires { IsLast self.old.used place }
        ensures used { self.new.used ≡ remove self.old.used place }
        ensures free { self.new.free ≡ self.old.free + 1 }
    {
        let extent = self.used.remove(place);
        self.free.push(extent).unwrap();
    }

    // The place of an owner's last extent, where it has one.
    fn last_of(&self, owner: u32) -> Option<usize>
        ensures { MatchOption result (count_of self.now.used owner ≡ 0) (λ place. IsLastOf self.now.used owner place) }
    {
        let mut place = self.used.len();
        while 0 < place {
            place -= 1;
            if self.used[place].owner() == owner {
                return Some(place);
            }
        }
        None
    }
}

// At most so many bytes, without the first ones.
fn part(bytes: &[u8], skip: usize, most: usize) -> &[u8]
    ensures { result.now ≡ take most (drop skip bytes.now) }
{
    let (_, behind) = bytes.split_at(skip.min(bytes.len()));
    let (some, _) = behind.split_at(most.min(behind.len()));
    some
}

// Writes bytes over others from a place on.
fn write(out: &mut [u8], at: usize, bytes: &[u8])
    requires { at + length bytes.now ≤ length out.old }
    ensures { out.new ≡ take at out.old ++ bytes.now ++ drop (at + length bytes.now) out.old }
{
    out[at..at + bytes.len()].copy_from_slice(bytes);
}
