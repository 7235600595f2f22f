//! An extent of a pool.
ghost use Rattle.std.specs.Prelude.{◌≡◌, ◌+◌, ◌≤◌, [], ◌++◌, length, take};
ghost use Rattle.undo_pool.specs.Extents.{extent_size, part_of};

use std::alloc::{AllocError, Global};
use std::marker::Model;

/// The bytes of an extent.
pub(crate) const EXTENT_SIZE: usize = 4096;

/// An extent: its owner, and the bytes that it holds. It takes no memory once it is made.
#[derive(Drop)]
pub(crate) struct Extent {
    owner: u32,
    bytes: Vec<u8>,
}

impl Model for Extent {
    ghost use Rattle.std.specs.Prelude.{◌≤◌, vec_len, vec_capacity};
    ghost use Rattle.undo_pool.specs.Extents.{Held, extent_size};

    ghost Value = { Held };

    ghost view = { λ e. record { owner = e.owner; bytes = e.bytes.items } };

    ghost invariant = { λ e. (vec_len e.bytes ≤ extent_size) × (extent_size ≤ vec_capacity e.bytes) };
}

impl Extent {
    /// An extent that holds nothing.
    pub(crate) fn new(alloc: Global) -> Result<Extent, AllocError> {
        Ok(Extent {
            owner: 0,
            bytes: Vec::with_capacity(alloc, EXTENT_SIZE)?,
        })
    }

    /// Whose it is.
    pub(crate) fn owner(&self) -> u32
        ensures { result ≡ self.now.owner }
    {
        self.owner
    }

    /// The bytes that it holds.
    pub(crate) fn bytes(&self) -> &[u8]
        ensures bytes { result.now ≡ self.now.bytes }
        ensures fits { length self.now.bytes ≤ extent_size }
    {
        self.bytes.as_slice()
    }

    /// The bytes that it holds of an owner: none where it is another's.
    pub(crate) fn part_of(&self, owner: u32) -> &[u8]
        ensures { result.now ≡ part_of self.now owner }
    {
        if self.owner == owner {
            self.bytes.as_slice()
        } else {
            &[]
        }
    }

    /// Gives it to an owner, empty.
    pub(crate) fn give(&mut self, owner: u32)
        ensures { self.new ≡ record { owner = owner; bytes = [] } }
    {
        self.owner = owner;
        self.bytes.clear();
    }

    /// Adds bytes, for which it has room.
    pub(crate) fn push(&mut self, bytes: &[u8])
        requires { length self.old.bytes + length bytes.now ≤ extent_size }
        ensures { self.new ≡ record self.old { bytes = self.old.bytes ++ bytes.now } }
    {
        self.bytes.extend_from_slice(bytes).unwrap();
    }

    /// Keeps the first so many bytes.
    pub(crate) fn truncate(&mut self, keep: usize)
        ensures { self.new ≡ record self.old { bytes = take keep self.old.bytes } }
    {
        self.bytes.truncate(keep);
    }
}
