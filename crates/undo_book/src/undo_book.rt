//! The undo of branches in a pool.
ghost use Rattle.std.specs.Prelude.{◌≡◌, ◌+◌, ◌-◌, ◌≤◌, ◌<◌, [], ◌++◌, length, IfOk, OnOk, OnErr, MatchResult};
ghost use Rattle.undo_pool.specs.Pool.{all_extents};
ghost use Rattle.undo_book.specs.Undo.{undo_text, changes_in, undo_of, undo_extents, whole_in, OthersStay};

use crate::UndoSet;
use dtx_values::Bytes;
use std::alloc::{AllocError, Global};
use std::marker::Model;
use undo_pool::{Full, Pool};

/// A pool of undo extents, where each owner has the undo of its changes, in their order. It takes no memory once it is made.
#[derive(Drop)]
pub struct UndoBook {
    pool: Pool,
}

impl Model for UndoBook {
    ghost use Rattle.undo_pool.specs.Pool.{PoolState};
    ghost use Rattle.undo_book.specs.Undo.{HoldUndo};

    ghost Value = { PoolState };

    ghost view = { λ b. b.pool };

    // What owners have in the pool is the undo of changes.
    ghost invariant = { λ b. HoldUndo b.pool };
}

impl UndoBook {
    /// No undo, with so many extents, for which it takes the memory. At most 1,024.
    pub fn new(alloc: Global, extents: u32) -> Result<UndoBook, AllocError>
        requires { extents ≤ 1024 }
        ensures { IfOk result (λ book. book ≡ record { used = []; free = extents }) }
    {
        let pool = Pool::new(alloc, extents)?;
        Ok(UndoBook { pool })
    }

    /// The extents that nobody has.
    pub fn free(&self) -> u32
        ensures { result ≡ self.now.free }
    {
        self.pool.free()
    }

    /// The extents that an owner has: its undo is so many bytes over 4,096, rounded up.
    pub fn extents(&self, owner: u32) -> u32
        ensures { result ≡ undo_extents (undo_of self.now owner) }
    {
        self.pool.held(owner).div_ceil(4096)
    }

    /// How many bytes an owner's undo takes.
    pub fn len(&self, owner: u32) -> u32
        ensures { result ≡ length (undo_text (undo_of self.now owner)) }
    {
        self.pool.held(owner)
    }

    /// The bytes of an owner's undo, which say its changes. Fails where memory runs out.
    pub fn bytes(&self, alloc: Global, owner: u32) -> Result<Bytes, AllocError>
        ensures text { IfOk result (λ bytes. bytes ≡ undo_text (undo_of self.now owner)) }
        ensures said { IfOk result (λ bytes. changes_in bytes ≡ undo_of self.now owner) }
    {
        let mut bytes = vec![in alloc; 0u8; self.pool.held(owner) as usize]?;
        self.pool.back(owner, 0, &mut bytes);
        Ok(Bytes::of(bytes))
    }

    /// Adds the undo of a statement's changes behind an owner's own. Fails exactly where it needs more extents than are free,
    /// and all is as before then.
    pub fn add(&mut self, owner: u32, set: &UndoSet) -> Result<(), Full>
        ensures ok { OnOk result (undo_of self.new owner ≡ undo_of self.old owner ++ set.now) }
        ensures full { let need = undo_extents (undo_of self.old owner ++ set.now) - undo_extents (undo_of self.old owner) in
            MatchResult result (λ _. need ≤ self.old.free) (λ full. (full.need ≡ need) × (full.free ≡ self.old.free) × (self.old.free < need)) }
        ensures err { OnErr result (self.new ≡ self.old) }
        ensures free { self.new.free + undo_extents (undo_of self.new owner) ≡ self.old.free + undo_extents (undo_of self.old owner) }
        ensures all { all_extents self.new ≡ all_extents self.old }
        ensures others { OthersStay self.old self.new owner }
    {
        self.pool.put(owner, set.bytes())?;
        Ok(())
    }

    /// Drops an owner's undo behind the first so many bytes, at which a change ends.
    pub fn cut(&mut self, owner: u32, keep: u32)
        requires { length (undo_text (whole_in keep (undo_of self.old owner))) ≡ keep }
        ensures undo { undo_of self.new owner ≡ whole_in keep (undo_of self.old owner) }
        ensures free { self.new.free + undo_extents (undo_of self.new owner) ≡ self.old.free + undo_extents (undo_of self.old owner) }
        ensures all { all_extents self.new ≡ all_extents self.old }
        ensures others { OthersStay self.old self.new owner }
    {
        self.pool.cut(owner, keep);
    }

    /// Drops all of an owner's undo.
    pub fn release(&mut self, owner: u32)
        ensures undo { undo_of self.new owner ≡ [] }
        ensures free { self.new.free ≡ self.old.free + undo_extents (undo_of self.old owner) }
        ensures all { all_extents self.new ≡ all_extents self.old }
        ensures others { OthersStay self.old self.new owner }
    {
        self.pool.release(owner);
    }
}
