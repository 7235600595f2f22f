//! What branches have changed and not committed, with its undo in a pool.
ghost use Rattle.std.specs.Prelude.{◌≡◌, ◌+◌, ◌-◌, ◌≤◌, [], ◌∷◌, ◌++◌, false, length, IfOk, OnOk, OnErr, MatchOption};
ghost use Rattle.std.specs.Option.{option_copied};
ghost use Rattle.tran_ids.specs.Branch.{put_by_branch};
ghost use Rattle.tran_ids.specs.Listed.{item_at, drop_item};
ghost use Rattle.undo_book.specs.Undo.{undo_text, changes_in};
ghost use Rattle.row_store.specs.Own.{changes_length, extents as extents_of};
ghost use Rattle.row_store.specs.Pending.{changes_of, undo_of};
ghost use Rattle.row_store.specs.ByBranch.{changes_kept, doubt_kept};
ghost use Rattle.row_store.specs.Store.{own_id, doubt_id, sets_at, held_back as held_back_by, undo_held_in, holders, is_in_doubt, extents_of_sets, used_extents, with_set, without_last, sealed_doubt};

use crate::held_changes::{HeldChanges, put_held};
use crate::own_sets::OwnSets;
use dtx_values::{Bytes, Change, Changes};
use indexmap::IndexMap;
use std::alloc::{AllocError, Global};
use std::marker::Model;
use tran_ids::BranchId;
use undo_book::{UndoBook, UndoSet};

/// The changes of live branches, in order of each branch's first, and those of branches in doubt, in the order of their ids. A
/// branch's are found by its id. Their undo stands in a pool, where each branch is an owner, and stays there when a
/// live branch becomes one in doubt.
pub(crate) struct PendingChanges {
    owns: IndexMap<BranchId, OwnSets>,
    doubts: IndexMap<BranchId, HeldChanges>,
    undo: UndoBook,
    // The owner that the next branch is.
    next: u32,
}

impl Drop for PendingChanges {
    fn drop(self) {
        let PendingChanges {
            owns,
            doubts,
            undo,
            next: _next,
        } = self;
        drop(owns);
        drop(doubts);
        drop(undo);
    }
}

impl Model for PendingChanges {
    ghost use Rattle.undo_pool.specs.Pool.{all_extents};
    ghost use Rattle.row_store.specs.ByBranch.{PendingState, AreKept, owns_in, doubts_in};

    ghost Value = { PendingState };

    ghost view = { λ p. record { owns = owns_in p.undo p.owns.entries; doubts = doubts_in p.undo p.doubts.entries; extents = all_extents p.undo } };

    ghost invariant = { λ p. AreKept p.undo p.next p.owns.entries p.doubts.entries };
}

impl PendingChanges {
    /// No branch has changed anything, and there are so many extents for undo, for which it takes the memory.
    pub(crate) fn new(alloc: Global, extents: u32) -> Result<PendingChanges, AllocError>
        requires { extents ≤ 1024 }
        ensures { IfOk result (λ pending. pending ≡ record { owns = []; doubts = []; extents = extents }) }
    {
        let undo = UndoBook::new(alloc, extents)?;
        Ok(PendingChanges {
            owns: IndexMap::new(alloc),
            doubts: IndexMap::new(alloc),
            undo,
            next: 0,
        })
    }

    /// The changes of a live branch, where it has some.
    pub(crate) fn sets(&self, branch: &BranchId) -> Option<&OwnSets>
        ensures { changes_kept (option_copied result) ≡ changes_of (sets_at self.now.owns branch.now) }
    {
        self.owns.get(branch)
    }

    /// The changes that a branch in doubt holds back, and none where it is not in doubt.
    pub(crate) fn held(&self, branch: &BranchId) -> &[Change]
        ensures { result.now ≡ held_back_by (item_at doubt_id self.now.doubts branch.now) }
    {
        match self.doubts.get(branch) {
            Some(held) => held.as_slice(),
            None => &[],
        }
    }

    /// The extents that nobody holds.
    pub(crate) fn free(&self) -> u32
        ensures { result + used_extents self.now.owns self.now.doubts ≡ self.now.extents }
    {
        self.undo.free()
    }

    /// The bytes of the undo of a live branch.
    pub(crate) fn undo_len(&self, branch: &BranchId) -> u32
        ensures { result ≡ changes_length (undo_of (sets_at self.now.owns branch.now)) }
    {
        match self.owns.get(branch) {
            Some(sets) => self.undo.len(sets.owner()),
            None => 0,
        }
    }

    /// The extents that a branch holds.
    pub(crate) fn extents(&self, branch: &BranchId) -> u32
        ensures { result ≡ extents_of (changes_length (undo_held_in self.now.owns self.now.doubts branch.now)) }
    {
        if let Some(sets) = self.owns.get(branch) {
            return self.undo.extents(sets.owner());
        }
        match self.doubts.get(branch) {
            Some(held) => self.undo.extents(held.owner()),
            None => 0,
        }
    }

    /// The bytes of the undo that a branch holds. Fails where memory runs out.
    pub(crate) fn undo(&self, alloc: Global, branch: &BranchId) -> Result<Bytes, AllocError>
        ensures text { IfOk result (λ bytes. bytes ≡ undo_text (undo_held_in self.now.owns self.now.doubts branch.now)) }
        ensures said { IfOk result (λ bytes. changes_in bytes ≡ undo_held_in self.now.owns self.now.doubts branch.now) }
    {
        if let Some(sets) = self.owns.get(branch) {
            return self.undo.bytes(alloc, sets.owner());
        }
        match self.doubts.get(branch) {
            Some(held) => self.undo.bytes(alloc, held.owner()),
            None => Ok(Bytes::new(alloc)),
        }
    }

    /// The live branches that have run statements, and then those in doubt. Fails where memory runs out.
    pub(crate) fn branches(&self, alloc: Global) -> Result<Vec<BranchId>, AllocError>
        ensures { IfOk result (λ branches. branches.items ≡ holders self.now.owns self.now.doubts) }
    {
        let mut branches = Vec::from_slice(alloc, self.owns.keys().as_slice())?;
        branches.extend_from_slice(self.doubts.keys().as_slice())?;
        Ok(branches)
    }

    /// Adds the changes of one more statement of a branch, with their undo, for which there is room.
    pub(crate) fn push(
        &mut self,
        alloc: Global,
        branch: &BranchId,
        changes: Changes,
        undo: &UndoSet,
    ) -> Result<(), AllocError>
        requires even { length undo.now ≡ length changes }
        requires room { let sets = sets_at self.old.owns branch.now in
            extents_of_sets (sets ++ (record { changes = changes; undo = undo.now }) ∷ []) - extents_of_sets sets ≤ self.old.extents - used_extents self.old.owns self.old.doubts }
        ensures ok { OnOk result (self.new ≡ record self.old { owns = with_set self.old.owns branch.now (record { changes = changes; undo = undo.now }) }) }
        ensures err { OnErr result (self.new ≡ self.old) }
    {
        let Some(place) = self.owns.get_index_of(branch) else {
            return self.push_first(alloc, branch, changes, undo);
        };
        let owner = self.owns[place].owner();
        self.owns[place].push(alloc, changes, undo.len())?;
        self.undo.add(owner, undo).unwrap();
        Ok(())
    }

    /// Takes back the last set of a live branch, where it has one.
    pub(crate) fn pop(&mut self, branch: &BranchId)
        ensures { self.new ≡ record self.old { owns = without_last self.old.owns branch.now } }
    {
        let Some(place) = self.owns.get_index_of(branch) else {
            return;
        };
        let owner = self.owns[place].owner();
        let Some(size) = self.owns[place].pop() else {
            return;
        };
        let keep = self.undo.len(owner) as usize - size.undo;
        self.undo.cut(owner, keep as u32);
    }

    /// Drops a live branch, and gives its changes where it had some.
    pub(crate) fn remove(&mut self, branch: &BranchId) -> Option<Vec<Change>>
        ensures changes { let changes = changes_of (sets_at self.old.owns branch.now) in MatchOption result (changes ≡ []) (λ those. those.items ≡ changes) }
        ensures dropped { self.new ≡ record self.old { owns = drop_item own_id self.old.owns branch.now } }
    {
        let sets = self.owns.shift_remove(branch)?;
        self.undo.release(sets.owner());
        Some(sets.into_changes())
    }

    /// A live branch is one in doubt from now on: its changes and its undo stay where they are.
    pub(crate) fn seal(&mut self, alloc: Global, branch: &BranchId) -> Result<(), AllocError>
        requires { is_in_doubt self.old.doubts branch.now ≡ false }
        ensures ok { OnOk result (self.new ≡ record self.old { owns = drop_item own_id self.old.owns branch.now; doubts = put_by_branch doubt_id self.old.doubts (sealed_doubt self.old.owns branch.now) }) }
        ensures err { OnErr result (self.new ≡ self.old) }
    {
        let next = owner_after(self.next)?;
        self.doubts.reserve(1)?;
        let held = held_of(alloc, self.owns.shift_remove(branch), self.next);
        put_held(&mut self.doubts, branch, held).unwrap();
        self.next = next;
        Ok(())
    }

    /// Adds a branch in doubt with these changes, and their undo, for which there is room.
    pub(crate) fn hold_back(
        &mut self,
        branch: &BranchId,
        changes: Vec<Change>,
        undo: &UndoSet,
    ) -> Result<(), AllocError>
        requires apart { is_in_doubt self.old.doubts branch.now ≡ false }
        requires room { extents_of (changes_length undo.now) ≤ self.old.extents - used_extents self.old.owns self.old.doubts }
        ensures ok { OnOk result (self.new ≡ record self.old { doubts = put_by_branch doubt_id self.old.doubts (record { branch = branch.now; changes = changes.items; undo = undo.now }) }) }
        ensures err { OnErr result (self.new ≡ self.old) }
    {
        let next = owner_after(self.next)?;
        let held = HeldChanges::new(changes, self.next);
        put_held(&mut self.doubts, branch, held)?;
        self.undo.add(self.next, undo).unwrap();
        self.next = next;
        Ok(())
    }

    /// Drops a branch in doubt, and gives its changes where it was one.
    pub(crate) fn settle(&mut self, branch: &BranchId) -> Option<Vec<Change>>
        ensures changes { let changes = held_back_by (item_at doubt_id self.old.doubts branch.now) in MatchOption result (changes ≡ []) (λ those. those.items ≡ changes) }
        ensures dropped { self.new ≡ record self.old { doubts = drop_item doubt_id self.old.doubts branch.now } }
    {
        let held = self.doubts.shift_remove(branch)?;
        self.undo.release(held.owner());
        Some(held.into_changes())
    }

    // Adds the first set of a branch, with its undo, for which there is room.
    fn push_first(
        &mut self,
        alloc: Global,
        branch: &BranchId,
        changes: Changes,
        undo: &UndoSet,
    ) -> Result<(), AllocError>
        requires none { item_at own_id self.old.owns branch.now ≡ None }
        requires even { length undo.now ≡ length changes }
        requires room { extents_of (changes_length undo.now) ≤ self.old.extents - used_extents self.old.owns self.old.doubts }
        ensures ok { OnOk result (self.new ≡ record self.old { owns = with_set self.old.owns branch.now (record { changes = changes; undo = undo.now }) }) }
        ensures err { OnErr result (self.new ≡ self.old) }
    {
        let next = owner_after(self.next)?;
        let sets = first_set(alloc, self.next, changes, undo.len())?;
        drop(self.owns.insert(*branch, sets)?);
        self.undo.add(self.next, undo).unwrap();
        self.next = next;
        Ok(())
    }
}

// The owner after this one. Where 32 bits count no further, it is answered as out of memory.
fn owner_after(owner: u32) -> Result<u32, AllocError>
    ensures { IfOk result (λ next. next ≡ owner + 1) }
{
    owner.checked_add(1).ok_or(AllocError)
}

// The set of a branch's first statement.
fn first_set(
    alloc: Global,
    owner: u32,
    changes: Changes,
    undo: usize,
) -> Result<OwnSets, AllocError>
    ensures { IfOk result (λ sets. sets ≡ record { changes = changes; sizes = (record { changes = length changes; undo = undo }) ∷ []; owner = owner }) }
{
    let mut sets = OwnSets::new(alloc, owner);
    sets.push(alloc, changes, undo)?;
    Ok(sets)
}

// A live branch's changes as one in doubt holds them back. One that has changed nothing has this owner.
fn held_of(alloc: Global, sets: Option<OwnSets>, next: u32) -> HeldChanges
    ensures { result ≡ doubt_kept next sets }
{
    match sets {
        Some(sets) => {
            let owner = sets.owner();
            HeldChanges::new(sets.into_changes(), owner)
        }
        None => HeldChanges::new(Vec::new(alloc), next),
    }
}
