//! What a branch in doubt holds back.
ghost use Rattle.std.specs.Prelude.{◌≡◌, ◌≤◌, ◌<◌, None, length, IsOk, OnOk, OnErr};
ghost use Rattle.std.specs.List.{position_or_len};
ghost use Rattle.indexmap.specs.IndexMap.{spare, IsUnchanged};
ghost use Rattle.tran_ids.specs.Branch.{branch_below, put_by_branch};
ghost use Rattle.tran_ids.specs.Listed.{item_at};
ghost use Rattle.row_store.specs.ByBranch.{held_id};

use dtx_values::Change;
use indexmap::IndexMap;
use std::alloc::AllocError;
use std::marker::Model;
use tran_ids::BranchId;

/// The changes of a branch in doubt.
pub(crate) struct HeldChanges {
    changes: Vec<Change>,
    // The owner of their undo.
    owner: u32,
}

impl Drop for HeldChanges {
    fn drop(self) {
        let HeldChanges {
            changes,
            owner: _owner,
        } = self;
        drop(changes);
    }
}

impl Model for HeldChanges {
    ghost use Rattle.row_store.specs.ByBranch.{KeptDoubt};

    ghost Value = { KeptDoubt };

    ghost view = { λ h. record { changes = h.changes.items; owner = h.owner } };
}

impl HeldChanges {
    /// These changes, whose undo has this owner.
    pub(crate) fn new(changes: Vec<Change>, owner: u32) -> HeldChanges
        ensures { result ≡ record { changes = changes.items; owner = owner } }
    {
        HeldChanges { changes, owner }
    }

    /// The owner of their undo.
    pub(crate) fn owner(&self) -> u32
        ensures { result ≡ self.now.owner }
    {
        self.owner
    }

    /// The changes.
    pub(crate) fn as_slice(&self) -> &[Change]
        ensures { result.now ≡ self.now.changes }
    {
        self.changes.as_slice()
    }

    /// The changes alone.
    pub(crate) fn into_changes(self) -> Vec<Change>
        ensures { result.items ≡ self.changes }
    {
        let HeldChanges {
            changes,
            owner: _owner,
        } = self;
        changes
    }
}

/// Puts the changes of one more branch among those of the others, which stand in the order of their ids. With room for it,
/// this takes no memory.
pub(crate) fn put_held(
    doubts: &mut IndexMap<BranchId, HeldChanges>,
    branch: &BranchId,
    held: HeldChanges,
) -> Result<(), AllocError>
    requires { item_at held_id doubts.old.entries branch.now ≡ None }
    ensures ok { OnOk result (doubts.new.entries ≡ put_by_branch held_id doubts.old.entries (branch.now, held)) }
    ensures err { OnErr result (IsUnchanged doubts.old doubts.new) }
    ensures succeeds { 0 < spare doubts.old → IsOk result }
{
    let place = place_among(doubts.keys().as_slice(), branch);
    let (_place, before) = doubts.insert_before(place, *branch, held)?;
    drop(before);
    Ok(())
}

// The place of a branch: in front of the first that it comes before.
fn place_among(branches: &[BranchId], branch: &BranchId) -> usize
    ensures first { result ≡ position_or_len (λ other. branch_below branch.now other) branches.now }
    ensures within { result ≤ length branches.now }
{
    for (place, other) in branches.iter().enumerate() {
        if branch.is_before(other) {
            return place;
        }
    }
    branches.len()
}
