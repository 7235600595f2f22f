//! What branches have changed and not committed, as plain data.
ghost use Rattle.std.specs.Prelude.{◌≡◌};

use dtx_values::{Changes, Listing};
use tran_ids::BranchId;

/// What one statement changed.
pub struct ChangeSet {
    /// The changes, in order.
    pub changes: Changes,
    /// The key of each change, with the row from before it.
    pub undo: Changes,
}

impl Drop for ChangeSet {
    fn drop(self) {
        let ChangeSet { changes, undo } = self;
        drop(changes);
        drop(undo);
    }
}

/// The changes of several statements, in the order in which these were run.
pub type ChangeSets = Listing<ChangeSet>;

/// What a live branch has changed.
pub struct Owned {
    /// The branch.
    pub branch: BranchId,
    /// One for each statement that was accepted.
    pub sets: ChangeSets,
}

impl Drop for Owned {
    fn drop(self) {
        let Owned {
            branch: _branch,
            sets,
        } = self;
        drop(sets);
    }
}

/// What a branch in doubt holds back.
pub struct Doubt {
    /// The branch.
    pub branch: BranchId,
    /// Its changes, in order.
    pub changes: Changes,
    /// The key of each change, with the row from before it.
    pub undo: Changes,
}

impl Drop for Doubt {
    fn drop(self) {
        let Doubt {
            branch: _branch,
            changes,
            undo,
        } = self;
        drop(changes);
        drop(undo);
    }
}
