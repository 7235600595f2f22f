//! A live branch becomes sealed.
ghost use Rattle.std.specs.Prelude.{◌≡◌, OnOk, false};
ghost use Rattle.row_store.specs.Store.{is_in_doubt};
ghost use Rattle.node_rules.specs.NodeState.{without_branch};
ghost use Rattle.node_rules.specs.Records.{with_record};
ghost use Rattle.node_memory.specs.Parts.{kept_in};
ghost use Rattle.node_memory.specs.Leaving.{IsOwnSeal, HasItsUndo};

use crate::Memory;
use crate::parts::hold_in_doubt;
use redo_record::RedoRecord;
use std::alloc::{AllocError, Global};
use tran_ids::BranchId;

impl Memory {
    /// A live branch becomes sealed: its record has what it changed, which is held back from now on, and the keys of that are
    /// in doubt. The undo that it has is that of its changes over the committed rows, and stays where it is. Fails where memory
    /// runs out, and the node may not be used then: some parts have the record, and some have not.
    pub fn seal(
        &mut self,
        alloc: Global,
        branch: &BranchId,
        redo: &RedoRecord,
    ) -> Result<(), AllocError>
        requires apart { is_in_doubt (kept_in self.old).stored.doubts branch.now ≡ false }
        requires own { IsOwnSeal (kept_in self.old) branch.now redo.now }
        requires undo { HasItsUndo (kept_in self.old) branch.now }
        ensures kept { OnOk result (kept_in self.new ≡ with_record (without_branch (kept_in self.old) branch.now) redo.now) }
        ensures place { self.new.place ≡ self.old.place }
    {
        let RedoRecord::Sealed(sealed) = redo else {
            unreachable!();
        };
        self.kept.apply(alloc, redo)?;
        self.store.seal(alloc, branch)?;
        self.scn.meet(sealed.scn);
        self.drop_branch(branch);
        hold_in_doubt(&mut self.locks, alloc, branch, sealed.changes.as_slice())?;
        Ok(())
    }
}
