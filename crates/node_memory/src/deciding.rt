//! A live branch decides.
ghost use Rattle.std.specs.Prelude.{◌≡◌, OnOk, OnErr};
ghost use Rattle.node_rules.specs.NodeState.{without_branch};
ghost use Rattle.node_rules.specs.Records.{with_record};
ghost use Rattle.node_memory.specs.Parts.{kept_in};
ghost use Rattle.node_memory.specs.Leaving.{IsOwnDecision};

use crate::Memory;
use crate::parts::change_top;
use crate::versions::version_of;
use redo_record::RedoRecord;
use std::alloc::{AllocError, Global};
use tran_ids::BranchId;

impl Memory {
    /// A live branch decides: its record has what it changed, which is committed, and its keys are free. Its rows are moved,
    /// not copied. Fails where memory runs out, and nothing has changed then.
    pub fn decide(
        &mut self,
        alloc: Global,
        branch: &BranchId,
        redo: &RedoRecord,
    ) -> Result<(), AllocError>
        requires { IsOwnDecision (kept_in self.old) branch.now redo.now }
        ensures kept { OnOk result (kept_in self.new ≡ with_record (without_branch (kept_in self.old) branch.now) redo.now) }
        ensures err { OnErr result (kept_in self.new ≡ kept_in self.old) }
        ensures place { self.new.place ≡ self.old.place }
    {
        let RedoRecord::Decided(decided) = redo else {
            unreachable!();
        };
        let version = version_of(alloc, &self.store, redo)?;
        self.versions.reserve()?;
        self.kept.apply(alloc, redo)?;
        change_top(&mut self.top, &self.store, redo);
        self.store.commit(branch);
        self.scn.meet(decided.scn);
        self.versions.keep(version);
        self.drop_branch(branch);
        Ok(())
    }
}
