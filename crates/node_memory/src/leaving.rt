//! What a branch that leaves takes with it, and what a node learns without a record.
ghost use Rattle.std.specs.Prelude.{◌≡◌};
ghost use Rattle.node_rules.specs.NodeState.{without_branch, raised};
ghost use Rattle.node_memory.specs.Parts.{kept_in};

use crate::Memory;
use tran_ids::BranchId;

impl Memory {
    /// The clock meets an SCN.
    pub fn raise(&mut self, scn: u64)
        ensures kept { kept_in self.new ≡ raised (kept_in self.old) scn }
        ensures place { self.new.place ≡ self.old.place }
    {
        self.clock.meet(scn);
    }

    /// A branch is live no longer: its changes are dropped with its calls, and its keys are free.
    pub fn drop_branch(&mut self, branch: &BranchId)
        ensures kept { kept_in self.new ≡ without_branch (kept_in self.old) branch.now }
        ensures place { self.new.place ≡ self.old.place }
    {
        self.store.rollback(branch);
        self.lives.drop_branch(branch);
        self.works.drop_branch(branch);
        self.locks.release(branch);
    }
}
