//! What a node knows of a branch.
ghost use Rattle.std.specs.Prelude.{◌≡◌, None, IfSome};
ghost use Rattle.std.specs.Option.{option_copied, option_map};
ghost use Rattle.node_rules.specs.NodeState.{live_at, work_or, work_at, branch_at, kept_row_at};
ghost use Rattle.node_rules.specs.Turn.{status_of, kept_or_gone as kept_or_gone_of};
ghost use Rattle.node_state.specs.Lives.{HasRoom};
ghost use Rattle.node_memory.specs.Parts.{kept_in};
ghost use Rattle.node_memory.specs.Branches.{branch_as, stand_as, live_in, HasRow, HasRoomIn};

use crate::Memory;
use node_rules::Work;
use redo_record::KeptRow;
use session_tree::Live;
use tran_ids::BranchId;

/// A live branch with its calls.
#[derive(Clone, Copy)]
pub struct LiveBranch<'a> {
    /// The branch.
    pub live: &'a Live,
    /// Its calls, where some came or were made.
    pub work: Option<&'a Work>,
}

/// What a branch is at its node.
#[derive(Clone, Copy)]
pub enum BranchStatus<'a> {
    /// It takes part in its transaction.
    Live(LiveBranch<'a>),
    /// The node keeps a row of it.
    Kept(&'a KeptRow),
    /// The node knows nothing of it.
    Gone,
}

impl Memory {
    /// The live branch of an id. It has no more children than a tree has branches.
    pub fn live_at(&self, branch: &BranchId) -> Option<&Live>
        ensures live { option_copied result ≡ live_at (kept_in self.now) branch.now }
        ensures room { IfSome result (λ live. HasRoom live.now) }
    {
        self.lives.get(branch)
    }

    /// The calls of a live branch, where some came or were made. Else they are those of a branch without any.
    pub fn work_at(&self, branch: &BranchId) -> Option<&Work>
        ensures { work_or branch.now (option_copied result) ≡ work_at (kept_in self.now) branch.now }
    {
        self.works.get(branch)
    }

    /// The live branch of an id, with its calls. It has no more children than a tree has branches.
    pub fn branch_at(&self, branch: &BranchId) -> Option<LiveBranch<'_>>
        ensures branch { option_map branch_as result ≡ branch_at (kept_in self.now) branch.now }
        ensures live { option_map (λ it. it.live.now) result ≡ live_at (kept_in self.now) branch.now }
        ensures room { IfSome result (λ it. HasRoom it.live.now) }
    {
        let live = self.live_at(branch)?;
        let work = self.work_at(&live.me);
        Some(LiveBranch { live, work })
    }

    /// The row of a kept branch.
    pub fn kept_row_at(&self, branch: &BranchId) -> Option<&KeptRow>
        ensures { option_copied result ≡ kept_row_at (kept_in self.now) branch.now }
    {
        self.kept.find(branch)
    }

    /// What the branch of an id is at the node: live, with no more children than a tree has branches, or else kept, or else
    /// gone.
    #[tactic(auto, unfolding(node_rules::specs::Turn::status_of))]
    pub fn status_of(&self, branch: &BranchId) -> BranchStatus<'_>
        ensures stand { stand_as result ≡ status_of (kept_in self.now) branch.now }
        ensures live { live_in result ≡ live_at (kept_in self.now) branch.now }
        ensures row { HasRow result (kept_row_at (kept_in self.now) branch.now) }
        ensures room { HasRoomIn result }
    {
        match self.branch_at(branch) {
            Some(it) => BranchStatus::Live(it),
            None => kept_or_gone(self.kept_row_at(branch)),
        }
    }
}

fn kept_or_gone(row: Option<&KeptRow>) -> BranchStatus<'_>
    ensures stand { stand_as result ≡ kept_or_gone_of (option_copied row.entry) }
    ensures live { live_in result ≡ None }
    ensures row { HasRow result (option_copied row.entry) }
    ensures room { HasRoomIn result }
{
    match row {
        Some(row) => BranchStatus::Kept(row),
        None => BranchStatus::Gone,
    }
}
