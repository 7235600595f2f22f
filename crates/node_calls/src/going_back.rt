//! A branch goes back to a savepoint, and then its children do, one after the other.
ghost use Rattle.std.specs.Prelude.{◌≡◌, ◌+◌, IfOk, OnOk};
ghost use Rattle.node_rules.specs.Data.answers;
ghost use Rattle.node_rules.specs.Data.dones;
ghost use Rattle.node_rules.specs.declared.work.Errand.TheVariants as errands;
ghost use Rattle.node_rules.specs.NodeState.{branch_at};
ghost use Rattle.node_rules.specs.Calls.{answered, backs_from, calls_over, goes_back};
ghost use Rattle.node_drafts.specs.Gives.{GivesDraft};
ghost use Rattle.node_memory.specs.Parts.{kept_in};
ghost use Rattle.node_calls.specs.Handled.{at_live, undone_in};

use crate::answering::answer;
use crate::calling::call_over;
use dtx_values::{Answer, Done};
use node_drafts::TurnDraft;
use node_memory::Memory;
use node_rules::Errand;
use session_tree::count;
use std::alloc::{AllocError, Global};
use tran_ids::BranchId;

/// A live branch goes back to a step, and then its children do. Nothing where it is not live.
#[tactic(auto, using(crate::proofs::BranchLaws::nothing_so))]
pub(crate) fn go_back(
    memory: &mut Memory,
    alloc: Global,
    branch: &BranchId,
    step: u32,
) -> Result<TurnDraft, AllocError>
    ensures gives { IfOk result (λ draft.
        GivesDraft (at_live (kept_in memory.old) (λ x. goes_back (kept_in memory.old) x step) (branch_at (kept_in memory.old) branch.now)) (kept_in memory.new) draft) }
    ensures place { memory.new.place ≡ memory.old.place }
{
    let Some(_) = memory.lives.get(branch) else {
        return Ok(TurnDraft::nothing(alloc));
    };
    undo(memory, alloc, branch, step)?;
    let draft = children_back(memory, alloc, branch, step, 0)?;
    Ok(draft)
}

// What a branch did in later steps is undone, and the keys that no remaining statement wrote are free. More lists of changes than
// 32 bits count are answered as out of memory.
fn undo(memory: &mut Memory, alloc: Global, branch: &BranchId, step: u32) -> Result<(), AllocError>
    ensures undone { OnOk result (kept_in memory.new ≡ undone_in (kept_in memory.old) branch.now step) }
    ensures place { memory.new.place ≡ memory.old.place }
{
    let Some(sets) = memory.works.sets_behind(branch, step) else {
        return Err(AllocError);
    };
    memory.store.undo_sets(branch, sets);
    memory.works.go_back(alloc, branch, step);
    let notes = memory.works.notes(branch);
    let changes = memory.store.changes(branch);
    memory.locks.go_back(branch, notes, changes);
    let changed = memory.store.has_changes(branch);
    memory.lives.set_changed(branch, changed);
    Ok(())
}

/// The children of a live branch behind this number go back to a step. Nothing where it is not live.
#[tactic(auto, using(crate::proofs::BranchLaws::nothing_so))]
pub(crate) fn children_back(
    memory: &mut Memory,
    alloc: Global,
    branch: &BranchId,
    step: u32,
    last: u8,
) -> Result<TurnDraft, AllocError>
    ensures gives { IfOk result (λ draft.
        GivesDraft (at_live (kept_in memory.old) (λ x. backs_from (kept_in memory.old) x step (last + 1)) (branch_at (kept_in memory.old) branch.now)) (kept_in memory.new) draft) }
    ensures place { memory.new.place ≡ memory.old.place }
{
    let Some(_) = memory.lives.get(branch) else {
        return Ok(TurnDraft::nothing(alloc));
    };
    let next = memory.works.next_back(branch, step, last)?;
    match next {
        None => {
            let draft = say_back(memory, alloc, branch)?;
            Ok(draft)
        }
        Some(number) => {
            let draft = child_back(memory, alloc, branch, step, number)?;
            Ok(draft)
        }
    }
}

// A live branch and its children are back. A count that no Reply can tell is answered as out of memory.
#[tactic(auto, using(crate::proofs::BranchLaws::nothing_so))]
fn say_back(memory: &mut Memory, alloc: Global, branch: &BranchId) -> Result<TurnDraft, AllocError>
    ensures gives { IfOk result (λ draft.
        GivesDraft (at_live (kept_in memory.old) (λ x. answered (kept_in memory.old) x (answers.Did dones.RolledBack 0)) (branch_at (kept_in memory.old) branch.now)) (kept_in memory.new) draft) }
    ensures place { memory.new.place ≡ memory.old.place }
{
    let Some(live) = memory.lives.get(branch) else {
        return Ok(TurnDraft::nothing(alloc));
    };
    if count(live) > 65_535 {
        return Err(AllocError);
    }
    let draft = answer(memory, alloc, branch, Answer::Did(Done::RolledBack, 0))?;
    Ok(draft)
}

// The child of a number is called to go back. A call number beyond 32 bits is answered as out of memory.
fn child_back(
    memory: &mut Memory,
    alloc: Global,
    branch: &BranchId,
    step: u32,
    number: u8,
) -> Result<TurnDraft, AllocError>
    ensures gives { IfOk result (λ draft.
        GivesDraft (at_live (kept_in memory.old) (λ x. calls_over (kept_in memory.old) x number (errands.GoBack step)) (branch_at (kept_in memory.old) branch.now)) (kept_in memory.new) draft) }
    ensures place { memory.new.place ≡ memory.old.place }
{
    if !memory.works.has_next_call(branch, number) {
        return Err(AllocError);
    }
    let draft = call_over(memory, alloc, branch, number, Errand::GoBack { step })?;
    Ok(draft)
}
