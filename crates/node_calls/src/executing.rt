//! A call comes over the link from the parent: a statement, or to go back to a savepoint.
ghost use Rattle.std.specs.Prelude.{◌≡◌, IfOk};
ghost use Rattle.sql_statement.specs.declared.statement.Stmt.{Stmt as StmtBy};
ghost use Rattle.node_rules.specs.NodeState.{branch_at, live_id};
ghost use Rattle.node_rules.specs.Calls.{advised_by, on_exec as on_exec_of, says_again as says_again_of, task_at as task_at_of};
ghost use Rattle.node_state.specs.Changed.{change_item};
ghost use Rattle.node_state.specs.Works.{work_of};
ghost use Rattle.node_drafts.specs.Gives.{GivesDraft, branch_with};
ghost use Rattle.node_memory.specs.Parts.{kept_in};
ghost use Rattle.node_calls.specs.Handled.{at_live, TakesStatement};

use crate::going_back::go_back;
use crate::routing::statement_at;
use link_session::Admit;
use node_drafts::{TurnDraft, says_again};
use node_memory::Memory;
use node_state::{Lives, Works, no_work};
use reco::Posts;
use session_tree::Live;
use std::alloc::{AllocError, Global};
use tran_ids::BranchId;
use wire_msg::Task;

/// Exec at a live branch: a call that comes first is run, the last one is answered again once it was answered, and any other is
/// ignored.
#[tactic(auto, using(crate::proofs::BranchLaws::nothing_so))]
pub(crate) fn on_exec(
    memory: &mut Memory,
    alloc: Global,
    from: BranchId,
    to: &BranchId,
    call: u32,
    task: &Task,
) -> Result<TurnDraft, AllocError>
    requires { (s : StmtBy) → TakesStatement memory.old to.now s }
    ensures gives { IfOk result (λ draft.
        GivesDraft (at_live (kept_in memory.old) (λ x. on_exec_of memory.old.place (kept_in memory.old) x from call task.now) (branch_at (kept_in memory.old) to.now)) (kept_in memory.new) draft) }
    ensures place { memory.new.place ≡ memory.old.place }
{
    let Some(live) = memory.lives.get(to) else {
        return Ok(TurnDraft::nothing(alloc));
    };
    match memory.works.admit(to, call) {
        Admit::Ignore => Ok(TurnDraft::nothing(alloc)),
        Admit::Again => {
            let says = reply_again(alloc, &memory.works, to, live, from)?;
            Ok(TurnDraft::saying(alloc, says))
        }
        Admit::Run => {
            take_advice(&mut memory.lives, to, task);
            memory.works.take_call(alloc, to, call)?;
            let draft = task_at(memory, alloc, to, task)?;
            Ok(draft)
        }
    }
}

// The advice that comes with a statement.
fn take_advice(lives: &mut Lives, branch: &BranchId, task: &Task)
    ensures { lives.new ≡ change_item live_id (λ live. advised_by live task.now) lives.old branch.now }
{
    match task {
        Task::Run { advice, .. } => lives.take_advice(branch, *advice),
        Task::GoBack { keep: _keep } => {}
    }
}

// What a live branch was called for. Nothing where it is not live.
fn task_at(
    memory: &mut Memory,
    alloc: Global,
    branch: &BranchId,
    task: &Task,
) -> Result<TurnDraft, AllocError>
    requires { (s : StmtBy) → TakesStatement memory.old branch.now s }
    ensures gives { IfOk result (λ draft.
        GivesDraft (at_live (kept_in memory.old) (λ x. task_at_of memory.old.place (kept_in memory.old) x task.now) (branch_at (kept_in memory.old) branch.now)) (kept_in memory.new) draft) }
    ensures place { memory.new.place ≡ memory.old.place }
{
    match task {
        Task::Run {
            room,
            statement,
            ..
        } => {
            let draft = statement_at(memory, alloc, branch, statement, *room)?;
            Ok(draft)
        }
        Task::GoBack { keep } => go_back(memory, alloc, branch, *keep),
    }
}

// The Reply that was given before to the last call.
fn reply_again(
    alloc: Global,
    works: &Works,
    branch: &BranchId,
    live: &Live,
    to: BranchId,
) -> Result<Posts, AllocError>
    ensures { IfOk result (λ posts. posts ≡ says_again_of (branch_with live.now (work_of works.now branch.now)) to (work_of works.now branch.now).came.reply) }
{
    match works.get(branch) {
        None => {
            let none = no_work(alloc, branch);
            let says = says_again(alloc, live, &none, to);
            drop(none);
            says
        }
        Some(work) => says_again(alloc, live, work, to),
    }
}
