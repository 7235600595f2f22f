//! SAVEPOINT, and ROLLBACK TO a savepoint, of a client.
ghost use Rattle.std.specs.Prelude.{◌≡◌, ◌+◌, ◌<◌, ◌^◌, None, IfOk};
ghost use Rattle.tran_ids.specs.Listed.{item_at};
ghost use Rattle.node_rules.specs.NodeState.{branch_at, live_id};
ghost use Rattle.node_rules.specs.Sessions.{session_at};
ghost use Rattle.node_rules.specs.Client.{back_by, back_call as back_call_of, back_to_savepoint, begun, counted, new_root, savepoint_by, savepoint_call as savepoint_call_of};
ghost use Rattle.node_rules.specs.Marks.{savepoint_at};
ghost use Rattle.node_rules.specs.NodeState.{NodeState as NodeStateBy};
ghost use Rattle.node_rules.specs.Client.{refuses};
ghost use Rattle.sql_check.specs.Refusals.{dtx};
ghost use Rattle.sql_check.specs.Words.{one};
ghost use Rattle.node_drafts.specs.Gives.{GivesDraft};
ghost use Rattle.node_memory.specs.Parts.{kept_in};
ghost use Rattle.node_calls.specs.Handled.{at_live};

use crate::beginning::{begin, refuse_again};
use crate::calling::step_of;
use crate::going_back::go_back;
use dtx_values::{Answer, Done, Duplicate, Name};
use node_drafts::{TurnDraft, no_savepoint};
use node_memory::Memory;
use std::alloc::{AllocError, Global};
use tran_ids::BranchId;

/// SAVEPOINT in a session: a session without a transaction begins one first. ORA-02067 where the transaction can only be rolled
/// back. Nothing where the session's root is not live.
#[tactic(auto, using(crate::proofs::SavepointLaws::rootless_in, crate::proofs::SavepointLaws::rooted_in))]
pub fn savepoint_call(
    memory: &mut Memory,
    alloc: Global,
    session: u32,
    name: &Name,
) -> Result<TurnDraft, AllocError>
    requires seq { (session_at memory.old.sessions session).seq + 1 < 2 ^ 32 }
    requires new { item_at live_id memory.old.lives (new_root memory.old.place (kept_in memory.old) session) ≡ None }
    ensures gives { IfOk result (λ draft. GivesDraft (savepoint_call_of (begun memory.old.place (kept_in memory.old) session) session name.now) (kept_in memory.new) draft) }
    ensures place { memory.new.place ≡ memory.old.place }
{
    begin(memory, alloc, session)?;
    match memory.sessions.at(session).root {
        None => Ok(TurnDraft::nothing(alloc)),
        Some(root) => {
            let draft = savepoint_in(memory, alloc, session, &root, name)?;
            Ok(draft)
        }
    }
}

// SAVEPOINT in a session with this root.
#[tactic(auto, using(crate::proofs::SavepointLaws::savepoint_so, crate::proofs::SavepointLaws::savepoint_refused))]
fn savepoint_in(
    memory: &mut Memory,
    alloc: Global,
    session: u32,
    root: &BranchId,
    name: &Name,
) -> Result<TurnDraft, AllocError>
    ensures gives { IfOk result (λ draft.
        GivesDraft (savepoint_by (kept_in memory.old) session name.now (session_at memory.old.sessions session).code (branch_at (kept_in memory.old) root.now)) (kept_in memory.new) draft) }
    ensures place { memory.new.place ≡ memory.old.place }
{
    match memory.sessions.at(session).code {
        None => {
            let draft = set_savepoint(memory, alloc, session, root, name)?;
            Ok(draft)
        }
        Some(code) => refuse_again(memory, alloc, session, root, code),
    }
}

// A live root has a savepoint at its step.
#[tactic(auto, using(crate::proofs::SavepointLaws::nobody_marked))]
fn set_savepoint(
    memory: &mut Memory,
    alloc: Global,
    session: u32,
    root: &BranchId,
    name: &Name,
) -> Result<TurnDraft, AllocError>
    ensures gives { IfOk result (λ draft.
        GivesDraft (savepoint_by (kept_in memory.old) session name.now None (branch_at (kept_in memory.old) root.now)) (kept_in memory.new) draft) }
    ensures place { memory.new.place ≡ memory.old.place }
{
    let Some(live) = memory.lives.get(root) else {
        return Ok(TurnDraft::nothing(alloc));
    };
    let step = step_of(&memory.sessions, &memory.works, root, live);
    memory
        .works
        .set_savepoint(alloc, root, name.copy(alloc)?, step)?;
    let draft = TurnDraft::ending(alloc, session, Answer::Did(Done::SavepointMade, 0))?;
    Ok(draft)
}

/// ROLLBACK TO a savepoint in a session. ORA-02067 where the transaction can only be rolled back, and DTX-22 where it has no
/// savepoint of this name, or there is none.
#[tactic(auto, using(crate::proofs::SavepointLaws::back_rooted))]
pub fn back_call(
    memory: &mut Memory,
    alloc: Global,
    session: u32,
    name: &Name,
) -> Result<TurnDraft, AllocError>
    ensures gives { IfOk result (λ draft. GivesDraft (back_call_of (counted (kept_in memory.old) session) session name.now) (kept_in memory.new) draft) }
    ensures place { memory.new.place ≡ memory.old.place }
{
    memory.sessions.count(session)?;
    match memory.sessions.at(session).root {
        None => {
            let draft = refuse_back(alloc, session, name)?;
            Ok(draft)
        }
        Some(root) => {
            let draft = back_in(memory, alloc, session, &root, name)?;
            Ok(draft)
        }
    }
}

// DTX-22.
fn refuse_back(alloc: Global, session: u32, name: &Name) -> Result<TurnDraft, AllocError>
    ensures { IfOk result (λ draft. (k : NodeStateBy) → GivesDraft (refuses k session (dtx 22 (one name.now))) k draft) }
{
    let refusal = no_savepoint(alloc, name.as_bytes())?;
    TurnDraft::ending(alloc, session, Answer::Refused(refusal))
}

// ROLLBACK TO in a session with this root.
#[tactic(auto, using(crate::proofs::SavepointLaws::back_so, crate::proofs::SavepointLaws::back_refused))]
fn back_in(
    memory: &mut Memory,
    alloc: Global,
    session: u32,
    root: &BranchId,
    name: &Name,
) -> Result<TurnDraft, AllocError>
    ensures gives { IfOk result (λ draft.
        GivesDraft (back_by (kept_in memory.old) session name.now (session_at memory.old.sessions session).code (branch_at (kept_in memory.old) root.now)) (kept_in memory.new) draft) }
    ensures place { memory.new.place ≡ memory.old.place }
{
    match memory.lives.get(root) {
        None => {
            let draft = refuse_back(alloc, session, name)?;
            Ok(draft)
        }
        Some(_) => match memory.sessions.at(session).code {
            None => {
                let draft = back_to(memory, alloc, session, root, name)?;
                Ok(draft)
            }
            Some(code) => refuse_again(memory, alloc, session, root, code),
        },
    }
}

// A live root goes back to a savepoint, where it has one of this name.
#[tactic(auto, using(crate::proofs::BranchLaws::nothing_so))]
fn back_to(
    memory: &mut Memory,
    alloc: Global,
    session: u32,
    root: &BranchId,
    name: &Name,
) -> Result<TurnDraft, AllocError>
    ensures gives { IfOk result (λ draft.
        GivesDraft (at_live (kept_in memory.old) (λ x. back_to_savepoint (kept_in memory.old) session name.now x (savepoint_at x.work.marks name.now)) (branch_at (kept_in memory.old) root.now)) (kept_in memory.new) draft) }
    ensures place { memory.new.place ≡ memory.old.place }
{
    match memory.lives.get(root) {
        None => Ok(TurnDraft::nothing(alloc)),
        Some(_) => match memory.works.savepoint(root, name) {
            None => {
                let draft = refuse_back(alloc, session, name)?;
                Ok(draft)
            }
            Some(step) => {
                let draft = go_back(memory, alloc, root, step)?;
                Ok(draft)
            }
        },
    }
}
