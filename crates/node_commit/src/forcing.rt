//! Forced outcomes and purges.
ghost use Rattle.std.specs.Prelude.{◌≡◌, ◌-◌, ◌<◌, ◌^◌, ◌++◌, ◌∷◌, [], Ok, IfOk};
ghost use Rattle.node_rules.specs.Force.{branch_to_force as branch_to_force_of, forces as forces_of, force_commit as force_commit_of, force_rollback as force_rollback_of, purge as purge_of};
ghost use Rattle.node_rules.specs.Sessions.{commit_answer as commit_answer_of, tran_refusal as tran_refusal_of};
ghost use Rattle.node_memory.specs.Parts.{kept_in};
ghost use Rattle.node_drafts.specs.Gives.{GivesDraft};
ghost use Rattle.node_commit.specs.Branches.{hides_named};

use crate::committing::taken_in;
use dtx_values::{Answer, Done, Listing, Refusal};
use force_cmds::may_purge;
use node_drafts::{
    TRAN_IN_DOUBT, TurnDraft, branch_to_force, ended, nothing_to_purge, tran_refusal,
};
use node_memory::Memory;
use node_rules::{Ended, Finished};
use node_state::Sessions;
use redo_record::{Decision, RedoRecord};
use std::alloc::{AllocError, Global};
use tran_ids::BranchId;

// The COMMIT of this root is answered, where it is pending: it is in doubt.
fn doubt_ends(alloc: Global, sessions: &Sessions, branch: &BranchId) -> Result<Ended, AllocError>
    ensures { IfOk result (λ ends. ends ≡ commit_answer_of sessions.now branch.now (tran_refusal_of 2054 branch.now)) }
{
    let refusal = tran_refusal(alloc, TRAN_IN_DOUBT, *branch)?;
    sessions.commit_answer(alloc, branch, refusal)
}

// What a forced outcome answers.
fn forced_ends(
    alloc: Global,
    sessions: &Sessions,
    session: u32,
    branch: &BranchId,
    answer: Answer,
) -> Result<Ended, AllocError>
    ensures { IfOk result (λ ends. ends ≡ commit_answer_of sessions.now branch.now (tran_refusal_of 2054 branch.now) ++ (record { session = session; answer = answer }) ∷ []) }
{
    match doubt_ends(alloc, sessions, branch) {
        Err(error) => {
            drop(answer);
            Err(error)
        }
        Ok(mut ends) => {
            ends.push(Finished { session, answer })?;
            Ok(ends)
        }
    }
}

// The outcome is forced; a root whose COMMIT is pending is in doubt.
fn forces(
    memory: &mut Memory,
    alloc: Global,
    session: u32,
    branch: BranchId,
    decision: Decision,
    given: bool,
    answer: Answer,
) -> Result<TurnDraft, AllocError>
    ensures gives { IfOk result (λ draft. GivesDraft (forces_of (kept_in memory.old) session branch decision given answer) (kept_in memory.new) draft) }
    ensures place { memory.new.place ≡ memory.old.place }
{
    let ends = forced_ends(alloc, &memory.sessions, session, &branch, answer)?;
    let redo = RedoRecord::Forced {
        me: branch,
        decision,
        given,
    };
    memory.sessions.end_commit(&branch);
    let draft = TurnDraft::writing(redo, Listing::new(alloc), ends);
    taken_in(memory, alloc, draft)
}

// COMMIT FORCE of a branch.
fn force_committed(
    memory: &mut Memory,
    alloc: Global,
    session: u32,
    scn: Option<u64>,
    branch: BranchId,
) -> Result<TurnDraft, AllocError>
    requires { memory.old.clock < 2 ^ 48 - 1 }
    ensures gives { IfOk result (λ draft. GivesDraft (force_commit_of (kept_in memory.old) session scn (Ok branch)) (kept_in memory.new) draft) }
    ensures place { memory.new.place ≡ memory.old.place }
{
    let answer = Answer::Did(Done::Committed, 0);
    match scn {
        Some(scn) => forces(
            memory,
            alloc,
            session,
            branch,
            Decision::Commit(scn),
            true,
            answer,
        ),
        None => {
            let scn = memory.clock.next();
            forces(
                memory,
                alloc,
                session,
                branch,
                Decision::Commit(scn),
                false,
                answer,
            )
        }
    }
}

// COMMIT FORCE, where the id names this branch or is refused.
fn force_commit(
    memory: &mut Memory,
    alloc: Global,
    session: u32,
    scn: Option<u64>,
    named: Result<BranchId, Refusal>,
) -> Result<TurnDraft, AllocError>
    requires { memory.old.clock < 2 ^ 48 - 1 }
    ensures gives { IfOk result (λ draft. GivesDraft (force_commit_of (kept_in memory.old) session scn named) (kept_in memory.new) draft) }
    ensures place { memory.new.place ≡ memory.old.place }
{
    match named {
        Err(refusal) => TurnDraft::ending(alloc, session, Answer::Refused(refusal)),
        Ok(branch) => force_committed(memory, alloc, session, scn, branch),
    }
}

// ROLLBACK FORCE, where the id names this branch or is refused.
fn force_rollback(
    memory: &mut Memory,
    alloc: Global,
    session: u32,
    named: Result<BranchId, Refusal>,
) -> Result<TurnDraft, AllocError>
    ensures gives { IfOk result (λ draft. GivesDraft (force_rollback_of (kept_in memory.old) session named) (kept_in memory.new) draft) }
    ensures place { memory.new.place ≡ memory.old.place }
{
    match named {
        Err(refusal) => TurnDraft::ending(alloc, session, Answer::Refused(refusal)),
        Ok(branch) => {
            let answer = Answer::Did(Done::RolledBack, 0);
            forces(
                memory,
                alloc,
                session,
                branch,
                Decision::Rollback,
                false,
                answer,
            )
        }
    }
}

/// COMMIT FORCE with an id, and an SCN where one is given: else the commit SCN is one more than the node's clock.
pub fn commit_force(
    memory: &mut Memory,
    alloc: Global,
    session: u32,
    id: &[u8],
    scn: Option<u64>,
) -> Result<TurnDraft, AllocError>
    requires { memory.old.clock < 2 ^ 48 - 1 }
    ensures gives { IfOk result (λ draft. GivesDraft (force_commit_of (kept_in memory.old) session scn (branch_to_force_of memory.old.place.names memory.old.kept id.now)) (kept_in memory.new) draft) }
    ensures place { memory.new.place ≡ memory.old.place }
{
    let names = memory.place.names.as_slice();
    let named = branch_to_force(alloc, names, memory.kept.as_slice(), id)?;
    force_commit(memory, alloc, session, scn, named)
}

/// ROLLBACK FORCE with an id.
pub fn rollback_force(
    memory: &mut Memory,
    alloc: Global,
    session: u32,
    id: &[u8],
) -> Result<TurnDraft, AllocError>
    ensures gives { IfOk result (λ draft. GivesDraft (force_rollback_of (kept_in memory.old) session (branch_to_force_of memory.old.place.names memory.old.kept id.now)) (kept_in memory.new) draft) }
    ensures place { memory.new.place ≡ memory.old.place }
{
    let names = memory.place.names.as_slice();
    let named = branch_to_force(alloc, names, memory.kept.as_slice(), id)?;
    force_rollback(memory, alloc, session, named)
}

// The row of this branch is hidden, or there is none: DTX-06.
fn hides(
    memory: &mut Memory,
    alloc: Global,
    session: u32,
    id: &[u8],
    found: Option<BranchId>,
) -> Result<TurnDraft, AllocError>
    ensures gives { IfOk result (λ draft. GivesDraft (hides_named (kept_in memory.old) session id.now found) (kept_in memory.new) draft) }
    ensures place { memory.new.place ≡ memory.old.place }
{
    match found {
        None => {
            let refusal = nothing_to_purge(alloc, id)?;
            TurnDraft::ending(alloc, session, Answer::Refused(refusal))
        }
        Some(me) => {
            let ends = ended(alloc, session, Answer::Did(Done::Purged, 0))?;
            let draft = TurnDraft::writing(RedoRecord::Hidden(me), Listing::new(alloc), ends);
            taken_in(memory, alloc, draft)
        }
    }
}

/// PURGE_MIXED, or else PURGE_LOST_DB_ENTRY, with an id.
#[tactic(auto, unfolding(node_rules::specs::Force::purge))]
pub fn purge(
    memory: &mut Memory,
    alloc: Global,
    session: u32,
    mixed: bool,
    id: &[u8],
) -> Result<TurnDraft, AllocError>
    ensures gives { IfOk result (λ draft. GivesDraft (purge_of (kept_in memory.old) session mixed id.now) (kept_in memory.new) draft) }
    ensures place { memory.new.place ≡ memory.old.place }
{
    let found = may_purge(alloc, memory.kept.as_slice(), id, mixed)?;
    hides(memory, alloc, session, id, found)
}
