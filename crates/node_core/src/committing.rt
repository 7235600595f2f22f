//! COMMIT in a session.
ghost use Rattle.std.specs.Prelude.{◌≡◌, unwrap_or, is_some, [], None, Some, IfOk, IfSome};
ghost use Rattle.std.specs.Option.{option_copied};
ghost use Rattle.node_rules.specs.NodeState.{branch_at};
ghost use Rattle.node_rules.specs.Sessions.{session_at};
ghost use Rattle.node_rules.specs.Statement.{read_by};
ghost use Rattle.node_rules.specs.Client.{commit_by, commit_call as commit_call_of};
ghost use Rattle.node_memory.specs.Parts.{kept_in};
ghost use Rattle.node_drafts.specs.Gives.{GivesDraft};
ghost use Rattle.node_commit.specs.Branches.{phase_of};
ghost use Rattle.node_core.specs.Able.{IsAble, EndsWork};
ghost use Rattle.sql_statement.specs.declared.statement.Stmt.TheVariants as stmts;
ghost use Rattle.node_rules.specs.Data.phases as phases;

use crate::able::may_commit;
use dtx_values::{Answer, Bytes, Done, Duplicate, Listing};
use node_calls::leave;
use node_commit::collects;
use node_drafts::{TurnDraft, commit_complete, needs_rollback};
use node_memory::Memory;
use node_rules::PendingCall;
use session_tree::Live;
use std::alloc::{AllocError, Global};
use tran_ids::BranchId;

// The text of a COMMENT, and none where there is none.
fn comment_text(alloc: Global, comment: &Option<Bytes>) -> Result<Bytes, AllocError>
    ensures { IfOk result (λ text. text ≡ unwrap_or comment.now []) }
{
    match comment {
        None => Ok(Listing::new(alloc)),
        Some(text) => text.copy(alloc),
    }
}

// COMMIT at a live root that works: one that reads at an SCN has nothing to commit, and the collect of any other begins.
#[tactic(auto, using(crate::proofs::CommitLaws::collects_so, crate::proofs::CommitLaws::reader_leaves))]
fn commit_live(
    memory: &mut Memory,
    alloc: Global,
    session: u32,
    root: &BranchId,
    comment: Bytes,
) -> Result<TurnDraft, AllocError>
    requires able { IsAble memory.old.place (kept_in memory.old) }
    requires working { phase_of (kept_in memory.old) root.now ≡ Some phases.Working }
    ensures gives { IfOk result (λ draft. GivesDraft (commit_by (kept_in memory.old) session comment None (branch_at (kept_in memory.old) root.now)) (kept_in memory.new) draft) }
    ensures place { memory.new.place ≡ memory.old.place }
{
    if reads_at_scn(memory.live_at(root)) {
        drop(comment);
        return leave(memory, alloc, session, root, Done::Committed);
    }
    may_commit(memory, root);
    memory.sessions.set_call(session, PendingCall::Commit);
    collects(memory, alloc, root, true, comment)
}

// Whether a live branch reads at an SCN.
fn reads_at_scn(live: Option<&Live>) -> bool
    ensures { result ≡ is_some (read_by (option_copied live.entry)) }
{
    match live {
        None => false,
        Some(live) => live.read_at.is_some(),
    }
}

// COMMIT in a session with this root: complete where it is not live, and ORA-02067 where it can only be rolled back.
#[tactic(auto, using(crate::proofs::CommitLaws::root_works))]
fn commit_root(
    memory: &mut Memory,
    alloc: Global,
    session: u32,
    root: &BranchId,
    comment: &Option<Bytes>,
) -> Result<TurnDraft, AllocError>
    requires able { IsAble memory.old.place (kept_in memory.old) }
    requires working { IfSome (branch_at (kept_in memory.old) root.now) (λ x. x.live.phase ≡ phases.Working) }
    ensures gives { IfOk result (λ draft. GivesDraft (commit_by (kept_in memory.old) session (unwrap_or comment.now []) (session_at memory.old.sessions session).code (branch_at (kept_in memory.old) root.now)) (kept_in memory.new) draft) }
    ensures place { memory.new.place ≡ memory.old.place }
{
    match memory.live_at(root) {
        None => TurnDraft::ending(alloc, session, commit_complete()),
        Some(_) => match memory.sessions.at(session).code {
            None => {
                let comment = comment_text(alloc, comment)?;
                commit_live(memory, alloc, session, root, comment)
            }
            Some(code) => {
                let refusal = needs_rollback(alloc, code)?;
                TurnDraft::ending(alloc, session, Answer::Refused(refusal))
            }
        },
    }
}

/// COMMIT, with its comment: complete at once in a session without a live root.
pub(crate) fn commit_call(
    memory: &mut Memory,
    alloc: Global,
    session: u32,
    comment: &Option<Bytes>,
) -> Result<TurnDraft, AllocError>
    requires able { IsAble memory.old.place (kept_in memory.old) }
    requires commit { EndsWork (kept_in memory.old) session (stmts.Commit comment.now) }
    ensures gives { IfOk result (λ draft. GivesDraft (commit_call_of (kept_in memory.old) session comment.now) (kept_in memory.new) draft) }
    ensures place { memory.new.place ≡ memory.old.place }
{
    match memory.sessions.at(session).root {
        None => TurnDraft::ending(alloc, session, commit_complete()),
        Some(root) => commit_root(memory, alloc, session, &root, comment),
    }
}
