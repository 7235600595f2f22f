//! What ends at the client sessions of a node.
ghost use Rattle.std.specs.Prelude.{◌≡◌, IfOk};
ghost use Rattle.node_rules.specs.Prepare.{abandon_ends as abandon_ends_of};
ghost use Rattle.node_commit.specs.Branches.{ended_where};
ghost use Rattle.node_rules.specs.Commit.{decided_sessions, decision_answers as decision_answers_of};

use dtx_values::Listing;
use node_drafts::{TRAN_ROLLED_BACK, tran_refusal};
use node_rules::Ended;
use node_state::Sessions;
use redo_record::Decision;
use session_tree::Live;
use std::alloc::{AllocError, Global};
use tran_ids::BranchId;

/// The calls that end when an Abort ends the collect of a branch: at a root its COMMIT, with ORA-02050. Fails where memory
/// runs out.
pub(crate) fn abandon_ends(
    alloc: Global,
    sessions: &Sessions,
    live: &Live,
) -> Result<Ended, AllocError>
    ensures { IfOk result (λ calls. calls ≡ abandon_ends_of sessions.now live.now live.now.parent) }
{
    match live.parent {
        None => {
            let answer = tran_refusal(alloc, TRAN_ROLLED_BACK, live.me)?;
            sessions.commit_answer(alloc, &live.me, answer)
        }
        Some(_) => Ok(Listing::new(alloc)),
    }
}

/// At a root the COMMIT ends whose collect an Abort ended.
pub(crate) fn end_abandoned(sessions: &mut Sessions, me: &BranchId, parent: Option<BranchId>)
    ensures { sessions.new ≡ ended_where sessions.old me.now parent }
{
    match parent {
        None => sessions.end_commit(me),
        Some(_) => {}
    }
}

/// The calls that a decision ends at a kept branch: RolledBack at the sealed root ends its COMMIT with ORA-02050. Fails where
/// memory runs out.
pub(crate) fn decision_answers(
    alloc: Global,
    sessions: &Sessions,
    branch: BranchId,
    decision: Decision,
) -> Result<Ended, AllocError>
    ensures { IfOk result (λ calls. calls ≡ decision_answers_of sessions.now branch decision) }
{
    match decision {
        Decision::Commit(_) => Ok(Listing::new(alloc)),
        Decision::Rollback => {
            let answer = tran_refusal(alloc, TRAN_ROLLED_BACK, branch)?;
            sessions.commit_answer(alloc, &branch, answer)
        }
    }
}

/// RolledBack at the sealed root ends its COMMIT.
pub(crate) fn end_decided(sessions: &mut Sessions, branch: &BranchId, decision: Decision)
    ensures { sessions.new ≡ decided_sessions sessions.old branch.now decision }
{
    match decision {
        Decision::Commit(_) => {}
        Decision::Rollback => sessions.end_commit(branch),
    }
}
