//! A live branch that rolls back, or leaves without a record.
ghost use Rattle.std.specs.Prelude.{◌≡◌, None, IfOk};
ghost use Rattle.node_rules.specs.Data.kinds as kinds;
ghost use Rattle.node_rules.specs.NodeState.{saying, to_one as to_one_of, without_branch};
ghost use Rattle.node_rules.specs.Prepare.{drops as drops_of, root_drops as root_drops_of, to_children as to_children_of, abandons as abandons_of, finishes as finishes_of};
ghost use Rattle.node_rules.specs.Sessions.{commit_answer as commit_answer_of};
ghost use Rattle.node_memory.specs.Parts.{kept_in};
ghost use Rattle.node_drafts.specs.Gives.{GivesDraft};
ghost use Rattle.node_commit.specs.Branches.{at_live};

use crate::looking::live_of;
use crate::session_ends::{abandon_ends, end_abandoned};
use dtx_values::{Answer, Listing};
use node_drafts::{TurnDraft, abandon_says, commit_complete, drop_says, to_children, to_one};
use node_memory::Memory;
use node_state::Sessions;
use reco::Posts;
use session_tree::Live;
use std::alloc::{AllocError, Global};
use tran_ids::BranchId;
use wire_msg::Kind;

/// A live branch rolls back: these messages go first, then Rollback to its children.
pub(crate) fn drops(
    memory: &mut Memory,
    alloc: Global,
    branch: &BranchId,
    first: Posts,
) -> Result<TurnDraft, AllocError>
    ensures gives { IfOk result (λ draft. GivesDraft (at_live (kept_in memory.old) branch.now (λ l. drops_of (kept_in memory.old) l first)) (kept_in memory.new) draft) }
    ensures place { memory.new.place ≡ memory.old.place }
{
    match live_of(memory, branch) {
        None => {
            drop(first);
            Ok(TurnDraft::nothing(alloc))
        }
        Some(live) => {
            let me = live.me;
            let says = drop_says(alloc, live, first)?;
            memory.drop_branch(&me);
            Ok(TurnDraft::saying(alloc, says))
        }
    }
}

// What a root says that rolls back, and the answer to its COMMIT.
fn root_dropping(
    alloc: Global,
    sessions: &Sessions,
    live: &Live,
    answer: Answer,
) -> Result<TurnDraft, AllocError>
    ensures { IfOk result (λ draft.
        draft ≡ record { wrote = None; says = to_children_of live.now kinds.Rollback; ended = commit_answer_of sessions.now live.now.me answer }) }
{
    let ended = sessions.commit_answer(alloc, &live.me, answer)?;
    match to_children(alloc, live, &Kind::Rollback) {
        Err(error) => {
            drop(ended);
            Err(error)
        }
        Ok(says) => Ok(TurnDraft {
            wrote: None,
            says,
            ended,
        }),
    }
}

/// A live root rolls back, and its COMMIT is answered.
pub(crate) fn root_drops(
    memory: &mut Memory,
    alloc: Global,
    branch: &BranchId,
    answer: Answer,
) -> Result<TurnDraft, AllocError>
    ensures gives { IfOk result (λ draft. GivesDraft (at_live (kept_in memory.old) branch.now (λ l. root_drops_of (kept_in memory.old) l answer)) (kept_in memory.new) draft) }
    ensures place { memory.new.place ≡ memory.old.place }
{
    match live_of(memory, branch) {
        None => {
            drop(answer);
            Ok(TurnDraft::nothing(alloc))
        }
        Some(live) => {
            let me = live.me;
            let draft = root_dropping(alloc, &memory.sessions, live, answer)?;
            memory.sessions.end_commit(&me);
            memory.drop_branch(&me);
            Ok(draft)
        }
    }
}

/// A live branch whose child answered Abort rolls back, and tells its parent Abort; at a root the COMMIT ends with ORA-02050.
pub(crate) fn abandons(
    memory: &mut Memory,
    alloc: Global,
    branch: &BranchId,
) -> Result<TurnDraft, AllocError>
    ensures gives { IfOk result (λ draft. GivesDraft (at_live (kept_in memory.old) branch.now (λ l. abandons_of (kept_in memory.old) l)) (kept_in memory.new) draft) }
    ensures place { memory.new.place ≡ memory.old.place }
{
    match live_of(memory, branch) {
        None => Ok(TurnDraft::nothing(alloc)),
        Some(live) => {
            let me = live.me;
            let parent = live.parent;
            let says = abandon_says(alloc, live)?;
            let ended = abandon_ends(alloc, &memory.sessions, live)?;
            end_abandoned(&mut memory.sessions, &me, parent);
            memory.drop_branch(&me);
            Ok(TurnDraft {
                wrote: None,
                says,
                ended,
            })
        }
    }
}

/// A root without a commit point site: nothing was changed, and the COMMIT is complete.
pub(crate) fn finishes(
    memory: &mut Memory,
    alloc: Global,
    branch: &BranchId,
) -> Result<TurnDraft, AllocError>
    ensures gives { IfOk result (λ draft. GivesDraft (at_live (kept_in memory.old) branch.now (λ l. finishes_of (kept_in memory.old) l)) (kept_in memory.new) draft) }
    ensures place { memory.new.place ≡ memory.old.place }
{
    match live_of(memory, branch) {
        None => Ok(TurnDraft::nothing(alloc)),
        Some(live) => {
            let me = live.me;
            let ended = memory
                .sessions
                .commit_answer(alloc, &me, commit_complete())?;
            memory.sessions.end_commit(&me);
            memory.drop_branch(&me);
            Ok(TurnDraft {
                wrote: None,
                says: Listing::new(alloc),
                ended,
            })
        }
    }
}

/// A live branch with no changes, here or below, tells its parent so and leaves.
pub(crate) fn says_read_only(
    memory: &mut Memory,
    alloc: Global,
    branch: &BranchId,
) -> Result<TurnDraft, AllocError>
    ensures gives { IfOk result (λ draft. GivesDraft (at_live (kept_in memory.old) branch.now (λ l. saying (without_branch (kept_in memory.old) l.me) (to_one_of l.me kinds.ReadOnly l.parent))) (kept_in memory.new) draft) }
    ensures place { memory.new.place ≡ memory.old.place }
{
    match live_of(memory, branch) {
        None => Ok(TurnDraft::nothing(alloc)),
        Some(live) => {
            let me = live.me;
            let says = to_one(alloc, me, Kind::ReadOnly, live.parent)?;
            memory.drop_branch(&me);
            Ok(TurnDraft::saying(alloc, says))
        }
    }
}
