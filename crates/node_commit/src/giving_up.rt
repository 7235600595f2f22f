//! A COMMIT that is given up.
ghost use Rattle.std.specs.Prelude.{◌≡◌, None, IfOk};
ghost use Rattle.node_rules.specs.NodeState.{live_at as live_at_of};
ghost use Rattle.node_rules.specs.Client.{commit_given_up as commit_given_up_of};
ghost use Rattle.node_memory.specs.Parts.{kept_in};
ghost use Rattle.node_drafts.specs.Gives.{GivesDraft};

use crate::leaving::root_drops;
use crate::looking::live_of;
use dtx_values::Listing;
use node_drafts::{TRAN_ROLLED_BACK, TurnDraft, given_up_answer, tran_refusal};
use node_memory::Memory;
use std::alloc::{AllocError, Global};
use tran_ids::BranchId;

// The root is not live: the COMMIT is answered by what its row knows.
fn given_up_kept(
    memory: &mut Memory,
    alloc: Global,
    root: &BranchId,
) -> Result<TurnDraft, AllocError>
    ensures gives { IfOk result (λ draft. GivesDraft (commit_given_up_of (kept_in memory.old) root.now None) (kept_in memory.new) draft) }
    ensures place { memory.new.place ≡ memory.old.place }
{
    let answer = given_up_answer(alloc, *root, memory.kept_row_at(root))?;
    let ended = memory.sessions.commit_answer(alloc, root, answer)?;
    memory.sessions.end_commit(root);
    Ok(TurnDraft {
        wrote: None,
        says: Listing::new(alloc),
        ended,
    })
}

/// The COMMIT of a root is given up: a live root rolls back, and answers ORA-02050; a sealed one stays as it is, and answers
/// ORA-02054, or ORA-02053 where it knows the commit.
pub fn commit_given_up(
    memory: &mut Memory,
    alloc: Global,
    root: &BranchId,
) -> Result<TurnDraft, AllocError>
    ensures gives { IfOk result (λ draft. GivesDraft (commit_given_up_of (kept_in memory.old) root.now (live_at_of (kept_in memory.old) root.now)) (kept_in memory.new) draft) }
    ensures place { memory.new.place ≡ memory.old.place }
{
    match live_of(memory, root) {
        None => given_up_kept(memory, alloc, root),
        Some(_) => {
            let answer = tran_refusal(alloc, TRAN_ROLLED_BACK, *root)?;
            root_drops(memory, alloc, root, answer)
        }
    }
}
