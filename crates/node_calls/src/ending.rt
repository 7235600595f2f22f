//! ROLLBACK, and COMMIT of a READ ONLY transaction: the transaction ends at once.
ghost use Rattle.std.specs.Prelude.{◌≡◌, IfOk};
ghost use Rattle.dtx_values.specs.declared.answer.Done.TheVariants as dones;
ghost use Rattle.node_rules.specs.Client.{rollback_by as rollback_by_of, root_at};
ghost use Rattle.node_rules.specs.NodeState.{branch_at};
ghost use Rattle.node_drafts.specs.Gives.{GivesDraft};
ghost use Rattle.node_memory.specs.Parts.{kept_in};
ghost use Rattle.node_calls.specs.Handled.{leaves_by};

use dtx_values::{Answer, Done};
use node_drafts::{TurnDraft, ended, to_children};
use node_memory::Memory;
use std::alloc::{AllocError, Global};
use tran_ids::BranchId;
use wire_msg::Kind;

/// ROLLBACK in a session: its root is gone with its changes and its keys, each child is told, and the transaction has ended. In
/// a session without a transaction only the call ends.
#[tactic(auto, using(crate::proofs::DraftLaws::rolls_back_so))]
pub fn rollback_by(
    memory: &mut Memory,
    alloc: Global,
    session: u32,
) -> Result<TurnDraft, AllocError>
    ensures gives { IfOk result (λ draft. GivesDraft (rollback_by_of (kept_in memory.old) session (root_at (kept_in memory.old) session)) (kept_in memory.new) draft) }
    ensures place { memory.new.place ≡ memory.old.place }
{
    match memory.sessions.at(session).root {
        None => TurnDraft::ending(alloc, session, Answer::Did(Done::RolledBack, 0)),
        Some(root) => leave(memory, alloc, session, &root, Done::RolledBack),
    }
}

/// The transaction of a session with this root ends at once: the root is gone with its changes and its keys, and each child is
/// told. Only the call ends where the root is not live.
#[tactic(auto, using(crate::proofs::DraftLaws::left_so, crate::proofs::DraftLaws::none_leaves))]
pub fn leave(
    memory: &mut Memory,
    alloc: Global,
    session: u32,
    root: &BranchId,
    done: Done,
) -> Result<TurnDraft, AllocError>
    ensures gives { IfOk result (λ draft. GivesDraft (leaves_by (kept_in memory.old) session done (branch_at (kept_in memory.old) root.now)) (kept_in memory.new) draft) }
    ensures place { memory.new.place ≡ memory.old.place }
{
    let Some(live) = memory.lives.get(root) else {
        return TurnDraft::ending(alloc, session, Answer::Did(done, 0));
    };
    let me = live.me;
    let says = to_children(alloc, live, &Kind::Rollback)?;
    match ended(alloc, session, Answer::Did(done, 0)) {
        Err(error) => {
            drop(says);
            Err(error)
        }
        Ok(ended) => {
            memory.sessions.end(session);
            memory.drop_branch(&me);
            let wrote = None;
            Ok(TurnDraft { wrote, says, ended })
        }
    }
}
