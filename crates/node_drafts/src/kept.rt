//! What a kept branch answers without a change: an Ask, a CommitPoint, a Prepare that comes again.
ghost use Rattle.std.specs.Prelude.{◌≡◌, IfOk};
ghost use Rattle.node_rules.specs.NodeState.{NodeState};
ghost use Rattle.node_rules.specs.Commit.{commit_point_known as commit_point_known_of, on_commit_point_kept as on_commit_point_kept_of, on_prepare_kept as on_prepare_kept_of};
ghost use Rattle.node_rules.specs.Recovery.{on_ask_kept as on_ask_kept_of};
ghost use Rattle.node_drafts.specs.Gives.{GivesDraft};

use crate::TurnDraft;
use crate::posts::post;
use commit_forget::is_asked_again;
use reco::kept_told;
use redo_record::{Decision, KeptRow};
use std::alloc::{AllocError, Global};
use tran_ids::BranchId;
use wire_msg::Kind;

/// CommitPoint at a kept branch: it tells the decision, where it knows one. Fails where memory runs out.
pub fn on_commit_point_kept(
    alloc: Global,
    row: &KeptRow,
    from: BranchId,
) -> Result<TurnDraft, AllocError>
    ensures { IfOk result (λ draft. (k : NodeState) → GivesDraft (on_commit_point_kept_of k row.now from) k draft) }
{
    match row.decision {
        None => Ok(TurnDraft::nothing(alloc)),
        Some(Decision::Commit(scn)) => {
            let says = post(alloc, row.me, from, Kind::Committed { scn })?;
            Ok(TurnDraft::saying(alloc, says))
        }
        Some(Decision::Rollback) => {
            let says = post(alloc, row.me, from, Kind::RolledBack)?;
            Ok(TurnDraft::saying(alloc, says))
        }
    }
}

/// Prepare at a kept branch: it is Prepared still, where its parent asks again and it knows no decision. Fails where memory
/// runs out.
pub fn on_prepare_kept(
    alloc: Global,
    row: &KeptRow,
    from: BranchId,
) -> Result<TurnDraft, AllocError>
    ensures { IfOk result (λ draft. (k : NodeState) → GivesDraft (on_prepare_kept_of k row.now from) k draft) }
{
    if is_asked_again(row, &from) {
        let says = post(alloc, row.me, from, Kind::Prepared)?;
        Ok(TurnDraft::saying(alloc, says))
    } else {
        Ok(TurnDraft::nothing(alloc))
    }
}

/// Ask at a kept branch: it tells its neighbours what it knows. Fails where memory runs out.
pub fn on_ask_kept(alloc: Global, row: &KeptRow, from: BranchId) -> Result<TurnDraft, AllocError>
    ensures { IfOk result (λ draft. (k : NodeState) → GivesDraft (on_ask_kept_of k row.now from) k draft) }
{
    let says = post(alloc, row.me, from, kept_told(row, &from).kind())?;
    Ok(TurnDraft::saying(alloc, says))
}
