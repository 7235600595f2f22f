//! What a branch tells one that asks for the decision.
ghost use Rattle.std.specs.Prelude.{◌≡◌};
ghost use Rattle.reco.specs.Told.{told_by as told_by_decision, kept_told as kept_told_of, live_told as live_told_of};

use crate::Told;
use commit_forget::is_neighbor;
use redo_record::{Decision, KeptRow};
use session_tree::Live;
use tran_ids::BranchId;

/// What a live branch tells: where its parent asks, it rolls back first; to any other nothing is known.
pub fn live_told(live: &Live, from: &BranchId) -> Told
    ensures { result ≡ live_told_of live.now from.now }
{
    match live.parent {
        Some(parent) if parent.is(from) => Told::RollBackFirst,
        _ => Told::InDoubt,
    }
}

/// What a kept branch tells: its neighbours hear what it knows, a forced one only the decision; anybody else hears that it
/// rolled back.
pub fn kept_told(row: &KeptRow, from: &BranchId) -> Told
    ensures { result ≡ kept_told_of row.now from.now }
{
    if is_neighbor(row, from) {
        told_by(row.decision)
    } else {
        Told::RolledBack
    }
}

fn told_by(decision: Option<Decision>) -> Told
    ensures { result ≡ told_by_decision decision }
{
    match decision {
        None => Told::InDoubt,
        Some(Decision::Commit(scn)) => Told::Committed(scn),
        Some(Decision::Rollback) => Told::RolledBack,
    }
}
