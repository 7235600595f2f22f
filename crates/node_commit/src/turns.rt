//! Messages of the prepare, commit and forget phases and of recovery, by what their branch is at the node: live, kept or gone.
ghost use Rattle.std.specs.Prelude.{◌≡◌, IfOk};
ghost use Rattle.node_rules.specs.NodeState.{saying, post as post_of};
ghost use Rattle.node_rules.specs.Turn.{status_of, prepare_turn as prepare_turn_of, answer_turn as answer_turn_of, commit_point_turn as commit_point_turn_of, committed_turn as committed_turn_of, rollback_turn as rollback_turn_of, rolled_back_turn as rolled_back_turn_of, ack_turn as ack_turn_of, forgotten_turn as forgotten_turn_of, ask_turn as ask_turn_of};
ghost use Rattle.node_memory.specs.Parts.{kept_in};
ghost use Rattle.node_drafts.specs.Gives.{GivesDraft};
ghost use Rattle.node_commit.specs.Branches.{MayCommitWhereLive};

use crate::committing::{next_turn, on_ack};
use crate::leaving::drops;
use crate::preparing::{act_turn, collects, hears};
use crate::recovery::on_ask;
use commit_forget::{on_commit_point, on_decision, on_forgotten};
use dtx_values::{Bytes, Listing};
use node_drafts::{TurnDraft, on_ask_kept, on_commit_point_kept, on_prepare_kept, post};
use node_memory::{BranchStatus, Memory};
use reco::Told;
use redo_record::Decision;
use session_tree::{Phase, Vote};
use std::alloc::{AllocError, Global};
use tran_ids::BranchId;
use wire_msg::Kind;

// One message alone.
fn answer(
    memory: &Memory,
    alloc: Global,
    me: BranchId,
    to: BranchId,
    kind: Kind,
) -> Result<TurnDraft, AllocError>
    ensures { IfOk result (λ draft. GivesDraft (saying (kept_in memory.now) (post_of me to kind)) (kept_in memory.now) draft) }
{
    let says = post(alloc, me, to, kind)?;
    Ok(TurnDraft::saying(alloc, says))
}

/// Prepare: a working branch begins its collect, and one that comes again to a live branch changes nothing; a kept branch
/// that is asked again answers Prepared, a gone one Abort.
pub fn prepare_turn(
    memory: &mut Memory,
    alloc: Global,
    from: BranchId,
    to: BranchId,
    site_below: bool,
    comment: Bytes,
) -> Result<TurnDraft, AllocError>
    requires { MayCommitWhereLive memory.old to }
    ensures gives { IfOk result (λ draft. GivesDraft (prepare_turn_of (kept_in memory.old) from to site_below comment (status_of (kept_in memory.old) to)) (kept_in memory.new) draft) }
    ensures place { memory.new.place ≡ memory.old.place }
{
    match memory.status_of(&to) {
        BranchStatus::Live(it) => match it.live.phase {
            Phase::Working => collects(memory, alloc, &to, site_below, comment),
            _ => Ok(TurnDraft::nothing(alloc)),
        },
        BranchStatus::Kept(row) => on_prepare_kept(alloc, row, from),
        BranchStatus::Gone => answer(memory, alloc, to, from, Kind::Abort),
    }
}

/// A child's answer to Prepare: only a collecting branch hears it, and only each child's first.
pub fn answer_turn(
    memory: &mut Memory,
    alloc: Global,
    from: BranchId,
    to: BranchId,
    vote: Vote,
) -> Result<TurnDraft, AllocError>
    requires { MayCommitWhereLive memory.old to }
    ensures gives { IfOk result (λ draft. GivesDraft (answer_turn_of (kept_in memory.old) from vote (status_of (kept_in memory.old) to)) (kept_in memory.new) draft) }
    ensures place { memory.new.place ≡ memory.old.place }
{
    match memory.status_of(&to) {
        BranchStatus::Live(it) => match it.live.phase {
            Phase::Collecting { site_below } => hears(memory, alloc, &to, site_below, &from, vote),
            _ => Ok(TurnDraft::nothing(alloc)),
        },
        BranchStatus::Kept(_) | BranchStatus::Gone => Ok(TurnDraft::nothing(alloc)),
    }
}

/// CommitPoint: of the live branches only one that answered Ready hears it. The commit point site decides, another becomes
/// sealed and passes it on. A kept branch tells the decision where it knows it, a gone one answers RolledBack.
#[tactic(auto, unfolding(commit_forget::specs::Next::pointed_act))]
pub fn commit_point_turn(
    memory: &mut Memory,
    alloc: Global,
    from: BranchId,
    to: BranchId,
) -> Result<TurnDraft, AllocError>
    requires { MayCommitWhereLive memory.old to }
    ensures gives { IfOk result (λ draft. GivesDraft (commit_point_turn_of (kept_in memory.old) from to (status_of (kept_in memory.old) to)) (kept_in memory.new) draft) }
    ensures place { memory.new.place ≡ memory.old.place }
{
    match memory.status_of(&to) {
        BranchStatus::Live(it) => match it.live.phase {
            Phase::Ready => {
                let act = on_commit_point(it.live);
                act_turn(memory, alloc, &to, true, act)
            }
            _ => Ok(TurnDraft::nothing(alloc)),
        },
        BranchStatus::Kept(row) => on_commit_point_kept(alloc, row, from),
        BranchStatus::Gone => answer(memory, alloc, to, from, Kind::RolledBack),
    }
}

/// Committed: a live branch ignores it, a kept one hears it from the neighbour toward the commit point site alone, a gone one
/// acknowledges.
pub fn committed_turn(
    memory: &mut Memory,
    alloc: Global,
    from: BranchId,
    to: BranchId,
    scn: u64,
) -> Result<TurnDraft, AllocError>
    ensures gives { IfOk result (λ draft. GivesDraft (committed_turn_of (kept_in memory.old) from to scn (status_of (kept_in memory.old) to)) (kept_in memory.new) draft) }
    ensures place { memory.new.place ≡ memory.old.place }
{
    match memory.status_of(&to) {
        BranchStatus::Live(_) => Ok(TurnDraft::nothing(alloc)),
        BranchStatus::Kept(row) => {
            let next = on_decision(row, &from, Decision::Commit(scn));
            next_turn(memory, alloc, &to, from, next)
        }
        BranchStatus::Gone => answer(memory, alloc, to, from, Kind::Ack),
    }
}

/// Rollback, which ends a live branch.
pub fn rollback_turn(
    memory: &mut Memory,
    alloc: Global,
    from: BranchId,
    to: BranchId,
) -> Result<TurnDraft, AllocError>
    ensures gives { IfOk result (λ draft. GivesDraft (rollback_turn_of (kept_in memory.old) from (status_of (kept_in memory.old) to)) (kept_in memory.new) draft) }
    ensures place { memory.new.place ≡ memory.old.place }
{
    match memory.status_of(&to) {
        BranchStatus::Live(_) => drops(memory, alloc, &to, Listing::new(alloc)),
        BranchStatus::Kept(row) => {
            let next = on_decision(row, &from, Decision::Rollback);
            next_turn(memory, alloc, &to, from, next)
        }
        BranchStatus::Gone => Ok(TurnDraft::nothing(alloc)),
    }
}

/// RolledBack, which a live branch hears from its parent alone.
pub fn rolled_back_turn(
    memory: &mut Memory,
    alloc: Global,
    from: BranchId,
    to: BranchId,
) -> Result<TurnDraft, AllocError>
    ensures gives { IfOk result (λ draft. GivesDraft (rolled_back_turn_of (kept_in memory.old) from (status_of (kept_in memory.old) to)) (kept_in memory.new) draft) }
    ensures place { memory.new.place ≡ memory.old.place }
{
    match memory.status_of(&to) {
        BranchStatus::Live(it) => match it.live.parent {
            Some(parent) if parent.is(&from) => drops(memory, alloc, &to, Listing::new(alloc)),
            _ => Ok(TurnDraft::nothing(alloc)),
        },
        BranchStatus::Kept(row) => {
            let next = on_decision(row, &from, Decision::Rollback);
            next_turn(memory, alloc, &to, from, next)
        }
        BranchStatus::Gone => Ok(TurnDraft::nothing(alloc)),
    }
}

/// Ack: a live branch ignores it, a kept one notes in memory one that counts, a gone one answers Forgotten.
pub fn ack_turn(
    memory: &mut Memory,
    alloc: Global,
    from: BranchId,
    to: BranchId,
) -> Result<TurnDraft, AllocError>
    ensures gives { IfOk result (λ draft. GivesDraft (ack_turn_of (kept_in memory.old) from to (status_of (kept_in memory.old) to)) (kept_in memory.new) draft) }
    ensures place { memory.new.place ≡ memory.old.place }
{
    match memory.status_of(&to) {
        BranchStatus::Live(_) => Ok(TurnDraft::nothing(alloc)),
        BranchStatus::Kept(_) => on_ack(memory, alloc, &to, from),
        BranchStatus::Gone => answer(memory, alloc, to, from, Kind::Forgotten),
    }
}

/// Forgotten, which only a kept branch hears.
pub fn forgotten_turn(
    memory: &mut Memory,
    alloc: Global,
    from: BranchId,
    to: BranchId,
) -> Result<TurnDraft, AllocError>
    ensures gives { IfOk result (λ draft. GivesDraft (forgotten_turn_of (kept_in memory.old) from (status_of (kept_in memory.old) to)) (kept_in memory.new) draft) }
    ensures place { memory.new.place ≡ memory.old.place }
{
    match memory.status_of(&to) {
        BranchStatus::Kept(row) => {
            let next = on_forgotten(row, &from);
            next_turn(memory, alloc, &to, from, next)
        }
        BranchStatus::Live(_) | BranchStatus::Gone => Ok(TurnDraft::nothing(alloc)),
    }
}

/// Ask: a kept branch tells its neighbours what it knows, a gone one answers RolledBack.
pub fn ask_turn(
    memory: &mut Memory,
    alloc: Global,
    from: BranchId,
    to: BranchId,
) -> Result<TurnDraft, AllocError>
    ensures gives { IfOk result (λ draft. GivesDraft (ask_turn_of (kept_in memory.old) from to (status_of (kept_in memory.old) to)) (kept_in memory.new) draft) }
    ensures place { memory.new.place ≡ memory.old.place }
{
    match memory.status_of(&to) {
        BranchStatus::Live(_) => on_ask(memory, alloc, &to, from),
        BranchStatus::Kept(row) => on_ask_kept(alloc, row, from),
        BranchStatus::Gone => answer(memory, alloc, to, from, Told::RolledBack.kind()),
    }
}
