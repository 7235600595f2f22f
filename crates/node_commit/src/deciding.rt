//! The commit point site decides.
ghost use Rattle.std.specs.Prelude.{◌≡◌, ◌+◌, ◌-◌, ◌^◌, ◌<◌, ◌≤◌, length, if◌then◌else◌, [], Some, IfOk, IfSome, OnOk};
ghost use Rattle.dtx_values.specs.Limits.{link_limit};
ghost use Rattle.redo_record.specs.declared.record.RedoRecord.TheVariants as records;
ghost use Rattle.node_rules.specs.Data.kinds as kinds;
ghost use Rattle.node_rules.specs.NodeState.{to_each as to_each_of};
ghost use Rattle.node_rules.specs.Prepare.{own_changes, decided_of, decides as decides_of, site_neighbors as site_neighbors_of, is_alone as is_alone_of};
ghost use Rattle.node_rules.specs.Sessions.{commit_answer, commit_complete as commit_complete_of};
ghost use Rattle.node_memory.specs.Parts.{kept_in};
ghost use Rattle.node_memory.specs.Leaving.{IsOwnDecision};
ghost use Rattle.node_drafts.specs.Gives.{GivesDraft};
ghost use Rattle.node_commit.specs.Branches.{at_live, ended_if, left_by};

use crate::looking::live_of;
use dtx_values::Listing;
use node_drafts::{TurnDraft, commit_complete, decided_record, to_each};
use node_memory::Memory;
use node_rules::Ended;
use node_state::Sessions;
use prepare_phase::{is_alone, site_neighbors};
use reco::Posts;
use redo_record::RedoRecord;
use session_tree::Live;
use std::alloc::{AllocError, Global};
use tran_ids::BranchId;
use wire_msg::Kind;

// The record has the changes of the site, and the commit SCN.
fn decision_record(
    memory: &Memory,
    alloc: Global,
    live: &Live,
    scn: u64,
) -> Result<RedoRecord, AllocError>
    requires { length live.now.edges ≤ link_limit }
    ensures made { IfOk result (λ redo. redo ≡ records.Decided (decided_of scn live.now (own_changes (kept_in memory.now) live.now.me))) }
    ensures own { IfOk result (λ redo. IsOwnDecision (kept_in memory.now) live.now.me redo) }
{
    let changes = memory.store.own(alloc, &live.me)?;
    decided_record(alloc, scn, live, changes)
}

// Its neighbours are told.
fn decision_says(alloc: Global, live: &Live, scn: u64) -> Result<Posts, AllocError>
    ensures { IfOk result (λ posts. posts ≡ to_each_of live.now.me (kinds.Committed scn) (site_neighbors_of live.now)) }
{
    let neighbors = site_neighbors(alloc, live)?;
    let kind = Kind::Committed { scn };
    let says = to_each(alloc, live.me, &kind, neighbors.as_slice());
    drop(kind);
    says
}

// Without neighbours the COMMIT is complete.
fn decision_ends(alloc: Global, sessions: &Sessions, live: &Live) -> Result<Ended, AllocError>
    ensures { IfOk result (λ calls. calls ≡ (if is_alone_of live.now then commit_answer sessions.now live.now.me commit_complete_of else [])) }
{
    if is_alone(live) {
        sessions.commit_answer(alloc, &live.me, commit_complete())
    } else {
        Ok(Listing::new(alloc))
    }
}

// What the commit point site writes, says and answers.
fn deciding(
    alloc: Global,
    sessions: &Sessions,
    live: &Live,
    scn: u64,
    redo: RedoRecord,
) -> Result<TurnDraft, AllocError>
    ensures { IfOk result (λ draft.
        draft ≡ record { wrote = Some redo; says = to_each_of live.now.me (kinds.Committed scn) (site_neighbors_of live.now); ended = if is_alone_of live.now then commit_answer sessions.now live.now.me commit_complete_of else [] }) }
{
    match decision_says(alloc, live, scn) {
        Err(error) => {
            drop(redo);
            Err(error)
        }
        Ok(says) => match decision_ends(alloc, sessions, live) {
            Err(error) => {
                drop(redo);
                drop(says);
                Err(error)
            }
            Ok(ended) => Ok(TurnDraft::writing(redo, says, ended)),
        },
    }
}

// The record of the decision becomes part of what the node keeps, and the branch is live no longer.
fn decided(
    memory: &mut Memory,
    alloc: Global,
    branch: &BranchId,
    draft: TurnDraft,
) -> Result<TurnDraft, AllocError>
    requires { IfSome draft.wrote (IsOwnDecision (kept_in memory.old) branch.now) }
    ensures draft { IfOk result (λ same. same ≡ draft) }
    ensures kept { OnOk result (kept_in memory.new ≡ left_by (kept_in memory.old) branch.now draft.wrote) }
    ensures place { memory.new.place ≡ memory.old.place }
{
    if let Some(redo) = &draft.wrote
        && let Err(error) = memory.decide(alloc, branch, redo)
    {
        drop(draft);
        return Err(error);
    }
    Ok(draft)
}

fn end_if(alone: bool, sessions: &mut Sessions, branch: &BranchId)
    ensures { sessions.new ≡ ended_if alone sessions.old branch.now }
{
    if alone {
        sessions.end_commit(branch);
    }
}

/// The commit point site decides: the commit SCN is one more than the node's clock, its changes are committed, and its
/// neighbours are told; without neighbours the COMMIT is complete.
pub(crate) fn decides(
    memory: &mut Memory,
    alloc: Global,
    branch: &BranchId,
) -> Result<TurnDraft, AllocError>
    requires { memory.old.clock < 2 ^ 48 - 1 }
    ensures gives { IfOk result (λ draft. GivesDraft (at_live (kept_in memory.old) branch.now (λ l. decides_of (kept_in memory.old) l)) (kept_in memory.new) draft) }
    ensures place { memory.new.place ≡ memory.old.place }
{
    match live_of(memory, branch) {
        None => Ok(TurnDraft::nothing(alloc)),
        Some(live) => {
            let me = live.me;
            let alone = is_alone(live);
            let scn = memory.clock.now() + 1;
            let redo = decision_record(memory, alloc, live, scn)?;
            let draft = deciding(alloc, &memory.sessions, live, scn, redo)?;
            end_if(alone, &mut memory.sessions, &me);
            memory.clock.next();
            decided(memory, alloc, &me, draft)
        }
    }
}
