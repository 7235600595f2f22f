//! A live branch that becomes sealed.
ghost use Rattle.std.specs.Prelude.{◌≡◌, ◌≤◌, [], length, false, Some, None, IfOk, IfSome, OnOk};
ghost use Rattle.dtx_values.specs.Limits.{link_limit};
ghost use Rattle.row_store.specs.Store.{is_in_doubt};
ghost use Rattle.session_tree.specs.Live.{peer_of as peer_of_number};
ghost use Rattle.node_rules.specs.Data.kinds as kinds;
ghost use Rattle.node_rules.specs.NodeState.{to_one as to_one_of};
ghost use Rattle.node_rules.specs.Prepare.{seals as seals_of, sealed_record as sealed_record_of};
ghost use Rattle.node_memory.specs.Parts.{kept_in};
ghost use Rattle.node_memory.specs.Leaving.{IsOwnSeal, HasItsUndo};
ghost use Rattle.node_drafts.specs.Gives.{GivesDraft};
ghost use Rattle.node_commit.specs.Branches.{at_live, left_by};

use crate::looking::live_of;
use dtx_values::Listing;
use node_drafts::{TurnDraft, peer_of, sealed_record, to_one};
use node_memory::Memory;
use reco::Posts;
use redo_record::RedoRecord;
use session_tree::Live;
use std::alloc::{AllocError, Global};
use tran_ids::BranchId;
use wire_msg::Kind;

// The record has the changes of the branch, at the node's clock.
fn seal_record(
    memory: &Memory,
    alloc: Global,
    live: &Live,
    path: Option<u8>,
) -> Result<RedoRecord, AllocError>
    requires { length live.now.edges ≤ link_limit }
    ensures made { IfOk result (λ redo. redo ≡ sealed_record_of (kept_in memory.now) live.now path) }
    ensures own { IfOk result (λ redo. IsOwnSeal (kept_in memory.now) live.now.me redo) }
{
    let changes = memory.store.own(alloc, &live.me)?;
    sealed_record(alloc, memory.clock.now(), live, changes, path)
}

// The record of the branch becomes part of what the node keeps, and the branch is live no longer.
fn sealed(
    memory: &mut Memory,
    alloc: Global,
    branch: &BranchId,
    draft: TurnDraft,
) -> Result<TurnDraft, AllocError>
    requires apart { is_in_doubt memory.old.store.doubts branch.now ≡ false }
    requires own { IfSome draft.wrote (IsOwnSeal (kept_in memory.old) branch.now) }
    requires undo { HasItsUndo (kept_in memory.old) branch.now }
    ensures draft { IfOk result (λ same. same ≡ draft) }
    ensures kept { OnOk result (kept_in memory.new ≡ left_by (kept_in memory.old) branch.now draft.wrote) }
    ensures place { memory.new.place ≡ memory.old.place }
{
    if let Some(redo) = &draft.wrote
        && let Err(error) = memory.seal(alloc, branch, redo)
    {
        drop(draft);
        return Err(error);
    }
    Ok(draft)
}

// What a branch writes and says that becomes sealed.
fn sealing(
    memory: &Memory,
    alloc: Global,
    live: &Live,
    path: Option<u8>,
    says: Posts,
) -> Result<TurnDraft, AllocError>
    requires { length live.now.edges ≤ link_limit }
    ensures draft { IfOk result (λ draft. draft ≡ record { wrote = Some (sealed_record_of (kept_in memory.now) live.now path); says = says; ended = [] }) }
    ensures own { IfOk result (λ draft. IfSome draft.wrote (IsOwnSeal (kept_in memory.now) live.now.me)) }
{
    match seal_record(memory, alloc, live, path) {
        Err(error) => {
            drop(says);
            Err(error)
        }
        Ok(redo) => Ok(TurnDraft::writing(redo, says, Listing::new(alloc))),
    }
}

/// A live branch becomes sealed, and answers Prepared.
pub(crate) fn seals_prepared(
    memory: &mut Memory,
    alloc: Global,
    branch: &BranchId,
) -> Result<TurnDraft, AllocError>
    requires apart { is_in_doubt memory.old.store.doubts branch.now ≡ false }
    requires undo { HasItsUndo (kept_in memory.old) branch.now }
    ensures gives { IfOk result (λ draft. GivesDraft (at_live (kept_in memory.old) branch.now (λ l. seals_of (kept_in memory.old) l None (to_one_of l.me kinds.Prepared l.parent))) (kept_in memory.new) draft) }
    ensures place { memory.new.place ≡ memory.old.place }
{
    match live_of(memory, branch) {
        None => Ok(TurnDraft::nothing(alloc)),
        Some(live) => {
            let me = live.me;
            let says = to_one(alloc, me, Kind::Prepared, live.parent)?;
            let draft = sealing(memory, alloc, live, None, says)?;
            sealed(memory, alloc, &me, draft)
        }
    }
}

/// A live branch becomes sealed, and passes CommitPoint on to the child of this number, from 1.
pub(crate) fn seals_and_passes(
    memory: &mut Memory,
    alloc: Global,
    branch: &BranchId,
    number: u8,
) -> Result<TurnDraft, AllocError>
    requires apart { is_in_doubt memory.old.store.doubts branch.now ≡ false }
    requires undo { HasItsUndo (kept_in memory.old) branch.now }
    ensures gives { IfOk result (λ draft. GivesDraft (at_live (kept_in memory.old) branch.now (λ l. seals_of (kept_in memory.old) l (Some number) (to_one_of l.me kinds.CommitPoint (peer_of_number l number)))) (kept_in memory.new) draft) }
    ensures place { memory.new.place ≡ memory.old.place }
{
    match live_of(memory, branch) {
        None => Ok(TurnDraft::nothing(alloc)),
        Some(live) => {
            let me = live.me;
            let says = to_one(alloc, me, Kind::CommitPoint, peer_of(live, number))?;
            let draft = sealing(memory, alloc, live, Some(number), says)?;
            sealed(memory, alloc, &me, draft)
        }
    }
}
