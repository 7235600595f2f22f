//! The commit and forget phases, at a branch that the node keeps a row of.
ghost use Rattle.std.specs.Prelude.{◌≡◌, Some, IfOk, IfSome, OnOk};
ghost use Rattle.node_rules.specs.Commit.{decided_sessions, decision_answers as decision_answers_of, next_turn as next_turn_of, on_ack as on_ack_of, passes as passes_of, to_beyond as to_beyond_of};
ghost use Rattle.node_rules.specs.Data.kinds;
ghost use Rattle.node_rules.specs.Data.records;
ghost use Rattle.node_rules.specs.Sessions.{commit_answer as commit_answer_of, commit_complete as commit_complete_of, commit_ended};
ghost use Rattle.node_memory.specs.Room.{HasRoomFor};
ghost use Rattle.node_memory.specs.Parts.{stored_in, kept_in};
ghost use Rattle.node_ready_laws.specs.Following.{MayFollow};
ghost use Rattle.node_drafts.specs.Gives.{GivesDraft};
ghost use Rattle.node_commit.specs.Branches.{at_kept, learned as learned_of, with_wrote};

use crate::session_ends::{decision_answers, end_decided};
use commit_forget::Next;
use node_drafts::{TurnDraft, commit_complete, passes, post, to_beyond, to_one};
use node_memory::Memory;
use node_state::Sessions;
use redo_record::{Decision, KeptRow, RedoRecord};
use std::alloc::{AllocError, Global};
use tran_ids::BranchId;
use wire_msg::Kind;

// The record of a decision that a kept branch learns: Met where the branch was forced, with whether the two differ.
fn learned(me: BranchId, decision: Decision, mixed: Option<bool>) -> RedoRecord
    ensures { result ≡ learned_of me decision mixed }
{
    match mixed {
        None => RedoRecord::Ended { me, decision },
        Some(mixed) => RedoRecord::Met {
            me,
            decision,
            mixed,
        },
    }
}

// What a kept branch writes, says and answers that learns a decision.
fn learning(
    alloc: Global,
    sessions: &Sessions,
    row: &KeptRow,
    decision: Decision,
    mixed: Option<bool>,
) -> Result<TurnDraft, AllocError>
    ensures { IfOk result (λ draft.
        draft ≡ record { wrote = Some (learned_of row.now.me decision mixed); says = passes_of row.now decision; ended = decision_answers_of sessions.now row.now.me decision }) }
{
    let says = passes(alloc, row, decision)?;
    let ended = decision_answers(alloc, sessions, row.me, decision)?;
    let redo = learned(row.me, decision, mixed);
    Ok(TurnDraft::writing(redo, says, ended))
}

// What a kept branch writes, says and answers that forgets.
fn forgetting(alloc: Global, sessions: &Sessions, row: &KeptRow) -> Result<TurnDraft, AllocError>
    ensures { IfOk result (λ draft.
        draft ≡ record { wrote = Some (records.Forgot row.now.me); says = to_beyond_of row.now kinds.Forgotten; ended = commit_answer_of sessions.now row.now.me commit_complete_of }) }
{
    let says = to_beyond(alloc, row, &Kind::Forgotten)?;
    let ended = sessions.commit_answer(alloc, &row.me, commit_complete())?;
    Ok(TurnDraft::writing(RedoRecord::Forgot(row.me), says, ended))
}

/// The record of a draft becomes part of what the node keeps.
pub(crate) fn taken_in(
    memory: &mut Memory,
    alloc: Global,
    draft: TurnDraft,
) -> Result<TurnDraft, AllocError>
    requires follow { IfSome draft.wrote (MayFollow (stored_in memory.old)) }
    requires room { IfSome draft.wrote (HasRoomFor memory.old.store) }
    ensures draft { IfOk result (λ same. same ≡ draft) }
    ensures kept { OnOk result (kept_in memory.new ≡ with_wrote (kept_in memory.old) draft.wrote) }
    ensures place { memory.new.place ≡ memory.old.place }
{
    if let Some(redo) = &draft.wrote
        && let Err(error) = memory.take_in(alloc, redo)
    {
        drop(draft);
        return Err(error);
    }
    Ok(draft)
}

// The decision's record stands, and the decision goes on.
fn learns(
    memory: &mut Memory,
    alloc: Global,
    branch: &BranchId,
    decision: Decision,
    draft: TurnDraft,
) -> Result<TurnDraft, AllocError>
    requires follow { IfSome draft.wrote (MayFollow (stored_in memory.old)) }
    requires room { IfSome draft.wrote (HasRoomFor memory.old.store) }
    ensures draft { IfOk result (λ same. same ≡ draft) }
    ensures kept { OnOk result (kept_in memory.new ≡ with_wrote (record (kept_in memory.old) { sessions = decided_sessions memory.old.sessions branch.now decision }) draft.wrote) }
    ensures place { memory.new.place ≡ memory.old.place }
{
    end_decided(&mut memory.sessions, branch, decision);
    taken_in(memory, alloc, draft)
}

// Forgot stands, those beyond are told, and the COMMIT of a root is complete.
fn forgets(
    memory: &mut Memory,
    alloc: Global,
    branch: &BranchId,
    draft: TurnDraft,
) -> Result<TurnDraft, AllocError>
    requires follow { IfSome draft.wrote (MayFollow (stored_in memory.old)) }
    requires room { IfSome draft.wrote (HasRoomFor memory.old.store) }
    ensures draft { IfOk result (λ same. same ≡ draft) }
    ensures kept { OnOk result (kept_in memory.new ≡ with_wrote (record (kept_in memory.old) { sessions = commit_ended memory.old.sessions branch.now }) draft.wrote) }
    ensures place { memory.new.place ≡ memory.old.place }
{
    memory.sessions.end_commit(branch);
    taken_in(memory, alloc, draft)
}

/// What a kept branch does next.
pub(crate) fn next_turn(
    memory: &mut Memory,
    alloc: Global,
    branch: &BranchId,
    from: BranchId,
    next: Next,
) -> Result<TurnDraft, AllocError>
    ensures gives { IfOk result (λ draft. GivesDraft (at_kept (kept_in memory.old) branch.now (λ s. next_turn_of (kept_in memory.old) s from next)) (kept_in memory.new) draft) }
    ensures place { memory.new.place ≡ memory.old.place }
{
    let Some(row) = memory.kept_row_at(branch) else {
        return Ok(TurnDraft::nothing(alloc));
    };
    let me = row.me;
    match next {
        Next::Rest => Ok(TurnDraft::nothing(alloc)),
        Next::End(decision) => {
            let draft = learning(alloc, &memory.sessions, row, decision, None)?;
            learns(memory, alloc, &me, decision, draft)
        }
        Next::Meet { decision, mixed } => {
            let draft = learning(alloc, &memory.sessions, row, decision, Some(mixed))?;
            learns(memory, alloc, &me, decision, draft)
        }
        Next::AckToward => {
            let says = to_one(alloc, me, Kind::Ack, row.toward)?;
            Ok(TurnDraft::saying(alloc, says))
        }
        Next::Forget => {
            let draft = forgetting(alloc, &memory.sessions, row)?;
            forgets(memory, alloc, &me, draft)
        }
        Next::SayForgotten => {
            let says = post(alloc, me, from, Kind::Forgotten)?;
            Ok(TurnDraft::saying(alloc, says))
        }
        Next::SayAck => {
            let says = post(alloc, me, from, Kind::Ack)?;
            Ok(TurnDraft::saying(alloc, says))
        }
    }
}

/// Ack at a kept branch: one that counts is noted in memory alone.
pub(crate) fn on_ack(
    memory: &mut Memory,
    alloc: Global,
    branch: &BranchId,
    from: BranchId,
) -> Result<TurnDraft, AllocError>
    ensures gives { IfOk result (λ draft. GivesDraft (at_kept (kept_in memory.old) branch.now (λ s. on_ack_of (kept_in memory.old) s from)) (kept_in memory.new) draft) }
    ensures place { memory.new.place ≡ memory.old.place }
{
    match memory.hear_ack(alloc, branch, &from) {
        None => Ok(TurnDraft::nothing(alloc)),
        Some(next) => next_turn(memory, alloc, branch, from, next),
    }
}
