//! A statement at a live branch is answered: below the root by a Reply to the parent, at the root by the end of the session's
//! call.
ghost use Rattle.std.specs.Prelude.{◌≡◌, None, Some, [], ◌∷◌, IfOk, OnOk};
ghost use Rattle.node_rules.specs.declared.session.PendingCall.TheVariants as pending;
ghost use Rattle.node_rules.specs.NodeState.{branch_at};
ghost use Rattle.node_rules.specs.Calls.{answered, replies as replies_of};
ghost use Rattle.node_rules.specs.Sessions.{with_call};
ghost use Rattle.node_state.specs.Works.{answered_with, change_work, work_of};
ghost use Rattle.node_drafts.specs.Gives.{GivesDraft, branch_with};
ghost use Rattle.node_memory.specs.Parts.{kept_in};
ghost use Rattle.node_calls.specs.Handled.{at_live, ReplyFits};

use dtx_values::{Answer, Duplicate};
use link_session::ReplyFields;
use node_drafts::{TurnDraft, replies, reply_fields};
use node_memory::Memory;
use node_rules::PendingCall;
use node_state::{Works, no_work};
use reco::Posts;
use session_tree::Live;
use std::alloc::{AllocError, Global};
use tran_ids::BranchId;

/// The statement at a live branch is answered. Nothing where it is not live.
#[tactic(auto, using(crate::proofs::BranchLaws::nothing_so))]
pub(crate) fn answer(
    memory: &mut Memory,
    alloc: Global,
    branch: &BranchId,
    answer: Answer,
) -> Result<TurnDraft, AllocError>
    requires { ReplyFits memory.old branch.now }
    ensures gives { IfOk result (λ draft.
        GivesDraft (at_live (kept_in memory.old) (λ x. answered (kept_in memory.old) x answer) (branch_at (kept_in memory.old) branch.now)) (kept_in memory.new) draft) }
    ensures place { memory.new.place ≡ memory.old.place }
{
    let Some(live) = memory.lives.get(branch) else {
        drop(answer);
        return Ok(TurnDraft::nothing(alloc));
    };
    match live.parent {
        None => {
            let session = live.me.session;
            let draft = answer_client(memory, alloc, branch, session, answer)?;
            Ok(draft)
        }
        Some(parent) => {
            let fields = reply_fields(live, answer);
            match reply_to(alloc, &memory.works, branch, live, parent, &fields) {
                Err(error) => {
                    drop(fields);
                    Err(error)
                }
                Ok(says) => {
                    let draft = answer_parent(memory, alloc, branch, fields, says)?;
                    Ok(draft)
                }
            }
        }
    }
}

// Below the root the answer is kept for a call that comes again, and these messages go out.
fn answer_parent(
    memory: &mut Memory,
    alloc: Global,
    branch: &BranchId,
    fields: ReplyFields,
    says: Posts,
) -> Result<TurnDraft, AllocError>
    ensures after { OnOk result (kept_in memory.new ≡ record (kept_in memory.old) { works = change_work (answered_with (Some fields)) memory.old.works branch.now }) }
    ensures draft { IfOk result (λ draft. draft ≡ record { wrote = None; says = says; ended = [] }) }
    ensures place { memory.new.place ≡ memory.old.place }
{
    memory.works.answer(alloc, branch, Some(fields))?;
    Ok(TurnDraft::saying(alloc, says))
}

// At a root the call of its session ends.
fn answer_client(
    memory: &mut Memory,
    alloc: Global,
    branch: &BranchId,
    session: u32,
    answer: Answer,
) -> Result<TurnDraft, AllocError>
    ensures after { OnOk result (kept_in memory.new ≡ record (kept_in memory.old) { works = change_work (answered_with None) memory.old.works branch.now; sessions = with_call memory.old.sessions session pending.NoCall }) }
    ensures draft { IfOk result (λ draft. draft ≡ record { wrote = None; says = []; ended = (record { session = session; answer = answer }) ∷ [] }) }
    ensures place { memory.new.place ≡ memory.old.place }
{
    let draft = TurnDraft::ending(alloc, session, answer)?;
    match memory.works.answer(alloc, branch, None) {
        Err(error) => {
            drop(draft);
            Err(error)
        }
        Ok(()) => {
            memory.sessions.set_call(session, PendingCall::NoCall);
            Ok(draft)
        }
    }
}

// The Reply of a live branch to its last call.
fn reply_to(
    alloc: Global,
    works: &Works,
    branch: &BranchId,
    live: &Live,
    parent: BranchId,
    fields: &ReplyFields,
) -> Result<Posts, AllocError>
    ensures { IfOk result (λ posts. posts ≡ replies_of (branch_with live.now (work_of works.now branch.now)) parent fields.now) }
{
    let fields = fields.copy(alloc)?;
    match works.get(branch) {
        None => {
            let none = no_work(alloc, branch);
            let says = replies(alloc, live, &none, parent, fields);
            drop(none);
            says
        }
        Some(work) => replies(alloc, live, work, parent, fields),
    }
}
