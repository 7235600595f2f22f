//! A child replies, and so the statement of its parent is answered.
ghost use Rattle.std.specs.Prelude.{◌≡◌, unwrap_or, IfOk};
ghost use Rattle.std.specs.Option.{option_map};
ghost use Rattle.tran_ids.specs.Listed.{numbered};
ghost use Rattle.session_tree.specs.Live.{edge_at as edge_at_number};
ghost use Rattle.node_rules.specs.NodeState.{branch_at};
ghost use Rattle.node_rules.specs.Calls.{heard_sessions, on_reply as on_reply_of, reply_edge, reply_going, reply_of};
ghost use Rattle.node_state.specs.Works.{work_of};
ghost use Rattle.node_drafts.specs.Gives.{GivesDraft, branch_with};
ghost use Rattle.node_memory.specs.Parts.{kept_in};
ghost use Rattle.node_calls.specs.Handled.{at_live, back_step as back_step_of, replier_as, step_after, HasFewWith};

use crate::answering::answer;
use crate::going_back::children_back;
use dtx_values::Answer;
use node_drafts::{BRANCH_GONE, TurnDraft, edge_at, heard_answer, is_gone};
use node_memory::Memory;
use node_rules::{Errand, Waits, Work};
use node_state::{Sessions, Works};
use session_tree::{Edge, Live};
use std::alloc::{AllocError, Global};
use tran_ids::BranchId;

/// The child of a live branch that replies.
#[derive(Drop)]
pub(crate) struct Replier<'a> {
    /// Its number, from 1.
    pub number: u8,
    pub edge: &'a Edge,
}

/// Reply at a live branch: the one that is waited for is heard, and its result is the answer here too; where a child has gone
/// back, the next one does. Any other is ignored. Where a root hears that its child is gone, the answer names the link, and the
/// transaction can only be rolled back.
#[tactic(auto, using(crate::proofs::BranchLaws::nothing_so))]
pub(crate) fn on_reply(
    memory: &mut Memory,
    alloc: Global,
    from: BranchId,
    to: &BranchId,
    call: u32,
    weight: Option<u8>,
    count: u16,
    told: Answer,
) -> Result<TurnDraft, AllocError>
    requires { HasFewWith memory.old to.now weight count }
    ensures gives { IfOk result (λ draft.
        GivesDraft (at_live (kept_in memory.old) (λ x. on_reply_of (kept_in memory.old) x from call weight count told) (branch_at (kept_in memory.old) to.now)) (kept_in memory.new) draft) }
    ensures place { memory.new.place ≡ memory.old.place }
{
    let Some(live) = memory.lives.get(to) else {
        drop(told);
        return Ok(TurnDraft::nothing(alloc));
    };
    let Some(replier) = replying(&memory.works, to, live, &from, call) else {
        drop(told);
        return Ok(TurnDraft::nothing(alloc));
    };
    let number = replier.number;
    if let Some(step) = back_step(&memory.works, to, &told) {
        drop(told);
        memory.lives.hear(alloc, to, number, weight, count);
        let draft = children_back(memory, alloc, to, step, number)?;
        return Ok(draft);
    }
    hear_gone(&mut memory.sessions, live, &told);
    let heard = heard_answer(alloc, live, &replier.edge.link, told)?;
    memory.lives.hear(alloc, to, number, weight, count);
    let draft = answer(memory, alloc, to, heard)?;
    Ok(draft)
}

// The step that a branch goes back to, where a child of it has done so.
fn back_step(works: &Works, branch: &BranchId, told: &Answer) -> Option<u32>
    ensures { result ≡ back_step_of told.now (work_of works.now branch.now).going }
{
    match works.get(branch) {
        None => None,
        Some(work) => match &work.going {
            None => None,
            Some(going) => step_by(&going.errand, told),
        },
    }
}

fn step_by(errand: &Errand, told: &Answer) -> Option<u32>
    ensures { result ≡ step_after told.now errand.now }
{
    match errand {
        Errand::Statement { .. } => None,
        Errand::GoBack { step } => match told {
            Answer::Refused(_) => None,
            _ => Some(*step),
        },
    }
}

// Where a root hears that its child is gone, the transaction needs a rollback.
fn hear_gone(sessions: &mut Sessions, live: &Live, answer: &Answer)
    ensures { sessions.new ≡ heard_sessions sessions.old live.now answer.now }
{
    if live.parent.is_none() && is_gone(answer) {
        sessions.need_rollback(live.me.session, BRANCH_GONE);
    }
}

// The child whose Reply to its last call this is, where the branch waits for it.
#[tactic(auto, unfolding(node_rules::specs::Calls::reply_of))]
fn replying<'a>(
    works: &Works,
    branch: &BranchId,
    live: &'a Live,
    from: &BranchId,
    call: u32,
) -> Option<Replier<'a>>
    ensures { option_map replier_as result ≡ reply_of (branch_with live.now (work_of works.now branch.now)) from.now call }
{
    match works.get(branch) {
        None => None,
        Some(work) => replying_by(work, live, from, call),
    }
}

fn replying_by<'a>(work: &Work, live: &'a Live, from: &BranchId, call: u32) -> Option<Replier<'a>>
    ensures { option_map replier_as result ≡ reply_going (branch_with live.now work.now) from.now call work.now.going }
{
    match &work.going {
        None => None,
        Some(going) => match &going.waits {
            Waits::ForOpened(_) => None,
            Waits::ForReply(number) => replying_at(work, live, from, call, *number),
        },
    }
}

fn replying_at<'a>(
    work: &Work,
    live: &'a Live,
    from: &BranchId,
    call: u32,
    number: u8,
) -> Option<Replier<'a>>
    ensures { option_map replier_as result ≡ reply_edge (branch_with live.now work.now) from.now call number (edge_at_number live.now number) }
{
    let edge = edge_at(live, number)?;
    if edge.peer.is(from) && last_call(work, number) == call {
        Some(Replier { number, edge })
    } else {
        None
    }
}

// The number of the last call over the edge of a number, and 0 before any.
fn last_call(work: &Work, number: u8) -> u32
    ensures { result ≡ unwrap_or (numbered work.now.calls number) 0 }
{
    match usize::from(number).checked_sub(1) {
        None => 0,
        Some(place) => match work.calls.as_slice().get(place) {
            None => 0,
            Some(last) => *last,
        },
    }
}
