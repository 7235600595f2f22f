//! Opened and Replies, and what a Reply makes of the answer.
ghost use Rattle.std.specs.Prelude.{◌≡◌, ◌≤◌, ◌<◌, ◌^◌, length, IfOk};
ghost use Rattle.std.specs.Option.{option_copied};
ghost use Rattle.dtx_values.specs.Limits.{link_limit};
ghost use Rattle.session_tree.specs.Tree.{count as count_of};
ghost use Rattle.node_rules.specs.Calls.{reply_fields as reply_fields_of, replies as replies_of, opened_says as opened_says_of, says_again as says_again_of, gone_reply as gone_reply_of, is_gone as is_gone_of, heard_answer as heard_answer_of};
ghost use Rattle.node_drafts.specs.Gives.{branch_with};

use crate::codes::BRANCH_GONE;
use crate::posts::post;
use crate::refusals::{gone, gone_behind};
use dtx_values::{Answer, Duplicate, Listing, Name};
use link_session::{Opening, ReplyFields};
use node_rules::Work;
use reco::Posts;
use session_tree::{Live, count, weight};
use std::alloc::{AllocError, Global};
use tran_ids::BranchId;
use wire_msg::Kind;

/// What a Reply of a live branch says with this answer: the branch's weight, and the branches of its subtree.
pub fn reply_fields(live: &Live, answer: Answer) -> ReplyFields
    requires edges { length live.now.edges ≤ link_limit }
    requires count { count_of live.now < 2 ^ 16 }
    ensures { result ≡ reply_fields_of live.now answer }
{
    ReplyFields {
        weight: weight(live),
        count: count(live) as u16,
        result: answer,
    }
}

/// A Reply to the last call that came to a branch. Fails where memory runs out.
pub fn replies(
    alloc: Global,
    live: &Live,
    work: &Work,
    to: BranchId,
    fields: ReplyFields,
) -> Result<Posts, AllocError>
    ensures { IfOk result (λ posts. posts ≡ replies_of (branch_with live.now work.now) to fields) }
{
    post(
        alloc,
        live.me,
        to,
        Kind::Reply {
            call: work.came.last_call,
            weight: fields.weight,
            count: fields.count,
            result: fields.result,
        },
    )
}

/// The Reply that was given before to the last call, where it was answered. Fails where memory runs out.
pub fn says_again(
    alloc: Global,
    live: &Live,
    work: &Work,
    to: BranchId,
) -> Result<Posts, AllocError>
    ensures { IfOk result (λ posts. posts ≡ says_again_of (branch_with live.now work.now) to work.now.came.reply) }
{
    match work.came.kept() {
        None => Ok(Listing::new(alloc)),
        Some(fields) => replies(alloc, live, work, to, fields.copy(alloc)?),
    }
}

/// Opened, with the strength that is told. Fails where memory runs out.
pub fn opened_says(alloc: Global, opening: &Opening) -> Result<Posts, AllocError>
    ensures { IfOk result (λ posts. posts ≡ opened_says_of opening.now) }
{
    post(
        alloc,
        opening.child,
        opening.parent,
        Kind::Opened {
            edge: opening.edge,
            strength: opening.strength,
        },
    )
}

/// The Reply of a branch that is gone: DTX-08. Fails where memory runs out.
pub fn gone_reply(alloc: Global, me: BranchId, to: BranchId, call: u32) -> Result<Posts, AllocError>
    ensures { IfOk result (λ posts. posts ≡ gone_reply_of me to call) }
{
    post(
        alloc,
        me,
        to,
        Kind::Reply {
            call,
            weight: None,
            count: 1,
            result: Answer::Refused(gone(alloc)),
        },
    )
}

/// Whether an answer is the refusal of a gone branch.
pub fn is_gone(answer: &Answer) -> bool
    ensures { result ≡ is_gone_of answer.now }
{
    match answer {
        Answer::Refused(refusal) => refusal.code == BRANCH_GONE,
        _ => false,
    }
}

/// What a branch answers when the child behind this link answered so: the same, but that a root names the link where the
/// child is gone. Fails where memory runs out.
pub fn heard_answer(
    alloc: Global,
    live: &Live,
    link: &Name,
    answer: Answer,
) -> Result<Answer, AllocError>
    ensures { IfOk result (λ heard. heard ≡ heard_answer_of live.now link.now answer) }
{
    if live.parent.is_none() && is_gone(&answer) {
        drop(answer);
        Ok(Answer::Refused(gone_behind(alloc, link.as_bytes())?))
    } else {
        Ok(answer)
    }
}
