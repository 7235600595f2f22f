//! A statement that is given up.
ghost use Rattle.std.specs.Prelude.{◌≡◌, IfOk};
ghost use Rattle.dtx_values.specs.declared.answer.Answer.TheVariants.{Refused};
ghost use Rattle.sql_check.specs.Refusals.{dtx};
ghost use Rattle.sql_check.specs.Words.{one};
ghost use Rattle.node_rules.specs.NodeState.{branch_at};
ghost use Rattle.node_rules.specs.Client.{statement_given_up as statement_given_up_of, waited_link as waited_link_of};
ghost use Rattle.node_state.specs.Works.{work_of};
ghost use Rattle.node_drafts.specs.Gives.{GivesDraft};
ghost use Rattle.node_memory.specs.Parts.{kept_in};

use dtx_values::Answer;
use node_drafts::{NO_ANSWER, TurnDraft, no_answer, waited_link};
use node_memory::Memory;
use node_rules::PendingCall;
use node_state::Works;
use session_tree::Live;
use std::alloc::{AllocError, Global};
use tran_ids::BranchId;

/// The statement of a session with this root is given up: DTX-03, which names the link that the root waits for. The transaction
/// can only be rolled back from then on. Nothing where the root is not live.
#[tactic(auto, using(crate::proofs::DraftLaws::none_given_up))]
pub fn statement_given_up(
    memory: &mut Memory,
    alloc: Global,
    session: u32,
    root: &BranchId,
) -> Result<TurnDraft, AllocError>
    ensures gives { IfOk result (λ draft. GivesDraft (statement_given_up_of (kept_in memory.old) session (branch_at (kept_in memory.old) root.now)) (kept_in memory.new) draft) }
    ensures place { memory.new.place ≡ memory.old.place }
{
    let Some(live) = memory.lives.get(root) else {
        return Ok(TurnDraft::nothing(alloc));
    };
    let answer = answer_lost(alloc, &memory.works, root, live)?;
    let draft = TurnDraft::ending(alloc, session, answer)?;
    match memory.works.give_up(alloc, root) {
        Err(error) => {
            drop(draft);
            Err(error)
        }
        Ok(()) => {
            memory.sessions.set_call(session, PendingCall::NoCall);
            memory.sessions.need_rollback(session, NO_ANSWER);
            Ok(draft)
        }
    }
}

// DTX-03, with the link that a live branch waits for.
fn answer_lost(
    alloc: Global,
    works: &Works,
    branch: &BranchId,
    live: &Live,
) -> Result<Answer, AllocError>
    ensures { IfOk result (λ answer. answer ≡ Refused (dtx 3 (one (waited_link_of live.now (work_of works.now branch.now).going)))) }
{
    match works.get(branch) {
        None => no_answer(alloc, waited_link(live, None)),
        Some(work) => no_answer(alloc, waited_link(live, work.going.as_ref())),
    }
}
