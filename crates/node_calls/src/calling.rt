//! An errand goes on: over an edge to a child, or over a link that is used for the first time.
ghost use Rattle.std.specs.Prelude.{◌≡◌, ◌<◌, ◌≤◌, ◌^◌, ◌+◌, length, IfOk, IfSome};
ghost use Rattle.dtx_values.specs.Limits.{link_limit, depth_limit};
ghost use Rattle.tran_ids.specs.Listed.{item_at};
ghost use Rattle.session_tree.specs.Live.{peer_of as peer_of_number};
ghost use Rattle.node_rules.specs.NodeState.{branch_at, live_id, post as post_of};
ghost use Rattle.node_rules.specs.Data.kinds;
ghost use Rattle.session_tree.specs.Live.{next_edge};
ghost use Rattle.node_rules.specs.Calls.{advice_of as advice_of_branch, call_pends, calls_over, exec_to, next_call, nobody_at as nobody_at_node, opens_through, task_for as task_for_of};
ghost use Rattle.node_rules.specs.Marks.{step_of as step_of_branch};
ghost use Rattle.node_state.specs.Works.{work_of};
ghost use Rattle.node_drafts.specs.Gives.{GivesDraft, branch_with};
ghost use Rattle.node_memory.specs.Parts.{kept_in};
ghost use Rattle.node_calls.specs.Handled.{at_live};

use dtx_values::{Advice, Duplicate, Listing, Name};
use node_drafts::{TurnDraft, peer_of, post};
use node_memory::Memory;
use node_rules::{Errand, PendingCall};
use node_state::{Sessions, Works};
use reco::Posts;
use session_tree::{Live, room};
use sql_statement::Stmt;
use std::alloc::{AllocError, Global};
use tran_ids::BranchId;
use wire_msg::{Kind, Task};

/// An errand of a live branch goes on to the child of a number, from 1. Nothing where the branch is not live.
#[tactic(auto, using(crate::proofs::BranchLaws::nothing_so))]
pub(crate) fn call_over(
    memory: &mut Memory,
    alloc: Global,
    branch: &BranchId,
    number: u8,
    errand: Errand,
) -> Result<TurnDraft, AllocError>
    requires { next_call (work_of memory.old.works branch.now) number < 2 ^ 32 }
    ensures gives { IfOk result (λ draft.
        GivesDraft (at_live (kept_in memory.old) (λ x. calls_over (kept_in memory.old) x number errand) (branch_at (kept_in memory.old) branch.now)) (kept_in memory.new) draft) }
    ensures place { memory.new.place ≡ memory.old.place }
{
    let Some(live) = memory.lives.get(branch) else {
        drop(errand);
        return Ok(TurnDraft::nothing(alloc));
    };
    match exec_over(
        alloc,
        &memory.sessions,
        &memory.works,
        branch,
        live,
        number,
        &errand,
    ) {
        Err(error) => {
            drop(errand);
            Err(error)
        }
        Ok(says) => {
            let step = step_of(&memory.sessions, &memory.works, branch, live);
            pend(&mut memory.sessions, live);
            match memory.works.call_over(alloc, branch, number, errand, step) {
                Err(error) => {
                    drop(says);
                    Err(error)
                }
                Ok(()) => Ok(TurnDraft::saying(alloc, says)),
            }
        }
    }
}

/// A link is used for the first time: Open goes to its node, and the statement of a live branch waits. Nothing where the
/// branch is not live.
#[tactic(auto, using(crate::proofs::BranchLaws::nothing_so))]
pub(crate) fn open_through(
    memory: &mut Memory,
    alloc: Global,
    branch: &BranchId,
    node: u8,
    link: Name,
    statement: Stmt,
    given: u16,
) -> Result<TurnDraft, AllocError>
    requires { IfSome (item_at live_id memory.old.lives branch.now) (λ live. live.depth < depth_limit) }
    ensures gives { IfOk result (λ draft.
        GivesDraft (at_live (kept_in memory.old) (λ x. opens_through (kept_in memory.old) x node link statement given) (branch_at (kept_in memory.old) branch.now)) (kept_in memory.new) draft) }
    ensures place { memory.new.place ≡ memory.old.place }
{
    let Some(live) = memory.lives.get(branch) else {
        drop(link);
        drop(statement);
        return Ok(TurnDraft::nothing(alloc));
    };
    match open_says(alloc, live, node) {
        Err(error) => {
            drop(link);
            drop(statement);
            Err(error)
        }
        Ok(says) => {
            pend(&mut memory.sessions, live);
            match memory
                .works
                .wait_for_opened(alloc, branch, link, statement, given)
            {
                Err(error) => {
                    drop(says);
                    Err(error)
                }
                Ok(()) => Ok(TurnDraft::saying(alloc, says)),
            }
        }
    }
}

// At a root the session's call is pending from now on.
fn pend(sessions: &mut Sessions, live: &Live)
    ensures { sessions.new ≡ call_pends sessions.old live.now }
{
    if live.parent.is_none() {
        sessions.set_call(live.me.session, PendingCall::Statement);
    }
}

// The advice that an Exec carries: at a root the session's, elsewhere that of the last Exec that the branch took.
fn advice_of(sessions: &Sessions, live: &Live) -> Option<Advice>
    ensures { result ≡ advice_of_branch sessions.now live.now }
{
    if live.parent.is_none() {
        sessions.at(live.me.session).advice
    } else {
        live.advice
    }
}

/// The step of what a branch does now: at a root the number of its client's calls, elsewhere that of the last call that came.
pub(crate) fn step_of(sessions: &Sessions, works: &Works, branch: &BranchId, live: &Live) -> u32
    ensures { result ≡ step_of_branch sessions.now (branch_with live.now (work_of works.now branch.now)) }
{
    if live.parent.is_none() {
        sessions.at(live.me.session).calls
    } else {
        works.last_call(branch)
    }
}

// What the child of a number is called for.
fn task_for(
    alloc: Global,
    sessions: &Sessions,
    works: &Works,
    branch: &BranchId,
    live: &Live,
    number: u8,
    errand: &Errand,
) -> Result<Task, AllocError>
    requires { length live.now.edges ≤ link_limit }
    ensures { IfOk result (λ task. task ≡ task_for_of sessions.now (branch_with live.now (work_of works.now branch.now)) number errand.now) }
{
    match errand {
        Errand::Statement {
            statement,
            room: given,
        } => {
            let statement = statement.copy(alloc)?;
            Ok(Task::Run {
                room: room(live, *given),
                advice: advice_of(sessions, live),
                statement,
            })
        }
        Errand::GoBack { step } => Ok(Task::GoBack {
            keep: works.kept_call(branch, *step, number),
        }),
    }
}

// The Exec to a child.
fn exec_over(
    alloc: Global,
    sessions: &Sessions,
    works: &Works,
    branch: &BranchId,
    live: &Live,
    number: u8,
    errand: &Errand,
) -> Result<Posts, AllocError>
    requires edges { length live.now.edges ≤ link_limit }
    requires numbers { next_call (work_of works.now branch.now) number < 2 ^ 32 }
    ensures { IfOk result (λ posts. posts ≡ exec_to sessions.now (branch_with live.now (work_of works.now branch.now)) number errand.now (peer_of_number live.now number)) }
{
    match peer_of(live, number) {
        None => Ok(Listing::new(alloc)),
        Some(peer) => {
            let task = task_for(alloc, sessions, works, branch, live, number, errand)?;
            let kind = Kind::Exec {
                call: works.next_call(branch, number),
                task,
            };
            post(alloc, live.me, peer, kind)
        }
    }
}

// Open to a node, for a child of this branch.
fn open_says(alloc: Global, live: &Live, node: u8) -> Result<Posts, AllocError>
    requires edges { length live.now.edges ≤ link_limit }
    requires depth { live.now.depth < depth_limit }
    ensures { IfOk result (λ posts. posts ≡ post_of live.now.me (nobody_at_node node) (kinds.Open (next_edge live.now) live.now.root (live.now.depth + 1) live.now.read_at)) }
{
    let kind = Kind::Open {
        edge: live.edges.as_slice().len() as u8 + 1,
        root: live.root,
        depth: live.depth + 1,
        read_at: live.read_at,
    };
    post(alloc, live.me, nobody_at(node), kind)
}

// The receiver of an Open: a node, and no branch of it yet.
fn nobody_at(node: u8) -> BranchId
    ensures { result ≡ nobody_at_node node }
{
    BranchId {
        node,
        boot: 0,
        session: 0,
        seq: 0,
    }
}
