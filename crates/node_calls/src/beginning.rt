//! INSERT, UPDATE, DELETE and SELECT of a client: a session without a transaction begins one.
ghost use Rattle.std.specs.Prelude.{◌≡◌, ◌+◌, ◌<◌, ◌^◌, None, IfOk, OnOk};
ghost use Rattle.tran_ids.specs.declared.branch.BranchId.{BranchId};
ghost use Rattle.tran_ids.specs.Listed.{item_at};
ghost use Rattle.session_tree.specs.Live.{fresh_live};
ghost use Rattle.node_rules.specs.NodeState.{branch_at, live_id};
ghost use Rattle.node_rules.specs.Sessions.{session_at};
ghost use Rattle.node_rules.specs.Client.{allowed_at as allowed_at_of, begun, begun_by, new_root as new_root_of, fresh_root as fresh_root_of, statement_by, statement_call as statement_call_of};
ghost use Rattle.node_drafts.specs.Gives.{GivesDraft};
ghost use Rattle.node_memory.specs.Parts.{kept_in};
ghost use Rattle.node_calls.specs.Handled.{at_live, refuses_again, TakesStatement};

use crate::opening::strength_of;
use crate::routing::statement_at;
use dtx_values::{Answer, Listing};
use node_drafts::{TurnDraft, is_read_only, needs_rollback};
use node_memory::Memory;
use node_ways::is_write;
use session_tree::{Live, Phase};
use sql_statement::Stmt;
use std::alloc::{AllocError, Global};
use tran_ids::BranchId;

/// INSERT, UPDATE, DELETE or SELECT in a session, at its root: a session without a transaction begins one first. ORA-02067 where
/// the transaction can only be rolled back, and DTX-21 where it is READ ONLY and the statement writes. Nothing where the session's
/// root is not live.
#[tactic(auto, using(crate::proofs::RootLaws::rootless_in, crate::proofs::RootLaws::rooted_in))]
pub fn statement_call(
    memory: &mut Memory,
    alloc: Global,
    session: u32,
    statement: &Stmt,
) -> Result<TurnDraft, AllocError>
    requires seq { (session_at memory.old.sessions session).seq + 1 < 2 ^ 32 }
    requires new { item_at live_id memory.old.lives (new_root_of memory.old.place (kept_in memory.old) session) ≡ None }
    requires takes { (root : BranchId) → TakesStatement memory.old root statement.now }
    ensures gives { IfOk result (λ draft. GivesDraft (statement_call_of memory.old.place (begun memory.old.place (kept_in memory.old) session) session statement.now) (kept_in memory.new) draft) }
    ensures place { memory.new.place ≡ memory.old.place }
{
    begin(memory, alloc, session)?;
    match memory.sessions.at(session).root {
        None => Ok(TurnDraft::nothing(alloc)),
        Some(root) => {
            let draft = statement_in(memory, alloc, session, &root, statement)?;
            Ok(draft)
        }
    }
}

/// A transaction begins in a session that has none, and the call is counted.
#[tactic(auto, using(crate::proofs::RootLaws::begun_so))]
pub(crate) fn begin(memory: &mut Memory, alloc: Global, session: u32) -> Result<(), AllocError>
    requires seq { (session_at memory.old.sessions session).seq + 1 < 2 ^ 32 }
    requires new { item_at live_id memory.old.lives (new_root_of memory.old.place (kept_in memory.old) session) ≡ None }
    ensures kept { OnOk result (kept_in memory.new ≡ begun memory.old.place (kept_in memory.old) session) }
    ensures place { memory.new.place ≡ memory.old.place }
{
    begin_first(memory, alloc, session)?;
    memory.sessions.count(session)?;
    Ok(())
}

// A transaction begins in a session that has none.
fn begin_first(memory: &mut Memory, alloc: Global, session: u32) -> Result<(), AllocError>
    requires seq { (session_at memory.old.sessions session).seq + 1 < 2 ^ 32 }
    requires new { item_at live_id memory.old.lives (new_root_of memory.old.place (kept_in memory.old) session) ≡ None }
    ensures kept { OnOk result (kept_in memory.new ≡ begun_by memory.old.place (kept_in memory.old) session None (session_at memory.old.sessions session).root) }
    ensures place { memory.new.place ≡ memory.old.place }
{
    match memory.sessions.at(session).root {
        Some(_) => Ok(()),
        None => begin_root(memory, alloc, session, None),
    }
}

/// A transaction begins in a session, which reads at an SCN where it is READ ONLY.
pub(crate) fn begin_root(
    memory: &mut Memory,
    alloc: Global,
    session: u32,
    read_at: Option<u64>,
) -> Result<(), AllocError>
    requires seq { (session_at memory.old.sessions session).seq + 1 < 2 ^ 32 }
    requires new { item_at live_id memory.old.lives (new_root_of memory.old.place (kept_in memory.old) session) ≡ None }
    ensures kept { OnOk result (kept_in memory.new ≡ begun_by memory.old.place (kept_in memory.old) session read_at None) }
    ensures place { memory.new.place ≡ memory.old.place }
{
    let root = new_root(memory, session);
    let live = fresh_root(alloc, memory, root, read_at);
    memory.lives.begin(live)?;
    memory.sessions.begin(session, &root);
    Ok(())
}

// The id of the session's next root.
fn new_root(memory: &Memory, session: u32) -> BranchId
    requires { (session_at memory.now.sessions session).seq + 1 < 2 ^ 32 }
    ensures { result ≡ new_root_of memory.now.place (kept_in memory.now) session }
{
    let last = memory.sessions.at(session).seq;
    BranchId {
        node: memory.place.number,
        boot: memory.boot,
        session,
        seq: last + 1,
    }
}

// A root that has just begun.
fn fresh_root(alloc: Global, memory: &Memory, root: BranchId, read_at: Option<u64>) -> Live
    ensures { result ≡ fresh_root_of memory.now.place (kept_in memory.now) root read_at }
{
    Live {
        me: root,
        root,
        parent: None,
        depth: 1,
        changed: false,
        strength: strength_of(memory),
        edges: Listing::new(alloc),
        phase: Phase::Working,
        advice: None,
        comment: Listing::new(alloc),
        read_at,
    }
}

// A statement of a session with this root.
#[tactic(auto, using(crate::proofs::RootLaws::statement_so, crate::proofs::RootLaws::refused_so))]
fn statement_in(
    memory: &mut Memory,
    alloc: Global,
    session: u32,
    root: &BranchId,
    statement: &Stmt,
) -> Result<TurnDraft, AllocError>
    requires { TakesStatement memory.old root.now statement.now }
    ensures gives { IfOk result (λ draft.
        GivesDraft (statement_by memory.old.place (kept_in memory.old) session statement.now (session_at memory.old.sessions session).code (branch_at (kept_in memory.old) root.now)) (kept_in memory.new) draft) }
    ensures place { memory.new.place ≡ memory.old.place }
{
    match memory.sessions.at(session).code {
        None => {
            let draft = allowed_at(memory, alloc, session, root, statement)?;
            Ok(draft)
        }
        Some(code) => refuse_again(memory, alloc, session, root, code),
    }
}

// DTX-21 where a READ ONLY transaction would write. Nothing where the root is not live.
#[tactic(auto, using(crate::proofs::RootLaws::forbidden_so, crate::proofs::RootLaws::allowed_so, crate::proofs::BranchLaws::nothing_so))]
fn allowed_at(
    memory: &mut Memory,
    alloc: Global,
    session: u32,
    root: &BranchId,
    statement: &Stmt,
) -> Result<TurnDraft, AllocError>
    requires { TakesStatement memory.old root.now statement.now }
    ensures gives { IfOk result (λ draft.
        GivesDraft (at_live (kept_in memory.old) (λ x. allowed_at_of memory.old.place (kept_in memory.old) session x statement.now) (branch_at (kept_in memory.old) root.now)) (kept_in memory.new) draft) }
    ensures place { memory.new.place ≡ memory.old.place }
{
    let Some(live) = memory.lives.get(root) else {
        return Ok(TurnDraft::nothing(alloc));
    };
    if live.read_at.is_some() && is_write(statement) {
        TurnDraft::ending(alloc, session, Answer::Refused(is_read_only(alloc)))
    } else {
        let draft = statement_at(memory, alloc, root, statement, 0)?;
        Ok(draft)
    }
}

/// ORA-02067 at a live root, after an answer of this code.
#[tactic(auto, using(crate::proofs::RootLaws::nobody_refused, crate::proofs::RootLaws::somebody_refused))]
pub(crate) fn refuse_again(
    memory: &Memory,
    alloc: Global,
    session: u32,
    root: &BranchId,
    code: u16,
) -> Result<TurnDraft, AllocError>
    ensures { IfOk result (λ draft. GivesDraft (refuses_again (kept_in memory.now) session code (branch_at (kept_in memory.now) root.now)) (kept_in memory.now) draft) }
{
    match memory.lives.get(root) {
        None => Ok(TurnDraft::nothing(alloc)),
        Some(_) => {
            let refusal = needs_rollback(alloc, code)?;
            TurnDraft::ending(alloc, session, Answer::Refused(refusal))
        }
    }
}
