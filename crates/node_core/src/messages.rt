//! Messages, by their kind.
ghost use Rattle.std.specs.Prelude.{◌≡◌, ◌≤◌, IfOk};
ghost use Rattle.node_rules.specs.Calls.{on_open as on_open_of};
ghost use Rattle.node_rules.specs.Turn.{status_of, exec_turn as exec_turn_of, opened_turn as opened_turn_of, reply_turn as reply_turn_of, prepare_turn as prepare_turn_of, answer_turn as answer_turn_of, commit_point_turn as commit_point_turn_of, kind_turn as kind_turn_of};
ghost use Rattle.node_ready_laws.specs.Shapes.{count_limit, TellsFew};
ghost use Rattle.node_memory.specs.Parts.{kept_in};
ghost use Rattle.node_drafts.specs.Gives.{GivesDraft};
ghost use Rattle.node_core.specs.Able.{IsAble};

use crate::able::{may_commit, may_hear_opened, may_hear_reply, may_open, takes_statements};
use dtx_values::{Answer, Bytes, Duplicate};
use node_calls::{exec_turn, on_open, opened_turn, reply_turn};
use node_commit::{
    ack_turn, answer_turn, ask_turn, commit_point_turn, committed_turn, forgotten_turn,
    prepare_turn, rollback_turn, rolled_back_turn,
};
use node_drafts::TurnDraft;
use node_memory::Memory;
use session_tree::Vote;
use std::alloc::{AllocError, Global};
use tran_ids::BranchId;
use wire_msg::{Kind, Task};

// Open: a branch is asked for.
fn opens(
    memory: &mut Memory,
    alloc: Global,
    from: BranchId,
    edge: u8,
    root: BranchId,
    depth: u8,
    read_at: Option<u64>,
) -> Result<TurnDraft, AllocError>
    requires { IsAble memory.old.place (kept_in memory.old) }
    ensures gives { IfOk result (λ draft. GivesDraft (on_open_of memory.old.place (kept_in memory.old) from edge root depth read_at) (kept_in memory.new) draft) }
    ensures place { memory.new.place ≡ memory.old.place }
{
    may_open(memory);
    on_open(memory, alloc, from, edge, root, depth, read_at)
}

// Opened: a child that was asked for is there.
fn opened(
    memory: &mut Memory,
    alloc: Global,
    from: BranchId,
    to: &BranchId,
    edge: u8,
    strength: u8,
) -> Result<TurnDraft, AllocError>
    requires { IsAble memory.old.place (kept_in memory.old) }
    ensures gives { IfOk result (λ draft. GivesDraft (opened_turn_of (kept_in memory.old) from edge strength (status_of (kept_in memory.old) to.now)) (kept_in memory.new) draft) }
    ensures place { memory.new.place ≡ memory.old.place }
{
    may_hear_opened(memory, to);
    opened_turn(memory, alloc, from, to, edge, strength)
}

// Exec: a call for the branch.
fn executes(
    memory: &mut Memory,
    alloc: Global,
    from: BranchId,
    to: &BranchId,
    call: u32,
    task: &Task,
) -> Result<TurnDraft, AllocError>
    requires { IsAble memory.old.place (kept_in memory.old) }
    ensures gives { IfOk result (λ draft. GivesDraft (exec_turn_of memory.old.place (kept_in memory.old) from to.now call task.now (status_of (kept_in memory.old) to.now)) (kept_in memory.new) draft) }
    ensures place { memory.new.place ≡ memory.old.place }
{
    takes_statements(memory);
    exec_turn(memory, alloc, from, to, call, task)
}

// Reply: a child answers a statement.
fn replies(
    memory: &mut Memory,
    alloc: Global,
    from: BranchId,
    to: &BranchId,
    call: u32,
    weight: Option<u8>,
    count: u16,
    told: &Answer,
) -> Result<TurnDraft, AllocError>
    requires able { IsAble memory.old.place (kept_in memory.old) }
    requires few { count ≤ count_limit }
    ensures gives { IfOk result (λ draft. GivesDraft (reply_turn_of (kept_in memory.old) from call weight count told.now (status_of (kept_in memory.old) to.now)) (kept_in memory.new) draft) }
    ensures place { memory.new.place ≡ memory.old.place }
{
    may_hear_reply(memory, to, weight, count);
    let told = told.copy(alloc)?;
    reply_turn(memory, alloc, from, to, call, weight, count, told)
}

// Prepare: the branch is to prepare.
fn prepares(
    memory: &mut Memory,
    alloc: Global,
    from: BranchId,
    to: BranchId,
    site_below: bool,
    comment: &Bytes,
) -> Result<TurnDraft, AllocError>
    requires { IsAble memory.old.place (kept_in memory.old) }
    ensures gives { IfOk result (λ draft. GivesDraft (prepare_turn_of (kept_in memory.old) from to site_below comment.now (status_of (kept_in memory.old) to)) (kept_in memory.new) draft) }
    ensures place { memory.new.place ≡ memory.old.place }
{
    may_commit(memory, &to);
    let comment = comment.copy(alloc)?;
    prepare_turn(memory, alloc, from, to, site_below, comment)
}

// An answer to Prepare.
fn votes(
    memory: &mut Memory,
    alloc: Global,
    from: BranchId,
    to: BranchId,
    vote: Vote,
) -> Result<TurnDraft, AllocError>
    requires { IsAble memory.old.place (kept_in memory.old) }
    ensures gives { IfOk result (λ draft. GivesDraft (answer_turn_of (kept_in memory.old) from vote (status_of (kept_in memory.old) to)) (kept_in memory.new) draft) }
    ensures place { memory.new.place ≡ memory.old.place }
{
    may_commit(memory, &to);
    answer_turn(memory, alloc, from, to, vote)
}

// CommitPoint: the walk to the commit point site comes to the branch.
fn passes_on(
    memory: &mut Memory,
    alloc: Global,
    from: BranchId,
    to: BranchId,
) -> Result<TurnDraft, AllocError>
    requires { IsAble memory.old.place (kept_in memory.old) }
    ensures gives { IfOk result (λ draft. GivesDraft (commit_point_turn_of (kept_in memory.old) from to (status_of (kept_in memory.old) to)) (kept_in memory.new) draft) }
    ensures place { memory.new.place ≡ memory.old.place }
{
    may_commit(memory, &to);
    commit_point_turn(memory, alloc, from, to)
}

/// A message of each kind, from a branch to a branch of the node.
pub(crate) fn kind_turn(
    memory: &mut Memory,
    alloc: Global,
    from: BranchId,
    to: BranchId,
    kind: &Kind,
) -> Result<TurnDraft, AllocError>
    requires able { IsAble memory.old.place (kept_in memory.old) }
    requires few { TellsFew kind.now }
    ensures gives { IfOk result (λ draft. GivesDraft (kind_turn_of memory.old.place (kept_in memory.old) from to kind.now (status_of (kept_in memory.old) to)) (kept_in memory.new) draft) }
    ensures place { memory.new.place ≡ memory.old.place }
{
    match kind {
        Kind::Open {
            edge,
            root,
            depth,
            read_at,
        } => opens(memory, alloc, from, *edge, *root, *depth, *read_at),
        Kind::Opened { edge, strength } => opened(memory, alloc, from, &to, *edge, *strength),
        Kind::Exec { call, task } => executes(memory, alloc, from, &to, *call, task),
        Kind::Reply {
            call,
            weight,
            count,
            result: told,
        } => replies(memory, alloc, from, &to, *call, *weight, *count, told),
        Kind::Prepare {
            site_below,
            comment,
        } => prepares(memory, alloc, from, to, *site_below, comment),
        Kind::Prepared => votes(memory, alloc, from, to, Vote::Prepared),
        Kind::ReadOnly => votes(memory, alloc, from, to, Vote::ReadOnly),
        Kind::Ready => votes(memory, alloc, from, to, Vote::Ready),
        Kind::Abort => votes(memory, alloc, from, to, Vote::Abort),
        Kind::CommitPoint => passes_on(memory, alloc, from, to),
        Kind::Committed { scn } => committed_turn(memory, alloc, from, to, *scn),
        Kind::RolledBack => rolled_back_turn(memory, alloc, from, to),
        Kind::InDoubt => Ok(TurnDraft::nothing(alloc)),
        Kind::Ack => ack_turn(memory, alloc, from, to),
        Kind::Forgotten => forgotten_turn(memory, alloc, from, to),
        Kind::Rollback => rollback_turn(memory, alloc, from, to),
        Kind::Ask => ask_turn(memory, alloc, from, to),
    }
}
