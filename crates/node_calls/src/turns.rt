//! Messages of calls, by what their branch is at the node: live, kept or gone.
ghost use Rattle.std.specs.Prelude.{◌≡◌, IfOk};
ghost use Rattle.sql_statement.specs.declared.statement.Stmt.{Stmt as StmtBy};
ghost use Rattle.node_rules.specs.Turn.{exec_turn as exec_turn_of, opened_turn as opened_turn_of, reply_turn as reply_turn_of, status_of};
ghost use Rattle.node_drafts.specs.Gives.{GivesDraft};
ghost use Rattle.node_memory.specs.Parts.{kept_in};
ghost use Rattle.node_calls.specs.Handled.{HasFewWith, EdgesHaveNumbers, BranchHasRoom, TakesStatement};

use crate::executing::on_exec;
use crate::opened::on_opened;
use crate::replied::on_reply;
use dtx_values::Answer;
use node_drafts::{TurnDraft, gone_reply};
use node_memory::{BranchStatus, Memory};
use std::alloc::{AllocError, Global};
use tran_ids::BranchId;
use wire_msg::Task;

/// Exec: a live branch takes the call, a kept one ignores it, and a gone one refuses it with DTX-08.
#[tactic(auto, using(crate::proofs::TurnLaws::exec_kept, crate::proofs::TurnLaws::exec_gone))]
pub fn exec_turn(
    memory: &mut Memory,
    alloc: Global,
    from: BranchId,
    to: &BranchId,
    call: u32,
    task: &Task,
) -> Result<TurnDraft, AllocError>
    requires { (s : StmtBy) → TakesStatement memory.old to.now s }
    ensures gives { IfOk result (λ draft.
        GivesDraft (exec_turn_of memory.old.place (kept_in memory.old) from to.now call task.now (status_of (kept_in memory.old) to.now)) (kept_in memory.new) draft) }
    ensures place { memory.new.place ≡ memory.old.place }
{
    match memory.status_of(to) {
        BranchStatus::Live(_) => {
            let draft = on_exec(memory, alloc, from, to, call, task)?;
            Ok(draft)
        }
        BranchStatus::Kept(_) => Ok(TurnDraft::nothing(alloc)),
        BranchStatus::Gone => {
            let says = gone_reply(alloc, *to, from, call)?;
            Ok(TurnDraft::saying(alloc, says))
        }
    }
}

/// Opened, which only a live branch hears.
pub fn opened_turn(
    memory: &mut Memory,
    alloc: Global,
    from: BranchId,
    to: &BranchId,
    edge: u8,
    strength: u8,
) -> Result<TurnDraft, AllocError>
    requires room { BranchHasRoom memory.old to.now }
    requires numbers { EdgesHaveNumbers memory.old to.now }
    ensures gives { IfOk result (λ draft.
        GivesDraft (opened_turn_of (kept_in memory.old) from edge strength (status_of (kept_in memory.old) to.now)) (kept_in memory.new) draft) }
    ensures place { memory.new.place ≡ memory.old.place }
{
    let draft = on_opened(memory, alloc, from, to, edge, strength)?;
    Ok(draft)
}

/// Reply, which only a live branch hears.
pub fn reply_turn(
    memory: &mut Memory,
    alloc: Global,
    from: BranchId,
    to: &BranchId,
    call: u32,
    weight: Option<u8>,
    count: u16,
    told: Answer,
) -> Result<TurnDraft, AllocError>
    requires { HasFewWith memory.old to.now weight count }
    ensures gives { IfOk result (λ draft.
        GivesDraft (reply_turn_of (kept_in memory.old) from call weight count told (status_of (kept_in memory.old) to.now)) (kept_in memory.new) draft) }
    ensures place { memory.new.place ≡ memory.old.place }
{
    let draft = on_reply(memory, alloc, from, to, call, weight, count, told)?;
    Ok(draft)
}
