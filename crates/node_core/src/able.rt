//! What a node that can take a turn gives each handler. These functions do nothing: their contracts are laws.
ghost use Rattle.std.specs.Prelude.{◌≡◌, ◌+◌, ◌<◌, ◌≤◌, ◌^◌, length, None};
ghost use Rattle.tran_ids.specs.Listed.{item_at};
ghost use Rattle.sql_statement.specs.declared.statement.Stmt.{Stmt as StmtBy};
ghost use Rattle.tran_ids.specs.declared.branch.BranchId.{BranchId as BranchIdBy};
ghost use Rattle.node_rules.specs.NodeState.{live_id};
ghost use Rattle.node_rules.specs.Inputs.{IsSession};
ghost use Rattle.node_rules.specs.Sessions.{session_at};
ghost use Rattle.node_rules.specs.Calls.{next_child};
ghost use Rattle.node_rules.specs.Client.{new_root};
ghost use Rattle.node_ready_laws.specs.Shapes.{count_limit};
ghost use Rattle.node_memory.specs.Parts.{kept_in};
ghost use Rattle.node_commit.specs.Branches.{MayCommitWhereLive};
ghost use Rattle.node_calls.specs.Handled.{HasFewWith, EdgesHaveNumbers, BranchHasRoom, TakesStatement};
ghost use Rattle.node_core.specs.Able.{IsAble};

use node_calls::ready_nodes_take_calls;
use node_memory::Memory;
use node_ready_laws::ids_stay_apart;
use tran_ids::BranchId;

/// A branch may become sealed or decide, where it is live.
#[tactic(auto, using(crate::proofs::AbleLaws::may_commit))]
pub(crate) fn may_commit(memory: &Memory, branch: &BranchId)
    requires { IsAble memory.now.place (kept_in memory.now) }
    ensures { MayCommitWhereLive memory.now branch.now }
{
    ids_stay_apart();
}

/// A statement may come to any branch.
#[tactic(auto, using(crate::proofs::AbleLaws::statements_come))]
pub(crate) fn takes_statements(memory: &Memory)
    requires { IsAble memory.now.place (kept_in memory.now) }
    ensures { (b : BranchIdBy) (s : StmtBy) → TakesStatement memory.now b s }
{
    ready_nodes_take_calls();
}

/// A transaction may begin in a session.
#[tactic(auto, using(crate::proofs::AbleLaws::seq_left, crate::proofs::AbleLaws::root_is_new))]
pub(crate) fn may_begin(memory: &Memory, session: u32)
    requires able { IsAble memory.now.place (kept_in memory.now) }
    requires fit { IsSession session }
    ensures seq { (session_at memory.now.sessions session).seq + 1 < 2 ^ 32 }
    ensures new { item_at live_id memory.now.lives (new_root memory.now.place (kept_in memory.now) session) ≡ None }
{
    ready_nodes_take_calls();
}

/// A branch may be opened.
#[tactic(auto, using(crate::proofs::AbleLaws::session_left, crate::proofs::AbleLaws::child_is_new))]
pub(crate) fn may_open(memory: &Memory)
    requires { IsAble memory.now.place (kept_in memory.now) }
    ensures sessions { 65 + length memory.now.opens < 2 ^ 32 }
    ensures new { item_at live_id memory.now.lives (next_child memory.now.place (kept_in memory.now)) ≡ None }
{
    ready_nodes_take_calls();
}

/// An Opened may come to a branch.
#[tactic(auto, using(crate::proofs::AbleLaws::has_room, crate::proofs::AbleLaws::has_numbers))]
pub(crate) fn may_hear_opened(memory: &Memory, branch: &BranchId)
    requires { IsAble memory.now.place (kept_in memory.now) }
    ensures room { BranchHasRoom memory.now branch.now }
    ensures numbers { EdgesHaveNumbers memory.now branch.now }
{
    ready_nodes_take_calls();
}

/// A Reply that tells of few branches may come to a branch.
#[tactic(auto, using(crate::proofs::AbleLaws::has_few_with))]
pub(crate) fn may_hear_reply(memory: &Memory, branch: &BranchId, weight: Option<u8>, count: u16)
    requires able { IsAble memory.now.place (kept_in memory.now) }
    requires few { count ≤ count_limit }
    ensures { HasFewWith memory.now branch.now weight count }
{
    ready_nodes_take_calls();
}
