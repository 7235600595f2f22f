//! The prepare phase at a live branch: COMMIT or Prepare comes, its children answer, CommitPoint comes.
ghost use Rattle.std.specs.Prelude.{◌≡◌, Bool, Some, IfOk};
ghost use Rattle.session_tree.specs.declared.live.Phase.TheVariants as phases;
ghost use Rattle.std.specs.Option.{option_map};
ghost use Rattle.tran_ids.specs.declared.branch.BranchId.{BranchId as BranchIdBy};
ghost use Rattle.prepare_phase.specs.Acts.{prepare_act, heard_act};
ghost use Rattle.node_rules.specs.Data.acts as acts;
ghost use Rattle.node_rules.specs.NodeState.{NodeState, live_at as live_at_of};
ghost use Rattle.node_rules.specs.Prepare.{act_turn as act_turn_of, collects as collects_of, with_comment, on_answer as on_answer_of};
ghost use Rattle.node_memory.specs.Parts.{kept_in};
ghost use Rattle.node_drafts.specs.Gives.{GivesDraft};
ghost use Rattle.node_commit.specs.Branches.{at_live, phase_of, begun, answered, MayCommit};

use crate::deciding::decides;
use crate::leaving::{abandons, finishes, says_read_only};
use crate::looking::live_of;
use crate::sealing::{seals_and_passes, seals_prepared};
use dtx_values::Bytes;
use node_drafts::{TurnDraft, prepares, to_one};
use node_memory::Memory;
use session_tree::{Act, Vote};
use std::alloc::{AllocError, Global};
use tran_ids::BranchId;
use wire_msg::Kind;

// A branch that waits stays as it is.
fn rests(alloc: Global) -> TurnDraft
    ensures { (k : NodeState) (b : BranchIdBy) (site_below : Bool) → GivesDraft (at_live k b (λ l. act_turn_of k l site_below acts.Rest)) k result }
{
    TurnDraft::nothing(alloc)
}

// Prepare goes to each child.
fn asks_down(
    memory: &Memory,
    alloc: Global,
    branch: &BranchId,
    site_below: bool,
) -> Result<TurnDraft, AllocError>
    ensures { IfOk result (λ draft. GivesDraft (at_live (kept_in memory.now) branch.now (λ l. act_turn_of (kept_in memory.now) l site_below acts.AskDown)) (kept_in memory.now) draft) }
{
    match live_of(memory, branch) {
        None => Ok(TurnDraft::nothing(alloc)),
        Some(live) => {
            let says = prepares(alloc, live, site_below)?;
            Ok(TurnDraft::saying(alloc, says))
        }
    }
}

// The branch answers Ready, and waits for CommitPoint.
fn says_ready(
    memory: &mut Memory,
    alloc: Global,
    branch: &BranchId,
) -> Result<TurnDraft, AllocError>
    ensures gives { IfOk result (λ draft. (site_below : Bool) → GivesDraft (at_live (kept_in memory.old) branch.now (λ l. act_turn_of (kept_in memory.old) l site_below acts.SayReady)) (kept_in memory.new) draft) }
    ensures place { memory.new.place ≡ memory.old.place }
{
    match live_of(memory, branch) {
        None => Ok(TurnDraft::nothing(alloc)),
        Some(live) => {
            let says = to_one(alloc, live.me, Kind::Ready, live.parent)?;
            memory.lives.make_ready(branch);
            Ok(TurnDraft::saying(alloc, says))
        }
    }
}

/// What a branch does next.
pub(crate) fn act_turn(
    memory: &mut Memory,
    alloc: Global,
    branch: &BranchId,
    site_below: bool,
    act: Act,
) -> Result<TurnDraft, AllocError>
    requires { MayCommit memory.old branch.now }
    ensures gives { IfOk result (λ draft. GivesDraft (at_live (kept_in memory.old) branch.now (λ l. act_turn_of (kept_in memory.old) l site_below act)) (kept_in memory.new) draft) }
    ensures place { memory.new.place ≡ memory.old.place }
{
    match act {
        Act::Rest => Ok(rests(alloc)),
        Act::AskDown => asks_down(memory, alloc, branch, site_below),
        Act::SayReadOnly => says_read_only(memory, alloc, branch),
        Act::SayReady => says_ready(memory, alloc, branch),
        Act::Seal => seals_prepared(memory, alloc, branch),
        Act::SealAndPass(number) => seals_and_passes(memory, alloc, branch, number),
        Act::Decide => decides(memory, alloc, branch),
        Act::Finish => finishes(memory, alloc, branch),
        Act::Abandon => abandons(memory, alloc, branch),
    }
}

// The collect of a working branch begins, and the keys that it only read are given back. Tells what the branch does next.
fn begins(
    memory: &mut Memory,
    alloc: Global,
    branch: &BranchId,
    site_below: bool,
    comment: Bytes,
) -> Option<Act>
    ensures act { result ≡ option_map (λ live. prepare_act (with_comment live comment) site_below) (live_at_of (kept_in memory.old) branch.now) }
    ensures kept { kept_in memory.new ≡ begun (kept_in memory.old) branch.now site_below comment }
    ensures may { MayCommit memory.old branch.now → MayCommit memory.new branch.now }
    ensures place { memory.new.place ≡ memory.old.place }
{
    memory.locks.drop_reads(branch);
    memory.lives.prepare(alloc, branch, site_below, comment)
}

/// COMMIT at a working root, or Prepare at any other working branch, with the comment of the COMMIT: keys that it only read
/// are given back, and its children are asked.
pub fn collects(
    memory: &mut Memory,
    alloc: Global,
    branch: &BranchId,
    site_below: bool,
    comment: Bytes,
) -> Result<TurnDraft, AllocError>
    requires working { phase_of (kept_in memory.old) branch.now ≡ Some phases.Working }
    requires may { MayCommit memory.old branch.now }
    ensures gives { IfOk result (λ draft. GivesDraft (at_live (kept_in memory.old) branch.now (λ l. collects_of (kept_in memory.old) (with_comment l comment) site_below)) (kept_in memory.new) draft) }
    ensures place { memory.new.place ≡ memory.old.place }
{
    match begins(memory, alloc, branch, site_below, comment) {
        None => Ok(TurnDraft::nothing(alloc)),
        Some(act) => act_turn(memory, alloc, branch, site_below, act),
    }
}

// The answer of a child is counted, where it counts. Tells what the branch does next.
fn counts(
    memory: &mut Memory,
    alloc: Global,
    branch: &BranchId,
    from: &BranchId,
    vote: Vote,
) -> Option<Act>
    ensures act { result ≡ option_map (λ live. heard_act live from.now vote) (live_at_of (kept_in memory.old) branch.now) }
    ensures kept { kept_in memory.new ≡ answered (kept_in memory.old) branch.now from.now vote }
    ensures may { MayCommit memory.old branch.now → MayCommit memory.new branch.now }
    ensures place { memory.new.place ≡ memory.old.place }
{
    memory.lives.answer(alloc, branch, from, vote)
}

/// A child's answer at a collecting branch: only each child's first is heard.
pub(crate) fn hears(
    memory: &mut Memory,
    alloc: Global,
    branch: &BranchId,
    site_below: bool,
    from: &BranchId,
    vote: Vote,
) -> Result<TurnDraft, AllocError>
    requires collecting { phase_of (kept_in memory.old) branch.now ≡ Some (phases.Collecting site_below) }
    requires may { MayCommit memory.old branch.now }
    ensures gives { IfOk result (λ draft. GivesDraft (at_live (kept_in memory.old) branch.now (λ l. on_answer_of (kept_in memory.old) l from.now vote)) (kept_in memory.new) draft) }
    ensures place { memory.new.place ≡ memory.old.place }
{
    match counts(memory, alloc, branch, from, vote) {
        None => Ok(TurnDraft::nothing(alloc)),
        Some(act) => act_turn(memory, alloc, branch, site_below, act),
    }
}
