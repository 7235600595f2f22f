//! One turn.
ghost use Rattle.std.specs.Prelude.{◌≡◌, IfOk, IfSome, OnOk};
ghost use Rattle.node_rules.specs.Turn.{kind_scn as kind_scn_of, clock_raised_by, heard, draft_at, turn_of};
ghost use Rattle.node_ready_laws.specs.Ready.{IsReady};
ghost use Rattle.node_ready_laws.specs.Sound.{IsNext};
ghost use Rattle.node_undo_laws.specs.Kept.{HasUndo};
ghost use Rattle.node_undo_laws.specs.Fits.{FitsDoubts};
ghost use Rattle.wire_msg.specs.declared.input.Input.TheVariants as inputs;
ghost use Rattle.node_memory.specs.Parts.{stored_in, kept_in};
ghost use Rattle.node_drafts.specs.Gives.{GivesDraft};
ghost use Rattle.node_core.specs.Able.{IsAble, MayTake};
ghost use Rattle.node_core.specs.Refused.{IsRefused, LeavesAll};
ghost use Rattle.node_core.specs.Serves.{Serves};

use crate::StampedTurn;
use crate::calls::read_turn;
use crate::checkpoints::checkpoint;
use crate::giving_up::give_up_turn;
use crate::laws::refused_calls_leave_all;
use crate::messages::kind_turn;
use crate::recovery::recovery;
use crate::served::stamped;
use node_drafts::TurnDraft;
use node_memory::Memory;
use node_ready_laws::turns_stay_ready;
use node_undo_laws::{records_fit_doubts, turns_keep_undo};
use std::alloc::{AllocError, Global};
use wire_msg::{Input, Kind, Msg};

fn kind_scn(kind: &Kind) -> u64
    ensures { result ≡ kind_scn_of kind.now }
{
    match kind {
        Kind::Committed { scn } => *scn,
        _ => 0,
    }
}

// The clock meets what a message brings.
#[tactic(auto, using(crate::proofs::AbleLaws::able_heard))]
fn hear(memory: &mut Memory, msg: &Msg)
    requires { MayTake memory.old.place (kept_in memory.old) (inputs.Message msg.now) }
    ensures able { IsAble memory.new.place (kept_in memory.new) }
    ensures kept { kept_in memory.new ≡ clock_raised_by (kept_in memory.old) msg.now }
    ensures place { memory.new.place ≡ memory.old.place }
{
    let brought = kind_scn(&msg.kind);
    memory.raise(msg.scn.max(brought));
}

// A message: the clock meets its sender's first.
fn message_turn(memory: &mut Memory, alloc: Global, msg: &Msg) -> Result<TurnDraft, AllocError>
    requires { MayTake memory.old.place (kept_in memory.old) (inputs.Message msg.now) }
    ensures gives { IfOk result (λ draft. GivesDraft (draft_at memory.old.place (heard (kept_in memory.old) (inputs.Message msg.now)) (inputs.Message msg.now)) (kept_in memory.new) draft) }
    ensures place { memory.new.place ≡ memory.old.place }
{
    hear(memory, msg);
    kind_turn(memory, alloc, msg.from, msg.to, &msg.kind)
}

// What comes to the node is done.
#[tactic(auto, unfolding(node_rules::specs::Turn::turn_of))]
fn take(memory: &mut Memory, alloc: Global, input: &Input) -> Result<StampedTurn, AllocError>
    requires { MayTake memory.old.place (kept_in memory.old) input.now }
    ensures serves { IfOk result (λ served. Serves (turn_of memory.old.place (kept_in memory.old) input.now) (kept_in memory.new) served) }
    ensures place { memory.new.place ≡ memory.old.place }
{
    match input {
        Input::Call { session, statement } => {
            let draft = read_turn(memory, alloc, *session, statement)?;
            stamped(memory, alloc, draft)
        }
        Input::GiveUp { session } => {
            let draft = give_up_turn(memory, alloc, *session)?;
            stamped(memory, alloc, draft)
        }
        Input::Message(msg) => {
            let draft = message_turn(memory, alloc, msg)?;
            stamped(memory, alloc, draft)
        }
        Input::Reco => recovery(memory, alloc),
        Input::Checkpoint => checkpoint(memory, alloc),
    }
}

/// One turn of a node that can take this input. It changes what the node keeps, and tells the record, the messages and the calls
/// that end. The node is ready again afterwards and keeps its undo, and the record may stand next behind those that it has and fits
/// beside the branches in doubt. Fails where memory runs out, and also where the turn would write an image, which no
/// script asks for yet; nothing is promised then of what the node keeps, except its place.
#[tactic(auto, using(crate::proofs::AbleLaws::ready_again, crate::proofs::AbleLaws::may_follow, crate::proofs::AbleLaws::undo_kept, crate::proofs::AbleLaws::fits_doubts, crate::proofs::AbleLaws::refused_so))]
pub fn turn(memory: &mut Memory, alloc: Global, input: &Input) -> Result<StampedTurn, AllocError>
    requires { MayTake memory.old.place (kept_in memory.old) input.now }
    ensures serves { IfOk result (λ served. Serves (turn_of memory.old.place (kept_in memory.old) input.now) (kept_in memory.new) served) }
    ensures ready { OnOk result (IsReady memory.new.place (kept_in memory.new)) }
    ensures follows { IfOk result (λ served. IfSome served.wrote (IsNext (stored_in memory.old))) }
    ensures undo { OnOk result (HasUndo memory.new.place (kept_in memory.new)) }
    ensures fits { IfOk result (λ served. IfSome served.wrote (FitsDoubts memory.old.place.undo (stored_in memory.old))) }

    // A call that is refused has changed no row and no lock, and writes no record.
    ensures refused { IfOk result (λ served. IsRefused input.now served.ended → LeavesAll (kept_in memory.old) (turn_of memory.old.place (kept_in memory.old) input.now)) }
    ensures place { memory.new.place ≡ memory.old.place }
{
    refused_calls_leave_all();
    turns_stay_ready();
    turns_keep_undo();
    records_fit_doubts();
    take(memory, alloc, input)
}
