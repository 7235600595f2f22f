//! What a turn does in memory, before its record is written.
ghost use Rattle.std.specs.Prelude.{◌≡◌, map, option_map, IfOk, IfSome, OnOk};
ghost use Rattle.std.specs.List.{AllByRecursion};
ghost use Rattle.node_spell_laws.specs.Record.{RecordHasBytes};
ghost use Rattle.wire_msg.specs.declared.input.Input.{Input as InputBy};
ghost use Rattle.node_rules.specs.Data.{Place};
ghost use Rattle.node_rules.specs.Inputs.{IsFit};
ghost use Rattle.node_rules.specs.NodeState.{NodeState};
ghost use Rattle.node_rules.specs.Turn.{turn_of};
ghost use Rattle.node_rules.specs.Points.{passes as passes_of};
ghost use Rattle.node_ready_laws.specs.Ready.{IsReady};
ghost use Rattle.node_undo_laws.specs.Kept.{HasUndo};
ghost use Rattle.node_points.specs.Passing.{passes_as, concerned, Foresees};
ghost use Rattle.node_memory.specs.Parts.{stored_in, kept_in};
ghost use Rattle.node_core.specs.Able.{MayTake};
ghost use Rattle.node_core.specs.Serves.{Serves};
ghost use Rattle.node_disk.specs.Incoming.{read_as, IsReadAs, record_of};
ghost use Rattle.node_disk.specs.Effects.{mailed, IsMailed, call_of, Tells, TellsPasses};
ghost use Rattle.node_disk.specs.Spellable.{MayBeMailed, IsSpellable};
ghost use Rattle.node_disk.specs.Starts.{MayBeNext, IsButForAcks, stored_next};

use crate::effects::{DurableTurn, Ends, Sent};
use crate::finished::finish;
use crate::incoming::{Incoming, read};
use crate::laws::turns_store_their_records;
use crate::mailing::mail;
use node_core::{StampedTurn, turn};
use node_memory::Memory;
use node_points::{Ahead, Passes, passed, turns_are_of_their_branch};
use node_rules::Ended;
use std::alloc::{AllocError, Global};
use tran_ids::BranchId;
use wire_msg::{Input, Msgs};

// The branch that an input is about.
fn about(memory: &Memory, input: &Input) -> Option<BranchId>
    ensures { result ≡ concerned (kept_in memory.now) input.now }
{
    match input {
        Input::Message(msg) => Some(msg.to),
        Input::Call { session, .. } => memory.sessions.at(*session).root,
        _ => None,
    }
}

// What is ahead of that branch.
#[tactic(auto, using(crate::proofs::PassLaws::ahead_so))]
fn look(memory: &Memory, input: &Input) -> Ahead
    ensures { Foresees (kept_in memory.now) (concerned (kept_in memory.now) input.now) result }
{
    match about(memory, input) {
        None => Ahead::nothing(),
        Some(branch) => Ahead::of(memory.live_at(&branch), memory.kept_row_at(&branch)),
    }
}

// The places that a turn passed, by what was ahead before it.
fn passed_by(input: &Input, served: &StampedTurn, ahead: &Ahead) -> Option<Passes>
    ensures { (p : Place) (k new : NodeState) → IsFit input.now → Foresees k (concerned k input.now) ahead.now → Serves (turn_of p k input.now) new served.now
        → option_map passes_as result ≡ passes_of k input.now (turn_of p k input.now) }
{
    turns_are_of_their_branch();
    passed(input, served.sent.as_slice(), &served.wrote, ahead)
}

// The messages with their bytes, and the calls that ended. Fails where memory runs out.
fn tell(alloc: Global, sent: Msgs, ended: Ended) -> Result<(Sent, Ends), AllocError>
    requires { AllByRecursion MayBeMailed sent }
    ensures sent { IfOk result (λ told. told.0 ≡ map mailed sent) }
    ensures read { IfOk result (λ told. AllByRecursion IsMailed told.0) }
    ensures ended { IfOk result (λ told. map call_of told.1 ≡ ended) }
{
    match mail(alloc, sent) {
        Err(error) => {
            drop(ended);
            Err(error)
        }
        Ok(sent) => match finish(alloc, ended) {
            Err(error) => {
                drop(sent);
                Err(error)
            }
            Ok(ended) => Ok((sent, ended)),
        },
    }
}

// What a turn tells that did this and passed these places. Fails where memory runs out.
fn effects_of(
    alloc: Global,
    input: Input,
    served: StampedTurn,
    passes: Option<Passes>,
) -> Result<DurableTurn, AllocError>
    requires { AllByRecursion MayBeMailed served.sent }
    ensures input { IfOk result (λ e. e.input ≡ input) }
    ensures wrote { IfOk result (λ e. e.wrote ≡ served.wrote) }
    ensures sent { IfOk result (λ e. e.sent ≡ map mailed served.sent) }
    ensures read { IfOk result (λ e. AllByRecursion IsMailed e.sent) }
    ensures ended { IfOk result (λ e. map call_of e.ended ≡ served.ended) }
    ensures passes { IfOk result (λ e. e.passes ≡ passes) }
{
    let StampedTurn { wrote, sent, ended } = served;
    match tell(alloc, sent, ended) {
        Ok((sent, ended)) => Ok(DurableTurn {
            input,
            wrote,
            sent,
            ended,
            passes,
        }),
        Err(err) => {
            drop(input);
            drop(wrote);
            Err(err)
        }
    }
}

// One turn in memory over what was read.
#[tactic(auto, using(crate::proofs::TurnLaws::stores_so, crate::proofs::TurnLaws::next_so))]
fn take(memory: &mut Memory, alloc: Global, input: &Input) -> Result<StampedTurn, AllocError>
    requires { MayTake memory.old.place (kept_in memory.old) input.now }
    ensures serves { IfOk result (λ served. Serves (turn_of memory.old.place (kept_in memory.old) input.now) (kept_in memory.new) served) }
    ensures ready { OnOk result (IsReady memory.new.place (kept_in memory.new)) }
    ensures undo { OnOk result (HasUndo memory.new.place (kept_in memory.new)) }
    ensures follows { IfOk result (λ served. IfSome served.wrote (MayBeNext memory.old.place.undo (stored_in memory.old))) }
    ensures stored { IfOk result (λ served. IsButForAcks (stored_next (stored_in memory.old) served.wrote) (stored_in memory.new)) }
    ensures place { memory.new.place ≡ memory.old.place }
{
    turns_store_their_records();
    let served = turn(memory, alloc, input)?;
    Ok(served)
}

// The same, with the places that it passed.
fn take_on(
    memory: &mut Memory,
    alloc: Global,
    input: &Input,
) -> Result<(StampedTurn, Option<Passes>), AllocError>
    requires { MayTake memory.old.place (kept_in memory.old) input.now }
    ensures serves { IfOk result (λ taken. Serves (turn_of memory.old.place (kept_in memory.old) input.now) (kept_in memory.new) taken.0) }
    ensures passes { IfOk result (λ taken. option_map passes_as taken.1 ≡ passes_of (kept_in memory.old) input.now (turn_of memory.old.place (kept_in memory.old) input.now)) }
    ensures ready { OnOk result (IsReady memory.new.place (kept_in memory.new)) }
    ensures undo { OnOk result (HasUndo memory.new.place (kept_in memory.new)) }
    ensures follows { IfOk result (λ taken. IfSome taken.0.wrote (MayBeNext memory.old.place.undo (stored_in memory.old))) }
    ensures stored { IfOk result (λ taken. IsButForAcks (stored_next (stored_in memory.old) taken.0.wrote) (stored_in memory.new)) }
    ensures place { memory.new.place ≡ memory.old.place }
{
    let ahead = look(memory, input);
    match take(memory, alloc, input) {
        Ok(served) => {
            let passes = passed_by(input, &served, &ahead);
            Ok((served, passes))
        }
        Err(err) => Err(err),
    }
}

// One turn in memory over what was read: what it tells once its record stands. Fails where memory runs out.
#[tactic(auto, using(crate::proofs::TurnLaws::sent_spelled, crate::proofs::TurnLaws::wrote_so, crate::proofs::TurnLaws::follows_so, crate::proofs::TurnLaws::stored_so, crate::proofs::TurnLaws::tells_so))]
fn told(memory: &mut Memory, alloc: Global, input: Input) -> Result<DurableTurn, AllocError>
    requires takes { MayTake memory.old.place (kept_in memory.old) input }
    requires spellable { IsSpellable (turn_of memory.old.place (kept_in memory.old) input) }
    ensures input { IfOk result (λ e. e.input ≡ input) }
    ensures tells { IfOk result (λ e. Tells (turn_of memory.old.place (kept_in memory.old) input) (kept_in memory.new) e) }
    ensures passes { IfOk result (λ e. option_map passes_as e.passes ≡ passes_of (kept_in memory.old) input (turn_of memory.old.place (kept_in memory.old) input)) }
    ensures read { IfOk result (λ e. AllByRecursion IsMailed e.sent) }
    ensures has_bytes { IfOk result (λ e. IfSome e.wrote RecordHasBytes) }
    ensures ready { OnOk result (IsReady memory.new.place (kept_in memory.new)) }
    ensures undo { OnOk result (HasUndo memory.new.place (kept_in memory.new)) }
    ensures follows { IfOk result (λ e. IfSome e.wrote (MayBeNext memory.old.place.undo (stored_in memory.old))) }
    ensures stored { IfOk result (λ e. IsButForAcks (stored_next (stored_in memory.old) e.wrote) (stored_in memory.new)) }
    ensures place { memory.new.place ≡ memory.old.place }
{
    match take_on(memory, alloc, &input) {
        Err(err) => {
            drop(input);
            Err(err)
        }
        Ok((served, passes)) => {
            let effects = effects_of(alloc, input, served, passes)?;
            Ok(effects)
        }
    }
}

/// One turn in memory: what it tells once its record stands. Fails where memory runs out.
#[tactic(auto, using(crate::proofs::TurnLaws::tells_as, crate::proofs::TurnLaws::wrote_as, crate::proofs::PassLaws::passes_for))]
pub(crate) fn decide(
    memory: &mut Memory,
    alloc: Global,
    incoming: Incoming,
) -> Result<DurableTurn, AllocError>
    requires reads { (i : InputBy) × IsReadAs incoming i }
    requires takes { (i : InputBy) → IsReadAs incoming i → MayTake memory.old.place (kept_in memory.old) i }
    requires spellable { (i : InputBy) → IsReadAs incoming i → IsSpellable (turn_of memory.old.place (kept_in memory.old) i) }
    ensures input { IfOk result (λ e. IsReadAs incoming e.input) }
    ensures tells { IfOk result (λ e. Tells (turn_of memory.old.place (kept_in memory.old) e.input) (kept_in memory.new) e) }
    ensures passes { IfOk result (λ e. TellsPasses (kept_in memory.old) (turn_of memory.old.place (kept_in memory.old) e.input) e) }
    ensures read { IfOk result (λ e. AllByRecursion IsMailed e.sent) }
    ensures wrote { IfOk result (λ e. e.wrote ≡ record_of memory.old.place (kept_in memory.old) (read_as incoming)) }
    ensures has_bytes { IfOk result (λ e. IfSome e.wrote RecordHasBytes) }
    ensures ready { OnOk result (IsReady memory.new.place (kept_in memory.new)) }
    ensures undo { OnOk result (HasUndo memory.new.place (kept_in memory.new)) }
    ensures follows { IfOk result (λ e. IfSome e.wrote (MayBeNext memory.old.place.undo (stored_in memory.old))) }
    ensures stored { IfOk result (λ e. IsButForAcks (stored_next (stored_in memory.old) e.wrote) (stored_in memory.new)) }
    ensures place { memory.new.place ≡ memory.old.place }
{
    let input = read(alloc, incoming)?;
    let effects = told(memory, alloc, input)?;
    Ok(effects)
}
