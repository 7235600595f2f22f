//! Which places a turn passes.
ghost use Rattle.std.specs.Prelude.{◌≡◌, map, option_map, is_some, slice_get, ◌||◌, Option, Some};
ghost use Rattle.redo_record.specs.declared.record.RedoRecord.TheVariants as records;
ghost use Rattle.node_rules.specs.NodeState.{NodeState};
ghost use Rattle.node_rules.specs.Points.{is_commit_point as is_commit_point_of, decided_points as decided_points_of, record_points, is_ready as is_ready_kind, sent_points, points_of};
ghost use Rattle.node_points.specs.Passing.{passes_as, turns, Foresees, branch_of, ready_sender};

use crate::{Ahead, Passes};
use crash_points::TurnPlace;
use redo_record::{Decision, RedoRecord, Sealed};
use tran_ids::BranchId;
use wire_msg::{Input, Kind, Msg};

fn is_commit_point(input: &Input) -> bool
    ensures { result ≡ is_commit_point_of input.now }
{
    match input {
        Input::Message(msg) => matches!(msg.kind, Kind::CommitPoint),
        _ => false,
    }
}

// The site decides: a root without children passes nothing.
fn decided_points(input: &Input, root: BranchId, has_neighbors: bool) -> Option<Passes>
    ensures { option_map passes_as result ≡ decided_points_of input.now root has_neighbors }
{
    if has_neighbors {
        Some(Passes {
            root,
            at_site: true,
            collected: !is_commit_point(input),
            before: Some(TurnPlace::BeforeDecided),
            after: Some(TurnPlace::AfterDecided),
        })
    } else {
        None
    }
}

fn sealed_points(input: &Input, sealed: &Sealed) -> Passes
    ensures { (k : NodeState) → Some (passes_as result) ≡ record_points k input.now (records.Sealed sealed.now) }
{
    Passes {
        root: sealed.root,
        at_site: false,
        collected: !is_commit_point(input),
        before: Some(TurnPlace::BeforeSealed),
        after: Some(TurnPlace::AfterSealed),
    }
}

fn with_record(input: &Input, redo: &RedoRecord, ahead: &Ahead) -> Option<Passes>
    ensures { (k : NodeState) → Foresees k (branch_of redo.now) ahead.now → option_map passes_as result ≡ record_points k input.now redo.now }
{
    match redo {
        RedoRecord::Sealed(sealed) => Some(sealed_points(input, sealed)),
        RedoRecord::Decided(decided) => {
            decided_points(
                input,
                decided.root,
                decided.parent.is_some() || ahead.has_children,
            )
        }
        RedoRecord::Ended {
            decision: Decision::Commit(_),
            ..
        } => ahead.ended,
        RedoRecord::Forgot(_) => ahead.forgot,
        _ => None,
    }
}

fn without_record(sent: &[Msg], ahead: &Ahead) -> Option<Passes>
    ensures { (k : NodeState) → Foresees k (ready_sender sent.now) ahead.now → option_map passes_as result ≡ sent_points k sent.now }
{
    match sent {
        [] => None,
        [msg, ..] => {
            if matches!(msg.kind, Kind::Ready) {
                ahead.ready
            } else {
                None
            }
        }
    }
}

/// The places that a turn passes, by what was ahead of its branch before it. A turn with a record is of the record's branch; one
/// without a record passes a place only where it says Ready, and is of the branch that says it.
pub fn passed(
    input: &Input,
    sent: &[Msg],
    wrote: &Option<RedoRecord>,
    ahead: &Ahead,
) -> Option<Passes>
    ensures { (k : NodeState) → Foresees k (turns sent.now wrote.now) ahead.now → option_map passes_as result ≡ points_of k input.now sent.now wrote.now }
{
    match wrote {
        None => without_record(sent, ahead),
        Some(redo) => with_record(input, redo, ahead),
    }
}
