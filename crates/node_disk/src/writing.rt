//! The record of a turn is written.
ghost use Rattle.std.specs.Prelude.{◌≡◌, ℕ, List, Option, IfErr, IfOk, IfSome, OnOk, OnErr, IsErrOf};
ghost use Rattle.block_disk.specs.Images.{AtEachMoment, IsOnly};
ghost use Rattle.redo_log.specs.Runs.{IsUntouched};
ghost use Rattle.redo_record.specs.declared.record.RedoRecord.{RedoRecord as RedoRecordBy};
ghost use Rattle.node_spell_laws.specs.Record.{HasFew, RecordHasBytes};
ghost use Rattle.record_log.specs.Calls.{IsReadyLog};
ghost use Rattle.record_log.specs.Held.{HoldRecords};
ghost use Rattle.record_log.specs.Log.{disk_of};
ghost use Rattle.record_log.specs.declared.err.AppendErr.TheVariants as appends;
ghost use Rattle.node_rules.specs.NodeState.{Stored};
ghost use Rattle.node_disk.specs.declared.err.CutAt.TheVariants as cuts;
ghost use Rattle.node_disk.specs.declared.err.TurnErr.TheVariants as turns;
ghost use Rattle.node_disk.specs.declared.err.Unwritten.TheVariants as unwritten;
ghost use Rattle.node_disk.specs.Effects.{GoesUncut};
ghost use Rattle.node_disk.specs.Cuts.{AtCut, AtStop, CutsShort, stops as stops_by, Stops};
ghost use Rattle.node_disk.specs.Starts.{MayBeNext, IsStartable, IsButForAcks, stored_next};
ghost use Rattle.node_disk.specs.OnDisk.{StandsOn, ImageHolds};
ghost use Rattle.node_disk.specs.Calls.{HasWritten, CutLeaves};

use crate::effects::DurableTurn;
use crate::err::{CutAt, CutTurn, TurnErr, Unwritten};
use block_disk::Disk;
use node_points::{Passes, Point, Side, reaches};
use node_ready_laws::records_follow;
use node_spell_laws::{has_few, record_fits};
use node_undo_laws::records_fit_doubts;
use record_log::{AppendErr, RecordLog};
use redo_record::RedoRecord;

/// A disk that is left alone: a crash leaves what it may leave now.
pub(crate) fn stands_still<D: Disk>(disk: &D)
    ensures { AtEachMoment D.moment D.images_since disk.now disk.now (D.images disk.now) }
{
    let _disk = disk;
}

/// The disk of a log is left alone: a crash leaves the records that it holds.
#[tactic(auto, using(crate::proofs::MomentLaws::held_still))]
pub(crate) fn leave<D: Disk>(log: &RecordLog<D>)
    requires { IsOnly (D.content (disk_of log.now)) (D.images (disk_of log.now)) }
    ensures { (rs : List RedoRecordBy) → HoldRecords rs (D.content (disk_of log.now))
        → AtEachMoment D.moment D.images_since (disk_of log.now) (disk_of log.now) (HoldRecords rs) }
{
    stands_still(log.disk());
}

/// A turn for which there was no memory: the disk is as it was.
#[tactic(auto, using(crate::proofs::TurnLaws::stand_still, crate::proofs::TurnLaws::startable_still))]
pub(crate) fn unserved<D: Disk>(log: &RecordLog<D>) -> TurnErr
    requires { IsOnly (D.content (disk_of log.now)) (D.images (disk_of log.now)) }
    ensures why { result ≡ turns.NoMemory }
    ensures any_moment { (w : Option RedoRecordBy) (rs : List RedoRecordBy) → HoldRecords rs (D.content (disk_of log.now))
        → AtEachMoment D.moment D.images_since (disk_of log.now) (disk_of log.now) (ImageHolds rs w) }
    ensures any_start { (undo : ℕ) (s : Stored) → StandsOn undo (D.content (disk_of log.now)) s → AtEachMoment D.moment D.images_since (disk_of log.now) (disk_of log.now) (IsStartable undo) }
{
    leave(log);
    TurnErr::NoMemory
}

// Fails where four bytes are too few to count the children or the changes of a record, and at an image, which has no bytes yet.
fn counted(redo: &RedoRecord) -> Result<(), AppendErr>
    ensures few { OnOk result (HasFew redo.now) }
    ensures many { OnErr result (HasFew redo.now → ⊥) }
    ensures why { IfErr result (λ err. err ≡ appends.NoMemory) }
{
    if has_few(redo) {
        Ok(())
    } else {
        Err(AppendErr::NoMemory)
    }
}

// Appends this record, where there is one. Where there is none, or four bytes are too few to count its children or its changes, or
// it is an image, the disk is not called.
#[tactic(auto, using(crate::proofs::WriteLaws::none_written, crate::proofs::WriteLaws::written_by, crate::proofs::TurnLaws::stand_still))]
fn append<D: Disk>(log: &mut RecordLog<D>, wrote: &Option<RedoRecord>) -> Result<(), AppendErr>
    requires ready { IsReadyLog D.Disk log.old }
    requires has_bytes { IfSome wrote.now RecordHasBytes }

    ensures written { OnOk result (HasWritten D.Disk wrote.now (disk_of log.old) (disk_of log.new)) }
    ensures ready { OnOk result (IsReadyLog D.Disk log.new) }

    // A crash at any moment leaves the records from before, with this one or without.
    ensures any_moment { (rs : List RedoRecordBy) → HoldRecords rs (D.content (disk_of log.old))
        → AtEachMoment D.moment D.images_since (disk_of log.old) (disk_of log.new) (ImageHolds rs wrote.now) }

    ensures failed { IsErrOf result appends.Fault → CutLeaves D.Disk cuts.InAppend wrote.now (disk_of log.old) (disk_of log.new) }

    // Where memory runs out, the disk was not called.
    ensures refused { IsErrOf result appends.NoMemory → IsUntouched D.Disk (disk_of log.old) (disk_of log.new) }
{
    match wrote {
        None => {
            leave(log);
            Ok(())
        }
        Some(redo) => {
            if let Err(err) = counted(redo) {
                leave(log);
                return Err(err);
            }
            record_fits(redo);
            log.append(redo)
        }
    }
}

// Whether a point stops the node at the places of a side.
fn stops(points: &[Point], passes: Option<Passes>, side: Side) -> bool
    ensures { result ≡ stops_by points.now side passes }
{
    match passes {
        None => false,
        Some(places) => reaches(points, &places, side),
    }
}

// Appends this record, where there is one, unless a point stops the node before it; and one may stop it after that.
#[tactic(auto, using(crate::proofs::TurnLaws::stand_still, crate::proofs::CutLaws::goes_uncut))]
fn put<D: Disk>(
    log: &mut RecordLog<D>,
    wrote: &Option<RedoRecord>,
    passes: Option<Passes>,
    points: &[Point],
) -> Result<(), Unwritten>
    requires ready { IsReadyLog D.Disk log.old }
    requires has_bytes { IfSome wrote.now RecordHasBytes }

    ensures uncut { OnOk result (GoesUncut points.now passes) }
    ensures written { OnOk result (HasWritten D.Disk wrote.now (disk_of log.old) (disk_of log.new)) }
    ensures ready { OnOk result (IsReadyLog D.Disk log.new) }

    // A crash at any moment leaves the records from before, with this one or without.
    ensures any_moment { (rs : List RedoRecordBy) → HoldRecords rs (D.content (disk_of log.old))
        → AtEachMoment D.moment D.images_since (disk_of log.old) (disk_of log.new) (ImageHolds rs wrote.now) }

    ensures stops { IfErr result (AtStop (λ at. Stops points.now at passes)) }
    ensures leaves { IfErr result (AtStop (λ at. CutLeaves D.Disk at wrote.now (disk_of log.old) (disk_of log.new))) }

    // Where memory runs out, the disk was not called.
    ensures refused { IsErrOf result unwritten.NoMemory → IsUntouched D.Disk (disk_of log.old) (disk_of log.new) }
{
    if stops(points, passes, Side::Before) {
        leave(log);
        Err(Unwritten::Cut(CutAt::BeforeRecord))
    } else {
        match append(log, wrote) {
            Ok(()) => {
                if stops(points, passes, Side::After) {
                    Err(Unwritten::Cut(CutAt::AfterRecord))
                } else {
                    Ok(())
                }
            }
            Err(AppendErr::Fault) => Err(Unwritten::Cut(CutAt::InAppend)),
            Err(AppendErr::NoMemory) => Err(Unwritten::NoMemory),
        }
    }
}

// A turn that was cut here: what it would have told is not told.
fn cut(effects: DurableTurn, at: CutAt) -> CutTurn
    ensures { result ≡ record { input = effects.input; tried = effects.wrote; passes = effects.passes; at = at } }
{
    let DurableTurn {
        input,
        wrote,
        sent,
        ended,
        passes,
    } = effects;
    drop(sent);
    drop(ended);
    CutTurn {
        input,
        tried: wrote,
        passes,
        at,
    }
}

/// Puts the record of a turn on the disk, where there is one, and gives what the turn tells, unless it is cut. All memory is taken
/// before the disk is called.
pub(crate) fn write<D: Disk>(
    log: &mut RecordLog<D>,
    effects: DurableTurn,
    points: &[Point],
) -> Result<DurableTurn, TurnErr>
    requires ready { IsReadyLog D.Disk log.old }
    requires has_bytes { IfSome effects.wrote RecordHasBytes }

    ensures same { IfOk result (λ e. e ≡ effects) }
    ensures uncut { OnOk result (GoesUncut points.now effects.passes) }
    ensures written { OnOk result (HasWritten D.Disk effects.wrote (disk_of log.old) (disk_of log.new)) }
    ensures ready { OnOk result (IsReadyLog D.Disk log.new) }

    // A crash at any moment leaves the records from before, with this one or without.
    ensures any_moment { (rs : List RedoRecordBy) → HoldRecords rs (D.content (disk_of log.old))
        → AtEachMoment D.moment D.images_since (disk_of log.old) (disk_of log.new) (ImageHolds rs effects.wrote) }

    // So a node can start from it, and after the turn the records say what the node stores.
    ensures any_start { (undo : ℕ) (s : Stored) → StandsOn undo (D.content (disk_of log.old)) s → IfSome effects.wrote (MayBeNext undo s)
        → AtEachMoment D.moment D.images_since (disk_of log.old) (disk_of log.new) (IsStartable undo) }
    ensures stands { OnOk result ((undo : ℕ) (s t : Stored) → StandsOn undo (D.content (disk_of log.old)) s → IfSome effects.wrote (MayBeNext undo s) → IsButForAcks (stored_next s effects.wrote) t
        → StandsOn undo (D.content (disk_of log.new)) t) }

    ensures cut { IfErr result (CutsShort effects) }
    ensures stops { IfErr result (AtCut (λ at wrote passes. Stops points.now at passes)) }
    ensures leaves { IfErr result (AtCut (λ at wrote passes. CutLeaves D.Disk at wrote (disk_of log.old) (disk_of log.new))) }

    // Where memory runs out, the disk was not called.
    ensures refused { IsErrOf result turns.NoMemory → IsUntouched D.Disk (disk_of log.old) (disk_of log.new) }
{
    records_follow();
    records_fit_doubts();
    match put(log, &effects.wrote, effects.passes, points) {
        Ok(()) => Ok(effects),
        Err(Unwritten::Cut(at)) => Err(TurnErr::Cut(cut(effects, at))),
        Err(Unwritten::NoMemory) => {
            drop(effects);
            Err(TurnErr::NoMemory)
        }
    }
}
