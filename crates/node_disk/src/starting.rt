//! A node starts again.
ghost use Rattle.std.specs.Prelude.{◌≡◌, ◌+◌, ◌<◌, ◌≤◌, ◌^◌, List, ◌∷◌, [], ◌++◌, Some, length, IfOk, IfErr, MatchResult};
ghost use Rattle.block_disk.specs.Images.{AtEachMoment};
ghost use Rattle.redo_record.specs.declared.record.RedoRecord.{RedoRecord as RedoRecordBy};
ghost use Rattle.redo_record.specs.declared.record.RedoRecord.TheVariants as records;
ghost use Rattle.redo_log.specs.Plans.{append_calls};
ghost use Rattle.redo_log.specs.Runs.{IsUntouched, HasRun, LeavesByPlan};
ghost use Rattle.record_log.specs.Calls.{IsReadyLog};
ghost use Rattle.record_log.specs.Held.{HoldRecords, GrowsByPlan, HoldWithOrWithout};
ghost use Rattle.record_log.specs.Log.{disk_of as disk_of_log, IsIntact, IsUsable};
ghost use Rattle.node_rules.specs.Turn.{start_of};
ghost use Rattle.node_memory.specs.Parts.{kept_in};
ghost use Rattle.node_disk.specs.declared.err.MakeWhy.TheVariants as makes;
ghost use Rattle.node_disk.specs.Starts.{MayBeHad, IsStartable, CanBeStarted, last_boot, next_boot};
ghost use Rattle.node_disk.specs.OnDisk.{place_of, kept_of, disk_of};
ghost use Rattle.node_disk.specs.Calls.{HasWritten, TakesNext, HasRestarted, StartMetFault, StartsNone};

use crate::Node;
use crate::err::{MakeErr, MakeWhy, append_why, load_why};
use crate::writing::leave;
use block_disk::Disk;
use node_memory::Memory;
use node_ready_laws::starts_are_ready;
use node_undo_laws::{seals_keep_undo, starts_have_undo};
use record_log::{LoadErr, RecordLog};
use redo_record::{Place, RedoRecord};
use std::alloc::{AllocError, Global};

/// What a node keeps after a start whose record is behind these. Fails where memory runs out.
pub(crate) fn started(
    alloc: Global,
    place: Place,
    records: &[RedoRecord],
) -> Result<Memory, AllocError>
    requires undo { place.undo ≤ 1024 }
    requires had { MayBeHad place.undo records.now }
    requires boots { last_boot records.now + 1 < 2 ^ 32 }
    ensures kept { IfOk result (λ memory. kept_in memory ≡ start_of (records.now ++ next_boot records.now ∷ [])) }
    ensures boot { IfOk result (λ memory. memory.boot ≡ last_boot records.now + 1) }
    ensures place { IfOk result (λ memory. memory.place ≡ place) }
{
    seals_keep_undo();
    let mut memory = Memory::rebuild(alloc, place, records)?;
    let redo = RedoRecord::Boot(memory.boot + 1);
    let taken = memory.take_in(alloc, &redo);
    drop(redo);
    match taken {
        Ok(()) => Ok(memory),
        Err(error) => {
            drop(memory);
            Err(error)
        }
    }
}

/// A node that keeps this and whose log is this: the record of its start is written behind those that the log holds.
#[tactic(auto, using(crate::proofs::StartLaws::boot_spelled))]
pub(crate) fn begin<D: Disk>(
    alloc: Global,
    memory: Memory,
    log: RecordLog<D>,
) -> Result<Node<D>, MakeErr<D>>
    requires usable { IsUsable D.content D.images log }
    requires intact { IsIntact log }
    ensures kept { IfOk result (λ node. kept_of node ≡ kept_in memory) }
    ensures place { IfOk result (λ node. place_of node ≡ memory.place) }
    ensures written { IfOk result (λ node. HasWritten D.Disk (Some (records.Boot memory.boot)) (disk_of_log log) (disk_of node)) }
    ensures ready { IfOk result (λ node. IsReadyLog D.Disk node.log) }
    ensures any_moment { (rs : List RedoRecordBy) → HoldRecords rs (D.content (disk_of_log log)) → MatchResult result
        (λ node. AtEachMoment D.moment D.images_since (disk_of_log log) (disk_of node) (HoldWithOrWithout rs (records.Boot memory.boot)))
        (λ err. AtEachMoment D.moment D.images_since (disk_of_log log) err.disk (HoldWithOrWithout rs (records.Boot memory.boot))) }
    ensures failed { IfErr result (λ err. err.why ≡ makes.Fault → LeavesByPlan D.Disk (λ plan. GrowsByPlan plan (records.Boot memory.boot)) (disk_of_log log) err.disk) }
    ensures refused { IfErr result (λ err. err.why ≡ makes.NoMemory → IsUntouched D.Disk (disk_of_log log) err.disk) }
{
    let mut log = log;
    let redo = RedoRecord::Boot(memory.boot);
    let written = log.append(&redo);
    drop(redo);
    match written {
        Ok(()) => Ok(Node { alloc, memory, log }),
        Err(why) => {
            drop(memory);
            Err(MakeErr {
                disk: log.into_disk(),
                why: append_why(why),
            })
        }
    }
}

// A node whose log holds these records starts again.
fn begin_again<D: Disk>(
    alloc: Global,
    place: Place,
    log: RecordLog<D>,
    records: &[RedoRecord],
) -> Result<Node<D>, MakeErr<D>>
    requires ready { IsReadyLog D.Disk log }
    requires held { HoldRecords records.now (D.content (disk_of_log log)) }
    requires undo { place.undo ≤ 1024 }
    requires had { MayBeHad place.undo records.now }
    requires boots { last_boot records.now + 1 < 2 ^ 32 }
    ensures kept { IfOk result (λ node. kept_of node ≡ start_of (records.now ++ next_boot records.now ∷ [])) }
    ensures place { IfOk result (λ node. place_of node ≡ place) }
    ensures stored { IfOk result (λ node. HoldRecords (records.now ++ next_boot records.now ∷ []) (D.content (disk_of node))) }
    ensures next { IfOk result (λ node. TakesNext D.Disk node) }
    ensures run { IfOk result (λ node. HasRun D.Disk append_calls (disk_of_log log) (disk_of node)) }
    ensures startable { MatchResult result
        (λ node. AtEachMoment D.moment D.images_since (disk_of_log log) (disk_of node) (IsStartable place.undo))
        (λ err. AtEachMoment D.moment D.images_since (disk_of_log log) err.disk (IsStartable place.undo)) }
    ensures failed { IfErr result (λ err. err.why ≡ makes.Fault → LeavesByPlan D.Disk (λ plan. GrowsByPlan plan (next_boot records.now)) (disk_of_log log) err.disk) }
    ensures refused { IfErr result (λ err. err.why ≡ makes.NoMemory → IsUntouched D.Disk (disk_of_log log) err.disk) }
{
    starts_are_ready();
    starts_have_undo();
    match started(alloc, place, records) {
        Ok(memory) => match begin(alloc, memory, log) {
            Ok(node) => Ok(node),
            Err(err) => Err(err),
        },
        Err(AllocError) => {
            leave(&log);
            Err(MakeErr {
                disk: log.into_disk(),
                why: MakeWhy::NoMemory,
            })
        }
    }
}

impl<D: Disk> Node<D> {
    /// Starts a node of this place again, from its disk alone, whatever a crash has left of it: what it keeps is what its records
    /// say, and the record of this start stands behind them. Each error gives the disk back: `Fault` where the disk failed, and
    /// `NoMemory` where memory ran out or the disk had no room, and then nothing was written.
    pub fn start(alloc: Global, disk: D, place: Place) -> Result<Node<D>, MakeErr<D>>
        requires short { length (D.content disk) < 2 ^ 63 }
        requires undo { place.undo ≤ 1024 }
        requires startable { CanBeStarted place.undo D.content D.images disk }
        requires boots { (rs : List RedoRecordBy) → HoldRecords rs (D.content disk) → last_boot rs + 1 < 2 ^ 32 }

        // What it keeps is what its records say, with the record of this start, and that stands on the disk.
        ensures started { IfOk result (λ node. (rs : List RedoRecordBy) → HoldRecords rs (D.content disk) → HasRestarted D.Disk place rs disk node) }

        // A node can start from what a crash leaves at any moment.
        ensures any_moment { MatchResult result
            (λ node. AtEachMoment D.moment D.images_since disk (disk_of node) (IsStartable place.undo))
            (λ err. AtEachMoment D.moment D.images_since disk err.disk (IsStartable place.undo)) }
        ensures startable { MatchResult result (λ node. CanBeStarted place.undo D.content D.images (disk_of node)) (λ err. CanBeStarted place.undo D.content D.images err.disk) }

        ensures failed { IfErr result (λ err. err.why ≡ makes.Fault → StartMetFault D.Disk disk err.disk) }
        ensures unwritten { IfErr result (λ err. err.why ≡ makes.NoMemory → StartsNone D.Disk disk err.disk) }
    {
        match RecordLog::load(alloc, disk) {
            Ok((log, records)) => match begin_again(alloc, place, log, records.as_slice()) {
                Ok(node) => {
                    drop(records);
                    Ok(node)
                }
                Err(err) => {
                    drop(records);
                    Err(err)
                }
            },
            Err(LoadErr { disk, why }) => Err(MakeErr {
                disk,
                why: load_why(why),
            }),
        }
    }
}
