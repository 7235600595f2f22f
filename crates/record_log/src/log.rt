//! The log, and how a record is appended.
ghost use Rattle.std.specs.Prelude.{◌≡◌, ◌<◌, ◌^◌, ◌↔◌, List, [], length, nat_lt, IfOk, IfErr, OnOk, IsErrOf, MatchResult};
ghost use Rattle.block_disk.specs.Images.{AtEachMoment, AddsNone, GoesOn, IsOnly};
ghost use Rattle.block_disk.specs.Orders.{ordered};
ghost use Rattle.redo_record.specs.declared.record.RedoRecord.{RedoRecord};
ghost use Rattle.redo_log.specs.Cells.{body_limit};
ghost use Rattle.redo_log.specs.Plans.{begin_calls};
ghost use Rattle.redo_log.specs.Runs.{IsUntouched, MetFault, IsOnlyRead, HasGrown, LeavesByPlan};
ghost use Rattle.redo_log.specs.Log.{disk_of as disk_of_bodies, MayBeBegun};
ghost use Rattle.redo_log.specs.declared.err.MakeWhy.{MakeWhy};
ghost use Rattle.redo_codec.specs.Record.{record_format};
ghost use Rattle.record_log.specs.Calls.{IsReadyLog, IsNewRecordLog, LoadsRecords, NotLoaded, GainsRecord, IsLogAfter};
ghost use Rattle.record_log.specs.Records.{IsSpelled, AreBodiesOf};
ghost use Rattle.record_log.specs.Held.{HoldRecords, GrowsByPlan, HoldWithOrWithout};
ghost use Rattle.record_log.specs.Log.{disk_of, IsIntact, IsWritable, IsUsable};

use crate::err::load_why;
use crate::reading::records;
use crate::{AppendErr, LoadErr, LoadWhy, Records};
use block_disk::{Armable, Disk, DiskFault};
use dtx_values::Bytes;
use redo_codec::encode;
use redo_log::{Bodies, Log, LogErr, MakeErr};
use redo_record::RedoRecord;
use std::alloc::{AllocError, Global};

// The most bytes that a body of a log has.
const MAX_BODY: usize = 16_777_216;

/// A log of records on a disk. Each record is on the disk before its append answers Ok.
#[derive(Drop)]
pub struct RecordLog<D: Disk> {
    alloc: Global,
    log: Log<D>,
    broken: bool,
}

impl<D: Disk> RecordLog<D> {
    /// Makes a log with no record on an empty disk. Each error gives the disk back: `Fault` where the disk failed,
    /// `NoMemory` where it has no room for one byte.
    pub fn create(alloc: Global, disk: D) -> Result<RecordLog<D>, MakeErr<D>>
        requires { D.content disk ≡ [] }

        ensures made { IfOk result (λ log. IsNewRecordLog D.Disk disk log) }

        // A crash at any moment leaves no bytes, one byte that is no log, or a log of no record.
        ensures any_moment { IsOnly [] (D.images disk) → MatchResult result
            (λ log. AtEachMoment D.moment D.images_since disk (disk_of log) MayBeBegun)
            (λ err. AtEachMoment D.moment D.images_since disk err.disk MayBeBegun) }

        ensures failed { IfErr result (λ err. err.why ≡ MakeWhy.Fault → MetFault D.Disk begin_calls disk err.disk) }
        ensures refused { IfErr result (λ err. err.why ≡ MakeWhy.NoMemory → IsUntouched D.Disk disk err.disk) }
    {
        match Log::create(alloc, disk) {
            Ok(log) => Ok(RecordLog {
                alloc,
                log,
                broken: false,
            }),
            Err(err) => Err(err),
        }
    }

    /// Loads the log of a disk that holds records, and gives them.
    ///
    /// It syncs the disk first, so that what it reads is what a crash would leave. Each error gives the disk back:
    /// `Fault` where the disk failed, `NoMemory` where there is no memory for the records.
    #[tactic(auto, using(crate::proofs::Loaded::not_loaded, crate::proofs::Loaded::holds_a_log))]
    pub fn load(alloc: Global, disk: D) -> Result<(RecordLog<D>, Records), LoadErr<D>>
        requires short { length (D.content disk) < 2 ^ 63 }
        requires held { (rs : List RedoRecord) × HoldRecords rs (D.content disk) }

        ensures loaded { IfOk result (λ loaded. LoadsRecords D.Disk disk loaded.0 loaded.1) }

        // A crash at any moment leaves what one before the call might have left.
        ensures read { MatchResult result (λ loaded. IsOnlyRead D.Disk disk (disk_of loaded.0)) (λ err. IsOnlyRead D.Disk disk err.disk) }

        ensures failed { IfErr result (λ err. NotLoaded D.Disk err.why disk err.disk) }
    {
        match Log::load(alloc, disk) {
            Ok((log, bodies)) => match with_records(alloc, log, &bodies) {
                Ok(loaded) => Ok(loaded),
                Err(err) => Err(err),
            },
            Err(redo_log::LoadErr { disk, why }) => Err(LoadErr {
                disk,
                why: load_why(why),
            }),
        }
    }

    /// Appends a record. At Ok it is on the disk: from then on each crash leaves a log that has it.
    ///
    /// The error is `NoMemory` where there is no memory or no room on the disk, or the spelling of the record is longer than
    /// 16,777,216 bytes, and `Fault` where the disk failed. All memory is taken before the disk is called. After a `Fault`
    /// each append returns `Fault`, and only a load shows whether the disk has that record.
    pub fn append(&mut self, redo: &RedoRecord) -> Result<(), AppendErr>
        requires usable { IsUsable D.content D.images self.old }
        requires fits { record_format.Fits redo.now }

        ensures acknowledged { OnOk result (HasGrown D.Disk (GainsRecord redo.now) (disk_of self.old) (disk_of self.new)) }

        // A crash at any moment of the call leaves the records from before it, with the new one or without.
        ensures any_moment { IsIntact self.old → (rs : List RedoRecord) → HoldRecords rs (D.content (disk_of self.old))
            → AtEachMoment D.moment D.images_since (disk_of self.old) (disk_of self.new) (HoldWithOrWithout rs redo.now) }

        ensures failed { IsErrOf result AppendErr.Fault → IsIntact self.old → LeavesByPlan D.Disk (λ plan. GrowsByPlan plan redo.now) (disk_of self.old) (disk_of self.new) }

        // Where memory runs out, the disk was not called.
        ensures refused { IsErrOf result AppendErr.NoMemory → IsUntouched D.Disk (disk_of self.old) (disk_of self.new) }
        ensures ready { OnOk result (IsReadyLog D.Disk self.new) }
        ensures after { IsLogAfter D.Disk result self.old self.new }
    {
        if self.broken {
            return Err(AppendErr::Fault);
        }
        let body = body_of(self.alloc, redo)?;
        match self.log.append(body.as_slice()) {
            Ok(()) => Ok(()),
            Err(LogErr::Fault) => {
                self.broken = true;
                Err(AppendErr::Fault)
            }
            Err(LogErr::NoMemory) => Err(AppendErr::NoMemory),
            Err(LogErr::TooLong) => unreachable!(),
        }
    }

    /// The disk.
    pub fn disk(&self) -> &D
        ensures { result.now ≡ disk_of self.now }
    {
        self.log.disk()
    }

    /// Gives the disk back.
    pub fn into_disk(self) -> D
        ensures { result ≡ disk_of self }
    {
        self.log.into_disk()
    }
}

impl<D: Armable> RecordLog<D> {
    /// Gives the disk an order to stop or to fail. The log stays as it is.
    pub fn arm(&mut self, order: DiskFault)
        ensures plan { D.plan (disk_of self.new) ≡ ordered (D.plan (disk_of self.old)) order }
        ensures content { D.content (disk_of self.new) ≡ D.content (disk_of self.old) }
        ensures images { AddsNone (D.images (disk_of self.old)) (D.images (disk_of self.new)) }
        ensures all_images { AddsNone (D.images (disk_of self.new)) (D.images (disk_of self.old)) }
        ensures moment { D.moment (disk_of self.new) ≡ D.moment (disk_of self.old) }
        ensures time { GoesOn (D.moment (disk_of self.old)) (D.moment (disk_of self.new)) (D.images_since (disk_of self.old)) (D.images_since (disk_of self.new)) (D.images (disk_of self.new)) }
        ensures usable { IsUsable D.content D.images self.old → IsUsable D.content D.images self.new }
        ensures intact { IsIntact self.old ↔ IsIntact self.new }
        ensures spare { D.spare (disk_of self.new) ≡ D.spare (disk_of self.old) }
        ensures faults { D.faults (disk_of self.new) ≡ D.faults (disk_of self.old) }
        ensures calls { D.calls (disk_of self.new) ≡ D.calls (disk_of self.old) }
        ensures writes { D.writes (disk_of self.new) ≡ D.writes (disk_of self.old) }
    {
        self.log.arm(order);
    }
}

/// Whether a body is too long for a log.
fn is_long(body: &[u8]) -> bool
    ensures { result ≡ nat_lt body_limit (length body.now) }
{
    body.len() > MAX_BODY
}

/// The spelling of a record, where it is not too long for a log. Fails where it is, or where memory runs out.
#[tactic(auto, using(crate::proofs::Held::is_spelled))]
fn body_of(alloc: Global, redo: &RedoRecord) -> Result<Bytes, AllocError>
    requires { record_format.Fits redo.now }
    ensures body { IfOk result (λ body. body ≡ record_format.text redo.now) }
    ensures spelled { OnOk result (IsSpelled redo.now) }
{
    let body = encode(alloc, redo)?;
    if is_long(body.as_slice()) {
        return Err(AllocError);
    }
    Ok(body)
}

/// A log whose bodies were loaded, and their records. Fails where memory runs out.
fn with_records<D: Disk>(
    alloc: Global,
    log: Log<D>,
    bodies: &Bodies,
) -> Result<(RecordLog<D>, Records), LoadErr<D>>
    requires writable { IsWritable D.content D.images log }
    requires held { (rs : List RedoRecord) × AreBodiesOf rs bodies.now }
    ensures found { IfOk result (λ loaded. (rs : List RedoRecord) → AreBodiesOf rs bodies.now → loaded.1 ≡ rs) }
    ensures ready { IfOk result (λ loaded. IsReadyLog D.Disk loaded.0) }
    ensures same { MatchResult result (λ loaded. disk_of loaded.0 ≡ disk_of_bodies log) (λ err. err.disk ≡ disk_of_bodies log) }
    ensures memory { IfErr result (λ err. err.why ≡ LoadWhy.NoMemory) }
{
    match records(alloc, bodies) {
        Ok(records) => Ok((
            RecordLog {
                alloc,
                log,
                broken: false,
            },
            records,
        )),
        Err(AllocError) => Err(LoadErr {
            disk: log.into_disk(),
            why: LoadWhy::NoMemory,
        }),
    }
}
