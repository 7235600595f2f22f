//! The log, and how a body is appended.
ghost use Rattle.std.specs.Prelude.{◌≡◌, ◌<◌, ◌≤◌, ◌+◌, ◌^◌, ◌↔◌, [], length, IfOk, IfErr, OnOk, OnErr, IsErrOf, MatchResult};
ghost use Rattle.block_disk.specs.Images.{AtEachMoment, AddsNone, GoesOn, IsOnly};
ghost use Rattle.block_disk.specs.Orders.{ordered};
ghost use Rattle.block_disk.specs.Spare.{HasRoom};
ghost use Rattle.redo_log.specs.declared.err.MakeWhy.{MakeWhy};
ghost use Rattle.redo_log.specs.Calls.{IsNewLog, LoadsBodies, LoadFails, GrowsByBody, HoldsAsPlanned, GoesOnAfter};
ghost use Rattle.redo_log.specs.Cells.{body_limit, held};
ghost use Rattle.redo_log.specs.Log.{disk_of, IsBroken, IsIntact, IsUsable, MayBeBegun, HoldsWithOrWithout, OnRefused, staged, with_gate, MayBeImage};
ghost use Rattle.redo_log.specs.Plans.{append_calls, begin_calls};
ghost use Rattle.redo_log.specs.Restart.{HasRestarted, LeavesOldOrNew, HoldsOldOrNew};
ghost use Rattle.redo_log.specs.Runs.{IsUntouched, HasRun, MetFault, IsOnlyRead, HasGrown, LeavesByPlan};
ghost use Rattle.redo_log.specs.Stands.{IsStoredByPlan};

use crate::gate::{CLOSED, OPEN};
use crate::load::read_log;
use crate::make::lay_gate;
use crate::replace::replace;
use crate::{Bodies, LoadErr, LogErr, MakeErr};
use block_disk::{Armable, Disk, DiskFault, Failed};
use std::alloc::{AllocError, Global};

/// The longest body, in bytes.
const MAX_BODY: usize = 16_777_216;

/// How many bytes a cell takes besides its body.
const CELL_HEAD: u64 = 5;

/// A log on a disk: bodies, each of which is on the disk before its append answers Ok.
#[derive(Drop)]
pub struct Log<D: Disk> {
    alloc: Global,
    disk: D,
    end: u64,
    broken: bool,
}

impl<D: Disk> Log<D> {
    /// Makes a log with no body on an empty disk. Each error gives the disk back: `Fault` where the disk failed, `NoMemory`
    /// where it has no room for one byte.
    pub fn create(alloc: Global, mut disk: D) -> Result<Log<D>, MakeErr<D>>
        requires { D.content disk ≡ [] }

        ensures made { IfOk result (λ log. IsNewLog D.Disk disk log) }

        // A crash at any moment leaves no bytes, one byte that is no log, or a log of no body.
        ensures any_moment { IsOnly [] (D.images disk) → MatchResult result
            (λ log. AtEachMoment D.moment D.images_since disk (disk_of log) MayBeBegun)
            (λ err. AtEachMoment D.moment D.images_since disk err.disk MayBeBegun) }

        ensures failed { IfErr result (λ err. err.why ≡ MakeWhy.Fault → MetFault D.Disk begin_calls disk err.disk) }
        ensures refused { IfErr result (λ err. err.why ≡ MakeWhy.NoMemory → IsUntouched D.Disk disk err.disk) }
    {
        match lay_gate(&mut disk) {
            Ok(()) => Ok(Log {
                alloc,
                disk,
                end: 0,
                broken: false,
            }),
            Err(why) => Err(MakeErr { disk, why }),
        }
    }

    /// Loads the log that a disk holds, with its bodies.
    ///
    /// It syncs the disk first, so that what it reads is what a crash would leave. Each error gives the disk back: `Fault`
    /// where the disk failed, `NotALog` where its bytes are no log, `NoMemory` where there is no memory for them.
    pub fn load(alloc: Global, mut disk: D) -> Result<(Log<D>, Bodies), LoadErr<D>>
        requires { length (D.content disk) < 2 ^ 63 }

        ensures loaded { IfOk result (λ loaded. LoadsBodies D.Disk disk loaded.0 loaded.1) }

        // A crash at any moment leaves what one before the call might have left.
        ensures read { MatchResult result (λ loaded. IsOnlyRead D.Disk disk (disk_of loaded.0)) (λ err. IsOnlyRead D.Disk disk err.disk) }

        ensures failed { IfErr result (λ err. LoadFails D.Disk err.why disk err.disk) }
    {
        match read_log(alloc, &mut disk) {
            Ok((bodies, end)) => Ok((
                Log {
                    alloc,
                    disk,
                    end,
                    broken: false,
                },
                bodies,
            )),
            Err(why) => Err(LoadErr { disk, why }),
        }
    }

    /// Appends a body. At Ok it is on the disk: from then on each crash leaves a log that has it.
    ///
    /// The error is `TooLong` where the body is longer than 16,777,216 bytes, `NoMemory` where there is no memory or no room
    /// on the disk, and `Fault` where the disk failed. After a `Fault` each append returns `Fault`, and only a load shows
    /// whether the disk has that body.
    pub fn append(&mut self, body: &[u8]) -> Result<(), LogErr>
        requires usable { IsUsable D.content D.images self.old }
        requires some { 0 < length body.now }

        ensures acknowledged { OnOk result (HasGrown D.Disk (GrowsByBody body.now) (disk_of self.old) (disk_of self.new)) }

        // A crash at any moment of the call leaves the bodies from before it, with the new one or without.
        ensures any_moment { IsIntact self.old → AtEachMoment D.moment D.images_since (disk_of self.old) (disk_of self.new)
            (HoldsWithOrWithout (held (D.content (disk_of self.old))) body.now) }

        ensures failed { IsErrOf result LogErr.Fault → IsIntact self.old → LeavesByPlan D.Disk (HoldsAsPlanned body.now) (disk_of self.old) (disk_of self.new) }
        ensures refused { OnRefused result (IsUntouched D.Disk (disk_of self.old) (disk_of self.new)) }
        ensures too_long { IsErrOf result LogErr.TooLong ↔ (IsIntact self.old × (body_limit < length body.now)) }
        ensures after { GoesOnAfter D.Disk result self.old self.new }
    {
        self.check(body)?;
        let size = body.len() as u64 + CELL_HEAD;
        let Some(end) = self.end.checked_add(size) else {
            return Err(LogErr::NoMemory);
        };
        // One byte more than the cell: its gate is there already, written closed, and is written again, open.
        self.disk.room(size + 1, 2)?;
        let behind = stage(self.alloc, body)?;
        match store(&mut self.disk, self.end, &behind) {
            Ok(()) => {
                self.end = end;
                Ok(())
            }
            Err(Failed) => {
                self.broken = true;
                Err(LogErr::Fault)
            }
        }
    }

    /// Begins the list anew with this body alone. At Ok it is on the disk: from then on each crash leaves a log of this body.
    ///
    /// The list is shut first, and what stood in it counts no more. All memory is taken before that. The errors are those
    /// of `append`.
    pub fn restart(&mut self, body: &[u8]) -> Result<(), LogErr>
        requires usable { IsUsable D.content D.images self.old }
        requires some { 0 < length body.now }

        ensures acknowledged { OnOk result (HasRestarted D.Disk body.now (disk_of self.old) (disk_of self.new)) }

        // A crash at any moment of the call leaves the bodies from before it, or no body, or this one alone.
        ensures any_moment { IsIntact self.old → AtEachMoment D.moment D.images_since (disk_of self.old) (disk_of self.new)
            (HoldsOldOrNew (held (D.content (disk_of self.old))) body.now) }

        ensures failed { IsErrOf result LogErr.Fault → IsIntact self.old → LeavesOldOrNew D.Disk body.now (disk_of self.old) (disk_of self.new) }
        ensures refused { OnRefused result (IsUntouched D.Disk (disk_of self.old) (disk_of self.new)) }
        ensures too_long { IsErrOf result LogErr.TooLong ↔ (IsIntact self.old × (body_limit < length body.now)) }
        ensures after { GoesOnAfter D.Disk result self.old self.new }
    {
        self.check(body)?;
        let size = body.len() as u64 + CELL_HEAD;
        // The first gate is written closed where the list has bodies, and is written again, open.
        self.disk.room(size + 2, 3)?;
        let behind = stage(self.alloc, body)?;
        match replace(&mut self.disk, self.end, &behind) {
            Ok(()) => {
                self.end = size;
                Ok(())
            }
            Err(Failed) => {
                self.broken = true;
                Err(LogErr::Fault)
            }
        }
    }

    /// Whether a body can be written on this log: no call has answered `Fault`, and the body is not too long.
    fn check(&self, body: &[u8]) -> Result<(), LogErr>
        ensures ok { OnOk result (IsIntact self.now × (length body.now ≤ body_limit)) }
        ensures fault { IsErrOf result LogErr.Fault → IsBroken self.now }
        ensures too_long { IsErrOf result LogErr.TooLong → IsIntact self.now × (body_limit < length body.now) }
        ensures memory { IsErrOf result LogErr.NoMemory → ⊥ }
    {
        if self.broken {
            return Err(LogErr::Fault);
        }
        if body.len() > MAX_BODY {
            return Err(LogErr::TooLong);
        }
        Ok(())
    }

    /// The disk.
    pub fn disk(&self) -> &D
        ensures { result.now ≡ disk_of self.now }
    {
        &self.disk
    }

    /// Gives the disk back.
    pub fn into_disk(self) -> D
        ensures { result ≡ disk_of self }
    {
        self.disk
    }
}

impl<D: Armable> Log<D> {
    /// Gives the disk an order to stop or to fail. The log stays as it is.
    pub fn arm(&mut self, order: DiskFault)
        ensures plan { D.plan (disk_of self.new) ≡ ordered (D.plan (disk_of self.old)) order }
        ensures content { D.content (disk_of self.new) ≡ D.content (disk_of self.old) }
        ensures images { AddsNone (D.images (disk_of self.old)) (D.images (disk_of self.new)) }
        ensures all_images { AddsNone (D.images (disk_of self.new)) (D.images (disk_of self.old)) }
        ensures moment { D.moment (disk_of self.new) ≡ D.moment (disk_of self.old) }
        ensures time { GoesOn (D.moment (disk_of self.old)) (D.moment (disk_of self.new)) (D.images_since (disk_of self.old)) (D.images_since (disk_of self.new)) (D.images (disk_of self.new)) }
        ensures usable { IsUsable D.content D.images self.old → IsUsable D.content D.images self.new }
        ensures intact { IsIntact self.old ↔ IsIntact self.new }
        ensures spare { D.spare (disk_of self.new) ≡ D.spare (disk_of self.old) }
        ensures faults { D.faults (disk_of self.new) ≡ D.faults (disk_of self.old) }
        ensures calls { D.calls (disk_of self.new) ≡ D.calls (disk_of self.old) }
        ensures writes { D.writes (disk_of self.new) ≡ D.writes (disk_of self.old) }
    {
        self.disk.arm(order);
    }
}

/// What is written after a closed gate, in one write: the body's length, the body, and the next gate, closed.
fn stage(alloc: Global, body: &[u8]) -> Result<Vec<u8>, AllocError>
    requires { length body.now < 2 ^ 32 }
    ensures { IfOk result (λ bytes. bytes.items ≡ staged body.now) }
{
    let mut bytes = Vec::with_capacity(alloc, body.len() + 5)?;
    bytes.extend_from_slice(&(body.len() as u32).to_be_bytes())?;
    bytes.extend_from_slice(body)?;
    bytes.push(CLOSED)?;
    Ok(bytes)
}

/// Writes bytes after a gate and then opens it.
pub(crate) fn store<D: Disk>(disk: &mut D, gate: u64, behind: &[u8]) -> Result<(), Failed>
    requires gate { gate < length (D.content disk.old) }
    requires fits { gate + 1 < 2 ^ 64 }
    requires some { 0 < length behind.now }
    requires room { HasRoom (length behind.now + 1) 2 (D.spare disk.old) }
    requires durable { IsOnly (D.content disk.old) (D.images disk.old) }

    ensures stored { OnOk result (D.content disk.new ≡ with_gate 1 gate behind.now (D.content disk.old)) }
    ensures durable { OnOk result (IsOnly (D.content disk.new) (D.images disk.new)) }
    ensures any_moment { AtEachMoment D.moment D.images_since disk.old disk.new (MayBeImage gate behind.now (D.content disk.old)) }
    ensures run { OnOk result (HasRun D.Disk append_calls disk.old disk.new) }
    ensures failed { OnErr result (MetFault D.Disk append_calls disk.old disk.new) }
    ensures left { OnErr result (IsStoredByPlan (D.plan disk.old) gate behind.now (D.content disk.old) (D.content disk.new)) }
{
    disk.write_at(gate + 1, behind)?;
    // What follows an open gate counts, so it has to be on the disk first.
    disk.sync()?;
    disk.write_at(gate, &[OPEN])?;
    disk.sync()
}
