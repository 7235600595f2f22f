//! The two logs, and how they change their places.
ghost use Rattle.std.specs.Prelude.{◌≡◌, ◌<◌, ◌+◌, ◌^◌, ◌↔◌, not, unwrap_or, Some, [], ◌∷◌, length, IfOk, IfErr, OnOk, OnErr, IsErrOf, MatchResult};
ghost use Rattle.block_disk.specs.Images.{AddsNone, AtEachMoment, GoesOn, IsOnly};
ghost use Rattle.block_disk.specs.Orders.{ordered};
ghost use Rattle.redo_log.specs.Calls.{GrowsByBody, HoldsAsPlanned};
ghost use Rattle.redo_log.specs.Cells.{body_limit, held};
ghost use Rattle.redo_log.specs.Log.{disk_of, MayBeBegun, OnRefused};
ghost use Rattle.redo_log.specs.Restart.{HasRestarted, LeavesOldOrNew};
ghost use Rattle.redo_log.specs.Runs.{IsUntouched, HasGrown, LeavesByPlan, IsOnlyRead};
ghost use Rattle.checkpoint.specs.Active.{stated_generation, generation_of, active_list, side_of, is_second, picked};
ghost use Rattle.checkpoint.specs.Pair.{disk_at, active_disk, spare_disk, is_fault, IsWhole, IsReady, IsNewPair, MakePairFails, LoadsPair, LoadPairFails, LoadsWithOrWithout, LoadsOldOrNew, IsPairOf, IsEmptyPair, GoesOnAfter};

use crate::active::{Side, generation, leads, named};
use crate::{PairErr, PairMakeErr};
use block_disk::{Armable, Disk, DiskFault};
use redo_log::{Bodies, LoadErr, LoadWhy, Log, LogErr, MakeErr};
use std::alloc::Global;

/// Two logs, each on a disk of its own.
#[derive(Drop)]
pub struct TwoLogs<D: Disk> {
    first: Log<D>,
    second: Log<D>,
    second_is_active: bool,
    broken: bool,
}

impl<D: Disk> TwoLogs<D> {
    /// Makes two logs with no body on two empty disks, of which the first is active. Each error gives the disks back, and ends
    /// at the first that failed.
    pub fn create(alloc: Global, first: D, second: D) -> Result<TwoLogs<D>, PairMakeErr<D>>
        requires first { D.content first ≡ [] }
        requires second { D.content second ≡ [] }

        ensures made { IfOk result (λ logs. IsNewPair D.Disk first second logs) }

        // A crash at any moment leaves no bytes, one byte that is no log, or a log of no body.
        ensures first_moments { IsOnly [] (D.images first) → MatchResult result
            (λ logs. AtEachMoment D.moment D.images_since first (disk_of logs.first) MayBeBegun)
            (λ err. AtEachMoment D.moment D.images_since first err.first MayBeBegun) }
        ensures second_moments { IsOnly [] (D.images second) → MatchResult result
            (λ logs. AtEachMoment D.moment D.images_since second (disk_of logs.second) MayBeBegun)
            (λ err. AtEachMoment D.moment D.images_since second err.second MayBeBegun) }

        ensures failed { IfErr result (λ err. MakePairFails D.Disk err.why first second err.first err.second) }
    {
        let first = match Log::create(alloc, first) {
            Ok(log) => log,
            Err(MakeErr { disk, why }) => {
                return Err(PairMakeErr {
                    first: disk,
                    second,
                    why,
                });
            }
        };
        match Log::create(alloc, second) {
            Ok(second) => Ok(TwoLogs {
                first,
                second,
                second_is_active: false,
                broken: false,
            }),
            Err(MakeErr { disk, why }) => Err(PairMakeErr {
                first: first.into_disk(),
                second: disk,
                why,
            }),
        }
    }

    /// Loads the logs of two disks, with the bodies of the active one.
    ///
    /// It makes the calls of a load on the first disk and then on the second, and ends at the first that fails. Each error
    /// gives the disks back: `Fault` where a disk failed, `NotALog` where the bytes of one are no log or neither has a body,
    /// `NoMemory` where there is no memory for what they hold.
    pub fn load(alloc: Global, first: D, second: D) -> Result<(TwoLogs<D>, Bodies), PairErr<D>>
        requires first { length (D.content first) < 2 ^ 63 }
        requires second { length (D.content second) < 2 ^ 63 }

        ensures loaded { IfOk result (λ loaded. LoadsPair D.Disk first second loaded.0 loaded.1) }

        // A crash at any moment leaves what one before the call might have left.
        ensures first_read { MatchResult result (λ loaded. IsOnlyRead D.Disk first (disk_of loaded.0.first)) (λ err. IsOnlyRead D.Disk first err.first) }
        ensures second_read { MatchResult result (λ loaded. IsOnlyRead D.Disk second (disk_of loaded.0.second)) (λ err. IsOnlyRead D.Disk second err.second) }

        ensures failed { IfErr result (λ err. LoadPairFails D.Disk err.why first second err.first err.second) }
    {
        let (first, first_list) = match Log::load(alloc, first) {
            Ok(loaded) => loaded,
            Err(LoadErr { disk, why }) => {
                return Err(PairErr {
                    first: disk,
                    second,
                    why,
                });
            }
        };
        match Log::load(alloc, second) {
            Ok((second, second_list)) => pair(first, first_list, second, second_list),
            Err(LoadErr { disk, why }) => Err(PairErr {
                first: first.into_disk(),
                second: disk,
                why,
            }),
        }
    }

    /// Appends a body to the active log. At Ok it is on the disk. The errors are those of a log's `append`; after a `Fault`
    /// each append and each swap returns `Fault`.
    pub fn append(&mut self, body: &[u8]) -> Result<(), LogErr>
        requires ready { IsReady D.content D.images self.old }
        requires some { 0 < length body.now }

        ensures acknowledged { OnOk result (HasGrown D.Disk (GrowsByBody body.now) (active_disk self.old) (active_disk self.new)) }

        // A crash at any moment of the call leaves disks of which a load gives the active list with the body or without.
        ensures any_moment { IsWhole self.old → AtEachMoment D.moment D.images_since (active_disk self.old) (active_disk self.new)
            (LoadsWithOrWithout self.old.second_is_active (D.content (spare_disk self.old)) (held (D.content (active_disk self.old))) body.now) }

        ensures failed { IsErrOf result LogErr.Fault → IsWhole self.old → LeavesByPlan D.Disk (HoldsAsPlanned body.now) (active_disk self.old) (active_disk self.new) }
        ensures refused { OnRefused result (IsUntouched D.Disk (active_disk self.old) (active_disk self.new)) }
        ensures too_long { IsErrOf result LogErr.TooLong ↔ (IsWhole self.old × (body_limit < length body.now)) }
        ensures roles { self.new.second_is_active ≡ self.old.second_is_active }
        ensures other { spare_disk self.new ≡ spare_disk self.old }
        ensures after { GoesOnAfter D.Disk result self.old self.new }
    {
        if self.broken {
            return Err(LogErr::Fault);
        }
        if self.second_is_active {
            let appended = self.second.append(body);
            self.broken = is_fault(&appended);
            appended
        } else {
            let appended = self.first.append(body);
            self.broken = is_fault(&appended);
            appended
        }
    }

    /// Begins the other log anew with this image alone, and makes it the active one. All memory is taken first. The errors are
    /// those of `append`.
    pub fn swap(&mut self, image: &[u8]) -> Result<(), LogErr>
        requires ready { IsReady D.content D.images self.old }
        requires some { 0 < length image.now }
        requires next { stated_generation image.now ≡ unwrap_or (generation_of (held (D.content (active_disk self.old)))) 0 + 1 }

        ensures acknowledged { OnOk result (HasRestarted D.Disk image.now (spare_disk self.old) (active_disk self.new)) }

        // A crash at any moment of the call leaves disks of which a load gives the old active list or the image alone,
        ensures any_moment { IsWhole self.old → AtEachMoment D.moment D.images_since (spare_disk self.old) (disk_at (not self.old.second_is_active) self.new)
            (LoadsOldOrNew (not self.old.second_is_active) (D.content (active_disk self.old)) (held (D.content (active_disk self.old))) image.now) }

        // and after Ok the image alone.
        ensures durable { OnOk result (active_list (D.content (disk_of self.new.first)) (D.content (disk_of self.new.second)) ≡ Some (image.now ∷ [])) }

        ensures failed { IsErrOf result LogErr.Fault → IsWhole self.old → LeavesOldOrNew D.Disk image.now (spare_disk self.old) (spare_disk self.new) }
        ensures refused { OnRefused result (IsUntouched D.Disk (spare_disk self.old) (spare_disk self.new)) }
        ensures too_long { IsErrOf result LogErr.TooLong ↔ (IsWhole self.old × (body_limit < length image.now)) }
        ensures swapped { OnOk result (self.new.second_is_active ≡ not self.old.second_is_active) }
        ensures stays { OnErr result (self.new.second_is_active ≡ self.old.second_is_active) }
        ensures other { disk_at self.old.second_is_active self.new ≡ active_disk self.old }
        ensures after { GoesOnAfter D.Disk result self.old self.new }
    {
        if self.broken {
            return Err(LogErr::Fault);
        }
        if self.second_is_active {
            let begun = self.first.restart(image);
            self.broken = is_fault(&begun);
            self.second_is_active = begun.is_err();
            begun
        } else {
            let begun = self.second.restart(image);
            self.broken = is_fault(&begun);
            self.second_is_active = begun.is_ok();
            begun
        }
    }

    /// Which log is active.
    pub fn active(&self) -> Side
        ensures { result ≡ side_of self.now.second_is_active }
    {
        named(self.second_is_active)
    }

    /// The first disk.
    pub fn first_disk(&self) -> &D
        ensures { result.now ≡ disk_of self.now.first }
    {
        self.first.disk()
    }

    /// The second disk.
    pub fn second_disk(&self) -> &D
        ensures { result.now ≡ disk_of self.now.second }
    {
        self.second.disk()
    }

    /// Gives the disks back.
    pub fn into_disks(self) -> (D, D)
        ensures { result ≡ (disk_of self.first, disk_of self.second) }
    {
        (self.first.into_disk(), self.second.into_disk())
    }
}

impl<D: Armable> TwoLogs<D> {
    /// Gives the disk of one log an order to stop or to fail. The logs stay as they are, and so does the other disk.
    pub fn arm(&mut self, side: Side, order: DiskFault)
        ensures plan { D.plan (disk_at (is_second side) self.new) ≡ ordered (D.plan (disk_at (is_second side) self.old)) order }
        ensures content { D.content (disk_at (is_second side) self.new) ≡ D.content (disk_at (is_second side) self.old) }
        ensures images { AddsNone (D.images (disk_at (is_second side) self.old)) (D.images (disk_at (is_second side) self.new)) }
        ensures all_images { AddsNone (D.images (disk_at (is_second side) self.new)) (D.images (disk_at (is_second side) self.old)) }
        ensures moment { D.moment (disk_at (is_second side) self.new) ≡ D.moment (disk_at (is_second side) self.old) }
        ensures time { GoesOn (D.moment (disk_at (is_second side) self.old)) (D.moment (disk_at (is_second side) self.new)) (D.images_since (disk_at (is_second side) self.old)) (D.images_since (disk_at (is_second side) self.new)) (D.images (disk_at (is_second side) self.new)) }
        ensures spare { D.spare (disk_at (is_second side) self.new) ≡ D.spare (disk_at (is_second side) self.old) }
        ensures faults { D.faults (disk_at (is_second side) self.new) ≡ D.faults (disk_at (is_second side) self.old) }
        ensures calls { D.calls (disk_at (is_second side) self.new) ≡ D.calls (disk_at (is_second side) self.old) }
        ensures writes { D.writes (disk_at (is_second side) self.new) ≡ D.writes (disk_at (is_second side) self.old) }
        ensures other { disk_at (not (is_second side)) self.new ≡ disk_at (not (is_second side)) self.old }
        ensures roles { self.new.second_is_active ≡ self.old.second_is_active }
        ensures broken { self.new.broken ≡ self.old.broken }
        ensures ready { IsReady D.content D.images self.old → IsReady D.content D.images self.new }
    {
        match side {
            Side::First => self.first.arm(order),
            Side::Second => self.second.arm(order),
        }
    }
}

/// The two logs that were loaded with these lists, and the active list.
fn pair<D: Disk>(
    first: Log<D>,
    first_list: Bodies,
    second: Log<D>,
    second_list: Bodies,
) -> Result<(TwoLogs<D>, Bodies), PairErr<D>>
    ensures paired { IfOk result (λ loaded. IsPairOf first first_list second second_list loaded.0 loaded.1) }
    ensures empty { IfErr result (λ err. IsEmptyPair first first_list second second_list err) }
{
    let first_generation = generation(&first_list);
    let second_generation = generation(&second_list);
    if first_generation.is_none() && second_generation.is_none() {
        return Err(PairErr {
            first: first.into_disk(),
            second: second.into_disk(),
            why: LoadWhy::NotALog,
        });
    }
    let second_is_active = leads(first_generation, second_generation);
    let logs = TwoLogs {
        first,
        second,
        second_is_active,
        broken: false,
    };
    if second_is_active {
        Ok((logs, second_list))
    } else {
        Ok((logs, first_list))
    }
}

/// Whether a call answered `Fault`.
fn is_fault(done: &Result<(), LogErr>) -> bool
    ensures { result ≡ is_fault done.now }
{
    matches!(done, Err(LogErr::Fault))
}
