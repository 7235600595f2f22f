//! A disk in memory that takes orders to stop or to fail.
ghost use Rattle.std.specs.Prelude.{◌≡◌, ◌+◌, ◌≤◌, ◌<◌, [], ◌∷◌, Some, true, false, length, take, drop, IfOk, IsErr, OnOk, OnErr};
ghost use Rattle.dtx_ports.specs.Causes.{HasCause};
ghost use Rattle.block_disk.specs.Plan.{free, GoesByPlan};
ghost use Rattle.block_disk.specs.Happenings.{Wrote, content_of, IsImage, IsImageSince};
ghost use Rattle.block_disk.specs.MemDisk.{blank, after_fault, after_look, after_room, after_write, after_sync, after_arm, after_power_on, RisksEach};
ghost use Rattle.block_disk.specs.Spare.{HasRoom, spent};
ghost use Rattle.block_disk.specs.Orders.{plan_of};
ghost use Rattle.block_disk.specs.ImageLaws.{IsImage-content_of, IsImageSince-now, IsImageSince-length};

use crate::faults::{DiskFaults, Strike};
use crate::surface::Surface;
use crate::{Armable, Disk, DiskFault, Failed};
use std::alloc::{AllocError, Global};
use std::marker::Model;

/// A disk in memory. A counted call of it fails exactly where an order strikes it, or where the disk is stopped. It keeps
/// each write and sync, so what a crash at each moment might have left is known.
#[derive(Drop)]
pub struct MemDisk {
    surface: Surface,
    orders: DiskFaults,
    faults: u64,
    calls: u64,
    writes: u64,
}

impl Model for MemDisk {
    ghost use Rattle.block_disk.specs.MemDisk.{DiskState};

    ghost Value = { DiskState };

    ghost view = { λ disk. record {
      happenings = disk.surface.happenings;
      spare = disk.surface.spare;
      faults = disk.faults;
      calls = disk.calls;
      writes = disk.writes;
      orders = disk.orders;
    } };
}

impl MemDisk {
    /// An empty disk, not stopped, with no order.
    pub fn new(alloc: Global) -> MemDisk
        ensures blank { result ≡ blank }
        ensures content { ⟦<MemDisk as Disk>⟧.content result ≡ [] }
        ensures plan { ⟦<MemDisk as Disk>⟧.plan result ≡ Some free }
    {
        MemDisk {
            surface: Surface::new(alloc),
            orders: DiskFaults::new(),
            faults: 0,
            calls: 0,
            writes: 0,
        }
    }

    /// What a read gives.
    pub fn bytes(&self) -> &[u8]
        ensures { result.now ≡ content_of self.now.happenings }
    {
        self.surface.bytes()
    }

    /// The disk is no more stopped. Its bytes stay, and the orders that have not struck.
    pub fn power_on(&mut self)
        ensures { self.new ≡ after_power_on self.old }
    {
        self.orders.power_on();
    }

    // Counts a call that writes nothing. It fails where an order strikes it, or where the disk is stopped.
    fn look(&mut self) -> Result<(), Failed>
        ensures state { self.new ≡ after_look self.old }
        ensures cause { HasCause self.old.faults self.new.faults result }
        ensures plan { GoesByPlan (Some (plan_of self.old.orders)) (Some (plan_of self.new.orders)) false result }
    {
        self.calls = self.calls.wrapping_add(1);
        if self.orders.strike_call() {
            self.fail()
        } else {
            Ok(())
        }
    }

    // Counts a fault.
    fn fail(&mut self) -> Result<(), Failed>
        ensures failed { IsErr result }
        ensures state { self.new ≡ after_fault self.old }
        ensures later { self.old.faults ≤ self.new.faults }
    {
        self.faults = self.faults.saturating_add(1);
        Err(Failed)
    }
}

impl Disk for MemDisk {
    ghost content = { λ disk. content_of disk.happenings };

    ghost images = { λ disk. IsImage disk.happenings };

    ghost moment = { λ disk. length disk.happenings };

    ghost images_since = { λ disk. IsImageSince disk.happenings };

    ghost spare = { λ disk. disk.spare };

    ghost faults = { λ disk. disk.faults };

    ghost calls = { λ disk. disk.calls };

    ghost writes = { λ disk. disk.writes };

    ghost plan = { λ disk. Some (plan_of disk.orders) };

    ghost reads_an_image = { λ disk. IsImage-content_of disk.happenings };

    ghost now_counts = { λ disk m image earlier now. IsImageSince-now disk.happenings m image now };

    ghost only_now = { λ disk image since. IsImageSince-length disk.happenings image since };

    fn len(&mut self) -> Result<u64, Failed>
        ensures len { IfOk result (λ count. count ≡ length (content_of self.old.happenings)) }
        ensures state { self.new ≡ after_look self.old }
        ensures cause { HasCause self.old.faults self.new.faults result }
        ensures plan { GoesByPlan (Some (plan_of self.old.orders)) (Some (plan_of self.new.orders)) false result }
    {
        match self.look() {
            Ok(()) => Ok(self.surface.bytes().len() as u64),
            Err(Failed) => Err(Failed),
        }
    }

    fn room(&mut self, bytes: u64, times: u64) -> Result<(), AllocError>
        ensures ok { OnOk result (self.new ≡ after_room self.old bytes times) }
        ensures err { OnErr result (self.new ≡ self.old) }
    {
        self.surface.reserve(bytes as usize, times as usize)
    }

    fn read(&mut self, at: u64, buffer: &mut [u8]) -> Result<(), Failed>
        requires { at + length buffer.old ≤ length (content_of self.old.happenings) }
        ensures bytes { OnOk result (buffer.new ≡ take (length buffer.old) (drop at (content_of self.old.happenings))) }
        ensures failed { OnErr result (buffer.new ≡ buffer.old) }
        ensures state { self.new ≡ after_look self.old }
        ensures cause { HasCause self.old.faults self.new.faults result }
        ensures plan { GoesByPlan (Some (plan_of self.old.orders)) (Some (plan_of self.new.orders)) false result }
    {
        match self.look() {
            Ok(()) => {
                let start = at as usize;
                buffer.copy_from_slice(&self.surface.bytes()[start..start + buffer.len()]);
                Ok(())
            }
            Err(Failed) => Err(Failed),
        }
    }

    fn write_at(&mut self, at: u64, bytes: &[u8]) -> Result<(), Failed>
        requires within { at ≤ length (content_of self.old.happenings) }
        requires some { 0 < length bytes.now }
        requires room { HasRoom (length bytes.now) 1 self.old.spare }
        ensures ok { OnOk result (self.new.happenings ≡ Wrote at bytes.now ∷ self.old.happenings) }
        ensures spare { OnOk result (self.new.spare ≡ spent (length bytes.now) self.old.spare) }
        ensures state { self.new ≡ after_write self.old at bytes.now }
        ensures cause { HasCause self.old.faults self.new.faults result }
        ensures plan { GoesByPlan (Some (plan_of self.old.orders)) (Some (plan_of self.new.orders)) true result }
        ensures at_risk { OnOk result (RisksEach at (length bytes.now) (IsImage self.old.happenings) (IsImage self.new.happenings)) }
    {
        self.calls = self.calls.wrapping_add(1);
        self.writes = self.writes.wrapping_add(1);
        match self.orders.strike_write() {
            Strike::Spares => {
                self.surface.write(at, bytes);
                Ok(())
            }
            Strike::Fails => self.fail(),
            Strike::Stops(how) => {
                self.surface.write_part(at, how.left_of(bytes));
                self.fail()
            }
        }
    }

    fn sync(&mut self) -> Result<(), Failed>
        ensures ok { OnOk result (self.new ≡ after_sync self.old) }
        ensures err { OnErr result (self.new ≡ after_look self.old) }
        ensures cause { HasCause self.old.faults self.new.faults result }
        ensures plan { GoesByPlan (Some (plan_of self.old.orders)) (Some (plan_of self.new.orders)) false result }
    {
        self.look()?;
        self.surface.sync();
        Ok(())
    }
}

impl Armable for MemDisk {
    fn arm(&mut self, order: DiskFault)
        ensures { self.new ≡ after_arm self.old order }
    {
        self.orders.add(order);
    }
}
