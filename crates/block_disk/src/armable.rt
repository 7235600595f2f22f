//! The trait of disks that take orders.
ghost use Rattle.std.specs.Prelude.{◌≡◌};
ghost use Rattle.block_disk.specs.Images.{AddsNone, GoesOn};
ghost use Rattle.block_disk.specs.Orders.{ordered};

use crate::{Disk, DiskFault};

/// A disk that can be ordered to stop in a write, or to fail in a call.
pub trait Armable: Disk {
    /// Takes an order, in place of an earlier one of its kind. It changes the plan alone, and is not a counted call.
    fn arm(&mut self, order: DiskFault)
        ensures plan { Self.plan self.new ≡ ordered (Self.plan self.old) order }
        ensures content { Self.content self.new ≡ Self.content self.old }
        ensures images { AddsNone (Self.images self.old) (Self.images self.new) }
        ensures all_images { AddsNone (Self.images self.new) (Self.images self.old) }
        ensures moment { Self.moment self.new ≡ Self.moment self.old }
        ensures time { GoesOn (Self.moment self.old) (Self.moment self.new) (Self.images_since self.old) (Self.images_since self.new) (Self.images self.new) }
        ensures spare { Self.spare self.new ≡ Self.spare self.old }
        ensures faults { Self.faults self.new ≡ Self.faults self.old }
        ensures calls { Self.calls self.new ≡ Self.calls self.old }
        ensures writes { Self.writes self.new ≡ Self.writes self.old };
}
