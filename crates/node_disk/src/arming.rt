//! The disk of a node takes orders.
ghost use Rattle.std.specs.Prelude.{◌≡◌, ℕ};
ghost use Rattle.block_disk.specs.Images.{AddsNone, GoesOn};
ghost use Rattle.block_disk.specs.Orders.{ordered};
ghost use Rattle.node_disk.specs.Starts.{CanBeStarted};
ghost use Rattle.node_disk.specs.OnDisk.{place_of, kept_of, disk_of, IsRunning};

use crate::Node;
use block_disk::{Armable, DiskFault};

impl<D: Armable> Node<D> {
    /// Gives the disk an order to stop or to fail. The node stays as it is.
    #[tactic(auto, using(crate::proofs::TurnLaws::still_open, crate::proofs::CutLaws::starts_still))]
    pub fn arm(&mut self, order: DiskFault)
        ensures plan { D.plan (disk_of self.new) ≡ ordered (D.plan (disk_of self.old)) order }
        ensures kept { kept_of self.new ≡ kept_of self.old }
        ensures place { place_of self.new ≡ place_of self.old }
        ensures running { IsRunning D.content D.images self.old → IsRunning D.content D.images self.new }
        ensures startable { (undo : ℕ) → CanBeStarted undo D.content D.images (disk_of self.old) → CanBeStarted undo D.content D.images (disk_of self.new) }

        ensures content { D.content (disk_of self.new) ≡ D.content (disk_of self.old) }
        ensures images { AddsNone (D.images (disk_of self.old)) (D.images (disk_of self.new)) }
        ensures all_images { AddsNone (D.images (disk_of self.new)) (D.images (disk_of self.old)) }
        ensures moment { D.moment (disk_of self.new) ≡ D.moment (disk_of self.old) }
        ensures time { GoesOn (D.moment (disk_of self.old)) (D.moment (disk_of self.new)) (D.images_since (disk_of self.old)) (D.images_since (disk_of self.new)) (D.images (disk_of self.new)) }
        ensures spare { D.spare (disk_of self.new) ≡ D.spare (disk_of self.old) }
        ensures faults { D.faults (disk_of self.new) ≡ D.faults (disk_of self.old) }
        ensures calls { D.calls (disk_of self.new) ≡ D.calls (disk_of self.old) }
        ensures writes { D.writes (disk_of self.new) ≡ D.writes (disk_of self.old) }
    {
        self.log.arm(order);
    }
}
