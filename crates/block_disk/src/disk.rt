//! The trait of disks.
ghost use Rattle.std.specs.Prelude.{◌≡◌, ◌+◌, ◌≤◌, ◌<◌, ℕ, List, Option, Bool, true, false, length, take, drop, IfOk, OnOk, OnErr};
ghost use Rattle.dtx_ports.specs.Causes.{HasCause};
ghost use Rattle.block_disk.specs.Images.{IsWritten, TearsOnly, AddsNone, IsOnly, GoesOn};
ghost use Rattle.block_disk.specs.Counts.{next_count};
ghost use Rattle.block_disk.specs.Spare.{Spare, HasRoom, spent};
ghost use Rattle.block_disk.specs.Plan.{FaultPlan, GoesByPlan, IsLeftByPlan};

use dtx_ports::Failed;
use std::alloc::AllocError;

/// A disk. Its calls `len`, `read`, `write_at` and `sync` are counted. A counted call fails only where the disk's
/// faults rose in it; where the disk shows its plan, exactly where an order strikes it.
pub trait Disk {
    /// The bytes that a read gives.
    ghost content: { Self → List ℕ };

    /// The contents that a crash may leave now.
    ghost images: { Self → List ℕ → Type 0 };

    /// The moment, a number that never falls.
    ghost moment: { Self → ℕ };

    /// The contents that a crash at this moment or a later one, up to now, might have left.
    ghost images_since: { Self → ℕ → List ℕ → Type 0 };

    /// How many bytes may still be written, and in how many writes, without more memory for the content and for what
    /// the disk keeps of each write.
    ghost spare: { Self → Spare };

    /// How often it has failed: a `u64` that never falls and stays at 2^64 - 1 once it is there.
    ghost faults: { Self → ℕ };

    /// How many counted calls were made, modulo 2^64.
    ghost calls: { Self → ℕ };

    /// How many of them were writes, modulo 2^64.
    ghost writes: { Self → ℕ };

    /// The orders to stop or to fail that have not struck yet, where the disk shows them.
    ghost plan: { Self → Option FaultPlan };

    /// The number of its bytes. Fails only where the disk's faults rose.
    fn len(&mut self) -> Result<u64, Failed>
        ensures len { IfOk result (λ count. count ≡ length (content self.old)) }
        ensures content { content self.new ≡ content self.old }
        ensures images { AddsNone (images self.old) (images self.new) }
        ensures time { GoesOn (moment self.old) (moment self.new) (images_since self.old) (images_since self.new) (images self.new) }
        ensures spare { spare self.new ≡ spare self.old }
        ensures cause { HasCause (faults self.old) (faults self.new) result }
        ensures calls { calls self.new ≡ next_count (calls self.old) }
        ensures writes { writes self.new ≡ writes self.old }
        ensures plan { GoesByPlan (plan self.old) (plan self.new) false result };

    /// Makes room for this many bytes to be written, in so many writes. It is not a counted call. Fails where memory
    /// runs out.
    fn room(&mut self, bytes: u64, times: u64) -> Result<(), AllocError>
        ensures room { OnOk result (HasRoom bytes times (spare self.new)) }
        ensures content { content self.new ≡ content self.old }
        ensures images { AddsNone (images self.old) (images self.new) }
        ensures time { GoesOn (moment self.old) (moment self.new) (images_since self.old) (images_since self.new) (images self.new) }
        ensures spare { HasRoom (spare self.old).bytes (spare self.old).writes (spare self.new) }
        ensures faults { faults self.new ≡ faults self.old }
        ensures calls { calls self.new ≡ calls self.old }
        ensures writes { writes self.new ≡ writes self.old }
        ensures plan { plan self.new ≡ plan self.old };

    /// Fills the buffer with the bytes from a place on, which lie within the disk's length. Fails only where the
    /// disk's faults rose.
    fn read(&mut self, at: u64, buffer: &mut [u8]) -> Result<(), Failed>
        requires { at + length buffer.old ≤ length (content self.old) }
        ensures bytes { OnOk result (buffer.new ≡ take (length buffer.old) (drop at (content self.old))) }
        ensures length { length buffer.new ≡ length buffer.old }
        ensures content { content self.new ≡ content self.old }
        ensures images { AddsNone (images self.old) (images self.new) }
        ensures time { GoesOn (moment self.old) (moment self.new) (images_since self.old) (images_since self.new) (images self.new) }
        ensures spare { spare self.new ≡ spare self.old }
        ensures cause { HasCause (faults self.old) (faults self.new) result }
        ensures calls { calls self.new ≡ next_count (calls self.old) }
        ensures writes { writes self.new ≡ writes self.old }
        ensures plan { GoesByPlan (plan self.old) (plan self.new) false result };

    /// Writes bytes at a place within the disk's length or at its end. Until a sync, a crash may leave any bytes in
    /// their range. Fails only where the disk's faults rose, and then, where the disk shows its plan, leaves what that says.
    fn write_at(&mut self, at: u64, bytes: &[u8]) -> Result<(), Failed>
        requires within { at ≤ length (content self.old) }
        requires some { 0 < length bytes.now }
        requires room { HasRoom (length bytes.now) 1 (spare self.old) }
        ensures written { OnOk result (IsWritten (content self.old) at bytes.now (content self.new)) }
        ensures images { TearsOnly at (length bytes.now) (images self.old) (images self.new) }
        ensures time { GoesOn (moment self.old) (moment self.new) (images_since self.old) (images_since self.new) (images self.new) }
        ensures spare { OnOk result (spare self.new ≡ spent (length bytes.now) (spare self.old)) }
        ensures cause { HasCause (faults self.old) (faults self.new) result }
        ensures calls { calls self.new ≡ next_count (calls self.old) }
        ensures writes { writes self.new ≡ next_count (writes self.old) }
        ensures plan { GoesByPlan (plan self.old) (plan self.new) true result }
        ensures left { OnErr result (IsLeftByPlan (plan self.old) at bytes.now (content self.old) (content self.new)) };

    /// After a sync that succeeds, a crash leaves what a read gives. Fails only where the disk's faults rose.
    fn sync(&mut self) -> Result<(), Failed>
        ensures durable { OnOk result (IsOnly (content self.old) (images self.new)) }
        ensures content { content self.new ≡ content self.old }
        ensures images { AddsNone (images self.old) (images self.new) }
        ensures time { GoesOn (moment self.old) (moment self.new) (images_since self.old) (images_since self.new) (images self.new) }
        ensures spare { spare self.new ≡ spare self.old }
        ensures cause { HasCause (faults self.old) (faults self.new) result }
        ensures calls { calls self.new ≡ next_count (calls self.old) }
        ensures writes { writes self.new ≡ writes self.old }
        ensures plan { GoesByPlan (plan self.old) (plan self.new) false result };

    /// What a read gives is an image.
    ghost reads_an_image: { (disk : Self) → images disk (content disk) };

    /// An image of now is one since each earlier moment.
    ghost now_counts: { (disk : Self) (m : ℕ) (image : List ℕ) → m ≤ moment disk → images disk image → images_since disk m image };

    /// Since this moment there are no other images than those of now.
    ghost only_now: { (disk : Self) (image : List ℕ) → images_since disk (moment disk) image → images disk image };
}
