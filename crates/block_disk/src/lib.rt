//! A disk of bytes that may stop in the middle of a write.
//!
//! Between two syncs each written range, and the part past the old end, may hold any bytes after a crash; bytes
//! outside stay. After a sync that succeeds a crash leaves what a read gives. The clauses of the trait `Disk` say so
//! for each moment of each call. What a disk needs for a write is taken before, by `room`, so a write never runs out
//! of memory. `MemDisk` is such a disk in memory, which takes orders to stop in a write or to fail in a call.
//! The model of a disk is dtx's own.
#![tactic(auto)]

mod armable;
mod disk;
mod fault;
mod faults;
mod mem_disk;
mod past;
mod surface;

pub use armable::Armable;
pub use disk::Disk;
pub use dtx_ports::Failed;
pub use fault::{DiskFault, How, Stop};
pub use mem_disk::MemDisk;
