//! The parts of the world of a run that know no node: the words in which the world answers a command, what SHOW DISK has shown,
//! the order that a command gives, how often each node has started, and the messages of the network by their numbers.
//!
//! Each call gives exactly what the definitions of a run say of its part. `specs/DiskFaults.antt` says which orders of a disk are those
//! of these definitions. What allocates fails where memory runs out, and for no other reason.
#![tactic(auto)]

mod boots;
mod commands;
mod disk_bytes;
mod disks_shown;
mod lines;
mod messages;
mod says;

pub use boots::{count_boot, next_boot, once_each};
pub use commands::{command_at, left_by, order_net};
pub use disk_bytes::disk_lines;
pub use disks_shown::DisksShown;
pub use lines::with_disks;
pub use messages::{bytes_of, losses_of, take_message};
pub use says::{Says, fine, if_may, refused, refused_with, shows};
