//! Two disks with a log each, of which one is active.
//!
//! Records are appended to the active log. A checkpoint begins the other log anew, with the image of all that is kept as its
//! one body, and that log is the active one from then on. An image states a generation, one more than that of the list
//! before it, so that a load finds the active log from the bytes of both disks alone: it is the one whose list is not empty
//! and has the greater generation. The first is active where both have the same.
#![tactic(auto)]

mod active;
mod err;
mod laws;
mod two_logs;

pub use active::{Side, active_of};
pub use block_disk::Failed;
pub use err::{PairErr, PairMakeErr};
pub use laws::the_active_log_is_loaded;
pub use redo_log::{LoadWhy, LogErr, MakeWhy};
pub use two_logs::TwoLogs;
