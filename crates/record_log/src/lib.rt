//! A log of redo records on a disk that may stop in the middle of a write.
//!
//! The body of each cell of the log is the spelling of a record. A record is on the disk before its append answers Ok,
//! and a load gives back the records that the disk holds, in the order in which they were appended; what stands behind
//! the gate that ends the log does not count.
//!
//! That a commit is one once its redo record is on the disk: Database Concepts, "Transactions".
#![tactic(auto)]

mod err;
mod laws;
mod log;
mod reading;

pub use block_disk::Failed;
pub use err::{AppendErr, LoadErr, LoadWhy};
pub use laws::{begun_hold_none, hold_one_list, logs_hold};
pub use log::RecordLog;
pub use reading::Records;
pub use redo_log::{MakeErr, MakeWhy};
