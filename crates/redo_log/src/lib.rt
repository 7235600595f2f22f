//! A log of bodies on a disk that may stop in the middle of a write.
//!
//! A log is a list of cells: a gate (1 byte), the body's length (4 bytes, the most significant first), the body. A gate is
//! open if its byte is 1, and the log ends at the first gate that is not. A closed gate follows the last cell, and is on the
//! disk before anything is written after it.
#![tactic(auto)]

mod bodies;
mod err;
mod gate;
mod laws;
mod load;
mod log;
mod make;
mod plain;
mod replace;

pub use block_disk::Failed;
pub use bodies::Bodies;
pub use err::{LoadErr, LoadWhy, LogErr, MakeErr, MakeWhy};
pub use laws::{fits_one_more, logs_are_read};
pub use log::Log;
pub use plain::{cell, count};
