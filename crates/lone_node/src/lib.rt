//! A node over a disk in memory whose clients and neighbours a test plays.
//!
//! A turn of a node has conditions. Those that no type and no clause gives are tested here before the turn, and where one does not
//! hold the turn is not taken. So a test calls a node without a proof of its own.
#![tactic(auto)]

mod coming;
mod lone;
mod places;
mod play;
mod says;
mod starting;
mod turns;

pub use coming::Comes;
pub use lone::LoneNode;
pub use play::{Step, Turn, Wrote};
pub use says::{Letter, Says};
