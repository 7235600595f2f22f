//! What SHOW UNDO prints: the undo that branches hold at a node, live ones and those in doubt, with the extents of each.
//! (Database Administrator's Guide, "Managing Undo".)
#![tactic(auto)]

mod printing;
mod rows;
mod undo;

pub use printing::undo_lines;
pub use rows::undos;
pub use undo::{Undo, Undos};
