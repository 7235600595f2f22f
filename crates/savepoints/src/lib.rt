//! Savepoints: what a branch notes of its statements, so that it can go back to where it was.
//!
//! Each note has the step of what it notes, and steps rise. `specs/Marks.antt` has the definitions.
#![tactic(auto)]

mod back;
mod marks;

ghost use Rattle.savepoints.specs.TriedMarks.{TheTriedMarks};

pub use back::wrote;
pub use marks::{CallNumbers, Marks, Note, Notes, RowKey, RowKeys, Savepoint, Savepoints};

/// A branch that goes back to a savepoint keeps the statement of the savepoint's own step, and none behind it.
pub fn the_tried_marks()
    ensures { TheTriedMarks }
{}
