//! What a statement does at the node of its table.

use dtx_values::{Changes, Done, Refusal, RowSet};
use row_locks::Keys;

/// What a statement does at the node of its table.
#[derive(Drop)]
pub enum StmtOutcome {
    /// It is refused: nothing is changed and nothing is locked.
    Refuses(Refusal),
    /// It gives rows, and locks keys where it is FOR UPDATE.
    Reads {
        /// The rows that it gives.
        rows: RowSet,
        /// The keys that it locks.
        keys: Keys,
    },
    /// It makes changes, and locks their keys.
    Writes {
        /// What was done to the rows.
        done: Done,
        /// The changes that it makes.
        changes: Changes,
        /// The keys that it locks.
        keys: Keys,
        /// The bytes of the changes' undo.
        undo: u64,
    },
}
