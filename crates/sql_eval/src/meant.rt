//! What a statement says of a table.

use dtx_values::{Changes, Done, Listing, Refusal, RowSet, Value};

/// What a statement says of a table, once it has passed the checks that need no row.
#[derive(Drop)]
pub enum Meant {
    /// A query finds rows.
    Gives(RowSet),
    /// So many rows are changed, by these changes.
    Changes {
        /// What was done to the rows.
        done: Done,
        /// How many rows are changed.
        count: usize,
        /// The changes, in the order of the keys.
        changes: Changes,
    },
    /// It is refused.
    Refused(Refusal),
}

/// What a statement comes to over the rows of its table.
#[derive(Drop)]
pub struct StmtMeaning {
    /// The keys that it writes.
    pub keys: Listing<Value>,
    /// What it means.
    pub meant: Meant,
}
