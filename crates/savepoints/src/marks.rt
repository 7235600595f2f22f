//! The notes of a branch, and its savepoints.
ghost use Rattle.std.specs.Prelude.{◌≡◌};

use dtx_values::{Listing, Name, Value};

/// A key of a table.
pub struct RowKey {
    /// The table.
    pub table: Name,
    /// The key.
    pub key: Value,
}

impl Drop for RowKey {
    fn drop(self) {
        let RowKey { table, key } = self;
        drop(table);
        drop(key);
    }
}

/// Keys in the order in which they were written.
pub type RowKeys = Listing<RowKey>;

/// The call numbers of edges, in order of reference.
pub type CallNumbers = Listing<u32>;

/// What a branch notes of a statement that ran here, or of a call to a child.
pub struct Note {
    /// The step: at a root the number of its client's calls so far, elsewhere that of the last call that came.
    pub step: u32,
    /// How many lists of changes the statement made: one, or none.
    pub sets: u32,
    /// The keys that it wrote.
    pub keys: RowKeys,
    /// The last call number of each edge, and 0 before any.
    pub calls: CallNumbers,
}

impl Drop for Note {
    fn drop(self) {
        let Note {
            step: _step,
            sets: _sets,
            keys,
            calls,
        } = self;
        drop(keys);
        drop(calls);
    }
}

/// Notes in the order of their steps.
pub type Notes = Listing<Note>;

/// A savepoint of a transaction.
pub struct Savepoint {
    /// Its name.
    pub name: Name,
    /// The step of its SAVEPOINT.
    pub step: u32,
}

impl Drop for Savepoint {
    fn drop(self) {
        let Savepoint { name, step: _step } = self;
        drop(name);
    }
}

/// Savepoints in the order in which they were set.
pub type Savepoints = Listing<Savepoint>;

/// What a branch needs to go back.
pub struct Marks {
    /// What it noted.
    pub notes: Notes,
    /// The savepoints of its transaction, at a root.
    pub savepoints: Savepoints,
}

impl Drop for Marks {
    fn drop(self) {
        let Marks { notes, savepoints } = self;
        drop(notes);
        drop(savepoints);
    }
}
