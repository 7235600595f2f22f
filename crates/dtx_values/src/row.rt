//! Rows, and what a transaction changes of them.
ghost use Rattle.std.specs.Prelude.{◌≡◌};

use crate::{Cells, Duplicate, Listing, Name, Value};
use std::alloc::{AllocError, Global};

/// One row of a table, a cell for each column.
pub struct Row {
    /// A cell for each column of the table, in their order.
    pub cells: Cells,
}

impl Drop for Row {
    fn drop(self) {
        let Row { cells } = self;
        drop(cells);
    }
}

impl Row {
    /// The cells alone.
    pub fn into_cells(self) -> Cells
        ensures { result ≡ self.cells }
    {
        let Row { cells } = self;
        cells
    }
}

/// Rows in order.
pub type Rows = Listing<Row>;

impl Duplicate for Row {
    fn copy(&self, alloc: Global) -> Result<Row, AllocError> {
        let cells = self.cells.copy(alloc)?;
        Ok(Row { cells })
    }
}

/// What a table has at a key afterwards: a row, or none.
pub struct Change {
    /// The name of the table.
    pub table: Name,
    /// The key.
    pub key: Value,
    /// The row that stands at the key afterwards, or nothing where it is deleted.
    pub after: Option<Row>,
}

impl Drop for Change {
    fn drop(self) {
        let Change { table, key, after } = self;
        drop(table);
        drop(key);
        drop(after);
    }
}

/// Changes in the order in which they were made.
pub type Changes = Listing<Change>;

impl Duplicate for Change {
    fn copy(&self, alloc: Global) -> Result<Change, AllocError> {
        Ok(Change {
            table: self.table.copy(alloc)?,
            key: self.key.copy(alloc)?,
            after: self.after.copy(alloc)?,
        })
    }
}
