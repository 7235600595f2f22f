//! Rows with their keys.
ghost use Rattle.std.specs.Prelude.{◌≡◌};

use dtx_values::{Duplicate, Row, Value};
use std::alloc::{AllocError, Global};
use std::marker::Model;

/// A row of a table, and its key. A table's rows stand in the order of their keys.
#[derive(Drop)]
pub struct Keyed {
    /// What the row has in the key column.
    pub key: Value,
    /// The row.
    pub row: Row,
}

impl Duplicate for Keyed {
    fn copy(&self, alloc: Global) -> Result<Keyed, AllocError> {
        Ok(Keyed {
            key: self.key.copy(alloc)?,
            row: self.row.copy(alloc)?,
        })
    }
}

/// A row of a table and its key, where they stand. Contracts see it as the row with its key.
#[derive(Drop)]
pub struct KeyedRef<'a> {
    /// What the row has in the key column.
    pub key: &'a Value,
    /// The row.
    pub row: &'a Row,
}

impl<'a> Model for KeyedRef<'a> {
    ghost use Rattle.sql_eval.specs.declared.keyed.Keyed.{Keyed};

    ghost Value = { Keyed };

    ghost view = { λ r. record { key = r.key.now; row = r.row.now } };
}
