//! The rows of a table by their keys.
ghost use Rattle.std.specs.Prelude.{◌≡◌, OnOk, OnErr};
ghost use Rattle.std.specs.Option.{option_copied};
ghost use Rattle.std.specs.FinMap as map;

use crate::{Row, Value};
use std::alloc::{AllocError, Global};
use std::collections::BTreeMap;
use std::marker::Model;

/// Rows by their keys. Contracts see it as a finite map.
#[derive(Drop)]
pub struct RowMap {
    rows: BTreeMap<Value, Row>,
}

impl Model for RowMap {
    ghost use Rattle.std.specs.FinMap as map;
    ghost use Rattle.dtx_values.specs.Order.{value_cmp, coded_value, coded_row};
    ghost use Rattle.dtx_values.specs.declared.row.Row.{Row};

    ghost Value = { map.FinMap value_cmp Row };

    ghost coded = { map.code coded_value coded_row };

    ghost view = { λ a. map.from_entries a.rows.entries };
}

impl RowMap {
    /// No row.
    pub fn new(alloc: Global) -> RowMap
        ensures { result ≡ map.empty }
    {
        RowMap {
            rows: BTreeMap::new(alloc),
        }
    }

    /// The row at a key.
    pub fn get(&self, key: &Value) -> Option<&Row>
        ensures { option_copied result ≡ map.get self.now key.now }
    {
        self.rows.get(key)
    }

    /// Whether there is a row at a key.
    pub fn contains_key(&self, key: &Value) -> bool
        ensures { result ≡ map.contains_key self.now key.now }
    {
        self.rows.contains_key(key)
    }

    /// Puts a row at a key, in place of the one that may be there.
    pub fn insert(&mut self, key: Value, row: Row) -> Result<(), AllocError>
        ensures ok { OnOk result (self.new ≡ map.insert self.old key row) }
        ensures err { OnErr result (self.new ≡ self.old) }
    {
        self.rows.insert(key, row)?;
        Ok(())
    }
}
