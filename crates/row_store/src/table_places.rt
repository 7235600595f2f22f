//! The committed rows of all tables, at places that are made for them before.
ghost use Rattle.std.specs.Prelude.{◌≡◌, List, ℕ, [], ◌∷◌, true, false, OnOk, OnErr};
ghost use Rattle.std.specs.List.{list_any};
ghost use Rattle.std.specs.Option.{option_copied};
ghost use Rattle.dtx_values.specs.declared.value.Value.{Value as AnyValue};
ghost use Rattle.sql_check.specs.Words.{same_text};
ghost use Rattle.std.specs.List.Sorted.{IsStrictlySortedBy};
ghost use Rattle.dtx_values.specs.Order.{value_cmp};
ghost use Rattle.sql_eval.specs.Rows.{get as get_of, keys_of};
ghost use Rattle.row_store.specs.Tables.{apply_all, rows_of_table, with_table};
ghost use Rattle.row_store.specs.TablePlaces.{rows_in, places_of, has_place_in, is_table_in};

use crate::row_places::RowPlaces;
use dtx_values::{Change, Name, Row, Value};
use indexmap::IndexMap;
use std::alloc::{AllocError, Global};
use std::marker::Model;

/// The rows of each table, found by a hash table of the names.
pub(crate) struct TablePlaces {
    tables: IndexMap<Name, RowPlaces>,
}

impl Drop for TablePlaces {
    fn drop(self) {
        let TablePlaces { tables } = self;
        drop(tables);
    }
}

impl Model for TablePlaces {
    ghost use Rattle.std.specs.Prelude.{List, ℕ};
    ghost use Rattle.row_store.specs.TablePlaces.{Shelf};

    ghost Value = { List Shelf };

    ghost view = { λ t. t.tables.entries };
}

impl TablePlaces {
    /// No table.
    pub(crate) fn new(alloc: Global) -> TablePlaces
        ensures { result ≡ [] }
    {
        TablePlaces {
            tables: IndexMap::new(alloc),
        }
    }

    /// The row at a key of a table.
    pub(crate) fn get(&self, table: &Name, key: &Value) -> Option<&Row>
        ensures row { option_copied result ≡ get_of (rows_of_table (rows_in self.now) table.now) key.now }

        // The keys rise.
        ensures ordered { IsStrictlySortedBy value_cmp (keys_of (rows_of_table (rows_in self.now) table.now)) }
    {
        match self.tables.get(table) {
            Some(rows) => rows.get(key),
            None => None,
        }
    }

    /// The places of a table, where it is there.
    pub(crate) fn places(&self, table: &Name) -> Option<&RowPlaces>
        ensures { option_copied result ≡ places_of self.now table.now }
    {
        self.tables.get(table)
    }

    /// Adds a table of a new name, with no rows.
    pub(crate) fn add_table(&mut self, alloc: Global, table: Name) -> Result<(), AllocError>
        requires new { list_any (λ t. same_text t.table table) (rows_in self.old) ≡ false }
        ensures rows { OnOk result (rows_in self.new ≡ with_table (rows_in self.old) table) }
        ensures places { (name : List ℕ) (key : AnyValue) → has_place_in self.old name key ≡ true → has_place_in self.new name key ≡ true }
        ensures err { OnErr result (self.new ≡ self.old) }
    {
        drop(self.tables.insert(table, RowPlaces::new(alloc))?);
        Ok(())
    }

    /// Makes a place for the key of a change, if there is none.
    pub(crate) fn make(&mut self, alloc: Global, change: &Change) -> Result<(), AllocError>
        requires table { is_table_in self.old change.now.table ≡ true }
        ensures rows { rows_in self.new ≡ rows_in self.old }
        ensures tables { (name : List ℕ) → is_table_in self.new name ≡ is_table_in self.old name }
        ensures places { (name : List ℕ) (key : AnyValue) → has_place_in self.old name key ≡ true → has_place_in self.new name key ≡ true }
        ensures made { OnOk result (has_place_in self.new change.now.table change.now.key ≡ true) }
    {
        if let Some(place) = self.tables.get_index_of(&change.table) {
            self.tables[place].make(alloc, &change.key)?;
        }
        Ok(())
    }

    /// Puts a row, or none, at the place of a key.
    pub(crate) fn set(&mut self, table: &Name, key: &Value, after: Option<Row>)
        requires place { has_place_in self.old table.now key.now ≡ true }
        ensures rows { rows_in self.new ≡ apply_all (rows_in self.old) (record { table = table.now; key = key.now; after = after } ∷ []) }
        ensures places { (name : List ℕ) (other : AnyValue) → has_place_in self.new name other ≡ has_place_in self.old name other }
    {
        if let Some(place) = self.tables.get_index_of(table) {
            self.tables[place].set(key, after);
        } else {
            drop(after);
        }
    }
}
