//! Rows that are put at places made for them before.
ghost use Rattle.std.specs.Prelude.{◌≡◌, ◌||◌, [], true, unwrap_or, IfOk, OnOk, OnErr};
ghost use Rattle.std.specs.Option.{option_copied};
ghost use Rattle.dtx_values.specs.declared.value.Value.{Value as AnyValue};
ghost use Rattle.dtx_values.specs.Order.{same_value};
ghost use Rattle.sql_eval.specs.Rows.{get as get_of, set_to};
ghost use Rattle.row_store.specs.ByBranch.{changes_kept};
ghost use Rattle.row_store.specs.Places.{rows_at, has_place, AreRising};
ghost use Rattle.row_store.specs.TablePlaces.{left_at, left_by};

use crate::own_sets::OwnSets;
use dtx_values::{Duplicate, Name, Row, Value};
use sql_eval::KeyedRef;
use std::alloc::{AllocError, Global};
use std::collections::BTreeMap;
use std::marker::Model;
use std::mem;

/// The rows of a table by their keys, and places for rows to come. A row that is put at a place takes no memory.
pub(crate) struct RowPlaces {
    rows: BTreeMap<Value, Option<Row>>,
}

impl Drop for RowPlaces {
    fn drop(self) {
        let RowPlaces { rows } = self;
        drop(rows);
    }
}

impl Model for RowPlaces {
    ghost use Rattle.std.specs.Prelude.{List};
    ghost use Rattle.row_store.specs.Places.{Place, coded_places, AreRising};

    ghost Value = { List Place };

    ghost coded = { coded_places };

    ghost view = { λ p. p.rows.entries };

    ghost invariant = { λ p. AreRising p.rows.entries };
}

impl RowPlaces {
    /// No place.
    pub(crate) fn new(alloc: Global) -> RowPlaces
        ensures { result ≡ [] }
    {
        RowPlaces {
            rows: BTreeMap::new(alloc),
        }
    }

    /// The row at a key.
    pub(crate) fn get(&self, key: &Value) -> Option<&Row>
        ensures row { option_copied result ≡ get_of (rows_at self.now) key.now }

        // The keys rise.
        ensures rising { AreRising self.now }
    {
        match self.rows.get(key) {
            Some(row) => row.as_ref(),
            None => None,
        }
    }

    /// All rows where they stand, in key order.
    pub(crate) fn refs(&self, alloc: Global) -> Result<Vec<KeyedRef<'_>>, AllocError>
        ensures rows { IfOk result (λ rows. rows.items ≡ rows_at self.now) }

        // The keys rise.
        ensures rising { AreRising self.now }
    {
        let mut rows = Vec::new(alloc);
        for (key, row) in &self.rows {
            if let Some(row) = row {
                rows.push(KeyedRef { key, row })?;
            }
        }
        Ok(rows)
    }

    /// The same with the rows that a branch's changes of the table leave at their keys. Where there is no change, no key is
    /// looked up.
    pub(crate) fn refs_with<'a>(
        &'a self,
        alloc: Global,
        table: &Name,
        own: &'a OwnSets,
    ) -> Result<Vec<KeyedRef<'a>>, AllocError>
        ensures rows { IfOk result (λ rows. rows.items ≡ rows_at (left_by table.now own.now.changes self.now)) }
        ensures rising { AreRising self.now }
    {
        if !own.has_changes() {
            return self.refs(alloc);
        }
        let mut rows = Vec::new(alloc);
        for (key, row) in &self.rows {
            if let Some(row) = left(own, table, key, row) {
                rows.push(KeyedRef { key, row })?;
            }
        }
        Ok(rows)
    }

    /// Makes a place for a key, if there is none.
    pub(crate) fn make(&mut self, alloc: Global, key: &Value) -> Result<(), AllocError>
        ensures rows { rows_at self.new ≡ rows_at self.old }
        ensures places { OnOk result ((other : AnyValue) → has_place self.new other ≡ (same_value key.now other || has_place self.old other)) }
        ensures err { OnErr result (self.new ≡ self.old) }
    {
        if !self.rows.contains_key(key) {
            drop(self.rows.insert(key.copy(alloc)?, None)?);
        }
        Ok(())
    }

    /// Puts a row, or none, at the place of a key.
    pub(crate) fn set(&mut self, key: &Value, after: Option<Row>)
        requires place { has_place self.old key.now ≡ true }
        ensures rows { rows_at self.new ≡ set_to (rows_at self.old) key.now after }
        ensures places { (other : AnyValue) → has_place self.new other ≡ has_place self.old other }
    {
        if let Some(row) = self.rows.get_mut(key) {
            drop(mem::replace(row, after));
        } else {
            drop(after);
        }
    }
}

// The row that a branch's changes leave at the place of a key.
fn left<'a>(own: &'a OwnSets, table: &Name, key: &Value, row: &'a Option<Row>) -> Option<&'a Row>
    ensures { option_copied result ≡ left_at table.now own.now.changes (key.now, row.now) }
{
    match own.last_at(table, key) {
        Some(after) => after.as_ref(),
        None => row.as_ref(),
    }
}

/// All rows at these places where they stand, with those that a branch's changes of the table leave there.
pub(crate) fn refs_seen<'a>(
    alloc: Global,
    places: &'a RowPlaces,
    table: &Name,
    own: Option<&'a OwnSets>,
) -> Result<Vec<KeyedRef<'a>>, AllocError>
    ensures rows { IfOk result (λ rows. rows.items ≡ rows_at (left_by table.now (changes_kept (option_copied own.entry)) places.now)) }
    ensures rising { AreRising places.now }
{
    match own {
        Some(own) => places.refs_with(alloc, table, own),
        None => places.refs(alloc),
    }
}
