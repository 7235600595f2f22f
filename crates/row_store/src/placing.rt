//! Changes at the places of their keys: the places are made while memory can run out, and then the changes.
ghost use Rattle.std.specs.Prelude.{◌≡◌, ℕ, List, [], ◌∷◌, ◌++◌, true, None, unwrap_or, IfOk, OnOk};
ghost use Rattle.std.specs.Option.{option_copied};
ghost use Rattle.dtx_values.specs.declared.value.Value.{Value as AnyValue};
ghost use Rattle.sql_eval.specs.Rows.{get as get_of};
ghost use Rattle.row_store.specs.Pending.{undo_over};
ghost use Rattle.row_store.specs.Tables.{apply_all, rows_of_table};
ghost use Rattle.row_store.specs.TablePlaces.{rows_in, has_place_in};
ghost use Rattle.row_store.specs.AllPlaced.{ArePlaced};
ghost use Rattle.row_store.specs.Store.{has_table, AreOfTables};

use crate::made::MadeChanges;
use crate::table_places::TablePlaces;
use crate::undoing::add_undo;
use dtx_values::{Change, Changes, Duplicate, Row};
use std::alloc::{AllocError, Global};
use undo_book::UndoSet;

/// Changes that can be found by their keys, with their undo.
#[derive(Drop)]
pub(crate) struct UndoneChanges {
    pub(crate) made: MadeChanges,
    pub(crate) undo: UndoSet,
}

/// Makes these changes at their places.
pub(crate) fn make_changes(tables: &mut TablePlaces, changes: Vec<Change>)
    requires places { ArePlaced tables.old changes.items }
    ensures rows { rows_in tables.new ≡ apply_all (rows_in tables.old) changes.items }
    ensures places { (name : List ℕ) (key : AnyValue) → has_place_in tables.new name key ≡ has_place_in tables.old name key }
{
    for change in changes {
        make_change(tables, change);
    }
}

// Makes a change at its place.
fn make_change(tables: &mut TablePlaces, change: Change)
    requires place { has_place_in tables.old change.table change.key ≡ true }
    ensures rows { rows_in tables.new ≡ apply_all (rows_in tables.old) (change ∷ []) }
    ensures places { (name : List ℕ) (key : AnyValue) → has_place_in tables.new name key ≡ has_place_in tables.old name key }
{
    let mut change = change;
    let after = change.after.take();
    tables.set(&change.table, &change.key, after);
}

/// Makes a place for each of these changes. After an error some may have been made.
pub(crate) fn make_places(
    alloc: Global,
    tables: &mut TablePlaces,
    changes: &[Change],
) -> Result<(), AllocError>
    requires tables { AreOfTables (rows_in tables.old) changes.now }
    ensures rows { rows_in tables.new ≡ rows_in tables.old }
    ensures places { (name : List ℕ) (key : AnyValue) → has_place_in tables.old name key ≡ true → has_place_in tables.new name key ≡ true }
    ensures made { OnOk result (ArePlaced tables.new changes.now) }
{
    for change in changes {
        tables.make(alloc, change)?;
    }
    Ok(())
}

/// Changes in order with their undo: each with the row that stands at its key before it.
pub(crate) fn made_over(
    alloc: Global,
    tables: &TablePlaces,
    changes: Changes,
) -> Result<UndoneChanges, AllocError>
    requires { AreOfTables (rows_in tables.now) changes }
    ensures changes { IfOk result (λ undone. undone.made ≡ changes) }
    ensures undo { IfOk result (λ undone. undone.undo ≡ undo_over (rows_in tables.now) changes) }
{
    let mut made = MadeChanges::new(alloc);
    let mut undo = UndoSet::new(alloc);
    for change in changes.into_vec() {
        add_undo(&mut undo, &change, row_before(tables, &made, &change))?;
        made.push(alloc, change)?;
    }
    Ok(UndoneChanges { made, undo })
}

// The row that stands at the key of a change after those that were made.
fn row_before<'a>(
    tables: &'a TablePlaces,
    made: &'a MadeChanges,
    change: &Change,
) -> Option<&'a Row>
    requires { has_table (rows_in tables.now) change.now.table ≡ true }
    ensures { option_copied result ≡ get_of (rows_of_table (apply_all (rows_in tables.now) made.now) change.now.table) change.now.key }
{
    match made.last_at(&change.table, &change.key) {
        Some(after) => after.as_ref(),
        None => tables.get(&change.table, &change.key),
    }
}

/// Copies of changes.
pub(crate) fn copies(alloc: Global, changes: &[Change]) -> Result<Vec<Change>, AllocError>
    ensures { IfOk result (λ copies. copies.items ≡ changes.now) }
{
    let mut copies = Vec::with_capacity(alloc, changes.len())?;
    for change in changes {
        copies.push(change.copy(alloc)?)?;
    }
    Ok(copies)
}
