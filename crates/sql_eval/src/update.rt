//! The changes of an UPDATE and of a DELETE: SQL Language Reference, "UPDATE" and "DELETE".
ghost use Rattle.std.specs.Prelude.{◌≡◌, slice_set, IfOk, Ok};
ghost use Rattle.std.specs.Option.{option_copied};
ghost use Rattle.sql_eval.specs.Outcomes.{Gives};
ghost use Rattle.sql_eval.specs.Meaning.{set_cell as set_cell_of, set_value as set_value_of, set_one as set_one_of, set_all as set_all_of, update as update_of, updated as updated_of, deleted as deleted_of, removal as removal_of};

use crate::KeyedRef;
use crate::sql_err::SqlErr;
use dtx_values::{Change, Changes, Column, Duplicate, Listing, Row, Table, Value, is_null};
use sql_check::{OUT_OF_RANGE, column_of, of_column, place_of, plain, sum_value, too_long};
use sql_statement::Set;
use std::alloc::{AllocError, Global};

fn with_cell(row: Row, place: usize, value: Value) -> Row
    ensures { result ≡ record { cells = slice_set row.cells place value } }
{
    let mut cells = row.into_cells().into_vec();
    if let Some(cell) = cells.get_mut(place) {
        *cell = value;
    }
    Row {
        cells: Listing::of(cells),
    }
}

// ORA-01407, then ORA-12899, else the row with this cell.
fn set_cell(
    alloc: Global,
    table: &Table,
    column: &Column,
    place: usize,
    after: Row,
    value: Value,
) -> Result<Row, SqlErr>
    ensures { Gives (λ row. row) result (set_cell_of table.now column.now place after value) }
{
    if is_null(&value) && column.not_null {
        return Err(SqlErr::Refused(of_column(alloc, 1407, table, column)?));
    }
    match too_long(alloc, table, column, &value)? {
        Some(refusal) => Err(SqlErr::Refused(refusal)),
        None => Ok(with_cell(after, place, value)),
    }
}

// One column set to a value, where there is one: else DTX-09.
fn set_value(
    alloc: Global,
    table: &Table,
    column: Option<&Column>,
    place: usize,
    after: Row,
    value: Option<Value>,
) -> Result<Row, SqlErr>
    ensures { Gives (λ row. row) result (set_value_of table.now (option_copied column.entry) place after value) }
{
    match value {
        None => Err(SqlErr::Refused(plain(alloc, OUT_OF_RANGE))),
        Some(value) => match column {
            None => Ok(after),
            Some(column) => set_cell(alloc, table, column, place, after, value),
        },
    }
}

// One assignment, over the row from before.
fn set_one(alloc: Global, table: &Table, before: &Row, after: Row, set: &Set) -> Result<Row, SqlErr>
    ensures { Gives (λ row. row) result (set_one_of table.now before.now after set.now) }
{
    let value = sum_value(alloc, table, before, &set.to)?;
    let place = place_of(table, &set.column).unwrap_or(0);
    set_value(
        alloc,
        table,
        column_of(table, &set.column),
        place,
        after,
        value,
    )
}

// All assignments, in the order of the text.
fn set_all(alloc: Global, table: &Table, before: &Row, sets: &[Set]) -> Result<Row, SqlErr>
    ensures { Gives (λ row. row) result (set_all_of table.now before.now (Ok before.now) sets.now) }
{
    let mut after = before.copy(alloc)?;
    for set in sets {
        after = match set_one(alloc, table, before, after, set) {
            Ok(after) => after,
            Err(error) => return Err(error),
        };
    }
    Ok(after)
}

fn update(alloc: Global, table: &Table, sets: &[Set], keyed: &KeyedRef) -> Result<Change, SqlErr>
    ensures { Gives (λ change. change) result (update_of table.now sets.now keyed.now) }
{
    let after = set_all(alloc, table, keyed.row, sets)?;
    Ok(Change {
        table: table.name.copy(alloc)?,
        key: keyed.key.copy(alloc)?,
        after: Some(after),
    })
}

/// The changes of an UPDATE of these rows, in their order, and in each row the assignments in the order of the text,
/// all over the row from before. The first refusal ends it: DTX-09, ORA-01407 or ORA-12899.
#[tactic(auto, using(crate::proofs::ChangeLemmas::changes))]
pub fn updated(
    alloc: Global,
    table: &Table,
    sets: &[Set],
    rows: &[KeyedRef],
) -> Result<Changes, SqlErr>
    ensures { Gives (λ changes. changes) result (updated_of table.now sets.now rows.now) }
{
    let mut changes = Vec::new(alloc);
    for keyed in rows {
        changes.push(update(alloc, table, sets, keyed)?)?;
    }
    Ok(Listing::of(changes))
}

fn removal(alloc: Global, table: &Table, keyed: &KeyedRef) -> Result<Change, AllocError>
    ensures { IfOk result (λ change. change ≡ removal_of table.now keyed.now) }
{
    Ok(Change {
        table: table.name.copy(alloc)?,
        key: keyed.key.copy(alloc)?,
        after: None,
    })
}

/// The changes of a DELETE of these rows.
pub fn deleted(alloc: Global, table: &Table, rows: &[KeyedRef]) -> Result<Changes, AllocError>
    ensures { IfOk result (λ changes. changes ≡ deleted_of table.now rows.now) }
{
    let mut changes = Vec::new(alloc);
    for keyed in rows {
        changes.push(removal(alloc, table, keyed)?)?;
    }
    Ok(Listing::of(changes))
}
