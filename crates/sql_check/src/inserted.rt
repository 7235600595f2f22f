//! The cells of the row that an INSERT gives, and what is wrong with them: SQL Language Reference, "INSERT".
ghost use Rattle.std.specs.Prelude.{◌≡◌, map, zip, slice_get, IfOk};
ghost use Rattle.std.specs.Option.{option_copied};
ghost use Rattle.sql_check.specs.Words.{first_some};
ghost use Rattle.sql_check.specs.Columns.{given_columns as given_columns_of};
ghost use Rattle.sql_check.specs.Inserted.{given_value as given_value_of, inserted_cells as inserted_cells_of, cells_of as cells_in, no_row as no_row_of};
ghost use Rattle.sql_check.specs.Checks.{cell_null as cell_null_of, too_long as too_long_of, text_length as text_length_of};

use crate::refusal::{of_column, of_width};
use crate::sum::sum_value;
use dtx_values::{Column, Listing, Name, Names, Refusal, Row, Table, Value, is_null};
use sql_statement::Sum;
use std::alloc::{AllocError, Global};

/// The column that an INSERT gives its value at a place, from 0: the one that it names there, or that of the table.
pub fn given_column<'a>(
    table: &'a Table,
    columns: &'a Option<Names>,
    place: usize,
) -> Option<&'a Name>
    ensures { option_copied result ≡ slice_get (given_columns_of table.now columns.now) place }
{
    match columns {
        None => {
            let column = table.columns.as_slice().get(place)?;
            Some(&column.name)
        }
        Some(names) => names.as_slice().get(place),
    }
}

fn no_row(alloc: Global) -> Row
    ensures { result ≡ no_row_of }
{
    Row {
        cells: Listing::new(alloc),
    }
}

// What an INSERT gives the column of this name, or nothing where the sum is out of range.
#[tactic(auto, using(crate::proofs::ZipLemmas::zip_ends))]
fn given_value(
    alloc: Global,
    table: &Table,
    columns: &Option<Names>,
    values: &[Sum],
    column: &Name,
) -> Result<Option<Value>, AllocError>
    ensures { IfOk result (λ value. value ≡ given_value_of table.now (zip (given_columns_of table.now columns.now) values.now) column.now) }
{
    for (place, value) in values.iter().enumerate() {
        let Some(name) = given_column(table, columns, place) else {
            return Ok(Some(Value::Null));
        };
        if name.is(column) {
            return sum_value(alloc, table, &no_row(alloc), value);
        }
    }
    Ok(Some(Value::Null))
}

/// The cells of the row that an INSERT gives, with nothing where a sum is out of range.
pub fn inserted_cells(
    alloc: Global,
    table: &Table,
    columns: &Option<Names>,
    values: &[Sum],
) -> Result<Vec<Option<Value>>, AllocError>
    ensures { IfOk result (λ cells. cells.items ≡ inserted_cells_of table.now columns.now values.now) }
{
    let due = table.columns.as_slice();
    let mut cells = Vec::with_capacity(alloc, due.len())?;
    for column in due {
        cells.push(given_value(alloc, table, columns, values, &column.name)?)?;
    }
    Ok(cells)
}

/// Cells, with NULL in place of nothing.
pub fn cells_of(alloc: Global, values: Vec<Option<Value>>) -> Result<Vec<Value>, AllocError>
    ensures { IfOk result (λ cells. cells.items ≡ cells_in values.items) }
{
    let mut cells = Vec::with_capacity(alloc, values.len())?;
    for value in values {
        cells.push(value.unwrap_or(Value::Null))?;
    }
    Ok(cells)
}

fn text_length(value: &Value) -> usize
    ensures { result ≡ text_length_of value.now }
{
    match value {
        Value::Text(text) => text.as_bytes().len(),
        Value::Null | Value::Number(_) => 0,
    }
}

/// ORA-12899: a text is longer than its column.
pub fn too_long(
    alloc: Global,
    table: &Table,
    column: &Column,
    value: &Value,
) -> Result<Option<Refusal>, AllocError>
    ensures { IfOk result (λ refusal. refusal ≡ too_long_of table.now column.now value.now) }
{
    let length = text_length(value);
    match column.text_max {
        None => Ok(None),
        Some(width) => {
            if usize::from(width) < length {
                Ok(Some(of_width(alloc, table, column, length, width)?))
            } else {
                Ok(None)
            }
        }
    }
}

// ORA-01400: a column that may not be NULL is NULL.
fn cell_null(
    alloc: Global,
    table: &Table,
    column: &Column,
    value: &Value,
) -> Result<Option<Refusal>, AllocError>
    ensures { IfOk result (λ refusal. refusal ≡ cell_null_of table.now (column.now, value.now)) }
{
    if (column.key || column.not_null) && is_null(value) {
        Ok(Some(of_column(alloc, 1400, table, column)?))
    } else {
        Ok(None)
    }
}

/// ORA-01400 for the first column of these, in their order.
#[tactic(auto, using(crate::proofs::ZipLemmas::zip_ends))]
pub fn first_null(
    alloc: Global,
    table: &Table,
    columns: &[Column],
    cells: &[Value],
) -> Result<Option<Refusal>, AllocError>
    ensures { IfOk result (λ refusal. refusal ≡ first_some (map (cell_null_of table.now) (zip columns.now cells.now))) }
{
    for (place, cell) in cells.iter().enumerate() {
        let Some(column) = columns.get(place) else {
            return Ok(None);
        };
        if let Some(refusal) = cell_null(alloc, table, column, cell)? {
            return Ok(Some(refusal));
        }
    }
    Ok(None)
}

/// ORA-12899 for the first column of these, in their order.
#[tactic(auto, using(crate::proofs::ZipLemmas::zip_ends))]
pub fn first_too_long(
    alloc: Global,
    table: &Table,
    columns: &[Column],
    cells: &[Value],
) -> Result<Option<Refusal>, AllocError>
    ensures { IfOk result (λ refusal. refusal ≡ first_some (map (λ p. too_long_of table.now p.0 p.1) (zip columns.now cells.now))) }
{
    for (place, cell) in cells.iter().enumerate() {
        let Some(column) = columns.get(place) else {
            return Ok(None);
        };
        if let Some(refusal) = too_long(alloc, table, column, cell)? {
            return Ok(Some(refusal));
        }
    }
    Ok(None)
}
