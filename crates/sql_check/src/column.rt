//! The columns of a table, and what a row has in them.
ghost use Rattle.std.specs.Prelude.{◌≡◌, position, IfOk};
ghost use Rattle.std.specs.Option.{option_copied};
ghost use Rattle.sql_check.specs.Columns.{place_of as place_in, column_of as column_in, is_key as is_key_of, key_of_row as key_in, cell as cell_of};
ghost use Rattle.sql_check.specs.Cells.{or_null};

use dtx_values::{Column, Duplicate, Name, Row, Table, Value};
use std::alloc::{AllocError, Global};

/// The place of a column in its table, from 0.
pub fn place_of(table: &Table, name: &Name) -> Option<usize>
    ensures { result ≡ place_in table.now name.now }
{
    table
        .columns
        .as_slice()
        .iter()
        .position(|column| column.name.is(name))
}

/// The column of a name.
pub fn column_of<'a>(table: &'a Table, name: &Name) -> Option<&'a Column>
    ensures { option_copied result ≡ column_in table.now name.now }
{
    for column in table.columns.as_slice() {
        if column.name.is(name) {
            return Some(column);
        }
    }
    None
}

/// Whether this is the name of the key column.
pub fn is_key(table: &Table, name: &Name) -> bool
    ensures { result ≡ is_key_of table.now name.now }
{
    table
        .columns
        .as_slice()
        .iter()
        .any(|column| column.key && column.name.is(name))
}

fn key_place(table: &Table) -> Option<usize>
    ensures { result ≡ position (λ c. c.key) table.now.columns }
{
    table
        .columns
        .as_slice()
        .iter()
        .position(|column| column.key)
}

/// What a row of these cells has in the key column, where it is not NULL for want of a cell.
pub fn key_of_row<'a>(table: &Table, cells: &'a [Value]) -> Option<&'a Value>
    ensures { or_null (option_copied result) ≡ key_in table.now cells.now }
{
    cells.get(key_place(table).unwrap_or(0))
}

/// What a row has in the column of a name, where it is not NULL for want of a cell.
pub fn cell<'a>(table: &Table, row: &'a Row, name: &Name) -> Option<&'a Value>
    ensures { or_null (option_copied result) ≡ cell_of table.now row.now name.now }
{
    let cells = row.cells.as_slice();
    cells.get(place_of(table, name).unwrap_or(cells.len()))
}

/// A copy of what a cell has, where no cell is NULL.
pub fn copy_or_null(alloc: Global, cell: Option<&Value>) -> Result<Value, AllocError>
    ensures { IfOk result (λ value. value ≡ or_null (option_copied cell.entry)) }
{
    match cell {
        None => Ok(Value::Null),
        Some(value) => value.copy(alloc),
    }
}
