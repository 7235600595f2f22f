//! How many bytes values, rows and changes take. No memory could hold changes whose bytes 64 bits cannot count, so such a
//! count is answered as out of memory.
ghost use Rattle.std.specs.Prelude.{◌≡◌, ◌+◌, ◌^◌, ◌≤◌, sum_by, IfOk, OnErr};
ghost use Rattle.std.specs.Option.{option_copied};
ghost use Rattle.sql_eval.specs.Rows.{value_length, row_length, change_length};
ghost use Rattle.row_store.specs.Own.{changes_length, extents as extents_of};

use dtx_values::{Change, EXTENT_SIZE, Row, Value};
use std::alloc::AllocError;

// The bytes of a value: one for NULL, nine for a number, and three more than its own for a text.
fn value_len(value: &Value) -> u64
    ensures { result ≡ value_length value.now }
{
    match value {
        Value::Null => 1,
        Value::Number(_) => 9,
        Value::Text(text) => 3 + text.as_bytes().len() as u64,
    }
}

// The bytes of a row, or of no row.
fn row_len(row: Option<&Row>) -> Result<u64, AllocError>
    ensures bytes { IfOk result (λ bytes. bytes ≡ row_length (option_copied row.entry)) }
    ensures many { OnErr result (2 ^ 64 ≤ row_length (option_copied row.entry)) }
{
    match row {
        None => Ok(1),
        Some(row) => sum(2, cells_len(row.cells.as_slice())?),
    }
}

/// The bytes of a change.
pub(crate) fn change_len(change: &Change) -> Result<u64, AllocError>
    ensures bytes { IfOk result (λ bytes. bytes ≡ change_length change.now) }
    ensures many { OnErr result (2 ^ 64 ≤ change_length change.now) }
{
    let table = change.table.as_bytes().len() as u64;
    let place = sum(1 + table, value_len(&change.key))?;
    sum(place, row_len(change.after.as_ref())?)
}

/// The bytes of changes.
pub fn changes_len(changes: &[Change]) -> Result<u64, AllocError>
    ensures bytes { IfOk result (λ bytes. bytes ≡ changes_length changes.now) }
    ensures many { OnErr result (2 ^ 64 ≤ changes_length changes.now) }
{
    let mut bytes: u64 = 0;
    for change in changes {
        bytes = sum(bytes, change_len(change)?)?;
    }
    Ok(bytes)
}

/// The extents that so many bytes of undo take, each of `EXTENT_SIZE` bytes.
pub fn extents(bytes: u64) -> u64
    ensures { result ≡ extents_of bytes }
{
    bytes.div_ceil(EXTENT_SIZE)
}

/// A sum, where 64 bits can hold it.
pub(crate) fn sum(a: u64, b: u64) -> Result<u64, AllocError>
    ensures sum { IfOk result (λ sum. sum ≡ a + b) }
    ensures many { OnErr result (2 ^ 64 ≤ a + b) }
{
    a.checked_add(b).ok_or(AllocError)
}

// The bytes of cells.
fn cells_len(cells: &[Value]) -> Result<u64, AllocError>
    ensures bytes { IfOk result (λ bytes. bytes ≡ sum_by value_length cells.now) }
    ensures many { OnErr result (2 ^ 64 ≤ sum_by value_length cells.now) }
{
    let mut bytes: u64 = 0;
    for cell in cells {
        bytes = sum(bytes, value_len(cell))?;
    }
    Ok(bytes)
}
