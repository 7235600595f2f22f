//! Whether rows and kept branches stand in order.
ghost use Rattle.std.specs.Prelude.{◌≡◌, ◌==◌, length, position};
ghost use Rattle.std.specs.Option.{option_copied};
ghost use Rattle.std.specs.List.{list_all};
ghost use Rattle.image_codec.specs.Order.{goes_on, is_row_of, cell_below, row_below, key_place, are_rows, are_rows_of, may_follow, are_in_order};

use dtx_values::{Row, Rows, Table, Value, value_below};
use redo_record::KeptItem;

/// Where the key column of a table stands, if it has one.
fn key_column(table: &Table) -> Option<usize>
    ensures { result ≡ position (λ c. c.key) table.now.columns }
{
    table
        .columns
        .as_slice()
        .iter()
        .position(|column| column.key)
}

/// Where the key column of a table stands.
fn key_place(table: &Table) -> usize
    ensures { result ≡ key_place table.now }
{
    key_column(table).unwrap_or(0)
}

/// Whether one cell comes before another, where both are there.
fn cell_below(cell: Option<&Value>, other: Option<&Value>) -> bool
    ensures { result ≡ cell_below (option_copied cell.entry) (option_copied other.entry) }
{
    match (cell, other) {
        (Some(cell), Some(other)) => value_below(cell, other),
        _ => false,
    }
}

/// Whether a row comes before the first of others, by their cells at a place.
fn comes_before(place: usize, row: &Row, others: &[Row]) -> bool
    ensures { result ≡ goes_on (row_below place) row.now others.now }
{
    match others {
        [] => true,
        [other, ..] => cell_below(
            row.cells.as_slice().get(place),
            other.cells.as_slice().get(place),
        ),
    }
}

/// Whether the cells at a place rise from row to row.
fn keys_rise(place: usize, rows: &[Row]) -> bool
    ensures { result ≡ is_row_of (row_below place) rows.now }
{
    let mut rest = rows;
    while let [first, others @ ..] = rest {
        if !comes_before(place, first, others) {
            return false;
        }
        rest = others;
    }
    true
}

/// Whether each row has so many cells.
fn have_cells(count: usize, rows: &[Row]) -> bool
    ensures { result ≡ list_all (λ r. length r.cells == count) rows.now }
{
    rows.iter().all(|row| row.cells.as_slice().len() == count)
}

/// Whether these may be the rows of a table.
fn are_rows(table: &Table, rows: &[Row]) -> bool
    ensures { result ≡ are_rows table.now rows.now }
{
    have_cells(table.columns.as_slice().len(), rows) && keys_rise(key_place(table), rows)
}

/// Whether these may be the rows of the tables, in order.
pub(crate) fn are_rows_of(tables: &[Table], lists: &[Rows]) -> bool
    ensures { result ≡ are_rows_of tables.now lists.now }
{
    let mut others = lists;
    let mut rest = tables;
    while let [table, after @ ..] = rest {
        let [rows, behind @ ..] = others else {
            return true;
        };
        if !are_rows(table, rows.as_slice()) {
            return false;
        }
        rest = after;
        others = behind;
    }
    true
}

/// Whether the first of others may stand behind a kept branch.
fn goes_on(item: &KeptItem, others: &[KeptItem]) -> bool
    ensures { result ≡ goes_on may_follow item.now others.now }
{
    match others {
        [] => true,
        [other, ..] => !other.me.is_before(&item.me),
    }
}

/// Whether kept branches stand in the order of their ids.
pub(crate) fn are_in_order(items: &[KeptItem]) -> bool
    ensures { result ≡ are_in_order items.now }
{
    let mut rest = items;
    while let [first, others @ ..] = rest {
        if !goes_on(first, others) {
            return false;
        }
        rest = others;
    }
    true
}
