//! What a SELECT gives: SQL Language Reference, "SELECT", "COUNT" and "SUM".
ghost use Rattle.std.specs.Prelude.{◌≡◌, ◌++◌, [], ◌∷◌, map, pos, length, codes, Some, None, IfOk, IsOk};
ghost use Rattle.std.specs.Option.{option_copied};
ghost use Rattle.dtx_values.specs.declared.value.Value.TheVariants.{Null, Number};
ghost use Rattle.sql_check.specs.Cells.{or_null};
ghost use Rattle.sql_check.specs.Columns.{cell as cell_of};
ghost use Rattle.sql_eval.specs.Meaning.{sum_with as sum_with_of, summed as summed_of, summed_set as summed_set_of, picked as picked_of, row_of, row_set};

use crate::{KeyedRef, Meant};
use dtx_values::{
    Bytes, Cells, Duplicate, Listing, Name, Names, Row, RowSet, Rows, Table, Texts, Value,
};
use sql_check::{OUT_OF_RANGE, cell, copy_or_null, plain, plus};
use sql_statement::Picked;
use std::alloc::{AllocError, Global};

// The total with one value more. NULL adds nothing.
fn sum_with(total: Value, value: Option<&Value>) -> Option<Value>
    ensures { result ≡ sum_with_of total (or_null (option_copied value.entry)) }
{
    match value {
        Some(Value::Number(number)) => match total {
            Value::Null => Some(Value::Number(*number)),
            Value::Number(before) => plus(before, *number),
            Value::Text(text) => Some(Value::Text(text)),
        },
        None | Some(Value::Null) | Some(Value::Text(_)) => Some(total),
    }
}

// The sum of what rows have in a column, each partial sum in range.
fn summed(table: &Table, name: &Name, rows: &[KeyedRef]) -> Option<Value>
    ensures { result ≡ summed_of (map (λ r. cell_of table.now r.row name.now) rows.now) (Some Null) }
{
    let mut total = Value::Null;
    for keyed in rows {
        total = sum_with(total, cell(table, keyed.row, name))?;
    }
    Some(total)
}

fn one_value(alloc: Global, head: Bytes, value: Value) -> Result<RowSet, AllocError>
    ensures { IfOk result (λ set. set ≡ record { heads = head ∷ []; rows = row_of (value ∷ []) ∷ [] }) }
{
    let cells = Listing::of(vec![in alloc; value]?);
    Ok(RowSet {
        heads: Listing::of(vec![in alloc; head]?),
        rows: Listing::of(vec![in alloc; Row { cells }]?),
    })
}

fn sum_head(alloc: Global, name: &Name) -> Result<Bytes, AllocError>
    ensures { IfOk result (λ head. head ≡ codes "SUM(" ++ name.now ++ codes ")") }
{
    let mut head = Vec::new(alloc);
    head.extend_from_slice(b"SUM(")?;
    head.extend_from_slice(name.as_bytes())?;
    head.extend_from_slice(b")")?;
    Ok(Listing::of(head))
}

fn summed_set(alloc: Global, name: &Name, total: Option<Value>) -> Result<Meant, AllocError>
    ensures set { IfOk result (λ meant. meant ≡ summed_set_of name.now total) }
    ensures range { total ≡ None → IsOk result }
{
    match total {
        None => Ok(Meant::Refused(plain(alloc, OUT_OF_RANGE))),
        Some(total) => {
            let head = sum_head(alloc, name)?;
            Ok(Meant::Gives(one_value(alloc, head, total)?))
        }
    }
}

fn counted(alloc: Global, rows: &[KeyedRef]) -> Result<RowSet, AllocError>
    ensures { IfOk result (λ set. set ≡ record { heads = codes "COUNT(*)" ∷ []; rows = row_of (Number (pos (length rows.now)) ∷ []) ∷ [] }) }
{
    let head = Listing::of(Vec::from_slice(alloc, b"COUNT(*)")?);
    one_value(alloc, head, Value::Number(rows.len() as i64))
}

fn column_heads(alloc: Global, table: &Table) -> Result<Texts, AllocError>
    ensures { IfOk result (λ heads. heads ≡ map (λ c. c.name) table.now.columns) }
{
    let mut heads = Vec::new(alloc);
    for column in table.columns.as_slice() {
        heads.push(Listing::of(Vec::from_slice(alloc, column.name.as_bytes())?))?;
    }
    Ok(Listing::of(heads))
}

fn name_heads(alloc: Global, names: &[Name]) -> Result<Texts, AllocError>
    ensures { IfOk result (λ heads. heads ≡ names.now) }
{
    let mut heads = Vec::new(alloc);
    for name in names {
        heads.push(Listing::of(Vec::from_slice(alloc, name.as_bytes())?))?;
    }
    Ok(Listing::of(heads))
}

fn whole_rows(alloc: Global, rows: &[KeyedRef]) -> Result<Rows, AllocError>
    ensures { IfOk result (λ whole. whole ≡ map row_of (map (λ r. r.row.cells) rows.now)) }
{
    let mut whole = Vec::new(alloc);
    for keyed in rows {
        let cells = keyed.row.cells.copy(alloc)?;
        whole.push(Row { cells })?;
    }
    Ok(Listing::of(whole))
}

fn picked_cells(
    alloc: Global,
    table: &Table,
    names: &[Name],
    row: &Row,
) -> Result<Cells, AllocError>
    ensures { IfOk result (λ cells. cells ≡ map (cell_of table.now row.now) names.now) }
{
    let mut cells = Vec::new(alloc);
    for name in names {
        cells.push(copy_or_null(alloc, cell(table, row, name))?)?;
    }
    Ok(Listing::of(cells))
}

fn picked_rows(
    alloc: Global,
    table: &Table,
    names: &[Name],
    rows: &[KeyedRef],
) -> Result<Rows, AllocError>
    ensures { IfOk result (λ picked. picked ≡ map row_of (map (λ r. map (cell_of table.now r.row) names.now) rows.now)) }
{
    let mut picked = Vec::new(alloc);
    for keyed in rows {
        let cells = picked_cells(alloc, table, names, keyed.row)?;
        picked.push(Row { cells })?;
    }
    Ok(Listing::of(picked))
}

fn columns_set(
    alloc: Global,
    table: &Table,
    names: &Names,
    rows: &[KeyedRef],
) -> Result<RowSet, AllocError>
    ensures { IfOk result (λ set. set ≡ row_set names.now (map (λ r. map (cell_of table.now r.row) names.now) rows.now)) }
{
    let names = names.as_slice();
    Ok(RowSet {
        heads: name_heads(alloc, names)?,
        rows: picked_rows(alloc, table, names, rows)?,
    })
}

/// What a SELECT gives of the rows that it found. SUM adds what is not NULL, in key order, and is NULL where nothing
/// is: DTX-09 where a partial sum is out of range.
pub fn picked(
    alloc: Global,
    list: &Picked,
    table: &Table,
    rows: &[KeyedRef],
) -> Result<Meant, AllocError>
    ensures { IfOk result (λ meant. meant ≡ picked_of list.now table.now rows.now) }
{
    match list {
        Picked::All => Ok(Meant::Gives(RowSet {
            heads: column_heads(alloc, table)?,
            rows: whole_rows(alloc, rows)?,
        })),
        Picked::Count => Ok(Meant::Gives(counted(alloc, rows)?)),
        Picked::Sum(name) => summed_set(alloc, name, summed(table, name, rows)),
        Picked::Columns(names) => Ok(Meant::Gives(columns_set(alloc, table, names, rows)?)),
    }
}
