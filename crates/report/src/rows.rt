//! Rows: a line of column names, a line for each row, the cells with bars between, and how many rows there are.
ghost use Rattle.std.specs.Prelude.{◌≡◌, ◌++◌, map, IfOk, OnOk};
ghost use Rattle.report.specs.Rows.{bars as bars_of, row_text as row_text_of, counted as counted_of, view_lines as view_lines_of, rows_text};

use dtx_values::{Bytes, Listing, Row, RowSet, value_text};
use std::alloc::{AllocError, Global};
use tran_ids::put_decimal;

/// The cells, with a bar between each two. Fails where memory runs out.
pub fn bars(alloc: Global, cells: &[Bytes]) -> Result<Bytes, AllocError>
    ensures { IfOk result (λ text. text ≡ bars_of cells.now) }
{
    let mut out = Vec::new(alloc);
    if let [first, others @ ..] = cells {
        out.extend_from_slice(first.as_slice())?;
        for other in others {
            out.push(b'|')?;
            out.extend_from_slice(other.as_slice())?;
        }
    }
    Ok(Listing::of(out))
}

fn row_text(alloc: Global, row: &Row) -> Result<Bytes, AllocError>
    ensures { IfOk result (λ text. text ≡ row_text_of row.now) }
{
    let mut cells = Vec::new(alloc);
    for cell in row.cells.as_slice() {
        cells.push(value_text(alloc, cell)?)?;
    }
    bars(alloc, &cells)
}

/// A number of rows and what was done with them, such as `1 row created.` Fails where memory runs out.
pub fn counted(alloc: Global, count: u64, what: &[u8]) -> Result<Bytes, AllocError>
    ensures { IfOk result (λ text. text ≡ counted_of count what.now) }
{
    let mut out = Vec::new(alloc);
    put_decimal(&mut out, count)?;
    if count == 1 {
        out.extend_from_slice(b" row ")?;
    } else {
        out.extend_from_slice(b" rows ")?;
    }
    out.extend_from_slice(what)?;
    Ok(Listing::of(out))
}

/// The head, the rows and how many there are, or `no rows selected` alone. Fails where memory runs out.
pub fn view_lines(
    alloc: Global,
    head: Bytes,
    mut rows: Vec<Bytes>,
) -> Result<Vec<Bytes>, AllocError>
    ensures { IfOk result (λ lines. lines.items ≡ view_lines_of head rows.items) }
{
    if rows.is_empty() {
        let none = Vec::from_slice(alloc, b"no rows selected")?;
        return Ok(vec![in alloc; Listing::of(none)]?);
    }
    let count = rows.len() as u64;
    let mut lines = vec![in alloc; head]?;
    lines.append(&mut rows)?;
    lines.push(counted(alloc, count, b"selected.")?)?;
    Ok(lines)
}

/// The lines of what a query found. Fails where memory runs out.
pub fn rows_lines(alloc: Global, found: &RowSet) -> Result<Vec<Bytes>, AllocError>
    ensures { IfOk result (λ lines. lines.items ≡ rows_text found.now) }
{
    let head = bars(alloc, found.heads.as_slice())?;
    let mut rows = Vec::new(alloc);
    for row in found.rows.as_slice() {
        rows.push(row_text(alloc, row)?)?;
    }
    view_lines(alloc, head, rows)
}
