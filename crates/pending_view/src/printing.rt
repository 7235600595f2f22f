//! The lines of SHOW PENDING and SHOW NEIGHBORS.
ghost use Rattle.std.specs.Prelude.{◌≡◌, map, codes, if◌then◌else◌, IfOk};
ghost use Rattle.pending_view.specs.Views.{number_text as number_text_of, advice_text, pending_text as pending_text_of, neighbor_text as neighbor_text_of, pending_view as pending_view_of, neighbors_view as neighbors_view_of};

use crate::{NeighborRow, PendingRow, neighbors, pending};
use dtx_values::{Advice, Bytes, Duplicate, Listing, Name, Texts};
use redo_record::KeptRow;
use report::{bars, view_lines};
use session_tree::Live;
use std::alloc::{AllocError, Global};
use tran_ids::{global_text, local_text, put_decimal};

/// The lines of SHOW PENDING, where `names` are the names of all nodes: the columns of DBA_2PC_PENDING, a line for each
/// row, and how many there are, or that there is none. Fails where memory runs out.
pub fn pending_view(
    alloc: Global,
    names: &[Name],
    kept: &[KeptRow],
    lives: &[Live],
) -> Result<Texts, AllocError>
    ensures { IfOk result (λ lines. lines ≡ pending_view_of names.now kept.now lives.now) }
{
    let rows = pending(alloc, kept, lives)?;
    let texts = pending_texts(alloc, names, rows.as_slice())?;
    let head = text(
        alloc,
        b"LOCAL_TRAN_ID|GLOBAL_TRAN_ID|STATE|MIXED|ADVICE|TRAN_COMMENT|COMMIT#",
    )?;
    Ok(Listing::of(view_lines(alloc, head, texts)?))
}

/// The lines of SHOW NEIGHBORS, where `names` are the names of all nodes: the columns of DBA_2PC_NEIGHBORS, a line for
/// each row, and how many there are, or that there is none. Fails where memory runs out.
pub fn neighbors_view(alloc: Global, names: &[Name], kept: &[KeptRow]) -> Result<Texts, AllocError>
    ensures { IfOk result (λ lines. lines ≡ neighbors_view_of names.now kept.now) }
{
    let rows = neighbors(alloc, names, kept)?;
    let texts = neighbor_texts(alloc, rows.as_slice())?;
    let head = text(
        alloc,
        b"LOCAL_TRAN_ID|IN_OUT|DATABASE|DBUSER_OWNER|INTERFACE",
    )?;
    Ok(Listing::of(view_lines(alloc, head, texts)?))
}

fn text(alloc: Global, text: &[u8]) -> Result<Bytes, AllocError>
    ensures { IfOk result (λ copy. copy ≡ text.now) }
{
    Ok(Listing::of(Vec::from_slice(alloc, text)?))
}

fn yes_or_no(yes: bool) -> &'static [u8]
    ensures { result.now ≡ (if yes then codes "yes" else codes "no") }
{
    if yes { b"yes" } else { b"no" }
}

fn advice_letter(advice: Option<Advice>) -> &'static [u8]
    ensures { result.now ≡ advice_text advice }
{
    match advice {
        None => b"",
        Some(Advice::Commit) => b"C",
        Some(Advice::Rollback) => b"R",
    }
}

fn number_text(alloc: Global, number: Option<u64>) -> Result<Bytes, AllocError>
    ensures { IfOk result (λ text. text ≡ number_text_of number) }
{
    let mut out = Vec::new(alloc);
    if let Some(number) = number {
        put_decimal(&mut out, number)?;
    }
    Ok(Listing::of(out))
}

fn pending_text(alloc: Global, names: &[Name], row: &PendingRow) -> Result<Bytes, AllocError>
    ensures { IfOk result (λ text. text ≡ pending_text_of names.now row.now) }
{
    let mut cells = Vec::new(alloc);
    cells.push(local_text(alloc, &row.me)?)?;
    cells.push(global_text(alloc, names, &row.root)?)?;
    cells.push(text(alloc, row.stage.words())?)?;
    cells.push(text(alloc, yes_or_no(row.mixed))?)?;
    cells.push(text(alloc, advice_letter(row.advice))?)?;
    cells.push(row.comment.copy(alloc)?)?;
    cells.push(number_text(alloc, row.number)?)?;
    bars(alloc, &cells)
}

fn pending_texts(
    alloc: Global,
    names: &[Name],
    rows: &[PendingRow],
) -> Result<Vec<Bytes>, AllocError>
    ensures { IfOk result (λ texts. texts.items ≡ map (pending_text_of names.now) rows.now) }
{
    let mut texts = Vec::with_capacity(alloc, rows.len())?;
    for row in rows {
        texts.push(pending_text(alloc, names, row)?)?;
    }
    Ok(texts)
}

fn in_or_out(is_in: bool) -> &'static [u8]
    ensures { result.now ≡ (if is_in then codes "in" else codes "out") }
{
    if is_in { b"in" } else { b"out" }
}

fn interface_letter(to_site: bool) -> &'static [u8]
    ensures { result.now ≡ (if to_site then codes "C" else codes "N") }
{
    if to_site { b"C" } else { b"N" }
}

// The user of each edge is APP.
fn neighbor_text(alloc: Global, row: &NeighborRow) -> Result<Bytes, AllocError>
    ensures { IfOk result (λ text. text ≡ neighbor_text_of row.now) }
{
    let mut cells = Vec::new(alloc);
    cells.push(local_text(alloc, &row.me)?)?;
    cells.push(text(alloc, in_or_out(row.is_in))?)?;
    cells.push(row.database.copy(alloc)?)?;
    cells.push(text(alloc, b"APP")?)?;
    cells.push(text(alloc, interface_letter(row.to_site))?)?;
    bars(alloc, &cells)
}

fn neighbor_texts(alloc: Global, rows: &[NeighborRow]) -> Result<Vec<Bytes>, AllocError>
    ensures { IfOk result (λ texts. texts.items ≡ map neighbor_text_of rows.now) }
{
    let mut texts = Vec::with_capacity(alloc, rows.len())?;
    for row in rows {
        texts.push(neighbor_text(alloc, row)?)?;
    }
    Ok(texts)
}
