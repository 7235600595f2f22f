//! The lines of SHOW UNDO.
ghost use Rattle.std.specs.Prelude.{◌≡◌, ◌++◌, IfOk, OnOk};
ghost use Rattle.undo_view.specs.Views.{head_line as head_line_of, held_lines, undo_lines as undo_lines_of};

use crate::Undo;
use dtx_values::{Bytes, Listing, Texts};
use report::byte_lines;
use std::alloc::{AllocError, Global};
use tran_ids::{put_decimal, put_local};

/// The lines of what branches hold, or that there is none. Fails where memory runs out.
pub fn undo_lines(alloc: Global, undos: &[Undo]) -> Result<Texts, AllocError>
    ensures { IfOk result (λ lines. lines ≡ undo_lines_of undos.now) }
{
    if undos.is_empty() {
        let none = Listing::of(Vec::from_slice(alloc, b"no undo")?);
        return Ok(Listing::of(vec![in alloc; none]?));
    }
    let mut lines = Vec::new(alloc);
    for undo in undos {
        put_lines(&mut lines, alloc, undo)?;
    }
    Ok(Listing::of(lines))
}

// The branch and its extents, and then its bytes.
fn put_lines(lines: &mut Vec<Bytes>, alloc: Global, undo: &Undo) -> Result<(), AllocError>
    ensures { OnOk result (lines.new.items ≡ lines.old.items ++ held_lines undo.now) }
{
    let head = head_line(alloc, undo)?;
    let mut bytes = byte_lines(alloc, undo.bytes.as_slice())?;
    lines.push(head)?;
    lines.append(&mut bytes)?;
    Ok(())
}

fn head_line(alloc: Global, undo: &Undo) -> Result<Bytes, AllocError>
    ensures { IfOk result (λ line. line ≡ head_line_of undo.now) }
{
    let mut out = Vec::new(alloc);
    put_local(&mut out, &undo.branch)?;
    out.push(b' ')?;
    put_decimal(&mut out, u64::from(undo.extents))?;
    Ok(Listing::of(out))
}
