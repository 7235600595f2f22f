//! A change with the row from before it, as bytes.
ghost use Rattle.std.specs.Prelude.{◌≡◌, ◌++◌, IsTrue, IfSome, OnOk};
ghost use Rattle.std.specs.Io.{StartsWith};
ghost use Rattle.std.specs.Option.{option_copied};
ghost use Rattle.field_codec.specs.Change.{is_key, change_format};
ghost use Rattle.field_codec.specs.Fits.{HasCount};
ghost use Rattle.undo_book.specs.Undo.{with_row};

use byte_format::put_u8;
use dtx_values::{Change, Row};
use field_codec::{name_fits, put_name, put_row, put_value, row_fits, value_fits};
use std::alloc::AllocError;

/// The undo of a change has a spelling if its key is not NULL, and one byte is enough to count the cells of the row from
/// before it, if there is one.
pub(crate) fn undo_fits(change: &Change, before: Option<&Row>)
    requires key { IsTrue (is_key change.now.key) }
    requires few { IfSome (option_copied before) HasCount }
    ensures { change_format.Fits (with_row change.now (option_copied before.entry)) }
{
    name_fits(&change.table);
    value_fits(&change.key);
    if let Some(row) = before {
        row_fits(row);
    }
}

// The bytes for which room is taken at once; the undo of most changes needs no more.
const ROOM: usize = 64;

/// Writes the undo of a change at the end. Fails where memory runs out; a part of it may then be there.
pub(crate) fn put_undo(
    out: &mut Vec<u8>,
    change: &Change,
    before: Option<&Row>,
) -> Result<(), AllocError>
    requires { change_format.Fits (with_row change.now (option_copied before)) }
    ensures written { OnOk result (out.new.items ≡ out.old.items ++ change_format.text (with_row change.now (option_copied before.entry))) }
    ensures kept { StartsWith out.new.items out.old.items }
{
    out.reserve(ROOM)?;
    put_name(out, &change.table)?;
    put_value(out, &change.key)?;
    match before {
        None => put_u8(out, 0),
        Some(row) => {
            put_u8(out, 1)?;
            put_row(out, row)
        }
    }
}
