//! The undo of a change, as it comes into a set. A change whose key is NULL, or one that finds a row of more than 255 cells, has
//! no undo as bytes; no statement makes one, and it is answered as out of memory.
ghost use Rattle.std.specs.Prelude.{◌≡◌, [], ◌∷◌, ◌++◌, IsTrue, IfSome, OnOk, OnErr};
ghost use Rattle.std.specs.Option.{option_copied};
ghost use Rattle.field_codec.specs.Change.{is_key as is_key_of};
ghost use Rattle.field_codec.specs.Fits.{HasCount};

use dtx_values::{Change, Row, Value};
use std::alloc::AllocError;
use undo_book::UndoSet;

/// Adds the undo of a change: the change with the row from before it.
pub(crate) fn add_undo(
    undo: &mut UndoSet,
    change: &Change,
    before: Option<&Row>,
) -> Result<(), AllocError>
    ensures ok { OnOk result (undo.new ≡ undo.old ++ (record change.now { after = option_copied before.entry }) ∷ []) }
    ensures err { OnErr result (undo.new ≡ undo.old) }
{
    if is_key(&change.key) && has_count(before) {
        undo.push(change, before)
    } else {
        Err(AllocError)
    }
}

// Whether a key is not NULL.
fn is_key(key: &Value) -> bool
    ensures { result ≡ is_key_of key.now }
{
    !matches!(key, Value::Null)
}

// Whether one byte is enough to count the cells of a row, if there is one.
fn has_count(row: Option<&Row>) -> bool
    ensures { IsTrue result → IfSome (option_copied row.entry) HasCount }
{
    match row {
        Some(row) => row.cells.as_slice().len() < 256,
        None => true,
    }
}
