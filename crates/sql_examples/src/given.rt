//! What several examples begin with. Where the bytes are no name or no text, it is as if there were no memory for it.
ghost use Rattle.std.specs.Prelude.{◌≡◌, ◌≤◌, [], true, IfOk};
ghost use Rattle.row_store.specs.Store.{has_table, nothing_kept};
ghost use Rattle.row_store.specs.Tables.{with_table};

use dtx_values::{Duplicate, Name, Str, Value};
use row_store::Store;
use std::alloc::{AllocError, Global};

pub(crate) fn name(alloc: Global, bytes: &[u8]) -> Result<Name, AllocError> {
    match Name::from_bytes(alloc, bytes) {
        Ok(name) => Ok(name),
        Err(_) => Err(AllocError),
    }
}

pub(crate) fn text(alloc: Global, bytes: &[u8]) -> Result<Value, AllocError> {
    match Str::from_bytes(alloc, bytes) {
        Ok(text) => Ok(Value::Text(text)),
        Err(_) => Err(AllocError),
    }
}

pub(crate) fn is_text(value: &Value, bytes: &[u8]) -> bool {
    matches!(value, Value::Text(text) if text.as_bytes() == bytes)
}

/// A store of so many extents, at most 1,024, with a table, which has no rows.
pub(crate) fn store_of(alloc: Global, table: &Name, undo: u32) -> Result<Store, AllocError>
    requires { undo ≤ 1024 }
    ensures made { IfOk result (λ store. store ≡ record (nothing_kept undo) { rows = with_table [] table.now }) }
    ensures table { IfOk result (λ store. has_table store.rows table.now ≡ true) }
{
    let table = table.copy(alloc)?;
    let mut store = Store::new(alloc, undo)?;
    match store.add_table(alloc, table) {
        Ok(()) => Ok(store),
        Err(error) => {
            drop(store);
            Err(error)
        }
    }
}
