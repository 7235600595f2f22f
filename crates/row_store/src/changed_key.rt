//! What a change is at.
ghost use Rattle.std.specs.Prelude.{◌≡◌, IfOk};
ghost use Rattle.std.specs.Cow.{cow_value};

use dtx_values::{Change, Duplicate, Name, Value};
use std::alloc::{AllocError, Global};
use std::borrow::Cow;

/// A key of a table that a branch has changed. The index of its changes owns both, and a look-up borrows both.
#[derive(Drop, PartialEq, Eq, Hash)]
pub(crate) struct ChangedKey<'a> {
    pub(crate) table: Cow<'a, Name>,
    pub(crate) key: Cow<'a, Value>,
}

/// The key of a change, as the index owns it.
pub(crate) fn owned_key(alloc: Global, change: &Change) -> Result<ChangedKey<'static>, AllocError>
    ensures table { IfOk result (λ key. cow_value key.table ≡ change.now.table) }
    ensures key { IfOk result (λ key. cow_value key.key ≡ change.now.key) }
{
    Ok(ChangedKey {
        table: Cow::Owned(change.table.copy(alloc)?),
        key: Cow::Owned(change.key.copy(alloc)?),
    })
}
