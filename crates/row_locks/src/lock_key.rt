//! What a lock is found by.
ghost use Rattle.std.specs.Prelude.{◌≡◌, IfOk};
ghost use Rattle.std.specs.Cow.{cow_value};

use crate::held_key::HeldKey;
use dtx_values::{Duplicate, Name, Value};
use std::alloc::{AllocError, Global};
use std::borrow::Cow;

/// A key of a table. The map of all locks owns both, and a look-up borrows both.
#[derive(Drop, PartialEq, Eq, Hash)]
pub(crate) struct LockKey<'a> {
    pub(crate) table: Cow<'a, Name>,
    pub(crate) key: Cow<'a, Value>,
}

/// The key of a lock, as the map owns it.
pub(crate) fn owned_key(alloc: Global, lock: &HeldKey) -> Result<LockKey<'static>, AllocError>
    ensures table { IfOk result (λ key. cow_value key.table ≡ lock.now.table) }
    ensures key { IfOk result (λ key. cow_value key.key ≡ lock.now.key) }
{
    Ok(LockKey {
        table: Cow::Owned(lock.table.copy(alloc)?),
        key: Cow::Owned(lock.key.copy(alloc)?),
    })
}
