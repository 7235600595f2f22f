//! Which keys stay with a branch that goes back to a savepoint.
ghost use Rattle.std.specs.Prelude.{◌≡◌};
ghost use Rattle.std.specs.List.{list_any};
ghost use Rattle.row_locks.specs.Back.{is_change_at, is_changed_in as is_changed_in_of, stays_by, kept_if};

use crate::held_key::HeldKey;
use dtx_values::{Change, Name, Value, same_value};
use savepoints::{Note, wrote};

/// The key of a lock counts as written where one of these notes has it, or one of these changes is at it.
pub(crate) fn write_if(lock: &mut HeldKey, notes: &[Note], changes: &[Change])
    ensures { lock.new ≡ kept_if notes.now changes.now lock.old }
{
    lock.writes = is_kept(&lock.table, &lock.key, notes, changes);
}

fn is_kept(table: &Name, key: &Value, notes: &[Note], changes: &[Change]) -> bool
    ensures { result ≡ stays_by notes.now changes.now table.now key.now }
{
    wrote(notes, table, key) || is_changed(changes, table, key)
}

fn is_changed(changes: &[Change], table: &Name, key: &Value) -> bool
    ensures { result ≡ is_changed_in_of changes.now table.now key.now }
{
    changes.iter().any(|change| change.table.is(table) && same_value(&change.key, key))
}
