//! Rows that changes put in the place of others, where they stand.
ghost use Rattle.std.specs.Prelude.{◌≡◌, ◌<◌, ◌≤◌, true, length, slice_get, OnOk};
ghost use Rattle.std.specs.List.{position_or_len};
ghost use Rattle.std.specs.Option.{option_copied};
ghost use Rattle.sql_eval.specs.Rows.{apply, change_one as change_one_of, put as put_of, set_to as set_to_of, without as without_of};
ghost use Rattle.stmt_store.specs.Past.{comes_first, stands};

use dtx_values::{Change, Name, Row, Value, same_value, value_below};
use sql_eval::KeyedRef;
use std::alloc::AllocError;

/// Puts the rows that changes of a table leave in the place of those at their keys. After an error some of them may be there.
#[tactic(auto, using(crate::proofs::PastLaws::all_applied))]
pub fn change_all<'r>(
    rows: &mut Vec<KeyedRef<'r>>,
    table: &Name,
    changes: &'r [Change],
) -> Result<(), AllocError>
    ensures { OnOk result (rows.new.items ≡ apply table.now rows.old.items changes.now) }
{
    for change in changes {
        change_one(rows, table, change)?;
    }
    Ok(())
}

fn change_one<'r>(
    rows: &mut Vec<KeyedRef<'r>>,
    table: &Name,
    change: &'r Change,
) -> Result<(), AllocError>
    ensures { OnOk result (rows.new.items ≡ change_one_of table.now rows.old.items change.now) }
{
    if change.table.is(table) {
        set(rows, &change.key, change.after.as_ref())?;
    }
    Ok(())
}

fn set<'r>(
    rows: &mut Vec<KeyedRef<'r>>,
    key: &'r Value,
    after: Option<&'r Row>,
) -> Result<(), AllocError>
    ensures { OnOk result (rows.new.items ≡ set_to_of rows.old.items key.now (option_copied after.entry)) }
{
    match after {
        None => {
            leave(rows, key);
            Ok(())
        }
        Some(row) => put(rows, key, row),
    }
}

fn leave(rows: &mut Vec<KeyedRef>, key: &Value)
    ensures { rows.new.items ≡ without_of rows.old.items key.now }
{
    rows.retain(|row| !same_value(row.key, key));
}

fn put<'r>(rows: &mut Vec<KeyedRef<'r>>, key: &'r Value, row: &'r Row) -> Result<(), AllocError>
    ensures { OnOk result (rows.new.items ≡ put_of rows.old.items key.now row.now) }
{
    let place = place_of(rows.as_slice(), key);
    if stands_at(rows.as_slice(), place, key) {
        drop(rows.remove(place));
    }
    rows.insert(place, KeyedRef { key, row })?;
    Ok(())
}

// Where a row with this key stands, or comes.
fn place_of(rows: &[KeyedRef], key: &Value) -> usize
    ensures first { result ≡ position_or_len (comes_first key.now) rows.now }
    ensures within { result ≤ length rows.now }
{
    for (place, row) in rows.iter().enumerate() {
        if same_value(row.key, key) || value_below(key, row.key) {
            return place;
        }
    }
    rows.len()
}

fn stands_at(rows: &[KeyedRef], place: usize, key: &Value) -> bool
    ensures stands { result ≡ stands key.now (slice_get rows.now place) }
{
    match rows.get(place) {
        None => false,
        Some(row) => same_value(row.key, key),
    }
}
