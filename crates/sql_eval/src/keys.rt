//! The keys that a statement fixes and examines.
ghost use Rattle.std.specs.Prelude.{◌≡◌, ◌++◌, map, None, IfOk};
ghost use Rattle.std.specs.Option.{option_copied};
ghost use Rattle.sql_check.specs.Words.{first_some};
ghost use Rattle.sql_check.specs.Passed.{new_cells};
ghost use Rattle.sql_eval.specs.Rows.{keys_of as keys_in};
ghost use Rattle.sql_eval.specs.Meaning.{fixes as fixes_of, conds_of as conds_in, fixed_key as fixed_key_of, examined_by};

use crate::KeyedRef;
use crate::condition::conds_of;
use crate::rows::{keys_in_order, keys_of};
use dtx_values::{Duplicate, Table, Value, is_null};
use sql_check::{copy_or_null, is_key, key_of_row};
use sql_statement::{Cond, Sign, Stmt};
use std::alloc::{AllocError, Global};

// The key that one condition fixes: by a comparison for equality with a literal that is not NULL.
fn fixes<'a>(table: &Table, cond: &'a Cond) -> Option<&'a Value>
    ensures { option_copied result ≡ fixes_of table.now cond.now }
{
    match cond {
        Cond::Compare {
            column,
            sign: Sign::Eq,
            literal,
        } => {
            if is_key(table, column) && !is_null(literal) {
                Some(literal)
            } else {
                None
            }
        }
        _ => None,
    }
}

fn fixed_by<'a>(table: &Table, conds: &'a [Cond]) -> Option<&'a Value>
    ensures { option_copied result ≡ first_some (map (fixes_of table.now) conds.now) }
{
    for cond in conds {
        if let Some(key) = fixes(table, cond) {
            return Some(key);
        }
    }
    None
}

fn copied_key(alloc: Global, key: Option<&Value>) -> Result<Option<Value>, AllocError>
    ensures { IfOk result (λ copy. copy ≡ option_copied key.entry) }
{
    match key {
        None => Ok(None),
        Some(key) => Ok(Some(key.copy(alloc)?)),
    }
}

/// The key that a statement fixes by itself: that of the row of these cells, which an INSERT gives, or the first literal, not
/// NULL, that its WHERE compares the key column for equality with.
pub fn fixed_key(
    alloc: Global,
    statement: &Stmt,
    table: &Table,
    cells: &[Value],
) -> Result<Option<Value>, AllocError>
    requires { cells.now ≡ new_cells statement.now table.now }
    ensures { IfOk result (λ key. key ≡ fixed_key_of statement.now table.now) }
{
    match statement {
        Stmt::Insert { .. } => Ok(Some(copy_or_null(alloc, key_of_row(table, cells))?)),
        _ => copied_key(alloc, fixed_by(table, conds_of(statement))),
    }
}

fn view_and_locked(
    alloc: Global,
    view: &[KeyedRef],
    locked: &[Value],
) -> Result<Vec<Value>, AllocError>
    ensures { IfOk result (λ keys. keys.items ≡ keys_in view.now ++ locked.now) }
{
    let mut keys = keys_of(alloc, view)?;
    for key in locked {
        keys.push(key.copy(alloc)?)?;
    }
    Ok(keys)
}

/// The keys that a statement examines which fixes none, where these others are locked: every key that the view has or that is
/// locked, in order.
pub fn examined(
    alloc: Global,
    view: &[KeyedRef],
    locked: &[Value],
) -> Result<Vec<Value>, AllocError>
    ensures { IfOk result (λ keys. keys.items ≡ examined_by view.now locked.now None) }
{
    keys_in_order(alloc, view_and_locked(alloc, view, locked)?)
}
