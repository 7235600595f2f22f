//! The rows of a table by their keys, and keys in order.
ghost use Rattle.std.specs.Prelude.{◌≡◌, IfOk, OnOk};
ghost use Rattle.std.specs.Option.{option_copied};
ghost use Rattle.sql_eval.specs.Rows.{get as get_of, keys_of as keys_in, put_key as put_key_of, keys_in_order as ordered_of};

use crate::KeyedRef;
use dtx_values::{Duplicate, Row, Value, same_value};
use std::alloc::{AllocError, Global};
use std::collections::BTreeSet;

/// The row at a key.
pub fn get<'r>(rows: &[KeyedRef<'r>], key: &Value) -> Option<&'r Row>
    ensures { option_copied result ≡ get_of rows.now key.now }
{
    for keyed in rows {
        if same_value(keyed.key, key) {
            return Some(keyed.row);
        }
    }
    None
}

/// The keys of rows, in the order of the rows.
pub fn keys_of(alloc: Global, rows: &[KeyedRef]) -> Result<Vec<Value>, AllocError>
    ensures { IfOk result (λ keys. keys.items ≡ keys_in rows.now) }
{
    let mut keys = Vec::with_capacity(alloc, rows.len())?;
    for keyed in rows {
        keys.push(keyed.key.copy(alloc)?)?;
    }
    Ok(keys)
}

// Puts a key among others, where it is not there yet.
fn put_key(keys: &mut BTreeSet<Value>, key: Value) -> Result<(), AllocError>
    ensures { OnOk result (keys.new.keys ≡ put_key_of keys.old.keys key) }
{
    keys.insert(key)?;
    Ok(())
}

// The keys of a set, in order.
fn listed(alloc: Global, keys: BTreeSet<Value>) -> Result<Vec<Value>, AllocError>
    ensures { IfOk result (λ list. list.items ≡ keys.keys) }
{
    let mut list = Vec::with_capacity(alloc, keys.len())?;
    for key in keys {
        list.push(key)?;
    }
    Ok(list)
}

/// These keys in order, each once.
pub fn keys_in_order(alloc: Global, keys: Vec<Value>) -> Result<Vec<Value>, AllocError>
    ensures { IfOk result (λ ordered. ordered.items ≡ ordered_of keys.items) }
{
    let mut ordered = BTreeSet::new(alloc);
    for each in keys {
        put_key(&mut ordered, each)?;
    }
    listed(alloc, ordered)
}
