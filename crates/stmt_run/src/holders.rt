//! Who holds the keys of a statement, and taking them.
ghost use Rattle.std.specs.Prelude.{◌≡◌, map, take, length, true, false, OnOk, OnErr};
ghost use Rattle.std.specs.List.{All};
ghost use Rattle.sql_check.specs.Words.{first_some};
ghost use Rattle.row_locks.specs.Held.{doubt_on as doubt_on_of, hold_on as hold_on_of};
ghost use Rattle.stmt_run.specs.Run.{take_keys};
ghost use Rattle.stmt_run.specs.Keys.{IsFree, IsHeld};

use dtx_values::{Name, Value};
use row_locks::{LockErr, Locks};
use std::alloc::{AllocError, Global};
use tran_ids::BranchId;

/// Takes keys to read their rows. After an error no key is taken.
pub fn take_all(
    alloc: Global,
    locks: &mut Locks,
    me: &BranchId,
    table: &Name,
    keys: &[Value],
) -> Result<(), AllocError>
    requires { All (IsFree locks.old me.now table.now) keys.now }
    ensures ok { OnOk result (locks.new ≡ take_keys locks.old me.now table.now false keys.now) }
    ensures err { OnErr result (locks.new ≡ locks.old) }
{
    let before = locks.len();
    match take_each(alloc, locks, me, table, keys) {
        Ok(()) => Ok(()),
        Err(e) => {
            locks.keep_first(before);
            Err(e)
        }
    }
}

// Takes keys to read their rows. After an error some of them may be taken, behind the locks from before.
fn take_each(
    alloc: Global,
    locks: &mut Locks,
    me: &BranchId,
    table: &Name,
    keys: &[Value],
) -> Result<(), AllocError>
    requires { All (IsFree locks.old me.now table.now) keys.now }
    ensures ok { OnOk result (locks.new ≡ take_keys locks.old me.now table.now false keys.now) }
    ensures err { OnErr result (take (length locks.old) locks.new ≡ locks.old) }
{
    for key in keys {
        match locks.take(alloc, me, table, key, false) {
            Ok(()) => {}
            Err(LockErr::NoMemory) => return Err(AllocError),
            Err(LockErr::Held { .. }) => unreachable!(),
        }
    }
    Ok(())
}

/// The rows of keys that the branch has are written from now on.
pub fn write_all(alloc: Global, locks: &mut Locks, me: &BranchId, table: &Name, keys: &[Value])
    requires { All (IsHeld locks.old table.now) keys.now }
    ensures { locks.new ≡ take_keys locks.old me.now table.now true keys.now }
{
    for key in keys {
        locks.hold(alloc, me, table, key).unwrap();
    }
}

// The branch in doubt that holds a key.
fn doubt_on(locks: &Locks, table: &Name, key: &Value) -> Option<BranchId>
    ensures { result ≡ doubt_on_of locks.now table.now key.now }
{
    let (branch, in_doubt) = locks.holder(table, key)?;
    if in_doubt { Some(branch) } else { None }
}

// Another live branch that holds a key.
fn hold_on(locks: &Locks, me: &BranchId, table: &Name, key: &Value) -> Option<BranchId>
    ensures { result ≡ hold_on_of locks.now me.now table.now key.now }
{
    let (branch, in_doubt) = locks.holder(table, key)?;
    if branch.is(me) || in_doubt {
        None
    } else {
        Some(branch)
    }
}

/// The branch that holds the first key in doubt.
pub fn first_in_doubt(locks: &Locks, table: &Name, keys: &[Value]) -> Option<BranchId>
    ensures { result ≡ first_some (map (doubt_on_of locks.now table.now) keys.now) }
{
    for key in keys {
        if let Some(branch) = doubt_on(locks, table, key) {
            return Some(branch);
        }
    }
    None
}

/// The branch that holds the first key that another live branch holds.
pub fn first_holder(locks: &Locks, me: &BranchId, table: &Name, keys: &[Value]) -> Option<BranchId>
    ensures { result ≡ first_some (map (hold_on_of locks.now me.now table.now) keys.now) }
{
    for key in keys {
        if let Some(branch) = hold_on(locks, me, table, key) {
            return Some(branch);
        }
    }
    None
}
