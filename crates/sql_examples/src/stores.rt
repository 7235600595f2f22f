//! A store refuses the changes of a statement that take too many bytes, tells how many they take, and stays as it was.
ghost use Rattle.std.specs.Prelude.{◌≡◌, true, IfOk};
ghost use Rattle.std.specs.List.{AllByRecursion};
ghost use Rattle.row_store.specs.Store.{has_table};

use crate::given::{name, store_of, text};
use dtx_values::{Cells, Change, Changes, Duplicate, Name, Row, Value};
use row_store::{Store, StoreErr};
use std::alloc::{AllocError, Global};
use tran_ids::BranchId;

/// A change of a table to a row of a number and this text.
fn wide_change(alloc: Global, table: &Name, key: i64, letters: &Value) -> Result<Change, AllocError>
    ensures { IfOk result (λ change. change.table ≡ table.now) }
{
    let mut cells = Cells::new(alloc);
    cells.push(Value::Number(key))?;
    cells.push(letters.copy(alloc)?)?;
    Ok(Change {
        table: table.copy(alloc)?,
        key: Value::Number(key),
        after: Some(Row { cells }),
    })
}

/// Such changes at so many keys.
fn wide_changes(
    alloc: Global,
    table: &Name,
    letters: &Value,
    count: i64,
) -> Result<Changes, AllocError>
    ensures { IfOk result (λ changes. AllByRecursion (λ c. c.table ≡ table.now) changes) }
{
    let mut changes = Changes::new(alloc);
    for key in 0..count {
        changes.push(wide_change(alloc, table, key, letters)?)?;
    }
    Ok(changes)
}

/// Such changes of 2,025 bytes each.
fn changes_of(alloc: Global, table: &Name, count: i64) -> Result<Changes, AllocError>
    ensures { IfOk result (λ changes. AllByRecursion (λ c. c.table ≡ table.now) changes) }
{
    let bytes = vec![in alloc; b'x'; 2000]?;
    let letters = text(alloc, bytes.as_slice())?;
    let changes = wide_changes(alloc, table, &letters, count);
    drop(letters);
    changes
}

fn branch() -> BranchId {
    BranchId {
        node: 1,
        boot: 1,
        session: 1,
        seq: 1,
    }
}

/// What a store says to changes, and what it has afterwards: its free extents, whether the branch has changes, its rows.
type Said = (Result<(), StoreErr>, u64, bool, usize);

/// What a store says to so many changes of its table.
fn said_by(alloc: Global, store: &mut Store, table: &Name, count: i64) -> Result<Said, AllocError>
    requires { has_table store.old.rows table.now ≡ true }
{
    let changes = changes_of(alloc, table, count)?;
    let said = store.set_pending(alloc, &branch(), changes);
    let rows = store.all(alloc, &branch(), table)?.len();
    Ok((said, store.free(), store.has_changes(&branch()), rows))
}

/// What a store of 1,024 extents says to so many changes.
fn said_to(alloc: Global, count: i64) -> Result<Said, AllocError> {
    let table = name(alloc, b"t")?;
    let mut store = store_of(alloc, &table, 1024)?;
    let said = said_by(alloc, &mut store, &table, count);
    drop(store);
    said
}

#[test]
fn too_many_bytes_are_refused_and_change_nothing(rt: HostRuntime) {
    let bytes = 5000 * 2025;
    assert!(rt;
        said_to(rt.alloc(), 5000) == Ok((Err(StoreErr::TooLarge { bytes }), 1024, false, 0))
    );
}

#[test]
fn the_changes_before_the_limit_are_taken(rt: HostRuntime) {
    // the undo of an insert has no row, so it takes 12 bytes: 13 extents in all
    assert!(rt; said_to(rt.alloc(), 4000) == Ok((Ok(()), 1024 - 12, true, 4000)));
}
