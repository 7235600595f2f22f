//! What a statement comes to over the rows of its table.
ghost use Rattle.std.specs.Prelude.{◌≡◌, Ok, [], if◌then◌else◌, IfOk};
ghost use Rattle.sql_eval.specs.Data.dones;
ghost use Rattle.sql_check.specs.Passed.{new_cells};
ghost use Rattle.sql_eval.specs.Rows.{keys_of as keys_in};
ghost use Rattle.sql_eval.specs.Meaning.{changing as changing_of, updated as updated_of, deleted as deleted_of, meant_over as meant_over_of, written as written_of};
ghost use Rattle.sql_eval.specs.Found.{written_found as written_found_of, meant_found as meant_found_of};

use crate::condition::found;
use crate::insert::inserted;
use crate::query::picked;
use crate::rows::keys_of;
use crate::sql_err::SqlErr;
use crate::update::{deleted, updated};
use crate::{KeyedRef, Meant, StmtMeaning};
use dtx_values::{Cells, Changes, Done, INVALID_SQL, Listing, Table, Value};
use sql_check::plain;
use sql_statement::{Set, Stmt};
use std::alloc::{AllocError, Global};

fn changed(done: Done, changes: Changes) -> Meant
    ensures { result ≡ changing_of done (Ok changes) }
{
    Meant::Changes {
        done,
        count: changes.as_slice().len(),
        changes,
    }
}

fn update_over(
    alloc: Global,
    table: &Table,
    sets: &[Set],
    rows: &[KeyedRef],
) -> Result<Meant, AllocError>
    ensures { IfOk result (λ meant. meant ≡ changing_of dones.Updated (updated_of table.now sets.now rows.now)) }
{
    match updated(alloc, table, sets, rows) {
        Ok(changes) => Ok(changed(Done::Updated, changes)),
        Err(SqlErr::Refused(refusal)) => Ok(Meant::Refused(refusal)),
        Err(SqlErr::NoMemory) => Err(AllocError),
    }
}

fn delete_over(alloc: Global, table: &Table, rows: &[KeyedRef]) -> Result<Meant, AllocError>
    ensures { IfOk result (λ meant. meant ≡ changing_of dones.Deleted (Ok (deleted_of table.now rows.now))) }
{
    let changes = deleted(alloc, table, rows)?;
    Ok(changed(Done::Deleted, changes))
}

// The keys of these rows, where they are written.
fn written_keys(
    alloc: Global,
    writes: bool,
    rows: &[KeyedRef],
) -> Result<Listing<Value>, AllocError>
    ensures { IfOk result (λ keys. keys ≡ (if writes then keys_in rows.now else [])) }
{
    if writes {
        Ok(Listing::of(keys_of(alloc, rows)?))
    } else {
        Ok(Listing::new(alloc))
    }
}

// What a statement other than INSERT comes to over a table of which it finds these rows.
fn over_found(
    alloc: Global,
    statement: &Stmt,
    table: &Table,
    found: &[KeyedRef],
) -> Result<StmtMeaning, AllocError>
    ensures keys { IfOk result (λ outcome. outcome.keys ≡ written_found_of statement.now found.now) }
    ensures meant { IfOk result (λ outcome. outcome.meant ≡ meant_found_of statement.now table.now found.now) }
{
    match statement {
        Stmt::Update { sets, .. } => Ok(StmtMeaning {
            keys: written_keys(alloc, true, found)?,
            meant: update_over(alloc, table, sets.as_slice(), found)?,
        }),
        Stmt::Delete { .. } => Ok(StmtMeaning {
            keys: written_keys(alloc, true, found)?,
            meant: delete_over(alloc, table, found)?,
        }),
        Stmt::Select {
            list,
            for_update,
            ..
        } => Ok(StmtMeaning {
            keys: written_keys(alloc, *for_update, found)?,
            meant: picked(alloc, list, table, found)?,
        }),
        _ => Ok(StmtMeaning {
            keys: Listing::new(alloc),
            meant: Meant::Refused(plain(alloc, INVALID_SQL)),
        }),
    }
}

/// What a statement that passed the checks, an INSERT with these cells, comes to over a table with these rows. It writes the key
/// of the row that it inserts, or those of the rows that an UPDATE, a DELETE or a SELECT FOR UPDATE finds. It means ORA-00001
/// for an INSERT whose key is there; the changes of an UPDATE or a DELETE, or an UPDATE's first refusal; the rows of a SELECT,
/// or DTX-09 for a SUM.
#[tactic(auto, unfolding(crate::specs::Meaning::meant_over, crate::specs::Meaning::written))]
pub fn outcome_over(
    alloc: Global,
    statement: &Stmt,
    table: &Table,
    cells: Cells,
    rows: Vec<KeyedRef>,
) -> Result<StmtMeaning, AllocError>
    requires { cells ≡ new_cells statement.now table.now }
    ensures keys { IfOk result (λ outcome. outcome.keys ≡ written_of statement.now table.now rows.entry.items) }
    ensures meant { IfOk result (λ outcome. outcome.meant ≡ meant_over_of statement.now table.now rows.entry.items) }
{
    match statement {
        Stmt::Insert { .. } => inserted(alloc, table, cells, rows.as_slice()),
        _ => {
            drop(cells);
            let found = found(statement, table, rows);
            over_found(alloc, statement, table, found.as_slice())
        }
    }
}
