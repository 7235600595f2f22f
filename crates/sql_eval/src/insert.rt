//! What an INSERT does: SQL Language Reference, "INSERT".
ghost use Rattle.std.specs.Prelude.{◌≡◌, IfOk};
ghost use Rattle.std.specs.Option.{option_copied};
ghost use Rattle.sql_check.specs.Columns.{key_of_row as key_of_row_in};
ghost use Rattle.sql_check.specs.Words.{one};
ghost use Rattle.sql_eval.specs.Rows.{get as get_of};
ghost use Rattle.sql_eval.specs.Meaning.{inserting as inserting_of, insertion as insertion_of};

use crate::rows::get;
use crate::{KeyedRef, Meant, StmtMeaning};
use dtx_values::{Cells, Change, Done, Duplicate, Listing, Row, Table, Value};
use sql_check::{copy_or_null, key_of_row, of_name};
use std::alloc::{AllocError, Global};

fn insertion(alloc: Global, table: &Table, key: &Value, cells: Cells) -> Result<Change, AllocError>
    requires { key.now ≡ key_of_row_in table.now cells }
    ensures { IfOk result (λ change. change ≡ insertion_of table.now cells) }
{
    Ok(Change {
        table: table.name.copy(alloc)?,
        key: key.copy(alloc)?,
        after: Some(Row { cells }),
    })
}

// What an INSERT of these cells does, where this row stands at their key: ORA-00001 where one does.
fn inserting(
    alloc: Global,
    table: &Table,
    key: &Value,
    cells: Cells,
    there: Option<&Row>,
) -> Result<Meant, AllocError>
    requires { key.now ≡ key_of_row_in table.now cells }
    ensures { IfOk result (λ meant. meant ≡ inserting_of table.now cells (option_copied there.entry)) }
{
    match there {
        Some(_) => Ok(Meant::Refused(of_name(alloc, 1, &table.name)?)),
        None => {
            let change = insertion(alloc, table, key, cells)?;
            Ok(Meant::Changes {
                done: Done::Created,
                count: 1,
                changes: Listing::of(vec![in alloc; change]?),
            })
        }
    }
}

/// What an INSERT of these cells comes to over a table with these rows.
pub fn inserted(
    alloc: Global,
    table: &Table,
    cells: Cells,
    rows: &[KeyedRef],
) -> Result<StmtMeaning, AllocError>
    ensures keys { IfOk result (λ outcome. outcome.keys ≡ one (key_of_row_in table.now cells)) }
    ensures meant { IfOk result (λ outcome. outcome.meant ≡ inserting_of table.now cells (get_of rows.now (key_of_row_in table.now cells))) }
{
    let key = copy_or_null(alloc, key_of_row(table, cells.as_slice()))?;
    let meant = inserting(alloc, table, &key, cells, get(rows, &key))?;
    Ok(StmtMeaning {
        keys: Listing::of(vec![in alloc; key]?),
        meant,
    })
}
