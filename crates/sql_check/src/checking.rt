//! The checks of a statement before any row is seen.
ghost use Rattle.std.specs.Prelude.{◌≡◌, is_none, length, IfOk};
ghost use Rattle.std.specs.List.{list_any};
ghost use Rattle.sql_check.specs.Columns.{is_key as is_key_of, given_columns as given_columns_of};
ghost use Rattle.sql_check.specs.Checks.{unknown_column as unknown_column_of, sets_key as sets_key_of, miscounted as miscounted_of, ill_cells as ill_cells_of, ill_values as ill_values_of, ill_inserted as ill_inserted_of, checked as checked_of};
ghost use Rattle.sql_check.specs.Inserted.{cells_of as cells_in};
ghost use Rattle.sql_check.specs.Passed.{new_cells, refusal_in, Inserts};

use crate::column::is_key;
use crate::fitting::statement_fits;
use crate::inserted::{cells_of, first_null, first_too_long, inserted_cells};
use crate::refusal::{of_name, plain};
use crate::{Checked, naming};
use dtx_values::{Listing, Names, Refusal, Table, Value};
use sql_statement::{Set, Stmt};
use std::alloc::{AllocError, Global};

/// The code of DTX-09, number out of range.
pub const OUT_OF_RANGE: u16 = 60009;

// ORA-00904: the first column in the text that the table has not.
fn unknown_column(
    alloc: Global,
    table: &Table,
    statement: &Stmt,
) -> Result<Option<Refusal>, AllocError>
    ensures { IfOk result (λ refusal. refusal ≡ unknown_column_of statement.now table.now) }
{
    match naming::unknown_column(table, statement) {
        None => Ok(None),
        Some(name) => Ok(Some(of_name(alloc, 904, name)?)),
    }
}

fn any_key(table: &Table, sets: &[Set]) -> bool
    ensures { result ≡ list_any (λ s. is_key_of table.now s.column) sets.now }
{
    sets.iter().any(|set| is_key(table, &set.column))
}

fn sets_key(table: &Table, statement: &Stmt) -> bool
    ensures { result ≡ sets_key_of statement.now table.now }
{
    match statement {
        Stmt::Update { sets, .. } => any_key(table, sets.as_slice()),
        _ => false,
    }
}

fn count_of(columns: &Option<Names>, table: &Table) -> usize
    ensures { result ≡ length (given_columns_of table.now columns.now) }
{
    match columns {
        None => table.columns.as_slice().len(),
        Some(names) => names.as_slice().len(),
    }
}

// ORA-00947 and ORA-00913: an INSERT has fewer values than columns, or more.
fn miscounted(alloc: Global, table: &Table, statement: &Stmt) -> Option<Refusal>
    ensures { result ≡ miscounted_of statement.now table.now }
{
    match statement {
        Stmt::Insert {
            columns,
            values,
            ..
        } => {
            let due = count_of(columns, table);
            let given = values.as_slice().len();
            if given < due {
                Some(plain(alloc, 947))
            } else if due < given {
                Some(plain(alloc, 913))
            } else {
                None
            }
        }
        _ => None,
    }
}

fn any_none(cells: &[Option<Value>]) -> bool
    ensures { result ≡ list_any is_none cells.now }
{
    cells.iter().any(|cell| cell.is_none())
}

// What is wrong with these cells of a new row.
fn ill_cells(alloc: Global, table: &Table, cells: &[Value]) -> Result<Option<Refusal>, AllocError>
    ensures { IfOk result (λ refusal. refusal ≡ ill_cells_of table.now cells.now) }
{
    let columns = table.columns.as_slice();
    if let Some(refusal) = first_null(alloc, table, columns, cells)? {
        return Ok(Some(refusal));
    }
    let refusal = first_too_long(alloc, table, columns, cells)?;
    Ok(refusal)
}

// What the checks of a new row of these cells come to.
fn checked_cells(alloc: Global, table: &Table, cells: Vec<Value>) -> Result<Checked, AllocError>
    ensures refusal { IfOk result (λ checked. refusal_in checked ≡ ill_cells_of table.now cells.items) }
    ensures cells { IfOk result (Inserts cells.items) }
{
    match ill_cells(alloc, table, cells.as_slice())? {
        Some(refusal) => Ok(Checked::Refused(refusal)),
        None => Ok(Checked::Passed {
            cells: Listing::of(cells),
        }),
    }
}

// What the checks of the values of a new row come to.
fn checked_values(
    alloc: Global,
    table: &Table,
    values: Vec<Option<Value>>,
) -> Result<Checked, AllocError>
    ensures refusal { IfOk result (λ checked. refusal_in checked ≡ ill_values_of table.now values.items) }
    ensures cells { IfOk result (Inserts (cells_in values.items)) }
{
    if any_none(values.as_slice()) {
        return Ok(Checked::Refused(plain(alloc, OUT_OF_RANGE)));
    }
    let cells = cells_of(alloc, values)?;
    checked_cells(alloc, table, cells)
}

// What the checks of the values of an INSERT come to.
fn checked_inserted(alloc: Global, table: &Table, statement: &Stmt) -> Result<Checked, AllocError>
    ensures refusal { IfOk result (λ checked. refusal_in checked ≡ ill_inserted_of statement.now table.now) }
    ensures cells { IfOk result (Inserts (new_cells statement.now table.now)) }
{
    match statement {
        Stmt::Insert {
            columns,
            values,
            ..
        } => {
            let values = inserted_cells(alloc, table, columns, values.as_slice())?;
            checked_values(alloc, table, values)
        }
        _ => Ok(Checked::Passed {
            cells: Listing::new(alloc),
        }),
    }
}

/// What a statement comes to before any row is seen. These are tested in this order, and the first that applies refuses it:
/// ORA-00904 for a column that the table has not, DTX-15 for an UPDATE of the key column, ORA-00947 and ORA-00913 for an
/// INSERT of too few or too many values, DTX-10 for a value of the wrong type, and for the values of an INSERT DTX-09,
/// ORA-01400 and ORA-12899.
#[tactic(auto, unfolding(crate::specs::Checks::checked))]
pub fn checked(alloc: Global, statement: &Stmt, table: &Table) -> Result<Checked, AllocError>
    ensures refusal { IfOk result (λ checked. refusal_in checked ≡ checked_of statement.now table.now) }
    ensures cells { IfOk result (Inserts (new_cells statement.now table.now)) }
{
    if let Some(refusal) = unknown_column(alloc, table, statement)? {
        return Ok(Checked::Refused(refusal));
    }
    if sets_key(table, statement) {
        return Ok(Checked::Refused(plain(alloc, 60015)));
    }
    if let Some(refusal) = miscounted(alloc, table, statement) {
        return Ok(Checked::Refused(refusal));
    }
    if !statement_fits(table, statement) {
        return Ok(Checked::Refused(plain(alloc, 60010)));
    }
    checked_inserted(alloc, table, statement)
}
