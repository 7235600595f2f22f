//! The conditions of a statement, and the rows that satisfy them: SQL Language Reference, "Comparison Conditions" and
//! "Null Conditions".
ghost use Rattle.std.specs.Prelude.{◌≡◌};
ghost use Rattle.std.specs.Option.{option_copied};
ghost use Rattle.sql_check.specs.Cells.{or_null};
ghost use Rattle.dtx_values.specs.Order.{is_null as is_null_of};
ghost use Rattle.sql_eval.specs.Meaning.{compares as compares_of, holds as holds_of, conds_of as conds_in, satisfies as satisfies_of, found as found_of};

use crate::KeyedRef;
use dtx_values::{Row, Table, Value, is_null, same_value, value_below};
use sql_check::cell;
use sql_statement::{Cond, Sign, Stmt};

// What a sign says of two values, neither of which is NULL.
fn compares(sign: Sign, value: &Value, other: &Value) -> bool
    ensures { result ≡ compares_of sign value.now other.now }
{
    match sign {
        Sign::Eq => same_value(value, other),
        Sign::Ne => !same_value(value, other),
        Sign::Lt => value_below(value, other),
        Sign::Le => !value_below(other, value),
        Sign::Gt => value_below(other, value),
        Sign::Ge => !value_below(value, other),
    }
}

// Whether a cell has NULL, or is not there.
fn is_no_value(cell: Option<&Value>) -> bool
    ensures { result ≡ is_null_of (or_null (option_copied cell.entry)) }
{
    match cell {
        None => true,
        Some(value) => is_null(value),
    }
}

// Whether a condition is true of a row. A comparison with NULL is not.
fn holds(table: &Table, row: &Row, cond: &Cond) -> bool
    ensures { result ≡ holds_of table.now row.now cond.now }
{
    match cond {
        Cond::Compare {
            column,
            sign,
            literal,
        } => match cell(table, row, column) {
            None => false,
            Some(value) => !is_null(value) && !is_null(literal) && compares(*sign, value, literal),
        },
        Cond::IsNull { column, negated } => is_no_value(cell(table, row, column)) != *negated,
    }
}

fn satisfies(table: &Table, conds: &[Cond], keyed: &KeyedRef) -> bool
    ensures { result ≡ satisfies_of table.now conds.now keyed.now }
{
    conds.iter().all(|cond| holds(table, keyed.row, cond))
}

/// The conditions of a statement's WHERE.
pub fn conds_of(statement: &Stmt) -> &[Cond]
    ensures { result.now ≡ conds_in statement.now }
{
    match statement {
        Stmt::Update { conds, .. } | Stmt::Delete { conds, .. } | Stmt::Select { conds, .. } => {
            conds.as_slice()
        }
        _ => &[],
    }
}

/// Those of the rows that satisfy the WHERE of a statement, in their order. A comparison with NULL is true of no row.
pub fn found<'r>(statement: &Stmt, table: &Table, mut rows: Vec<KeyedRef<'r>>) -> Vec<KeyedRef<'r>>
    ensures { result.items ≡ found_of statement.now table.now rows.entry.items }
{
    let conds = conds_of(statement);
    rows.retain(|keyed| satisfies(table, conds, keyed));
    rows
}
