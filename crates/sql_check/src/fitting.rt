//! Whether the values of a statement are of the types of their columns.
ghost use Rattle.std.specs.Prelude.{◌≡◌, zip};
ghost use Rattle.std.specs.List.{list_all};
ghost use Rattle.std.specs.Option.{option_copied};
ghost use Rattle.sql_check.specs.Columns.{is_text as is_text_of, column_of as column_in, given_columns as given_columns_of, fits as fits_of, fits_column as fits_column_of, term_fits as term_fits_of, sum_fits_by as sum_fits_by_of, sum_fits as sum_fits_of, literal_fits as literal_fits_of, cond_fits as cond_fits_of, picked_fits as picked_fits_of, statement_fits as statement_fits_of};

use crate::column::column_of;
use crate::inserted::given_column;
use dtx_values::{Column, Names, Table, Value};
use sql_statement::{Cond, Picked, Set, Step, Stmt, Sum, Term};

fn is_text(column: &Column) -> bool
    ensures { result ≡ is_text_of column.now }
{
    column.text_max.is_some()
}

// NULL fits every column.
fn fits(column: &Column, value: &Value) -> bool
    ensures { result ≡ fits_of column.now value.now }
{
    match value {
        Value::Null => true,
        Value::Number(_) => !is_text(column),
        Value::Text(_) => is_text(column),
    }
}

fn fits_column(column: &Column, other: Option<&Column>) -> bool
    ensures { result ≡ fits_column_of column.now (option_copied other.entry) }
{
    match other {
        None => false,
        Some(other) => is_text(column) == is_text(other),
    }
}

fn term_fits(table: &Table, column: &Column, term: &Term) -> bool
    ensures { result ≡ term_fits_of table.now column.now term.now }
{
    match term {
        Term::Literal(value) => fits(column, value),
        Term::Column(name) => fits_column(column, column_of(table, name)),
    }
}

fn steps_fit(table: &Table, column: &Column, steps: &[Step]) -> bool
    ensures { result ≡ list_all (λ q. term_fits_of table.now column.now q.term) steps.now }
{
    steps
        .iter()
        .all(|step| term_fits(table, column, &step.term))
}

// A sum of one term is that term; a sum of several takes numbers and is one.
fn sum_fits_by(table: &Table, column: &Column, first: &Term, steps: &[Step]) -> bool
    ensures { result ≡ sum_fits_by_of table.now column.now first.now steps.now }
{
    match steps {
        [] => term_fits(table, column, first),
        [_, ..] => {
            !is_text(column) && term_fits(table, column, first) && steps_fit(table, column, steps)
        }
    }
}

fn sum_fits(table: &Table, sum: &Sum, column: Option<&Column>) -> bool
    ensures { result ≡ sum_fits_of table.now sum.now (option_copied column.entry) }
{
    match column {
        None => false,
        Some(column) => sum_fits_by(table, column, &sum.first, sum.rest.as_slice()),
    }
}

fn cond_fits(table: &Table, cond: &Cond) -> bool
    ensures { result ≡ cond_fits_of table.now cond.now }
{
    match cond {
        Cond::Compare {
            column,
            literal,
            ..
        } => match column_of(table, column) {
            None => false,
            Some(column) => fits(column, literal),
        },
        Cond::IsNull { .. } => true,
    }
}

fn conds_fit(table: &Table, conds: &[Cond]) -> bool
    ensures { result ≡ list_all (cond_fits_of table.now) conds.now }
{
    conds.iter().all(|cond| cond_fits(table, cond))
}

// SUM is of numbers.
fn picked_fits(table: &Table, list: &Picked) -> bool
    ensures { result ≡ picked_fits_of table.now list.now }
{
    match list {
        Picked::Sum(name) => match column_of(table, name) {
            None => false,
            Some(column) => !is_text(column),
        },
        Picked::All | Picked::Count | Picked::Columns(_) => true,
    }
}

fn sets_fit(table: &Table, sets: &[Set]) -> bool
    ensures { result ≡ list_all (λ s. sum_fits_of table.now s.to (column_in table.now s.column)) sets.now }
{
    sets.iter().all(|set| sum_fits(table, &set.to, column_of(table, &set.column)))
}

// Whether the values that an INSERT gives these columns fit them.
#[tactic(auto, using(crate::proofs::ZipLemmas::zip_ends))]
fn values_fit(table: &Table, columns: &Option<Names>, values: &[Sum]) -> bool
    ensures { result ≡ list_all (λ p. sum_fits_of table.now p.1 (column_in table.now p.0)) (zip (given_columns_of table.now columns.now) values.now) }
{
    for (place, value) in values.iter().enumerate() {
        let Some(name) = given_column(table, columns, place) else {
            return true;
        };
        if !sum_fits(table, value, column_of(table, name)) {
            return false;
        }
    }
    true
}

/// Whether every value, comparison, sum and SUM of a statement is of its column's type.
pub fn statement_fits(table: &Table, statement: &Stmt) -> bool
    ensures { result ≡ statement_fits_of table.now statement.now }
{
    match statement {
        Stmt::Insert {
            columns,
            values,
            ..
        } => values_fit(table, columns, values.as_slice()),
        Stmt::Update { sets, conds, .. } => {
            sets_fit(table, sets.as_slice()) && conds_fit(table, conds.as_slice())
        }
        Stmt::Delete { conds, .. } => conds_fit(table, conds.as_slice()),
        Stmt::Select { list, conds, .. } => {
            picked_fits(table, list) && conds_fit(table, conds.as_slice())
        }
        _ => true,
    }
}
