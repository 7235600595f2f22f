//! The value of a sum over a row: SQL Language Reference, "Arithmetic Operators". A sum with NULL is NULL.
ghost use Rattle.std.specs.Prelude.{◌≡◌, ◌+ℤ◌, ◌-ℤ◌, Some, IfOk};
ghost use Rattle.std.specs.Option.{option_copied};
ghost use Rattle.sql_check.specs.Cells.{or_null};
ghost use Rattle.sql_check.specs.Sums.{ranged, term_value as term_value_of, step_value as step_value_of, steps_value as steps_value_of, sum_value as sum_value_of};

use crate::column::{cell, copy_or_null};
use dtx_values::{Row, Table, Value};
use sql_statement::{Step, Sum, Term};
use std::alloc::{AllocError, Global};

// The value of a term, where it is not NULL for want of a cell.
fn term_value<'a>(table: &Table, row: &'a Row, term: &'a Term) -> Option<&'a Value>
    ensures { or_null (option_copied result) ≡ term_value_of table.now row.now term.now }
{
    match term {
        Term::Column(name) => cell(table, row, name),
        Term::Literal(value) => Some(value),
    }
}

/// The sum of two numbers, where it fits 64 bits.
#[tactic(auto, using(crate::proofs::RangeLemmas::ranged_is))]
pub fn plus(number: i64, other: i64) -> Option<Value>
    ensures { result ≡ ranged (number +ℤ other) }
{
    match number.checked_add(other) {
        None => None,
        Some(sum) => Some(Value::Number(sum)),
    }
}

#[tactic(auto, using(crate::proofs::RangeLemmas::ranged_is))]
fn difference(number: i64, other: i64) -> Option<Value>
    ensures { result ≡ ranged (number -ℤ other) }
{
    match number.checked_sub(other) {
        None => None,
        Some(left) => Some(Value::Number(left)),
    }
}

// The value with one term more: NULL from the first NULL on.
fn step_value(minus: bool, value: &Value, term: Option<&Value>) -> Option<Value>
    ensures { result ≡ step_value_of minus value.now (or_null (option_copied term.entry)) }
{
    match value {
        Value::Number(number) => match term {
            Some(Value::Number(other)) => {
                if minus {
                    difference(*number, *other)
                } else {
                    plus(*number, *other)
                }
            }
            None | Some(Value::Null) | Some(Value::Text(_)) => Some(Value::Null),
        },
        Value::Null | Value::Text(_) => Some(Value::Null),
    }
}

// The value after further terms, from left to right.
fn steps_value(table: &Table, row: &Row, first: Value, steps: &[Step]) -> Option<Value>
    ensures { result ≡ steps_value_of table.now row.now (Some first) steps.now }
{
    let mut value = first;
    for step in steps {
        value = step_value(step.minus, &value, term_value(table, row, &step.term))?;
    }
    Some(value)
}

/// The value of a sum over a row: terms are added up from left to right, and each partial sum has to fit 64 bits.
pub fn sum_value(
    alloc: Global,
    table: &Table,
    row: &Row,
    sum: &Sum,
) -> Result<Option<Value>, AllocError>
    ensures { IfOk result (λ value. value ≡ sum_value_of table.now row.now sum.now) }
{
    let first = copy_or_null(alloc, term_value(table, row, &sum.first))?;
    Ok(steps_value(table, row, first, sum.rest.as_slice()))
}
