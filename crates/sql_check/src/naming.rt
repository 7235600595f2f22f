//! The columns that a statement names.
ghost use Rattle.std.specs.Prelude.{◌≡◌, is_none, find, map, flat_map, ◌∷◌, ◌++◌};
ghost use Rattle.std.specs.Option.{option_copied};
ghost use Rattle.sql_check.specs.Columns.{place_of as place_in, term_columns, sum_columns, cond_column, picked_columns, named_columns};

use crate::column::place_of;
use dtx_values::{Name, Table};
use sql_statement::{Cond, Picked, Set, Step, Stmt, Sum, Term};

fn is_unknown(table: &Table, name: &Name) -> bool
    ensures { result ≡ is_none (place_in table.now name.now) }
{
    place_of(table, name).is_none()
}

fn unknown_name<'a>(table: &Table, names: &'a [Name]) -> Option<&'a Name>
    ensures { option_copied result ≡ find (λ name. is_none (place_in table.now name)) names.now }
{
    names.iter().find(|name| is_unknown(table, name))
}

fn unknown_in_term<'a>(table: &Table, term: &'a Term) -> Option<&'a Name>
    ensures { option_copied result ≡ find (λ name. is_none (place_in table.now name)) (term_columns term.now) }
{
    match term {
        Term::Literal(_) => None,
        Term::Column(name) => {
            if is_unknown(table, name) {
                Some(name)
            } else {
                None
            }
        }
    }
}

#[tactic(auto, using(crate::proofs::FindLemmas::finds))]
fn unknown_in_steps<'a>(table: &Table, steps: &'a [Step]) -> Option<&'a Name>
    ensures { option_copied result ≡ find (λ name. is_none (place_in table.now name)) (flat_map (λ p. term_columns p.term) steps.now) }
{
    for step in steps {
        if let Some(name) = unknown_in_term(table, &step.term) {
            return Some(name);
        }
    }
    None
}

#[tactic(auto, using(crate::proofs::FindLemmas::finds))]
fn unknown_in_sum<'a>(table: &Table, sum: &'a Sum) -> Option<&'a Name>
    ensures { option_copied result ≡ find (λ name. is_none (place_in table.now name)) (sum_columns sum.now) }
{
    match unknown_in_term(table, &sum.first) {
        Some(name) => Some(name),
        None => unknown_in_steps(table, sum.rest.as_slice()),
    }
}

fn unknown_in_set<'a>(table: &Table, set: &'a Set) -> Option<&'a Name>
    ensures { option_copied result ≡ find (λ name. is_none (place_in table.now name)) (set.now.column ∷ sum_columns set.now.to) }
{
    if is_unknown(table, &set.column) {
        Some(&set.column)
    } else {
        unknown_in_sum(table, &set.to)
    }
}

fn unknown_in_sets<'a>(table: &Table, sets: &'a [Set]) -> Option<&'a Name>
    ensures { option_copied result ≡ find (λ name. is_none (place_in table.now name)) (flat_map (λ s. s.column ∷ sum_columns s.to) sets.now) }
{
    for set in sets {
        if let Some(name) = unknown_in_set(table, set) {
            return Some(name);
        }
    }
    None
}

fn column_in(cond: &Cond) -> &Name
    ensures { result.now ≡ cond_column cond.now }
{
    match cond {
        Cond::Compare { column, .. } | Cond::IsNull { column, .. } => column,
    }
}

fn unknown_in_conds<'a>(table: &Table, conds: &'a [Cond]) -> Option<&'a Name>
    ensures { option_copied result ≡ find (λ name. is_none (place_in table.now name)) (map cond_column conds.now) }
{
    for cond in conds {
        let name = column_in(cond);
        if is_unknown(table, name) {
            return Some(name);
        }
    }
    None
}

fn unknown_in_list<'a>(table: &Table, list: &'a Picked) -> Option<&'a Name>
    ensures { option_copied result ≡ find (λ name. is_none (place_in table.now name)) (picked_columns list.now) }
{
    match list {
        Picked::All | Picked::Count => None,
        Picked::Sum(name) => {
            if is_unknown(table, name) {
                Some(name)
            } else {
                None
            }
        }
        Picked::Columns(names) => unknown_name(table, names.as_slice()),
    }
}

/// The first column in a statement's text that the table has not.
#[tactic(auto, using(crate::proofs::FindLemmas::finds))]
pub fn unknown_column<'a>(table: &Table, statement: &'a Stmt) -> Option<&'a Name>
    ensures { option_copied result ≡ find (λ name. is_none (place_in table.now name)) (named_columns statement.now) }
{
    match statement {
        Stmt::Insert {
            columns: Some(names),
            ..
        } => unknown_name(table, names.as_slice()),
        Stmt::Update { sets, conds, .. } => match unknown_in_sets(table, sets.as_slice()) {
            Some(name) => Some(name),
            None => unknown_in_conds(table, conds.as_slice()),
        },
        Stmt::Delete { conds, .. } => unknown_in_conds(table, conds.as_slice()),
        Stmt::Select { list, conds, .. } => match unknown_in_list(table, list) {
            Some(name) => Some(name),
            None => unknown_in_conds(table, conds.as_slice()),
        },
        _ => None,
    }
}
