//! INSERT, UPDATE and DELETE, as they are read.
ghost use Rattle.std.specs.Prelude.{◌≡◌, codes};
ghost use Rattle.std.specs.List.{list_all};
ghost use Rattle.token_grammar.specs.declared.mark.Mark.TheVariants as marks;
ghost use Rattle.token_grammar.specs.Gives.{Gives};
ghost use Rattle.token_grammar.specs.Grammar.{is_mark, optional, word, ◌·◌, ◌▹◌};
ghost use Rattle.sql_parse.specs.Conditions.{conditions};
ghost use Rattle.sql_parse.specs.Literals.{is_constant};
ghost use Rattle.sql_parse.specs.Changes as spec;

use crate::conditions::take_conditions;
use crate::lists::{ColumnName, bracketed};
use crate::literals::take_table_ref;
use crate::parts::{Called, are_distinct};
use crate::sums::{ListedSum, is_constant, take_sum};
use dtx_values::{Listing, Name, Names};
use sql_statement::{Conds, Set, Sets, Stmt, Sum, Sums};
use std::alloc::Global;
use token_grammar::{
    Mark, Part, ReadErr, Token, begins_mark, commas, maybe_word, take_identifier, take_mark,
    take_word,
};

fn take_column_names(alloc: Global, tokens: &[Token]) -> Result<(Names, &[Token]), ReadErr>
    ensures { Gives (λ x. (x.0, x.1.now)) result (spec.column_names.read tokens.now) }
{
    let (names, rest) = bracketed::<ColumnName>(alloc, tokens)?;
    if !are_distinct(&names) {
        return Err(ReadErr::Bad);
    }
    Ok((Listing::of(names), rest))
}

fn maybe_column_names(alloc: Global, tokens: &[Token]) -> Result<(Option<Names>, &[Token]), ReadErr>
    ensures { Gives (λ x. (x.0, x.1.now)) result ((optional (is_mark marks.Open) spec.column_names).read tokens.now) }
{
    if !begins_mark(tokens, Mark::Open) {
        return Ok((None, tokens));
    }
    let (names, rest) = take_column_names(alloc, tokens)?;
    Ok((Some(names), rest))
}

fn are_constant(sums: &[Sum]) -> bool
    ensures { result ≡ list_all is_constant sums.now }
{
    sums.iter().all(is_constant)
}

fn take_constants(alloc: Global, tokens: &[Token]) -> Result<(Sums, &[Token]), ReadErr>
    ensures { Gives (λ x. (x.0, x.1.now)) result (spec.constants.read tokens.now) }
{
    let (sums, rest) = bracketed::<ListedSum>(alloc, tokens)?;
    if !are_constant(&sums) {
        return Err(ReadErr::Bad);
    }
    Ok((Listing::of(sums), rest))
}

fn take_values(alloc: Global, tokens: &[Token]) -> Result<(Sums, &[Token]), ReadErr>
    ensures { Gives (λ x. (x.0, x.1.now)) result ((word (codes "VALUES") ▹ spec.constants).read tokens.now) }
{
    let rest = take_word(tokens, b"VALUES")?;
    take_constants(alloc, rest)
}

/// INSERT, with or without a list of columns. Fails where the tokens begin with no such statement, and where memory runs out.
#[tactic(auto, unfolding(crate::specs::Changes::insert))]
pub(crate) fn take_insert(alloc: Global, tokens: &[Token]) -> Result<(Stmt, &[Token]), ReadErr>
    ensures { Gives (λ x. (x.0, x.1.now)) result (spec.insert.read tokens.now) }
{
    let rest = take_word(tokens, b"INSERT")?;
    let rest = take_word(rest, b"INTO")?;
    let (table, rest) = take_table_ref(alloc, rest)?;
    let (columns, rest) = maybe_column_names(alloc, rest)?;
    let (values, rest) = take_values(alloc, rest)?;
    Ok((
        Stmt::Insert {
            table,
            columns,
            values,
        },
        rest,
    ))
}

/// An assignment, where several stand in a list.
struct Assignment;

impl Part for Assignment {
    type Item = Set;

    ghost grammar = { spec.assignment };

    #[tactic(auto, unfolding(crate::specs::Changes::assignment))]
    fn take(alloc: Global, tokens: &[Token]) -> Result<(Set, &[Token]), ReadErr> {
        let (column, rest) = take_identifier(alloc, tokens)?;
        let rest = take_mark(rest, Mark::Equal)?;
        let (to, rest) = take_sum(alloc, rest)?;
        Ok((Set { column, to }, rest))
    }
}

impl Called for Set {
    ghost called = { spec.left_side };

    fn called(&self) -> &Name {
        &self.column
    }
}

fn take_assignments(alloc: Global, tokens: &[Token]) -> Result<(Sets, &[Token]), ReadErr>
    ensures { Gives (λ x. (x.0, x.1.now)) result (spec.assignments.read tokens.now) }
{
    let (sets, rest) = commas::<Assignment>(alloc, tokens)?;
    if !are_distinct(&sets) {
        return Err(ReadErr::Bad);
    }
    Ok((Listing::of(sets), rest))
}

// What an UPDATE sets, and in which rows.
fn take_new_contents(alloc: Global, tokens: &[Token]) -> Result<((Sets, Conds), &[Token]), ReadErr>
    ensures { Gives (λ x. (x.0, x.1.now)) result ((word (codes "SET") ▹ (spec.assignments · conditions)).read tokens.now) }
{
    let rest = take_word(tokens, b"SET")?;
    let (sets, rest) = take_assignments(alloc, rest)?;
    let (conds, rest) = take_conditions(alloc, rest)?;
    Ok(((sets, conds), rest))
}

/// UPDATE. Fails where the tokens begin with no such statement, and where memory runs out.
#[tactic(auto, unfolding(crate::specs::Changes::update))]
pub(crate) fn take_update(alloc: Global, tokens: &[Token]) -> Result<(Stmt, &[Token]), ReadErr>
    ensures { Gives (λ x. (x.0, x.1.now)) result (spec.update.read tokens.now) }
{
    let rest = take_word(tokens, b"UPDATE")?;
    let (table, rest) = take_table_ref(alloc, rest)?;
    let ((sets, conds), rest) = take_new_contents(alloc, rest)?;
    Ok((Stmt::Update { table, sets, conds }, rest))
}

/// DELETE, with or without FROM. Fails where the tokens begin with no such statement, and where memory runs out.
#[tactic(auto, unfolding(crate::specs::Changes::delete))]
pub(crate) fn take_delete(alloc: Global, tokens: &[Token]) -> Result<(Stmt, &[Token]), ReadErr>
    ensures { Gives (λ x. (x.0, x.1.now)) result (spec.delete.read tokens.now) }
{
    let rest = take_word(tokens, b"DELETE")?;
    let rest = maybe_word(rest, b"FROM");
    let (table, rest) = take_table_ref(alloc, rest)?;
    let (conds, rest) = take_conditions(alloc, rest)?;
    Ok((Stmt::Delete { table, conds }, rest))
}
