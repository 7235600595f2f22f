//! SELECT, as it is read (SQL Language Reference, "SELECT").
ghost use Rattle.std.specs.Prelude.{◌≡◌};
ghost use Rattle.token_grammar.specs.Gives.{Gives};
ghost use Rattle.token_grammar.specs.Grammar.{◌·◌};
ghost use Rattle.sql_parse.specs.Conditions.{conditions};
ghost use Rattle.sql_parse.specs.Changes as spec;

use crate::conditions::take_conditions;
use crate::lists::ColumnName;
use crate::literals::take_table_ref;
use crate::parts::{after_mark, after_word};
use dtx_values::{Listing, SELECT_LIMIT};
use sql_statement::{Conds, Picked, Stmt, TableRef};
use std::alloc::Global;
use token_grammar::{
    Mark, ReadErr, Token, begins_word_mark, commas, take_identifier, take_mark, take_word,
};

fn take_count(tokens: &[Token]) -> Result<(Picked, &[Token]), ReadErr>
    ensures { Gives (λ x. (x.0, x.1.now)) result (spec.count.read tokens.now) }
{
    let rest = take_word(tokens, b"COUNT")?;
    let rest = take_mark(rest, Mark::Open)?;
    let rest = take_mark(rest, Mark::Star)?;
    let rest = take_mark(rest, Mark::Close)?;
    Ok((Picked::Count, rest))
}

fn take_sum_of(alloc: Global, tokens: &[Token]) -> Result<(Picked, &[Token]), ReadErr>
    ensures { Gives (λ x. (x.0, x.1.now)) result (spec.sum_of.read tokens.now) }
{
    let rest = take_word(tokens, b"SUM")?;
    let rest = take_mark(rest, Mark::Open)?;
    let (column, rest) = take_identifier(alloc, rest)?;
    let rest = take_mark(rest, Mark::Close)?;
    Ok((Picked::Sum(column), rest))
}

fn take_columns(alloc: Global, tokens: &[Token]) -> Result<(Picked, &[Token]), ReadErr>
    ensures { Gives (λ x. (x.0, x.1.now)) result (spec.columns.read tokens.now) }
{
    let (names, rest) = commas::<ColumnName>(alloc, tokens)?;
    if names.len() > SELECT_LIMIT {
        return Err(ReadErr::Bad);
    }
    Ok((Picked::Columns(Listing::of(names)), rest))
}

#[tactic(auto, unfolding(crate::specs::Changes::picks))]
fn take_picked(alloc: Global, tokens: &[Token]) -> Result<(Picked, &[Token]), ReadErr>
    ensures { Gives (λ x. (x.0, x.1.now)) result (spec.picks.read tokens.now) }
{
    if let Some(rest) = after_mark(tokens, Mark::Star) {
        return Ok((Picked::All, rest));
    }
    if begins_word_mark(tokens, b"COUNT", Mark::Open) {
        return take_count(tokens);
    }
    if begins_word_mark(tokens, b"SUM", Mark::Open) {
        return take_sum_of(alloc, tokens);
    }
    take_columns(alloc, tokens)
}

fn take_for_update(tokens: &[Token]) -> Result<(bool, &[Token]), ReadErr>
    ensures { Gives (λ x. (x.0, x.1.now)) result (spec.for_update_part.read tokens.now) }
{
    let Some(rest) = after_word(tokens, b"FOR") else {
        return Ok((false, tokens));
    };
    let rest = take_word(rest, b"UPDATE")?;
    Ok((true, rest))
}

// Which rows are asked for, and whether they are locked.
fn take_rows(alloc: Global, tokens: &[Token]) -> Result<((Conds, bool), &[Token]), ReadErr>
    ensures { Gives (λ x. (x.0, x.1.now)) result ((conditions · spec.for_update_part).read tokens.now) }
{
    let (conds, rest) = take_conditions(alloc, tokens)?;
    let (for_update, rest) = take_for_update(rest)?;
    Ok(((conds, for_update), rest))
}

// The table after FROM, and which of its rows.
fn take_source(
    alloc: Global,
    tokens: &[Token],
) -> Result<((TableRef, (Conds, bool)), &[Token]), ReadErr>
    ensures { Gives (λ x. (x.0, x.1.now)) result (spec.source.read tokens.now) }
{
    let rest = take_word(tokens, b"FROM")?;
    let (table, rest) = take_table_ref(alloc, rest)?;
    let (rows, rest) = take_rows(alloc, rest)?;
    Ok(((table, rows), rest))
}

fn is_of_rows(list: &Picked) -> bool
    ensures { result ≡ spec.is_of_rows list.now }
{
    matches!(list, Picked::All | Picked::Columns(_))
}

fn is_lockable(list: &Picked, for_update: bool) -> bool
    ensures { result ≡ spec.is_lockable list.now for_update }
{
    !for_update || is_of_rows(list)
}

/// SELECT, with FOR UPDATE where its list is one of columns. Fails where the tokens begin with no such statement, and where
/// memory runs out.
#[tactic(auto, unfolding(crate::specs::Changes::select))]
pub(crate) fn take_select(alloc: Global, tokens: &[Token]) -> Result<(Stmt, &[Token]), ReadErr>
    ensures { Gives (λ x. (x.0, x.1.now)) result (spec.select.read tokens.now) }
{
    let rest = take_word(tokens, b"SELECT")?;
    let (list, rest) = take_picked(alloc, rest)?;
    let ((table, (conds, for_update)), rest) = take_source(alloc, rest)?;
    if !is_lockable(&list, for_update) {
        return Err(ReadErr::Bad);
    }
    Ok((
        Stmt::Select {
            list,
            table,
            conds,
            for_update,
        },
        rest,
    ))
}
