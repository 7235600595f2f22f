//! The columns of a CREATE TABLE, as they are read (SQL Language Reference, "CREATE TABLE", "Data Types", "constraint").
ghost use Rattle.std.specs.Prelude.{◌≡◌, count_by};
ghost use Rattle.std.specs.List.{list_any};
ghost use Rattle.token_grammar.specs.Gives.{Gives};
ghost use Rattle.token_grammar.specs.Grammar.{many, tested};
ghost use Rattle.sql_parse.specs.Catalog as spec;
ghost use Rattle.sql_statement.specs.Distinct.{column_name};

use crate::lists::bracketed;
use crate::parts::{Called, after_word, are_distinct};
use crate::rule::Rule;
use dtx_values::{COLUMN_LIMIT, Column, Columns, Listing, Name, TEXT_LIMIT};
use std::alloc::Global;
use token_grammar::{
    Mark, Part, ReadErr, Repeated, Token, begins_word, many, take_identifier, take_mark,
    take_number, take_word,
};

fn take_width(tokens: &[Token]) -> Result<(u16, &[Token]), ReadErr>
    ensures { Gives (λ x. (x.0, x.1.now)) result (spec.width.read tokens.now) }
{
    let (width, rest) = take_number(tokens, TEXT_LIMIT as u64)?;
    if width < 1 {
        return Err(ReadErr::Bad);
    }
    Ok((width as u16, rest))
}

#[tactic(auto, unfolding(crate::specs::Catalog::column_type))]
fn take_type(tokens: &[Token]) -> Result<(Option<u16>, &[Token]), ReadErr>
    ensures { Gives (λ x. (x.0, x.1.now)) result (spec.column_type.read tokens.now) }
{
    if let Some(rest) = after_word(tokens, b"NUMBER") {
        return Ok((None, rest));
    }
    let rest = take_word(tokens, b"VARCHAR2")?;
    let rest = take_mark(rest, Mark::Open)?;
    let (width, rest) = take_width(rest)?;
    let rest = take_mark(rest, Mark::Close)?;
    Ok((Some(width), rest))
}

impl Repeated for Rule {
    type Item = Rule;

    ghost starts = { spec.is_rule };

    ghost grammar = { spec.rule };

    fn is_next(tokens: &[Token]) -> bool {
        begins_word(tokens, b"NOT") || begins_word(tokens, b"PRIMARY")
    }

    #[tactic(auto, unfolding(crate::specs::Catalog::rule))]
    fn take(_: Global, tokens: &[Token]) -> Result<(Rule, &[Token]), ReadErr> {
        if let Some(rest) = after_word(tokens, b"NOT") {
            let rest = take_word(rest, b"NULL")?;
            return Ok((Rule::NotNull, rest));
        }
        let rest = take_word(tokens, b"PRIMARY")?;
        let rest = take_word(rest, b"KEY")?;
        Ok((Rule::PrimaryKey, rest))
    }
}

fn is_not_null(rule: &Rule) -> bool
    ensures { result ≡ spec.is_not_null rule.now }
{
    matches!(rule, Rule::NotNull)
}

fn is_key(rule: &Rule) -> bool
    ensures { result ≡ spec.is_key rule.now }
{
    matches!(rule, Rule::PrimaryKey)
}

fn not_nulls(rules: &[Rule]) -> usize
    ensures { result ≡ count_by spec.is_not_null rules.now }
{
    rules.iter().filter(|rule| is_not_null(rule)).count()
}

fn keys(rules: &[Rule]) -> usize
    ensures { result ≡ count_by spec.is_key rules.now }
{
    rules.iter().filter(|rule| is_key(rule)).count()
}

fn are_once(rules: &[Rule]) -> bool
    ensures { result ≡ spec.are_once rules.now }
{
    not_nulls(rules) <= 1 && keys(rules) <= 1
}

fn take_rules(alloc: Global, tokens: &[Token]) -> Result<(Vec<Rule>, &[Token]), ReadErr>
    ensures { Gives (λ x. (x.0.items, x.1.now)) result ((tested spec.are_once (many spec.is_rule spec.rule)).read tokens.now) }
{
    let (rules, rest) = many::<Rule>(alloc, tokens)?;
    if !are_once(&rules) {
        return Err(ReadErr::Bad);
    }
    Ok((rules, rest))
}

fn has_not_null(rules: &[Rule]) -> bool
    ensures { result ≡ list_any spec.is_not_null rules.now }
{
    rules.iter().any(is_not_null)
}

fn has_key(rules: &[Rule]) -> bool
    ensures { result ≡ list_any spec.is_key rules.now }
{
    rules.iter().any(is_key)
}

/// A column with its type and rules.
struct TableColumn;

impl Part for TableColumn {
    type Item = Column;

    ghost grammar = { spec.column };

    #[tactic(auto, unfolding(crate::specs::Catalog::column))]
    fn take(alloc: Global, tokens: &[Token]) -> Result<(Column, &[Token]), ReadErr> {
        let (name, rest) = take_identifier(alloc, tokens)?;
        let (text_max, rest) = take_type(rest)?;
        let (rules, rest) = take_rules(alloc, rest)?;
        let column = Column {
            name,
            text_max,
            not_null: has_not_null(&rules),
            key: has_key(&rules),
        };
        Ok((column, rest))
    }
}

impl Called for Column {
    ghost called = { column_name };

    fn called(&self) -> &Name {
        &self.name
    }
}

fn are_of_a_table(columns: &[Column]) -> bool
    ensures { result ≡ spec.are_of_a_table columns.now }
{
    columns.len() <= COLUMN_LIMIT
        && columns.iter().filter(|column| column.key).count() == 1
        && are_distinct(columns)
}

/// The columns of a table, between brackets. Fails where no such list is next, where it has too many columns, two of one name,
/// or no key or two, and where memory runs out.
pub(crate) fn take_columns(alloc: Global, tokens: &[Token]) -> Result<(Columns, &[Token]), ReadErr>
    ensures { Gives (λ x. (x.0, x.1.now)) result (spec.table_columns.read tokens.now) }
{
    let (columns, rest) = bracketed::<TableColumn>(alloc, tokens)?;
    if !are_of_a_table(&columns) {
        return Err(ReadErr::Bad);
    }
    Ok((Listing::of(columns), rest))
}
