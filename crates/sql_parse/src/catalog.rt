//! CREATE TABLE, CREATE DATABASE LINK and CREATE SYNONYM, as they are read (SQL Language Reference, the chapters of these
//! names).
ghost use Rattle.std.specs.Prelude.{◌≡◌, codes};
ghost use Rattle.token_grammar.specs.declared.mark.Mark.TheVariants as marks;
ghost use Rattle.token_grammar.specs.Gives.{Gives};
ghost use Rattle.token_grammar.specs.Grammar.{meant, optional, is_word, word, mark, identifier, name, ◌·◌, ◌▹◌};
ghost use Rattle.sql_parse.specs.Catalog as spec;

use crate::columns::take_columns;
use dtx_values::{Link, Name, NameErr, Synonym, Table};
use sql_statement::Stmt;
use std::alloc::Global;
use token_grammar::{
    Mark, ReadErr, Token, begins_word, maybe_word, take_identifier, take_mark, take_name,
    take_quoted, take_word,
};

#[tactic(auto, unfolding(crate::specs::Catalog::create_table))]
fn take_create_table(alloc: Global, tokens: &[Token]) -> Result<(Stmt, &[Token]), ReadErr>
    ensures { Gives (λ x. (x.0, x.1.now)) result (spec.create_table.read tokens.now) }
{
    let rest = take_word(tokens, b"TABLE")?;
    let (name, rest) = take_identifier(alloc, rest)?;
    let (columns, rest) = take_columns(alloc, rest)?;
    Ok((Stmt::CreateTable(Table { name, columns }), rest))
}

fn take_target(alloc: Global, tokens: &[Token]) -> Result<(Name, &[Token]), ReadErr>
    ensures { Gives (λ x. (x.0, x.1.now)) result ((meant spec.target_in).read tokens.now) }
{
    let (text, rest) = take_quoted(tokens)?;
    match Name::from_bytes(alloc, text) {
        Ok(name) => Ok((name, rest)),
        Err(NameErr::Bad) => Err(ReadErr::Bad),
        Err(NameErr::NoMemory) => Err(ReadErr::NoMemory),
    }
}

fn take_password(alloc: Global, tokens: &[Token]) -> Result<(Name, &[Token]), ReadErr>
    ensures { Gives (λ x. (x.0, x.1.now)) result ((word (codes "IDENTIFIED") ▹ word (codes "BY") ▹ identifier).read tokens.now) }
{
    let rest = take_word(tokens, b"IDENTIFIED")?;
    let rest = take_word(rest, b"BY")?;
    take_identifier(alloc, rest)
}

fn take_account(alloc: Global, tokens: &[Token]) -> Result<((Name, Name), &[Token]), ReadErr>
    ensures { Gives (λ x. (x.0, x.1.now)) result (spec.account.read tokens.now) }
{
    let rest = take_word(tokens, b"CONNECT")?;
    let rest = take_word(rest, b"TO")?;
    let (user, rest) = take_identifier(alloc, rest)?;
    let (password, rest) = take_password(alloc, rest)?;
    Ok(((user, password), rest))
}

fn maybe_account(
    alloc: Global,
    tokens: &[Token],
) -> Result<(Option<(Name, Name)>, &[Token]), ReadErr>
    ensures { Gives (λ x. (x.0, x.1.now)) result ((optional (is_word (codes "CONNECT")) spec.account).read tokens.now) }
{
    if !begins_word(tokens, b"CONNECT") {
        return Ok((None, tokens));
    }
    let (account, rest) = take_account(alloc, tokens)?;
    Ok((Some(account), rest))
}

#[tactic(auto, unfolding(crate::specs::Catalog::create_link))]
fn take_create_link(alloc: Global, tokens: &[Token]) -> Result<(Stmt, &[Token]), ReadErr>
    ensures { Gives (λ x. (x.0, x.1.now)) result (spec.create_link.read tokens.now) }
{
    let rest = maybe_word(tokens, b"PUBLIC");
    let rest = take_word(rest, b"DATABASE")?;
    let rest = take_word(rest, b"LINK")?;
    let (name, rest) = take_name(alloc, rest)?;
    let (_, rest) = maybe_account(alloc, rest)?;
    let rest = take_word(rest, b"USING")?;
    let (target, rest) = take_target(alloc, rest)?;
    Ok((Stmt::CreateLink(Link { name, target }), rest))
}

// A remote table.
fn take_remote_table(alloc: Global, tokens: &[Token]) -> Result<((Name, Name), &[Token]), ReadErr>
    ensures { Gives (λ x. (x.0, x.1.now)) result ((identifier · (mark marks.At ▹ name)).read tokens.now) }
{
    let (table, rest) = take_identifier(alloc, tokens)?;
    let rest = take_mark(rest, Mark::At)?;
    let (link, rest) = take_name(alloc, rest)?;
    Ok(((table, link), rest))
}

#[tactic(auto, unfolding(crate::specs::Catalog::create_synonym))]
fn take_create_synonym(alloc: Global, tokens: &[Token]) -> Result<(Stmt, &[Token]), ReadErr>
    ensures { Gives (λ x. (x.0, x.1.now)) result (spec.create_synonym.read tokens.now) }
{
    let rest = take_word(tokens, b"SYNONYM")?;
    let (name, rest) = take_identifier(alloc, rest)?;
    let rest = take_word(rest, b"FOR")?;
    let ((table, link), rest) = take_remote_table(alloc, rest)?;
    let synonym = Synonym { name, table, link };
    Ok((Stmt::CreateSynonym(synonym), rest))
}

/// CREATE TABLE, CREATE DATABASE LINK or CREATE SYNONYM. Fails where the tokens begin with none of them, and where memory runs
/// out.
#[tactic(auto, unfolding(crate::specs::Catalog::create))]
pub(crate) fn take_create(alloc: Global, tokens: &[Token]) -> Result<(Stmt, &[Token]), ReadErr>
    ensures { Gives (λ x. (x.0, x.1.now)) result (spec.create.read tokens.now) }
{
    let rest = take_word(tokens, b"CREATE")?;
    if begins_word(rest, b"TABLE") {
        return take_create_table(alloc, rest);
    }
    if begins_word(rest, b"SYNONYM") {
        return take_create_synonym(alloc, rest);
    }
    take_create_link(alloc, rest)
}
