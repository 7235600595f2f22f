//! Statements, read from their texts.
ghost use Rattle.std.specs.Prelude.{◌≡◌, ℕ, List, Some, None, IfOk, IsErrOf};
ghost use Rattle.token_grammar.specs.Gives.{Gives};
ghost use Rattle.sql_statement.specs.declared.statement.Stmt.{Stmt};
ghost use Rattle.sql_parse.specs.Statement as spec;
ghost use Rattle.sql_parse.specs.Statement.{IsStatement, statement_of};

use crate::catalog::take_create;
use crate::changes::{take_delete, take_insert, take_update};
use crate::parse_err::ParseErr;
use crate::queries::take_select;
use crate::transactions::{
    take_alter, take_commit, take_execute, take_rollback, take_savepoint, take_set_transaction,
};
use sql_statement::Stmt;
use std::alloc::Global;
use token_grammar::{Part, ReadErr, Token, begins_word, read_text};

#[tactic(auto, unfolding(crate::specs::Statement::statement_grammar))]
fn take_statement(alloc: Global, tokens: &[Token]) -> Result<(Stmt, &[Token]), ReadErr>
    ensures { Gives (λ x. (x.0, x.1.now)) result (spec.statement_grammar.read tokens.now) }
{
    if begins_word(tokens, b"SELECT") {
        return take_select(alloc, tokens);
    }
    if begins_word(tokens, b"INSERT") {
        return take_insert(alloc, tokens);
    }
    if begins_word(tokens, b"UPDATE") {
        return take_update(alloc, tokens);
    }
    if begins_word(tokens, b"DELETE") {
        return take_delete(alloc, tokens);
    }
    if begins_word(tokens, b"CREATE") {
        return take_create(alloc, tokens);
    }
    if begins_word(tokens, b"COMMIT") {
        return take_commit(alloc, tokens);
    }
    if begins_word(tokens, b"ROLLBACK") {
        return take_rollback(alloc, tokens);
    }
    if begins_word(tokens, b"ALTER") {
        return take_alter(tokens);
    }
    if begins_word(tokens, b"SAVEPOINT") {
        return take_savepoint(alloc, tokens);
    }
    if begins_word(tokens, b"SET") {
        return take_set_transaction(tokens);
    }
    take_execute(alloc, tokens)
}

/// A statement, as the whole of a text.
struct Statement;

impl Part for Statement {
    type Item = Stmt;

    ghost grammar = { spec.statement_grammar };

    fn take(alloc: Global, tokens: &[Token]) -> Result<(Stmt, &[Token]), ReadErr> {
        take_statement(alloc, tokens)
    }
}

/// The statement that a text spells.
///
/// The grammar is a part of that of the SQL Language Reference, "SQL Statements". Fails with `BadSql` where the text spells no
/// statement of it, and with `NoMemory` where memory runs out.
pub fn parse(alloc: Global, text: &[u8]) -> Result<Stmt, ParseErr>
    // The text spells the statement.
    ensures found { IfOk result (λ s. IsStatement s text.now) }
    // A text that is refused spells no statement.
    ensures bad { IsErrOf result ParseErr.BadSql → (s : Stmt) → IsStatement s text.now → ⊥ }
    // The same, in the words of the function that finds the statement.
    ensures is { IfOk result (λ s. statement_of text.now ≡ Some s) }
    ensures is_none { IsErrOf result ParseErr.BadSql → statement_of text.now ≡ None }
{
    match read_text::<Statement>(alloc, text) {
        Ok(statement) => Ok(statement),
        Err(ReadErr::Bad) => Err(ParseErr::BadSql),
        Err(ReadErr::NoMemory) => Err(ParseErr::NoMemory),
    }
}
