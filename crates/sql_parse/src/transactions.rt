//! COMMIT, ROLLBACK, SAVEPOINT, SET TRANSACTION, ALTER and EXECUTE, as they are read (SQL Language Reference, "COMMIT",
//! "ROLLBACK", "SAVEPOINT", "SET TRANSACTION", "ALTER SESSION" and "ALTER SYSTEM"; PL/SQL Packages and Types Reference,
//! "DBMS_TRANSACTION").
ghost use Rattle.std.specs.Prelude.{◌≡◌, codes};
ghost use Rattle.token_grammar.specs.declared.mark.Mark.TheVariants as marks;
ghost use Rattle.token_grammar.specs.Gives.{Gives};
ghost use Rattle.token_grammar.specs.Grammar.{meant, optional, is_word, is_mark, anything, begins_two, passed, mark, number_to, ◌▹◌};
ghost use Rattle.sql_parse.specs.Transactions as spec;
ghost use Rattle.dtx_values.specs.Limits.{scn_limit};

use crate::parts::{after_mark, after_word, take_text};
use dtx_values::{Advice, Bytes, COMMENT_LIMIT, ID_LIMIT, Name, SCN_LIMIT, STRENGTH_LIMIT};
use sql_statement::Stmt;
use std::alloc::Global;
use token_grammar::{
    Mark, ReadErr, Token, begins_word, maybe_word, take_identifier, take_mark, take_number,
    take_word,
};

fn take_plain_commit(alloc: Global, tokens: &[Token]) -> Result<(Stmt, &[Token]), ReadErr>
    ensures { Gives (λ x. (x.0, x.1.now)) result (spec.plain_commit.read tokens.now) }
{
    let Some(rest) = after_word(tokens, b"COMMENT") else {
        return Ok((Stmt::Commit { comment: None }, tokens));
    };
    let (comment, rest) = take_text(alloc, rest, COMMENT_LIMIT)?;
    let comment = Some(comment);
    Ok((Stmt::Commit { comment }, rest))
}

fn maybe_scn(tokens: &[Token]) -> Result<(Option<u64>, &[Token]), ReadErr>
    ensures { Gives (λ x. (x.0, x.1.now)) result ((optional (is_mark marks.Comma) (mark marks.Comma ▹ number_to scn_limit)).read tokens.now) }
{
    let Some(rest) = after_mark(tokens, Mark::Comma) else {
        return Ok((None, tokens));
    };
    let (scn, rest) = take_number(rest, SCN_LIMIT)?;
    Ok((Some(scn), rest))
}

fn take_forced_commit(alloc: Global, tokens: &[Token]) -> Result<(Stmt, &[Token]), ReadErr>
    ensures { Gives (λ x. (x.0, x.1.now)) result (spec.forced_commit.read tokens.now) }
{
    let rest = take_word(tokens, b"FORCE")?;
    let (id, rest) = take_text(alloc, rest, ID_LIMIT)?;
    let (scn, rest) = maybe_scn(rest)?;
    Ok((Stmt::CommitForce { id, scn }, rest))
}

/// COMMIT, with a comment or without, or COMMIT FORCE. Fails where the tokens begin with no such statement, and where memory
/// runs out.
#[tactic(auto, unfolding(crate::specs::Transactions::commit))]
pub(crate) fn take_commit(alloc: Global, tokens: &[Token]) -> Result<(Stmt, &[Token]), ReadErr>
    ensures { Gives (λ x. (x.0, x.1.now)) result (spec.commit.read tokens.now) }
{
    let rest = take_word(tokens, b"COMMIT")?;
    let rest = maybe_word(rest, b"WORK");
    if begins_word(rest, b"FORCE") {
        return take_forced_commit(alloc, rest);
    }
    take_plain_commit(alloc, rest)
}

fn take_plain_rollback(alloc: Global, tokens: &[Token]) -> Result<(Stmt, &[Token]), ReadErr>
    ensures { Gives (λ x. (x.0, x.1.now)) result (spec.plain_rollback.read tokens.now) }
{
    let Some(rest) = after_word(tokens, b"FORCE") else {
        return Ok((Stmt::Rollback, tokens));
    };
    let (id, rest) = take_text(alloc, rest, ID_LIMIT)?;
    Ok((Stmt::RollbackForce { id }, rest))
}

// Whether the word SAVEPOINT is next, with something behind it: alone it is a name.
fn begins_savepoint(tokens: &[Token]) -> bool
    ensures { result ≡ begins_two (is_word (codes "SAVEPOINT")) anything tokens.now }
{
    match tokens {
        [Token::Word(word), _, ..] => word.as_slice() == b"SAVEPOINT".as_slice(),
        _ => false,
    }
}

fn take_savepoint_name(alloc: Global, tokens: &[Token]) -> Result<(Name, &[Token]), ReadErr>
    ensures { Gives (λ x. (x.0, x.1.now)) result (spec.savepoint_name.read tokens.now) }
{
    if begins_savepoint(tokens) {
        let rest = take_word(tokens, b"SAVEPOINT")?;
        return take_identifier(alloc, rest);
    }
    take_identifier(alloc, tokens)
}

fn take_rollback_to(alloc: Global, tokens: &[Token]) -> Result<(Stmt, &[Token]), ReadErr>
    ensures { Gives (λ x. (x.0, x.1.now)) result (spec.rollback_to.read tokens.now) }
{
    let rest = take_word(tokens, b"TO")?;
    let (name, rest) = take_savepoint_name(alloc, rest)?;
    Ok((Stmt::RollbackTo(name), rest))
}

/// ROLLBACK, ROLLBACK TO a savepoint, or ROLLBACK FORCE. Fails where the tokens begin with no such statement, and where memory
/// runs out.
#[tactic(auto, unfolding(crate::specs::Transactions::rollback))]
pub(crate) fn take_rollback(alloc: Global, tokens: &[Token]) -> Result<(Stmt, &[Token]), ReadErr>
    ensures { Gives (λ x. (x.0, x.1.now)) result (spec.rollback.read tokens.now) }
{
    let rest = take_word(tokens, b"ROLLBACK")?;
    let rest = maybe_word(rest, b"WORK");
    if begins_word(rest, b"TO") {
        return take_rollback_to(alloc, rest);
    }
    take_plain_rollback(alloc, rest)
}

/// SAVEPOINT. Fails where the tokens begin with no such statement, and where memory runs out.
#[tactic(auto, unfolding(crate::specs::Transactions::savepoint))]
pub(crate) fn take_savepoint(alloc: Global, tokens: &[Token]) -> Result<(Stmt, &[Token]), ReadErr>
    ensures { Gives (λ x. (x.0, x.1.now)) result (spec.savepoint.read tokens.now) }
{
    let rest = take_word(tokens, b"SAVEPOINT")?;
    let (name, rest) = take_identifier(alloc, rest)?;
    Ok((Stmt::Savepoint(name), rest))
}

/// SET TRANSACTION READ ONLY. Fails where the tokens begin with no such statement.
#[tactic(auto, unfolding(crate::specs::Transactions::set_transaction))]
pub(crate) fn take_set_transaction(tokens: &[Token]) -> Result<(Stmt, &[Token]), ReadErr>
    ensures { Gives (λ x. (x.0, x.1.now)) result (spec.set_transaction.read tokens.now) }
{
    let rest = take_word(tokens, b"SET")?;
    let rest = take_word(rest, b"TRANSACTION")?;
    let rest = take_word(rest, b"READ")?;
    let rest = take_word(rest, b"ONLY")?;
    Ok((Stmt::SetReadOnly, rest))
}

fn advice_of(word: &[u8]) -> Result<Option<Advice>, ReadErr>
    ensures { Gives (λ advice. advice) result (spec.advice_of word.now) }
{
    if word == b"COMMIT".as_slice() {
        return Ok(Some(Advice::Commit));
    }
    if word == b"ROLLBACK".as_slice() {
        return Ok(Some(Advice::Rollback));
    }
    if word == b"NOTHING".as_slice() {
        return Ok(None);
    }
    Err(ReadErr::Bad)
}

fn take_advice(tokens: &[Token]) -> Result<(Option<Advice>, &[Token]), ReadErr>
    ensures { Gives (λ x. (x.0, x.1.now)) result ((meant spec.advice_in).read tokens.now) }
{
    match tokens {
        [Token::Word(word), rest @ ..] => Ok((advice_of(word.as_slice())?, rest)),
        _ => Err(ReadErr::Bad),
    }
}

fn take_advise(tokens: &[Token]) -> Result<(Stmt, &[Token]), ReadErr>
    ensures { Gives (λ x. (x.0, x.1.now)) result (spec.advise.read tokens.now) }
{
    let rest = take_word(tokens, b"SESSION")?;
    let rest = take_word(rest, b"ADVISE")?;
    let (advice, rest) = take_advice(rest)?;
    Ok((Stmt::Advise(advice), rest))
}

fn switch_of(word: &[u8]) -> Result<bool, ReadErr>
    ensures { Gives (λ on. on) result (spec.switch_of word.now) }
{
    if word == b"ENABLE".as_slice() {
        return Ok(true);
    }
    if word == b"DISABLE".as_slice() {
        return Ok(false);
    }
    Err(ReadErr::Bad)
}

fn take_switch(tokens: &[Token]) -> Result<(bool, &[Token]), ReadErr>
    ensures { Gives (λ x. (x.0, x.1.now)) result ((meant spec.switch_in).read tokens.now) }
{
    match tokens {
        [Token::Word(word), rest @ ..] => Ok((switch_of(word.as_slice())?, rest)),
        _ => Err(ReadErr::Bad),
    }
}

fn take_recovery(tokens: &[Token]) -> Result<(Stmt, &[Token]), ReadErr>
    ensures { Gives (λ x. (x.0, x.1.now)) result (spec.recovery.read tokens.now) }
{
    let (on, rest) = take_switch(tokens)?;
    let rest = take_word(rest, b"DISTRIBUTED")?;
    let rest = take_word(rest, b"RECOVERY")?;
    Ok((Stmt::Recovery(on), rest))
}

fn take_set_strength(tokens: &[Token]) -> Result<(Stmt, &[Token]), ReadErr>
    ensures { Gives (λ x. (x.0, x.1.now)) result (spec.set_strength.read tokens.now) }
{
    let rest = take_word(tokens, b"SET")?;
    let rest = take_word(rest, b"COMMIT_POINT_STRENGTH")?;
    let rest = take_mark(rest, Mark::Equal)?;
    let (strength, rest) = take_number(rest, u64::from(STRENGTH_LIMIT))?;
    Ok((Stmt::SetStrength(strength as u8), rest))
}

fn take_alter_system(tokens: &[Token]) -> Result<(Stmt, &[Token]), ReadErr>
    ensures { Gives (λ x. (x.0, x.1.now)) result (spec.alter_system.read tokens.now) }
{
    let rest = take_word(tokens, b"SYSTEM")?;
    if begins_word(rest, b"SET") {
        return take_set_strength(rest);
    }
    take_recovery(rest)
}

/// ALTER SESSION ADVISE, ALTER SYSTEM SET COMMIT_POINT_STRENGTH, or ALTER SYSTEM ENABLE or DISABLE DISTRIBUTED RECOVERY. Fails
/// where the tokens begin with no such statement.
#[tactic(auto, unfolding(crate::specs::Transactions::alter))]
pub(crate) fn take_alter(tokens: &[Token]) -> Result<(Stmt, &[Token]), ReadErr>
    ensures { Gives (λ x. (x.0, x.1.now)) result (spec.alter.read tokens.now) }
{
    let rest = take_word(tokens, b"ALTER")?;
    if begins_word(rest, b"SESSION") {
        return take_advise(rest);
    }
    take_alter_system(rest)
}

fn take_argument(alloc: Global, tokens: &[Token]) -> Result<(Bytes, &[Token]), ReadErr>
    ensures { Gives (λ x. (x.0, x.1.now)) result (spec.argument.read tokens.now) }
{
    let rest = take_mark(tokens, Mark::Open)?;
    let (id, rest) = take_text(alloc, rest, ID_LIMIT)?;
    let rest = take_mark(rest, Mark::Close)?;
    Ok((id, rest))
}

fn take_purge(alloc: Global, tokens: &[Token]) -> Result<(Stmt, &[Token]), ReadErr>
    ensures { Gives (λ x. (x.0, x.1.now)) result (spec.purge.read tokens.now) }
{
    if let Some(rest) = after_word(tokens, b"DBMS_TRANSACTION.PURGE_MIXED") {
        let (id, rest) = take_argument(alloc, rest)?;
        return Ok((Stmt::PurgeMixed { id }, rest));
    }
    let rest = take_word(tokens, b"DBMS_TRANSACTION.PURGE_LOST_DB_ENTRY")?;
    let (id, rest) = take_argument(alloc, rest)?;
    Ok((Stmt::PurgeLost { id }, rest))
}

fn take_execute_word(tokens: &[Token]) -> Result<&[Token], ReadErr>
    ensures { Gives (λ rest. (tt, rest.now)) result ((passed spec.is_execute).read tokens.now) }
{
    match tokens {
        [Token::Word(word), rest @ ..]
            if word.as_slice() == b"EXECUTE".as_slice() || word.as_slice() == b"EXEC".as_slice() =>
            Ok(rest),
        _ => Err(ReadErr::Bad),
    }
}

/// EXECUTE, or EXEC for short, of DBMS_TRANSACTION.PURGE_MIXED or PURGE_LOST_DB_ENTRY. Fails where the tokens begin with no
/// such statement, and where memory runs out.
#[tactic(auto, unfolding(crate::specs::Transactions::execute))]
pub(crate) fn take_execute(alloc: Global, tokens: &[Token]) -> Result<(Stmt, &[Token]), ReadErr>
    ensures { Gives (λ x. (x.0, x.1.now)) result (spec.execute.read tokens.now) }
{
    let rest = take_execute_word(tokens)?;
    take_purge(alloc, rest)
}
