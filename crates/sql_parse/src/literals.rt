//! Literals, and tables, local or remote.
ghost use Rattle.std.specs.Prelude.{◌≡◌};
ghost use Rattle.token_grammar.specs.Gives.{Gives};
ghost use Rattle.token_grammar.specs.Grammar.{meant};
ghost use Rattle.sql_parse.specs.Literals as spec;

use crate::parts::after_mark;
use dtx_values::{Name, Str, TextErr, Value};
use sql_statement::TableRef;
use std::alloc::Global;
use token_grammar::{Mark, ReadErr, Token, take_identifier, take_name, take_number};

fn text_value(alloc: Global, text: &[u8]) -> Result<Value, ReadErr>
    ensures { Gives (λ value. value) result (spec.text_value text.now) }
{
    match Str::from_bytes(alloc, text) {
        Ok(text) => Ok(Value::Text(text)),
        Err(TextErr::Empty) => Ok(Value::Null),
        Err(TextErr::NoMemory) => Err(ReadErr::NoMemory),
        Err(TextErr::TooLong | TextErr::NotUtf8) => Err(ReadErr::Bad),
    }
}

fn constant_from(alloc: Global, token: &Token) -> Result<Value, ReadErr>
    ensures { Gives (λ value. value) result (spec.constant_in token.now) }
{
    match token {
        Token::Number(number) if *number <= i64::MAX as u64 => Ok(Value::Number(*number as i64)),
        Token::Quoted(text) => text_value(alloc, text.as_slice()),
        Token::Word(word) if word.as_slice() == b"NULL".as_slice() => Ok(Value::Null),
        _ => Err(ReadErr::Bad),
    }
}

fn take_constant(alloc: Global, tokens: &[Token]) -> Result<(Value, &[Token]), ReadErr>
    ensures { Gives (λ x. (x.0, x.1.now)) result ((meant spec.constant_in).read tokens.now) }
{
    match tokens {
        [token, rest @ ..] => Ok((constant_from(alloc, token)?, rest)),
        [] => Err(ReadErr::Bad),
    }
}

/// A number with its sign, a text in quotes, or NULL (SQL Language Reference, "Literals", "Nulls").
/// Fails where the tokens begin with none of these, a number is outside the 64 bits of its type or a text is longer than a
/// column may hold or no UTF-8, and where memory runs out.
#[tactic(auto, unfolding(crate::specs::Literals::literal))]
pub(crate) fn take_literal(alloc: Global, tokens: &[Token]) -> Result<(Value, &[Token]), ReadErr>
    ensures { Gives (λ x. (x.0, x.1.now)) result (spec.literal.read tokens.now) }
{
    if let Some(rest) = after_mark(tokens, Mark::Minus) {
        let (size, rest) = take_number(rest, i64::MIN.unsigned_abs())?;
        return Ok((Value::Number(-(size as i128) as i64), rest));
    }
    take_constant(alloc, tokens)
}

/// A table by its name, and its database link where it is remote (SQL Language Reference, "Database Object Names and
/// Qualifiers"). Fails where no identifier is next, or no name follows the `@`, and where memory runs out.
#[tactic(auto, unfolding(crate::specs::Literals::table_ref))]
pub(crate) fn take_table_ref(
    alloc: Global,
    tokens: &[Token],
) -> Result<(TableRef, &[Token]), ReadErr>
    ensures { Gives (λ x. (x.0, x.1.now)) result (spec.table_ref.read tokens.now) }
{
    let (name, rest) = take_identifier(alloc, tokens)?;
    let Some(after) = after_mark(rest, Mark::At) else {
        return Ok((TableRef { name, link: None }, rest));
    };
    let (link, rest) = take_name(alloc, after)?;
    let link = Some(link);
    Ok((TableRef { name, link }, rest))
}
