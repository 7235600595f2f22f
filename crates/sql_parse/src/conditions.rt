//! The conditions of a WHERE, as they are read (SQL Language Reference, "Conditions").
ghost use Rattle.std.specs.Prelude.{◌≡◌, Some, codes};
ghost use Rattle.token_grammar.specs.Gives.{Gives};
ghost use Rattle.token_grammar.specs.Steps.{begins};
ghost use Rattle.token_grammar.specs.Grammar.{meant, is_word, anything, begins_two, word};
ghost use Rattle.sql_parse.specs.Parts.{stands};
ghost use Rattle.sql_parse.specs.Conditions as spec;

use crate::literals::take_literal;
use crate::parts::after_word;
use dtx_values::Listing;
use sql_statement::{Cond, Conds, Sign};
use std::alloc::Global;
use token_grammar::{
    Mark, Part, ReadErr, Separator, Token, begins_word, maybe_word, separated, take_identifier,
    take_word,
};

fn sign_from(token: &Token) -> Result<Sign, ReadErr>
    ensures { Gives (λ sign. sign) result (spec.sign_in token.now) }
{
    match token {
        Token::Mark(Mark::Equal) => Ok(Sign::Eq),
        Token::Mark(Mark::Unequal) => Ok(Sign::Ne),
        Token::Mark(Mark::Below) => Ok(Sign::Lt),
        Token::Mark(Mark::AtMost) => Ok(Sign::Le),
        Token::Mark(Mark::Above) => Ok(Sign::Gt),
        Token::Mark(Mark::AtLeast) => Ok(Sign::Ge),
        _ => Err(ReadErr::Bad),
    }
}

fn take_sign(tokens: &[Token]) -> Result<(Sign, &[Token]), ReadErr>
    ensures { Gives (λ x. (x.0, x.1.now)) result ((meant spec.sign_in).read tokens.now) }
{
    match tokens {
        [token, rest @ ..] => Ok((sign_from(token)?, rest)),
        [] => Err(ReadErr::Bad),
    }
}

fn take_compared(alloc: Global, tokens: &[Token]) -> Result<(Cond, &[Token]), ReadErr>
    ensures { Gives (λ x. (x.0, x.1.now)) result (spec.compared.read tokens.now) }
{
    let (column, rest) = take_identifier(alloc, tokens)?;
    let (sign, rest) = take_sign(rest)?;
    let (literal, rest) = take_literal(alloc, rest)?;
    Ok((
        Cond::Compare {
            column,
            sign,
            literal,
        },
        rest,
    ))
}

fn take_not(tokens: &[Token]) -> (bool, &[Token])
    ensures { (stands (is_word (codes "NOT")) (word (codes "NOT"))).read tokens.now ≡ Some (result.0, result.1.now) }
{
    (begins_word(tokens, b"NOT"), maybe_word(tokens, b"NOT"))
}

fn take_is_null(alloc: Global, tokens: &[Token]) -> Result<(Cond, &[Token]), ReadErr>
    ensures { Gives (λ x. (x.0, x.1.now)) result (spec.is_null.read tokens.now) }
{
    let (column, rest) = take_identifier(alloc, tokens)?;
    let rest = take_word(rest, b"IS")?;
    let (negated, rest) = take_not(rest);
    let rest = take_word(rest, b"NULL")?;
    Ok((Cond::IsNull { column, negated }, rest))
}

fn is_second(tokens: &[Token]) -> bool
    ensures { result ≡ begins_two anything (is_word (codes "IS")) tokens.now }
{
    match tokens {
        [_, rest @ ..] => begins_word(rest, b"IS"),
        _ => false,
    }
}

/// A condition, where several stand with AND between them.
struct Condition;

impl Part for Condition {
    type Item = Cond;

    ghost grammar = { spec.condition };

    #[tactic(auto, unfolding(crate::specs::Conditions::condition))]
    fn take(alloc: Global, tokens: &[Token]) -> Result<(Cond, &[Token]), ReadErr> {
        if is_second(tokens) {
            return take_is_null(alloc, tokens);
        }
        take_compared(alloc, tokens)
    }
}

/// AND between conditions.
struct And;

impl Separator for And {
    ghost is = { is_word (codes "AND") };

    fn is_next(tokens: &[Token]) -> bool {
        begins_word(tokens, b"AND")
    }
}

/// The conditions after WHERE, or none where there is no WHERE. Fails where WHERE or an AND is followed by no condition, and
/// where memory runs out.
#[tactic(auto, unfolding(crate::specs::Conditions::conditions))]
pub(crate) fn take_conditions(alloc: Global, tokens: &[Token]) -> Result<(Conds, &[Token]), ReadErr>
    ensures { Gives (λ x. (x.0, x.1.now)) result (spec.conditions.read tokens.now) }
{
    let Some(rest) = after_word(tokens, b"WHERE") else {
        return Ok((Conds::new(alloc), tokens));
    };
    let (conds, rest) = separated::<And, Condition>(alloc, rest)?;
    Ok((Listing::of(conds), rest))
}
