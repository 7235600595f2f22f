//! Sums of terms: the expressions of the subset (SQL Language Reference, "Expressions").
ghost use Rattle.std.specs.Prelude.{◌≡◌};
ghost use Rattle.std.specs.List.{list_all};
ghost use Rattle.token_grammar.specs.Gives.{Gives};
ghost use Rattle.token_grammar.specs.Steps.{begins};
ghost use Rattle.token_grammar.specs.Grammar.{meant};
ghost use Rattle.sql_parse.specs.Literals as spec;

use crate::literals::take_literal;
use dtx_values::Listing;
use sql_statement::{Step, Sum, Term};
use std::alloc::Global;
use token_grammar::{Mark, Part, ReadErr, Repeated, Token, many, take_identifier};

fn begins_name(tokens: &[Token]) -> bool
    ensures { result ≡ begins spec.is_naming tokens.now }
{
    match tokens {
        [Token::Word(word), ..] => word.as_slice() != b"NULL".as_slice(),
        _ => false,
    }
}

#[tactic(auto, unfolding(crate::specs::Literals::term))]
fn take_term(alloc: Global, tokens: &[Token]) -> Result<(Term, &[Token]), ReadErr>
    ensures { Gives (λ x. (x.0, x.1.now)) result (spec.term.read tokens.now) }
{
    if begins_name(tokens) {
        let (name, rest) = take_identifier(alloc, tokens)?;
        return Ok((Term::Column(name), rest));
    }
    let (value, rest) = take_literal(alloc, tokens)?;
    Ok((Term::Literal(value), rest))
}

fn take_minus(tokens: &[Token]) -> Result<(bool, &[Token]), ReadErr>
    ensures { Gives (λ x. (x.0, x.1.now)) result ((meant spec.minus_in).read tokens.now) }
{
    match tokens {
        [Token::Mark(Mark::Plus), rest @ ..] => Ok((false, rest)),
        [Token::Mark(Mark::Minus), rest @ ..] => Ok((true, rest)),
        _ => Err(ReadErr::Bad),
    }
}

/// A term after its sign.
struct SignedTerm;

impl Repeated for SignedTerm {
    type Item = Step;

    ghost starts = { spec.is_step };

    ghost grammar = { spec.step };

    fn is_next(tokens: &[Token]) -> bool {
        matches!(tokens, [Token::Mark(Mark::Plus | Mark::Minus), ..])
    }

    #[tactic(auto, unfolding(crate::specs::Literals::step))]
    fn take(alloc: Global, tokens: &[Token]) -> Result<(Step, &[Token]), ReadErr> {
        let (minus, rest) = take_minus(tokens)?;
        let (term, rest) = take_term(alloc, rest)?;
        Ok((Step { minus, term }, rest))
    }
}

/// A term, and those that are added to it or subtracted. Fails where no term is next, or none follows a sign, and where
/// memory runs out.
#[tactic(auto, unfolding(crate::specs::Literals::sum))]
pub(crate) fn take_sum(alloc: Global, tokens: &[Token]) -> Result<(Sum, &[Token]), ReadErr>
    ensures { Gives (λ x. (x.0, x.1.now)) result (spec.sum.read tokens.now) }
{
    let (first, rest) = take_term(alloc, tokens)?;
    let (steps, rest) = many::<SignedTerm>(alloc, rest)?;
    let sum = Sum {
        first,
        rest: Listing::of(steps),
    };
    Ok((sum, rest))
}

/// A sum, where several stand in a list.
pub(crate) struct ListedSum;

impl Part for ListedSum {
    type Item = Sum;

    ghost grammar = { spec.sum };

    fn take(alloc: Global, tokens: &[Token]) -> Result<(Sum, &[Token]), ReadErr> {
        take_sum(alloc, tokens)
    }
}

fn is_literal(term: &Term) -> bool
    ensures { result ≡ spec.is_literal term.now }
{
    matches!(term, Term::Literal(_))
}

fn are_literals(steps: &[Step]) -> bool
    ensures { result ≡ list_all (λ step. spec.is_literal step.term) steps.now }
{
    steps.iter().all(|step| is_literal(&step.term))
}

/// Whether no column stands in a sum.
pub(crate) fn is_constant(sum: &Sum) -> bool
    ensures { result ≡ spec.is_constant sum.now }
{
    is_literal(&sum.first) && are_literals(sum.rest.as_slice())
}
