//! Parts that stand once or not, any number of times, or in a list: the loop, once.
//!
//! A function cannot be handed a grammar, which is no value of the program. A type carries it instead: `Repeated` and
//! `Part` name the grammar in a ghost member, and promise that `take` is its reader.
ghost use Rattle.std.specs.Prelude.{◌≡◌, Bool};
ghost use Rattle.token_grammar.specs.declared.token.Token.{Token};
ghost use Rattle.token_grammar.specs.declared.mark.Mark.TheVariants as marks;
ghost use Rattle.token_grammar.specs.Gives.{Gives};
ghost use Rattle.token_grammar.specs.Steps.{begins};
ghost use Rattle.token_grammar.specs.Grammar as spec;
ghost use Rattle.token_grammar.specs.Grammar.{Grammar, is_mark, ◌▹◌};

use crate::{Mark, ReadErr, Token, begins_mark};
use std::alloc::Global;
use std::marker::PhantomData;

/// What may stand any number of times, and what begins one more of it.
pub trait Repeated {
    type Item: Drop;

    ghost starts: { Token → Bool };

    ghost grammar: { Grammar Self.Item };

    /// Whether one more of it is next.
    fn is_next(tokens: &[Token]) -> bool
        ensures { result ≡ begins starts tokens.now };

    /// One of it, and the tokens behind it.
    fn take(alloc: Global, tokens: &[Token]) -> Result<(Self::Item, &[Token]), ReadErr>
        ensures { Gives (λ x. (x.0, x.1.now)) result (grammar.read tokens.now) };
}

/// As many of it as stand one after the other. Fails with Bad where one begins and is not whole, and with NoMemory where
/// memory runs out.
pub fn many<R: Repeated>(
    alloc: Global,
    tokens: &[Token],
) -> Result<(Vec<R::Item>, &[Token]), ReadErr>
    ensures { Gives (λ x. (x.0.items, x.1.now)) result ((spec.many R.starts R.grammar).read tokens.now) }
{
    let mut items = Vec::new(alloc);
    let mut rest = tokens;
    for _ in 0..tokens.len() {
        if !R::is_next(rest) {
            break;
        }
        let (item, after) = R::take(alloc, rest)?;
        items.push(item)?;
        rest = after;
    }
    Ok((items, rest))
}

/// One of it, or none where none is next.
pub fn optional<R: Repeated>(
    alloc: Global,
    tokens: &[Token],
) -> Result<(Option<R::Item>, &[Token]), ReadErr>
    ensures { Gives (λ x. (x.0, x.1.now)) result ((spec.optional R.starts R.grammar).read tokens.now) }
{
    if !R::is_next(tokens) {
        return Ok((None, tokens));
    }
    let (item, rest) = R::take(alloc, tokens)?;
    Ok((Some(item), rest))
}

/// What may stand in a list with separators.
pub trait Part {
    type Item: Drop;

    ghost grammar: { Grammar Self.Item };

    /// One part, and the tokens behind it.
    fn take(alloc: Global, tokens: &[Token]) -> Result<(Self::Item, &[Token]), ReadErr>
        ensures { Gives (λ x. (x.0, x.1.now)) result (grammar.read tokens.now) };
}

/// A token that stands between the parts of a list.
pub trait Separator {
    ghost is: { Token → Bool };

    /// Whether it is next.
    fn is_next(tokens: &[Token]) -> bool
        ensures { result ≡ begins is tokens.now };
}

/// A comma.
pub struct Comma;

impl Separator for Comma {
    ghost is = { is_mark marks.Comma };

    fn is_next(tokens: &[Token]) -> bool {
        begins_mark(tokens, Mark::Comma)
    }
}

/// A part behind a separator.
pub struct Behind<S, P>(PhantomData<(S, P)>);

impl<S: Separator, P: Part> Repeated for Behind<S, P> {
    type Item = P::Item;

    ghost starts = { S.is };

    ghost grammar = { spec.passed S.is ▹ P.grammar };

    fn is_next(tokens: &[Token]) -> bool {
        S::is_next(tokens)
    }

    fn take(alloc: Global, tokens: &[Token]) -> Result<(P::Item, &[Token]), ReadErr> {
        match tokens {
            [_, rest @ ..] if S::is_next(tokens) => P::take(alloc, rest),
            _ => Err(ReadErr::Bad),
        }
    }
}

/// One part or more, with a separator between them. Fails with Bad where there is no part in front or behind a separator, and
/// with NoMemory where memory runs out.
pub fn separated<S: Separator, P: Part>(
    alloc: Global,
    tokens: &[Token],
) -> Result<(Vec<P::Item>, &[Token]), ReadErr>
    ensures { Gives (λ x. (x.0.items, x.1.now)) result ((spec.separated S.is (spec.passed S.is) P.grammar).read tokens.now) }
{
    let (first, rest) = P::take(alloc, tokens)?;
    let (mut parts, rest) = many::<Behind<S, P>>(alloc, rest)?;
    parts.insert(0, first)?;
    Ok((parts, rest))
}

/// One part or more, with commas between them. Fails as [`separated`] does.
pub fn commas<P: Part>(alloc: Global, tokens: &[Token]) -> Result<(Vec<P::Item>, &[Token]), ReadErr>
    ensures { Gives (λ x. (x.0.items, x.1.now)) result ((spec.commas P.grammar).read tokens.now) }
{
    separated::<Comma, P>(alloc, tokens)
}
