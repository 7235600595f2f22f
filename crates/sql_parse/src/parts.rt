//! What several forms of statement share: keywords and marks, texts in quotes, and names that stand once.
ghost use Rattle.std.specs.Prelude.{◌≡◌, ℕ, Bool, List, Some, IfSome, is_some};
ghost use Rattle.std.specs.List.{list_any};
ghost use Rattle.std.specs.Str.{bytes_eq, is_utf8};
ghost use Rattle.token_grammar.specs.Gives.{Gives};
ghost use Rattle.token_grammar.specs.Steps.{begins};
ghost use Rattle.token_grammar.specs.Grammar as grammar;
ghost use Rattle.sql_parse.specs.Parts as spec;
ghost use Rattle.sql_statement.specs.Distinct as names;
ghost use Rattle.dtx_values.specs.Str as texts;

use dtx_values::{Bytes, Listing, Name};
use std::alloc::Global;
use token_grammar::{Mark, ReadErr, Token, take_quoted};

/// The tokens after this word, where it is next.
pub(crate) fn after_word<'a>(tokens: &'a [Token], text: &[u8]) -> Option<&'a [Token]>
    ensures next { is_some result ≡ begins (grammar.is_word text.now) tokens.now }
    ensures after { IfSome result (λ rest. (grammar.word text.now).read tokens.now ≡ Some (tt, rest.now)) }
{
    match tokens {
        [Token::Word(word), rest @ ..] if word.as_slice() == text => Some(rest),
        _ => None,
    }
}

/// The tokens after this mark, where it is next.
pub(crate) fn after_mark(tokens: &[Token], mark: Mark) -> Option<&[Token]>
    ensures next { is_some result ≡ begins (grammar.is_mark mark) tokens.now }
    ensures after { IfSome result (λ rest. (grammar.mark mark).read tokens.now ≡ Some (tt, rest.now)) }
{
    match tokens {
        [Token::Mark(first), rest @ ..] if first.is(mark) => Some(rest),
        _ => None,
    }
}

fn is_utf8(bytes: &[u8]) -> bool
    ensures { result ≡ is_utf8 bytes.now }
{
    std::str::from_utf8(bytes).is_ok()
}

fn is_text_to(bytes: &[u8], most: usize) -> bool
    ensures { result ≡ texts.is_text_to most bytes.now }
{
    bytes.len() <= most && is_utf8(bytes)
}

/// A text in quotes, of at most `most` bytes, in UTF-8. Fails where no such text is next, and where memory runs out.
pub(crate) fn take_text(
    alloc: Global,
    tokens: &[Token],
    most: usize,
) -> Result<(Bytes, &[Token]), ReadErr>
    ensures { Gives (λ x. (x.0, x.1.now)) result ((spec.text_to most).read tokens.now) }
{
    let (text, rest) = take_quoted(tokens)?;
    if !is_text_to(text, most) {
        return Err(ReadErr::Bad);
    }
    Ok((Listing::of(text.to_vec(alloc)?), rest))
}

/// An item that has a name.
pub(crate) trait Called {
    ghost called: { Self → List ℕ };

    fn called(&self) -> &Name
        ensures { result.now ≡ called self.now };
}

impl Called for Name {
    ghost called = { spec.itself };

    fn called(&self) -> &Name {
        self
    }
}

fn is_among<C: Called>(item: &C, others: &[C]) -> bool
    ensures { result ≡ list_any (λ other. bytes_eq (C.called other) (C.called item.now)) others.now }
{
    others.iter().any(|other| other.called().is(item.called()))
}

/// Whether all items have different names.
pub(crate) fn are_distinct<C: Called>(items: &[C]) -> bool
    ensures { result ≡ names.are_distinct C.called items.now }
{
    let mut rest = items;
    while let [first, others @ ..] = rest {
        if is_among(first, others) {
            return false;
        }
        rest = others;
    }
    true
}
