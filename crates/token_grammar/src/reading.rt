//! What stands at the front of some tokens, and the tokens behind it.
//!
//! Each function is the reader of one grammar of `specs/Grammar.antt`. A grammar made of several is read by calling
//! theirs one after the other, and its contract follows from theirs. A reader fails with Bad where the tokens in front are
//! none of its grammar, and one of names with NoMemory too where memory runs out.
ghost use Rattle.std.specs.Prelude.{◌≡◌, ◌==◌, if◌then◌else◌, length, nat_le, Option, Some, None};
ghost use Rattle.dtx_values.specs.Name.{name_of};
ghost use Rattle.token_grammar.specs.Gives.{Gives};
ghost use Rattle.token_grammar.specs.Steps.{begins, whole_of};
ghost use Rattle.token_grammar.specs.Grammar as grammar;
ghost use Rattle.token_grammar.specs.Forms.{number_between};
ghost use Rattle.token_grammar.specs.Grammar.{is_word, is_mark, begins_two};

use crate::{Mark, ReadErr, Token};
use dtx_values::{Name, NameErr, is_identifier};
use std::alloc::Global;

/// Whether the next token is this word. Words are written in upper case here, as in `b"FROM"`.
pub fn begins_word(tokens: &[Token], text: &[u8]) -> bool
    ensures { result ≡ begins (is_word text.now) tokens.now }
{
    match tokens {
        [Token::Word(word), ..] => word.as_slice() == text,
        _ => false,
    }
}

/// Whether the next token is this mark.
pub fn begins_mark(tokens: &[Token], mark: Mark) -> bool
    ensures { result ≡ begins (is_mark mark) tokens.now }
{
    match tokens {
        [Token::Mark(first), ..] => first.is(mark),
        _ => false,
    }
}

/// Whether the next two tokens are this word and this mark, as `COUNT (`, where the word alone may be a name.
pub fn begins_word_mark(tokens: &[Token], text: &[u8], mark: Mark) -> bool
    ensures { result ≡ begins_two (is_word text.now) (is_mark mark) tokens.now }
{
    match tokens {
        [Token::Word(word), Token::Mark(second), ..] => word.as_slice() == text && second.is(mark),
        _ => false,
    }
}

/// What stands behind this word.
pub fn take_word<'a>(tokens: &'a [Token], text: &[u8]) -> Result<&'a [Token], ReadErr>
    ensures { Gives (λ rest. (tt, rest.now)) result ((grammar.word text.now).read tokens.now) }
{
    match tokens {
        [Token::Word(word), rest @ ..] if word.as_slice() == text => Ok(rest),
        _ => Err(ReadErr::Bad),
    }
}

/// What stands behind this word, or behind nothing where it does not stand.
pub fn maybe_word<'a>(tokens: &'a [Token], text: &[u8]) -> &'a [Token]
    ensures { (grammar.maybe text.now).read tokens.now ≡ Some (tt, result.now) }
{
    match tokens {
        [Token::Word(word), rest @ ..] if word.as_slice() == text => rest,
        _ => tokens,
    }
}

/// What stands behind this mark.
pub fn take_mark(tokens: &[Token], mark: Mark) -> Result<&[Token], ReadErr>
    ensures { Gives (λ rest. (tt, rest.now)) result ((grammar.mark mark).read tokens.now) }
{
    match tokens {
        [Token::Mark(first), rest @ ..] if first.is(mark) => Ok(rest),
        _ => Err(ReadErr::Bad),
    }
}

// The name that a word is.
fn name_of(alloc: Global, word: &[u8]) -> Result<Name, ReadErr>
    ensures { Gives (λ name. name) result (name_of word.now) }
{
    match Name::from_bytes(alloc, word) {
        Ok(name) => Ok(name),
        Err(NameErr::Bad) => Err(ReadErr::Bad),
        Err(NameErr::NoMemory) => Err(ReadErr::NoMemory),
    }
}

/// A name: identifiers joined by dots. A keyword that is not reserved may be one.
pub fn take_name(alloc: Global, tokens: &[Token]) -> Result<(Name, &[Token]), ReadErr>
    ensures { Gives (λ x. (x.0, x.1.now)) result (grammar.name.read tokens.now) }
{
    match tokens {
        [Token::Word(word), rest @ ..] => Ok((name_of(alloc, word.as_slice())?, rest)),
        _ => Err(ReadErr::Bad),
    }
}

/// A name of one identifier.
pub fn take_identifier(alloc: Global, tokens: &[Token]) -> Result<(Name, &[Token]), ReadErr>
    ensures { Gives (λ x. (x.0, x.1.now)) result (grammar.identifier.read tokens.now) }
{
    match tokens {
        [Token::Word(word), rest @ ..] if is_identifier(word.as_slice()) => {
            Ok((name_of(alloc, word.as_slice())?, rest))
        }
        _ => Err(ReadErr::Bad),
    }
}

/// A number of at most `most`.
pub fn take_number(tokens: &[Token], most: u64) -> Result<(u64, &[Token]), ReadErr>
    ensures { Gives (λ x. (x.0, x.1.now)) result ((grammar.number_to most).read tokens.now) }
{
    match tokens {
        [Token::Number(number), rest @ ..] if *number <= most => Ok((*number, rest)),
        _ => Err(ReadErr::Bad),
    }
}

/// A number from `least` to `most`.
pub fn take_between(tokens: &[Token], least: u32, most: u32) -> Result<(u32, &[Token]), ReadErr>
    ensures { Gives (λ x. (x.0, x.1.now)) result ((number_between least most).read tokens.now) }
{
    match tokens {
        [Token::Number(number), rest @ ..]
            if u64::from(least) <= *number && *number <= u64::from(most) => {
            Ok((*number as u32, rest))
        }
        _ => Err(ReadErr::Bad),
    }
}

/// A text in quotes.
pub fn take_quoted(tokens: &[Token]) -> Result<(&[u8], &[Token]), ReadErr>
    ensures { Gives (λ x. (x.0.now, x.1.now)) result (grammar.quoted.read tokens.now) }
{
    match tokens {
        [Token::Quoted(text), rest @ ..] => Ok((text.as_slice(), rest)),
        _ => Err(ReadErr::Bad),
    }
}

/// What was read, if nothing is left behind it.
pub fn whole<T: Drop>(value: T, rest: &[Token]) -> Result<T, ReadErr>
    ensures { Gives (λ value. value) result (whole_of (value, rest.now)) }
{
    if rest.is_empty() {
        Ok(value)
    } else {
        Err(ReadErr::Bad)
    }
}
