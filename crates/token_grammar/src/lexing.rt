//! Texts, cut into tokens.
//!
//! `tokens_of` is exact by the relation `Tokens` between a text and its tokens. The functions below it each give what
//! one definition of `specs/Lexing.antt` finds at the front of some bytes.
ghost use Rattle.std.specs.Prelude.{◌≡◌, ℕ, List, length, map, IfOk, IsErrOf, ◌+◌, ◌-◌, ◌*◌};
ghost use Rattle.std.specs.Option.{option_map};
ghost use Rattle.std.specs.List.{prefix_len};
ghost use Rattle.std.specs.Char.{to_ascii_uppercase};
ghost use Rattle.token_grammar.specs.declared.token.Token.{Token};
ghost use Rattle.token_grammar.specs.Gives.{Gives};
ghost use Rattle.token_grammar.specs.Bytes.{is_blank, is_letter, is_digit, is_word_byte, value_from, one_mark, two_marks};
ghost use Rattle.token_grammar.specs.Lexing.{skip, small, word_at, number_at, piece_at, quoted_at, mark_at, token_at, lexeme_at, lexemes_at, tokens_in};
ghost use Rattle.token_grammar.specs.FirstWord.{has_first_word};
ghost use Rattle.token_grammar.specs.Tokens as spec;

use crate::{Mark, ReadErr, Token, Tokens};
use dtx_values::Listing;
use std::alloc::{AllocError, Global};

/// Whether a byte is a tab, a line feed, a carriage return or a space.
pub fn is_blank(byte: u8) -> bool
    ensures { result ≡ is_blank byte }
{
    matches!(byte, b'\t' | b'\n' | b'\r' | b' ')
}

fn is_letter(byte: u8) -> bool
    ensures { result ≡ is_letter byte }
{
    byte.is_ascii_alphabetic()
}

fn is_digit(byte: u8) -> bool
    ensures { result ≡ is_digit byte }
{
    byte.is_ascii_digit()
}

fn is_word_byte(byte: u8) -> bool
    ensures { result ≡ is_word_byte byte }
{
    is_letter(byte) || is_digit(byte) || matches!(byte, b'_' | b'$' | b'#' | b'.')
}

fn blanks_len(bytes: &[u8]) -> usize
    ensures { result ≡ prefix_len is_blank bytes.now }
{
    bytes.iter().take_while(|byte| is_blank(**byte)).count()
}

fn word_len(bytes: &[u8]) -> usize
    ensures { result ≡ prefix_len is_word_byte bytes.now }
{
    bytes.iter().take_while(|byte| is_word_byte(**byte)).count()
}

fn digits_len(bytes: &[u8]) -> usize
    ensures { result ≡ prefix_len is_digit bytes.now }
{
    bytes.iter().take_while(|byte| is_digit(**byte)).count()
}

fn skip(bytes: &[u8]) -> &[u8]
    ensures { result.now ≡ skip bytes.now }
{
    let (_, rest) = bytes.split_at(blanks_len(bytes));
    rest
}

fn upper(alloc: Global, bytes: &[u8]) -> Result<Vec<u8>, AllocError>
    ensures { IfOk result (λ upper. upper.items ≡ map to_ascii_uppercase bytes.now) }
{
    bytes.to_ascii_uppercase(alloc)
}

#[tactic(auto, unfolding(crate::specs::Lexing::word_at))]
fn word(alloc: Global, bytes: &[u8]) -> Result<(Token, &[u8]), ReadErr>
    ensures { Gives (λ x. (x.0, x.1.now)) result (word_at bytes.now) }
{
    let (front, rest) = bytes.split_at(word_len(bytes));
    let word = Listing::of(upper(alloc, front)?);
    Ok((Token::Word(word), rest))
}

fn next_value(value: u64, digit: u8) -> Option<u64>
    ensures { result ≡ small (10 * value + (digit - 48)) }
{
    value
        .checked_mul(10)?
        .checked_add(u64::from(digit.saturating_sub(b'0')))
}

fn value(digits: &[u8]) -> Option<u64>
    ensures { result ≡ small (value_from 0 digits.now) }
{
    let mut value: u64 = 0;
    for digit in digits {
        value = next_value(value, *digit)?;
    }
    Some(value)
}

#[tactic(auto, unfolding(crate::specs::Lexing::number_at))]
fn number(bytes: &[u8]) -> Result<(Token, &[u8]), ReadErr>
    ensures { Gives (λ x. (x.0, x.1.now)) result (number_at bytes.now) }
{
    let (front, rest) = bytes.split_at(digits_len(bytes));
    match value(front) {
        Some(number) => Ok((Token::Number(number), rest)),
        None => Err(ReadErr::Bad),
    }
}

/// The next byte of a text between quotes, or its end.
fn piece(bytes: &[u8]) -> Option<(Option<u8>, &[u8])>
    ensures { option_map (λ x. (x.0, x.1.now)) result ≡ piece_at bytes.now }
{
    match bytes {
        [] => None,
        [b'\'', b'\'', rest @ ..] => Some((Some(b'\''), rest)),
        [b'\'', rest @ ..] => Some((None, rest)),
        [first, rest @ ..] => Some((Some(*first), rest)),
    }
}

/// What stands up to the closing quote, and what follows it.
fn quoted(alloc: Global, bytes: &[u8]) -> Result<(Vec<u8>, &[u8]), ReadErr>
    ensures { Gives (λ x. (x.0.items, x.1.now)) result (quoted_at bytes.now) }
{
    let mut text = Vec::new(alloc);
    let mut rest = bytes;
    for _ in 0..bytes.len() {
        let Some((piece, after)) = piece(rest) else {
            break;
        };
        let Some(byte) = piece else {
            return Ok((text, after));
        };
        text.push(byte)?;
        rest = after;
    }
    Err(ReadErr::Bad)
}

fn one_mark(byte: u8) -> Option<Mark>
    ensures { result ≡ one_mark byte }
{
    match byte {
        b'(' => Some(Mark::Open),
        b')' => Some(Mark::Close),
        b',' => Some(Mark::Comma),
        b'*' => Some(Mark::Star),
        b'@' => Some(Mark::At),
        b'+' => Some(Mark::Plus),
        b'-' => Some(Mark::Minus),
        b'=' => Some(Mark::Equal),
        b'<' => Some(Mark::Below),
        b'>' => Some(Mark::Above),
        b':' => Some(Mark::Colon),
        _ => None,
    }
}

fn two_marks(first: u8, second: u8) -> Option<Mark>
    ensures { result ≡ two_marks first second }
{
    match (first, second) {
        (b'<', b'>') | (b'!', b'=') => Some(Mark::Unequal),
        (b'<', b'=') => Some(Mark::AtMost),
        (b'>', b'=') => Some(Mark::AtLeast),
        _ => None,
    }
}

#[tactic(auto, unfolding(crate::specs::Lexing::mark_at))]
fn mark(bytes: &[u8]) -> Result<(Token, &[u8]), ReadErr>
    ensures { Gives (λ x. (x.0, x.1.now)) result (mark_at bytes.now) }
{
    match bytes {
        [] => Err(ReadErr::Bad),
        [first] => match one_mark(*first) {
            Some(mark) => Ok((Token::Mark(mark), &bytes[1..])),
            None => Err(ReadErr::Bad),
        },
        [first, second, rest @ ..] => {
            if let Some(mark) = two_marks(*first, *second) {
                return Ok((Token::Mark(mark), rest));
            }
            match one_mark(*first) {
                Some(mark) => Ok((Token::Mark(mark), &bytes[1..])),
                None => Err(ReadErr::Bad),
            }
        }
    }
}

#[tactic(auto, unfolding(crate::specs::Lexing::token_at))]
fn token(alloc: Global, bytes: &[u8]) -> Result<(Token, &[u8]), ReadErr>
    ensures { Gives (λ x. (x.0, x.1.now)) result (token_at bytes.now) }
{
    match bytes {
        [] => Err(ReadErr::Bad),
        [first, ..] if is_letter(*first) => word(alloc, bytes),
        [first, ..] if is_digit(*first) => number(bytes),
        [b'\'', rest @ ..] => {
            let (text, rest) = quoted(alloc, rest)?;
            Ok((Token::Quoted(Listing::of(text)), rest))
        }
        _ => mark(bytes),
    }
}

/// A token, and the bytes behind it and its blanks.
fn lexeme(alloc: Global, bytes: &[u8]) -> Result<(Token, &[u8]), ReadErr>
    ensures { Gives (λ x. (x.0, x.1.now)) result (lexeme_at bytes.now) }
{
    let (token, rest) = token(alloc, bytes)?;
    Ok((token, skip(rest)))
}

fn lexemes(alloc: Global, bytes: &[u8]) -> Result<(Vec<Token>, &[u8]), ReadErr>
    ensures { Gives (λ x. (x.0.items, x.1.now)) result (lexemes_at bytes.now) }
{
    // Most texts have no more tokens than this.
    let mut tokens = Vec::with_capacity(alloc, 16)?;
    let mut rest = skip(bytes);
    for _ in 0..bytes.len() {
        if rest.is_empty() {
            break;
        }
        let (token, after) = lexeme(alloc, rest)?;
        tokens.push(token)?;
        rest = after;
    }
    Ok((tokens, rest))
}

#[tactic(auto, unfolding(crate::specs::Lexing::tokens_in))]
fn lex(alloc: Global, text: &[u8]) -> Result<Tokens, ReadErr>
    ensures { Gives (λ tokens. tokens) result (tokens_in text.now) }
{
    let (tokens, rest) = lexemes(alloc, text)?;
    if !rest.is_empty() {
        return Err(ReadErr::Bad);
    }
    Ok(Listing::of(tokens))
}

/// Whether a text begins with this word, in any case of letters. What follows the word does not matter.
pub fn has_first_word(text: &[u8], word: &[u8]) -> bool
    ensures { result ≡ has_first_word word.now text.now }
{
    let text = skip(text);
    let (front, _) = text.split_at(word_len(text));
    word.eq_ignore_ascii_case(front)
}

/// The tokens that a text is, each as long as it can be.
pub fn tokens_of(alloc: Global, text: &[u8]) -> Result<Tokens, ReadErr>
    // The text is the tokens that are returned.
    ensures found { IfOk result (λ tokens. spec.Tokens tokens text.now) }
    // What is refused is no tokens at all.
    ensures bad { IsErrOf result ReadErr.Bad → (tokens : List Token) → spec.Tokens tokens text.now → ⊥ }
    // The same, as the reading of a whole text goes on from it.
    ensures gives { Gives (λ tokens. tokens) result (tokens_in text.now) }
{
    lex(alloc, text)
}
