//! The tests of identifiers, and of names made of them.
ghost use Rattle.std.specs.Prelude.{◌≡◌};
ghost use Rattle.dtx_values.specs.Name as spec;

use crate::limits::{IDENTIFIER_LIMIT, NAME_LIMIT};

const RESERVED_WORDS: [&[u8]; 18] = [
    b"SELECT", b"FROM", b"WHERE", b"AND", b"INTO", b"VALUES", b"SET", b"FOR", b"IS", b"NOT",
    b"NULL", b"INSERT", b"UPDATE", b"DELETE", b"CREATE", b"TABLE", b"SYNONYM", b"ALTER",
];

/// The reserved words have two to seven letters, so that most other words are told from them by their length.
fn is_reserved(word: &[u8]) -> bool
    ensures { result ≡ spec.is_reserved word.now }
{
    if word.len() < 2 || word.len() > 7 {
        return false;
    }
    RESERVED_WORDS
        .iter()
        .any(|reserved| reserved.eq_ignore_ascii_case(word))
}

fn is_name_byte(byte: u8) -> bool
    ensures { result ≡ spec.is_name_byte byte }
{
    byte.is_ascii_alphanumeric() || matches!(byte, b'_' | b'$' | b'#')
}

fn is_word(bytes: &[u8]) -> bool
    ensures { result ≡ spec.is_word bytes.now }
{
    match bytes {
        [] => false,
        [first, rest @ ..] => first.is_ascii_alphabetic()
            && rest.iter().all(|byte| is_name_byte(*byte)),
    }
}

/// Whether these bytes are an identifier: an ASCII letter and then letters, digits, `_`, `$` and `#`, at most 30 bytes
/// in all, and no reserved word in any case of letters. Tables and columns are named by identifiers.
pub fn is_identifier(bytes: &[u8]) -> bool
    ensures { result ≡ spec.is_identifier bytes.now }
{
    is_word(bytes) && bytes.len() <= IDENTIFIER_LIMIT && !is_reserved(bytes)
}

/// Whether these bytes are identifiers joined by dots, of at most 128 bytes in all.
pub(crate) fn is_name(bytes: &[u8]) -> bool
    ensures { result ≡ spec.is_name bytes.now }
{
    bytes.len() <= NAME_LIMIT && bytes.split(|byte| *byte == b'.').all(is_identifier)
}
