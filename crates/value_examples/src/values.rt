//! Names, texts, values and what holds them, by examples: where their limits lie, how they are printed and ordered, and
//! that calls succeed.
use dtx_values::{
    Answer, Bytes, Cells, Duplicate, INVALID_SQL, Name, NameErr, Refusal, Row, RowMap, Str,
    TextErr, Texts, Value, is_identifier, value_text,
};
use std::alloc::{AllocError, Global};
use std::collections::HashMap;
use std::hash::Hash;

fn letters(alloc: Global, count: usize) -> Result<Vec<u8>, AllocError> {
    b"a".repeat(alloc, count)
}

fn text_of(alloc: Global, bytes: &[u8]) -> Result<Str, TextErr> {
    Str::from_bytes(alloc, bytes)
}

fn name_of(alloc: Global, bytes: &[u8]) -> Result<Name, NameErr> {
    Name::from_bytes(alloc, bytes)
}

/// How many bytes a text of so many letters has.
fn text_len(alloc: Global, count: usize) -> Result<usize, TextErr> {
    let text = text_of(alloc, &letters(alloc, count)?)?;
    Ok(text.as_bytes().len())
}

#[test]
fn a_text_has_1_to_2000_bytes(rt: HostRuntime) {
    for (count, length) in [
        (0, Err(TextErr::Empty)),
        (2000, Ok(2000)),
        (2001, Err(TextErr::TooLong)),
    ] {
        assert_eq!(rt; text_len(rt.alloc(), count), length);
    }
}

/// Whether the bytes are this text.
fn is_text(alloc: Global, bytes: &[u8], text: &str) -> Result<bool, TextErr> {
    Ok(text_of(alloc, bytes)?.as_str() == text)
}

#[test]
fn a_text_is_utf8(rt: HostRuntime) {
    assert!(rt; is_text(rt.alloc(), b"\xff", "") == Err(TextErr::NotUtf8));
    assert!(rt; is_text(rt.alloc(), b"\xc3\xa9", "é") == Ok(true));
}

/// Whether the name that is spelled so is folded to these bytes.
fn is_folded(alloc: Global, spelled: &[u8], folded: &[u8]) -> Result<bool, NameErr> {
    Ok(name_of(alloc, spelled)?.as_bytes() == folded)
}

#[test]
fn names_are_folded(rt: HostRuntime) {
    for (spelled, folded) in [
        (b"hq.acme.com".as_slice(), b"HQ.ACME.COM".as_slice()),
        (b"Selected", b"SELECTED"),
        (b"a_1$#", b"A_1$#"),
    ] {
        assert!(rt; is_folded(rt.alloc(), spelled, folded) == Ok(true));
    }
}

#[test]
fn what_is_no_name_is_refused(rt: HostRuntime) {
    let cases: [&[u8]; 8] = [
        b"",
        b"9a",
        b"select",
        b"hq.Select",
        b"a..b",
        b".a",
        b"a.",
        b"a-b",
    ];
    for spelled in cases {
        assert!(rt; is_folded(rt.alloc(), spelled, spelled) == Err(NameErr::Bad));
    }
}

/// Whether so many letters are an identifier.
fn are_identifier(alloc: Global, count: usize) -> Result<bool, AllocError> {
    Ok(is_identifier(&letters(alloc, count)?))
}

#[test]
fn an_identifier_has_30_letters(rt: HostRuntime) {
    assert!(rt; are_identifier(rt.alloc(), 30) == Ok(true));
    assert!(rt; are_identifier(rt.alloc(), 31) == Ok(false));
    assert!(rt; !is_identifier(b"hq.acme"));
}

/// Four identifiers of 30 letters, each with its dot, and a last one of so many letters.
fn long_name(alloc: Global, last: usize) -> Result<Vec<u8>, AllocError> {
    let mut bytes = Vec::new(alloc);
    for _ in 0..4 {
        bytes.extend_from_slice(b"aaaaabbbbbcccccdddddeeeeefffff.")?;
    }
    bytes.extend_from_slice(&letters(alloc, last)?)?;
    Ok(bytes)
}

/// How many bytes the name has that is made of these identifiers.
fn name_len(alloc: Global, last: usize) -> Result<usize, NameErr> {
    let name = name_of(alloc, &long_name(alloc, last)?)?;
    Ok(name.as_bytes().len())
}

#[test]
fn a_name_has_128_bytes(rt: HostRuntime) {
    assert_eq!(rt; name_len(rt.alloc(), 4), Ok(128));
    assert_eq!(rt; name_len(rt.alloc(), 5), Err(NameErr::Bad), "one too many");
}

/// The text of these bytes, as a value.
fn text_value(alloc: Global, bytes: &[u8]) -> Result<Value, TextErr> {
    Ok(Value::Text(text_of(alloc, bytes)?))
}

/// Whether this is the text of the value.
fn is_written(alloc: Global, value: &Value, text: &[u8]) -> Result<bool, AllocError> {
    Ok(value_text(alloc, value)?.as_slice() == text)
}

/// Whether the text of these bytes is written so.
fn is_text_written(alloc: Global, bytes: &[u8], text: &[u8]) -> Result<bool, TextErr> {
    Ok(is_written(alloc, &text_value(alloc, bytes)?, text)?)
}

#[test]
fn values_are_written_as_in_statements(rt: HostRuntime) {
    assert!(rt; is_text_written(rt.alloc(), b"it's", b"'it''s'") == Ok(true));
    assert!(rt; is_written(rt.alloc(), &Value::Number(-1), b"-1") == Ok(true));
    assert!(rt; is_written(rt.alloc(), &Value::Null, b"NULL") == Ok(true));
}

/// Whether a value stands before the text of these bytes.
fn is_before_text(alloc: Global, value: &Value, bytes: &[u8]) -> Result<bool, TextErr> {
    Ok(*value < text_value(alloc, bytes)?)
}

#[test]
fn numbers_stand_behind_null_and_before_texts(rt: HostRuntime) {
    assert!(rt; Value::Null < Value::Number(-1));
    assert!(rt; Value::Number(-1) < Value::Number(10));
    assert!(rt; is_before_text(rt.alloc(), &Value::Number(10), b"1") == Ok(true));
}

/// Whether the text of some bytes stands before that of others.
fn are_in_order(alloc: Global, first: &[u8], second: &[u8]) -> Result<bool, TextErr> {
    is_before_text(alloc, &text_value(alloc, first)?, second)
}

#[test]
fn texts_stand_in_the_order_of_their_bytes(rt: HostRuntime) {
    assert!(rt; are_in_order(rt.alloc(), b"B", b"a") == Ok(true));
}

/// A row of one number.
fn row_of(alloc: Global, number: i64) -> Result<Row, AllocError> {
    let mut cells = Cells::new(alloc);
    cells.push(Value::Number(number))?;
    Ok(Row { cells })
}

/// Rows at the keys 1 and 2, of which the first was put twice.
fn put_again(alloc: Global) -> Result<RowMap, AllocError> {
    let mut map = RowMap::new(alloc);
    for (key, cell) in [(1, 10), (2, 20), (1, 30)] {
        map.insert(Value::Number(key), row_of(alloc, cell)?)?;
    }
    Ok(map)
}

/// The number of the row at a key.
fn number_at(map: &RowMap, key: i64) -> Option<i64> {
    match map.get(&Value::Number(key))?.cells.as_slice() {
        [Value::Number(cell)] => Some(*cell),
        _ => None,
    }
}

/// The number of the row at a key of that map.
fn put_at(alloc: Global, key: i64) -> Result<Option<i64>, AllocError> {
    Ok(number_at(&put_again(alloc)?, key))
}

/// Whether that map has the key 2, and no row at NULL.
fn has_its_keys(alloc: Global) -> Result<bool, AllocError> {
    let map = put_again(alloc)?;
    Ok(map.contains_key(&Value::Number(2)) && !map.contains_key(&Value::Null))
}

#[test]
fn a_map_keeps_the_last_row_of_each_key(rt: HostRuntime) {
    for (key, cell) in [(1, Some(30)), (2, Some(20)), (3, None)] {
        assert!(rt; put_at(rt.alloc(), key) == Ok(cell));
    }
    assert!(rt; has_its_keys(rt.alloc()) == Ok(true));
}

/// Whether a map that has a copy of the key has the key.
fn is_found<K: Duplicate + Eq + Hash + Drop>(alloc: Global, key: &K) -> Result<bool, AllocError> {
    let mut map = HashMap::new(alloc);
    map.insert(key.copy(alloc)?, 1)?;
    Ok(map.get(key) == Some(&1))
}

fn is_name_found(alloc: Global, spelled: &[u8]) -> Result<bool, NameErr> {
    Ok(is_found(alloc, &name_of(alloc, spelled)?)?)
}

fn is_text_found(alloc: Global, bytes: &[u8]) -> Result<bool, TextErr> {
    Ok(is_found(alloc, &text_value(alloc, bytes)?)?)
}

#[test]
fn a_copy_is_an_equal_key(rt: HostRuntime) {
    assert!(rt; is_name_found(rt.alloc(), b"hq") == Ok(true));
    assert!(rt; is_text_found(rt.alloc(), b"hq") == Ok(true));
}

/// The answer that a statement is invalid, with this argument.
fn refused(alloc: Global, argument: &[u8]) -> Result<Answer, AllocError> {
    let mut args = Texts::new(alloc);
    args.push(Bytes::of(argument.to_vec(alloc)?))?;
    Ok(Answer::Refused(Refusal {
        code: INVALID_SQL,
        args,
    }))
}

/// Whether it is the answer that a statement is invalid, with this argument alone.
fn is_refused(answer: &Answer, argument: &[u8]) -> bool {
    match answer {
        Answer::Refused(refusal) => refusal.code == 900 && are(&refusal.args, argument),
        _ => false,
    }
}

/// Whether these are this one text.
fn are(texts: &Texts, text: &[u8]) -> bool {
    match texts.as_slice() {
        [only] => only.as_slice() == text,
        _ => false,
    }
}

/// Whether a copy of the answer is the answer.
fn is_copied(alloc: Global, argument: &[u8]) -> Result<bool, AllocError> {
    let answer = refused(alloc, argument)?;
    Ok(is_refused(&answer.copy(alloc)?, argument))
}

#[test]
fn answers_are_copied_whole(rt: HostRuntime) {
    assert!(rt; is_copied(rt.alloc(), b"HQ") == Ok(true));
}
