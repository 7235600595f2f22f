//! The undo of changes by examples.
use dtx_values::{Bytes, Cells, Change, Name, NameErr, Row, Str, TextErr, Value};
use std::alloc::{AllocError, Global};
use undo_book::{UndoBook, UndoSet};

/// The undo of an INSERT into T at 1, and behind it that of an UPDATE there of the row (1, 'a').
const TWO: [u8; 38] =
    *b"\x01T\x01\0\0\0\0\0\0\0\x01\0\x01T\x01\0\0\0\0\0\0\0\x01\x01\x02\x01\0\0\0\0\0\0\0\x01\x02\0\x01a";

/// A book of two extents with the undo of both for one owner, or none where it is full.
fn book_of_two(alloc: Global, table: Name, text: Str) -> Result<Option<UndoBook>, AllocError> {
    let change = Change {
        table,
        key: Value::Number(1),
        after: None,
    };
    let cells = Cells::of(vec![in alloc; Value::Number(1), Value::Text(text)]?);
    let row = Row { cells };
    let mut inserted = UndoSet::new(alloc);
    inserted.push(&change, None)?;
    let mut updated = UndoSet::new(alloc);
    updated.push(&change, Some(&row))?;
    let mut book = UndoBook::new(alloc, 2)?;
    let is_full = book.add(7, &inserted).is_err() || book.add(7, &updated).is_err();
    Ok(if is_full { None } else { Some(book) })
}

/// The table T.
fn table(alloc: Global) -> Result<Name, NameErr> {
    Name::from_bytes(alloc, b"T")
}

/// The text `a`.
fn text(alloc: Global) -> Result<Str, TextErr> {
    Str::from_bytes(alloc, b"a")
}

/// The book, where memory does not run out and it is not full.
fn two(alloc: Global) -> Option<UndoBook> {
    match (table(alloc), text(alloc)) {
        (Ok(table), Ok(text)) => book_of_two(alloc, table, text).ok().flatten(),
        _ => None,
    }
}

/// Whether the bytes are those of both.
fn is_two(bytes: &Bytes) -> bool {
    bytes.as_slice() == TWO.as_slice()
}

/// Whether the owner has the bytes of both, in one extent of the two.
fn has_both(alloc: Global) -> Option<bool> {
    let book = two(alloc)?;
    let bytes = book.bytes(alloc, 7).ok()?;
    Some(is_two(&bytes) && book.extents(7) == 1 && book.free() == 1)
}

#[test]
fn undo_has_the_row_from_before(rt: HostRuntime) {
    assert!(rt; has_both(rt.alloc()) == Some(true));
}

/// The free extents once the owner's undo is dropped.
fn free_after_release(alloc: Global) -> Option<u32> {
    let mut book = two(alloc)?;
    book.release(7);
    Some(book.free())
}

#[test]
fn undo_that_is_dropped_leaves_its_extents(rt: HostRuntime) {
    assert!(rt; free_after_release(rt.alloc()) == Some(2));
}
