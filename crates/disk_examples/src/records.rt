//! The bytes of records by examples from outside, and that calls succeed.
ghost use Rattle.redo_codec.specs.Record.{record_format};

use dtx_values::{Advice, Bytes, Column, Columns, Name, NameErr, Table};
use field_codec::{branch_fits, table_fits};
use redo_codec::{DecodeErr, decode, encode, records_are_exact};
use redo_record::{Decision, RedoRecord, Sealed, Toward};
use std::alloc::{AllocError, Global};
use tran_ids::BranchId;

const BRANCH: BranchId = BranchId {
    node: 1,
    boot: 1,
    session: 65,
    seq: 1,
};

/// The table T with a key K of numbers, and V of texts of at most 10 bytes.
const TABLE: [u8; 19] = [1, 2, 1, 84, 2, 1, 75, 1, 0, 0, 1, 1, 1, 86, 2, 0, 10, 0, 0];

/// The branch (1, 1, 65, 1), prepared at SCN 5 on the way to its child at HQ, with advice to commit, the comment "hi",
/// and that change.
const SEALED: [u8; 88] = [
    1, 6, 1, 0, 0, 0, 1, 0, 0, 0, 65, 0, 0, 0, 1, 1, 0, 0, 0, 1, 0, 0, 0, 65, 0, 0, 0, 1, 0, 0, 0,
    0, 0, 5, 1, 0, 0, 0, 0, 1, 2, 0, 0, 0, 1, 0, 0, 0, 65, 0, 0, 0, 1, 2, 72, 81, 1, 0, 2, 104,
    105, 0, 0, 0, 1, 1, 84, 1, 0, 0, 0, 0, 0, 0, 0, 7, 1, 2, 1, 0, 0, 0, 0, 0, 0, 0, 7, 0,
];

/// The same branch, committed at SCN 9 under the branch (2, 1, 65, 1), with advice to roll back.
const DECIDED: [u8; 59] = [
    1, 7, 1, 0, 0, 0, 1, 0, 0, 0, 65, 0, 0, 0, 1, 1, 0, 0, 0, 1, 0, 0, 0, 65, 0, 0, 0, 1, 0, 0, 0,
    0, 0, 9, 1, 2, 0, 0, 0, 1, 0, 0, 0, 65, 0, 0, 0, 1, 0, 0, 0, 0, 2, 0, 0, 0, 0, 0, 0,
];

/// The first start of a node.
const START: [u8; 6] = [1, 1, 0, 0, 0, 1];

/// The branch forgot.
const FORGOTTEN: [u8; 15] = [1, 11, 1, 0, 0, 0, 1, 0, 0, 0, 65, 0, 0, 0, 1];

/// The branch is hidden.
const HIDDEN: [u8; 15] = [1, 12, 1, 0, 0, 0, 1, 0, 0, 0, 65, 0, 0, 0, 1];

/// A body of each kind.
const KINDS: [(&str, &[u8]); 13] = [
    ("a start", &START),
    ("a link", &[1, 3, 2, 72, 81, 6, 72, 81, 46, 67, 79, 77]),
    ("a synonym", &[1, 4, 1, 83, 1, 84, 2, 72, 81]),
    ("recovery on", &[1, 5, 1, 0, 0, 0, 1]),
    ("a strength of 7", &[1, 5, 2, 0, 0, 0, 7]),
    (
        "ended",
        &[
            1, 8, 1, 0, 0, 0, 1, 0, 0, 0, 65, 0, 0, 0, 1, 2, 0, 0, 0, 0, 0, 0,
        ],
    ),
    (
        "forced",
        &[
            1, 9, 1, 0, 0, 0, 1, 0, 0, 0, 65, 0, 0, 0, 1, 1, 0, 0, 0, 0, 0, 2, 1,
        ],
    ),
    (
        "met",
        &[
            1, 10, 1, 0, 0, 0, 1, 0, 0, 0, 65, 0, 0, 0, 1, 2, 0, 0, 0, 0, 0, 0, 0,
        ],
    ),
    ("forgotten", &FORGOTTEN),
    ("hidden", &HIDDEN),
    ("a table", &TABLE),
    ("prepared", &SEALED),
    ("decided", &DECIDED),
];

/// Bytes that are no record's body.
const NO_RECORDS: [(&str, &[u8]); 14] = [
    ("no bytes", &[]),
    ("a byte too many", &[1, 1, 0, 0, 0, 1, 0]),
    ("a byte too few", &[1, 1, 0, 0, 0]),
    ("the first byte alone", &[1]),
    ("another format", &[9, 1, 0, 0, 0, 1]),
    (
        "no such kind",
        &[1, 13, 1, 0, 0, 0, 1, 0, 0, 0, 65, 0, 0, 0, 1],
    ),
    ("no kind", &[1, 0, 1, 0, 0, 0, 1, 0, 0, 0, 65, 0, 0, 0, 1]),
    ("a name in lower case", &[1, 3, 2, 104, 113, 2, 72, 81]),
    ("a name of no bytes", &[1, 3, 0, 2, 72, 81]),
    ("no such setting", &[1, 5, 3, 0, 0, 0, 1]),
    ("a switch of 2", &[1, 5, 1, 0, 0, 0, 2]),
    ("a strength of 256", &[1, 5, 2, 0, 0, 1, 0]),
    (
        "a rollback with an SCN",
        &[
            1, 8, 1, 0, 0, 0, 1, 0, 0, 0, 65, 0, 0, 0, 1, 2, 0, 0, 0, 0, 0, 1,
        ],
    ),
    (
        "no such decision",
        &[
            1, 8, 1, 0, 0, 0, 1, 0, 0, 0, 65, 0, 0, 0, 1, 3, 0, 0, 0, 0, 0, 0,
        ],
    ),
];

/// Whether the record is written as this body.
fn is_written(alloc: Global, redo: &RedoRecord, body: &[u8]) -> Result<bool, AllocError>
    requires { record_format.Fits redo.now }
{
    Ok(encode(alloc, redo)?.as_slice() == body)
}

/// Whether the record of the first start is written.
fn is_start_written(alloc: Global) -> Result<bool, AllocError> {
    is_written(alloc, &RedoRecord::Boot(1), &START)
}

/// Whether the record is written that the branch forgot.
fn is_forgotten_written(alloc: Global) -> Result<bool, AllocError> {
    branch_fits(&BRANCH);
    is_written(alloc, &RedoRecord::Forgot(BRANCH), &FORGOTTEN)
}

/// Whether the record is written that the branch ended, and committed at 2.
fn is_ended_written(alloc: Global, body: &[u8]) -> Result<bool, AllocError> {
    branch_fits(&BRANCH);
    let ended = RedoRecord::Ended {
        me: BRANCH,
        decision: Decision::Commit(2),
    };
    is_written(alloc, &ended, body)
}

#[test]
fn records_are_written(rt: HostRuntime) {
    let ended = [
        1, 8, 1, 0, 0, 0, 1, 0, 0, 0, 65, 0, 0, 0, 1, 1, 0, 0, 0, 0, 0, 2,
    ];
    assert!(rt; is_start_written(rt.alloc()) == Ok(true));
    assert!(rt; is_forgotten_written(rt.alloc()) == Ok(true));
    assert!(rt; is_ended_written(rt.alloc(), &ended) == Ok(true));
}

/// Whether the body is read, and written as it was.
fn is_kept(alloc: Global, body: &[u8]) -> bool {
    match decode(alloc, body) {
        Ok(record) => matches!(&encode(alloc, &record), Ok(bytes) if bytes.as_slice() == body),
        Err(_) => false,
    }
}

#[test]
fn each_kind_is_read_and_written_again(rt: HostRuntime) {
    for (what, body) in KINDS {
        assert!(rt; is_kept(rt.alloc(), body), "{what}");
    }
}

/// Whether it is the prepared branch.
fn is_sealed(record: &RedoRecord) -> bool {
    match record {
        RedoRecord::Sealed(sealed) => leads_to_the_child(sealed) && has_its_lists(sealed),
        _ => false,
    }
}

/// Whether the prepared branch is on the way to its child, under no parent.
fn leads_to_the_child(sealed: &Sealed) -> bool {
    sealed.me == BRANCH
        && sealed.scn == 5
        && sealed.toward == Toward::Child(0)
        && sealed.parent.is_none()
}

/// Whether the prepared branch has its child, its advice, its comment and its change.
fn has_its_lists(sealed: &Sealed) -> bool {
    matches!(sealed.advice, Some(Advice::Commit))
        && sealed.comment.as_slice() == b"hi".as_slice()
        && sealed.children.as_slice().len() == 1
        && sealed.changes.as_slice().len() == 1
}

#[test]
fn a_prepared_branch_is_read(rt: HostRuntime) {
    assert!(rt; matches!(&decode(rt.alloc(), &SEALED), Ok(record) if is_sealed(record)));
}

/// Whether the bytes are no record's body.
fn is_refused(alloc: Global, body: &[u8]) -> bool {
    matches!(decode(alloc, body), Err(DecodeErr::NotARecord))
}

#[test]
fn what_is_no_record_is_refused(rt: HostRuntime) {
    for (what, body) in NO_RECORDS {
        assert!(rt; is_refused(rt.alloc(), body), "{what}");
    }
}

/// Whether the body is no record's with this byte at this place.
fn is_refused_with(alloc: Global, body: &[u8], place: usize, byte: u8) -> Result<bool, AllocError> {
    let mut bytes = body.to_vec(alloc)?;
    match bytes.get_mut(place) {
        Some(there) => *there = byte,
        None => return Ok(false),
    }
    Ok(is_refused(alloc, &bytes))
}

/// Bodies that are no record's with another byte at a place.
const NO_BODIES: [(&str, &[u8], usize, u8); 9] = [
    ("two keys", &TABLE, 18, 1),
    ("a width for numbers", &TABLE, 9, 1),
    ("a width of 0", &TABLE, 16, 0),
    ("no such type", &TABLE, 7, 3),
    ("no parent to lead to", &SEALED, 34, 0),
    ("no second child to lead to", &SEALED, 34, 2),
    ("no such advice", &SEALED, 56, 3),
    ("a comment that is not UTF-8", &SEALED, 60, 255),
    ("a key that is NULL", &SEALED, 67, 0),
];

#[test]
fn what_is_no_table_or_prepared_branch_is_refused(rt: HostRuntime) {
    for (what, body, place, byte) in NO_BODIES {
        assert!(rt;
            is_refused_with(rt.alloc(), body, place, byte) == Ok(true),
            "{what}"
        );
    }
}

#[test]
fn no_bytes_are_two_records() {
    records_are_exact();
}

/// The body of a table of this name with one column, a key of texts of at most 10 bytes.
fn table_body(alloc: Global, name: Name, key: Name) -> Result<Bytes, AllocError> {
    let mut columns = Columns::new(alloc);
    columns.push(Column {
        name: key,
        text_max: Some(10),
        not_null: true,
        key: true,
    })?;
    let table = Table { name, columns };
    table_fits(&table);
    encode(alloc, &RedoRecord::Table(table))
}

/// Whether this is the body of such a table, T with the key K.
fn is_table_written(alloc: Global, body: &[u8]) -> Result<bool, NameErr> {
    let name = Name::from_bytes(alloc, b"t")?;
    let key = Name::from_bytes(alloc, b"k")?;
    Ok(table_body(alloc, name, key)?.as_slice() == body)
}

#[test]
fn a_table_that_was_made_is_written(rt: HostRuntime) {
    let body = b"\x01\x02\x01T\x01\x01K\x02\x00\x0a\x01\x01";
    assert!(rt; is_table_written(rt.alloc(), body) == Ok(true));
}
