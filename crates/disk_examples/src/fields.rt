//! The bytes of values, names, branches, rows and changes by examples from outside, and that calls succeed.
ghost use Rattle.byte_format.specs.Format.{IsExact};

use byte_format::{Field, TakeErr, list_is_exact, read_front, runs_are_exact};
use dtx_values::{Cells, Change, Name, NameErr, Row, Str, TextErr, Value};
use field_codec::{
    AdviceField, BytesField, CommentField, ListField, RowField, Utf8Field, branch_fits,
    change_fits, fields_are_exact, name_fits, put_branch, put_change, put_name, put_row, put_value,
    row_fits, take_branch, take_change, take_name, take_row, take_value, value_fits,
};
use std::alloc::{AllocError, Global};
use tran_ids::BranchId;

const BRANCH: BranchId = BranchId {
    node: 1,
    boot: 1,
    session: 65,
    seq: 1,
};

/// The bytes of the branch.
const BRANCH_BYTES: [u8; 13] = [1, 0, 0, 0, 1, 0, 0, 0, 65, 0, 0, 0, 1];

/// A change of T at 7 to the row (7, NULL).
const CHANGE: [u8; 23] = [
    1, 84, 1, 0, 0, 0, 0, 0, 0, 0, 7, 1, 2, 1, 0, 0, 0, 0, 0, 0, 0, 7, 0,
];

/// The bytes of the number -1.
const NUMBER: [u8; 9] = [1, 255, 255, 255, 255, 255, 255, 255, 255];

/// The bytes of the text `BOLT`.
const BOLT: [u8; 7] = *b"\x02\x00\x04BOLT";

/// Whether the value is written as these bytes.
fn is_value_written(alloc: Global, value: &Value, bytes: &[u8]) -> Result<bool, AllocError> {
    value_fits(value);
    let mut out = Vec::new(alloc);
    put_value(&mut out, value)?;
    Ok(out.as_slice() == bytes)
}

/// Whether the value is taken from these bytes, and so many bytes are left.
fn is_value_taken(
    alloc: Global,
    bytes: &[u8],
    value: &Value,
    left: usize,
) -> Result<bool, TakeErr> {
    let (taken, rest) = take_value(alloc, bytes)?;
    Ok(taken == *value && rest.len() == left)
}

/// Whether the number -1 is written, and taken from the front.
fn keeps_numbers(alloc: Global) -> Result<bool, TakeErr> {
    let value = Value::Number(-1);
    let behind = [1, 255, 255, 255, 255, 255, 255, 255, 255, 2];
    Ok(is_value_written(alloc, &value, &NUMBER)? && is_value_taken(alloc, &behind, &value, 1)?)
}

/// Whether `BOLT` is written, and taken.
fn keeps_texts(alloc: Global) -> Result<bool, TextErr> {
    let value = Value::Text(Str::from_bytes(alloc, b"BOLT")?);
    let is_taken = is_value_taken(alloc, &BOLT, &value, 0) == Ok(true);
    Ok(is_value_written(alloc, &value, &BOLT)? && is_taken)
}

#[test]
fn values_are_written_and_taken(rt: HostRuntime) {
    assert!(rt; keeps_numbers(rt.alloc()) == Ok(true));
    assert!(rt; keeps_texts(rt.alloc()) == Ok(true));
}

/// Whether the branch is written as its bytes, and taken from them.
fn keeps_branches(alloc: Global) -> Result<bool, TakeErr> {
    branch_fits(&BRANCH);
    let mut out = Vec::new(alloc);
    put_branch(&mut out, &BRANCH)?;
    let (branch, rest) = take_branch(alloc, &BRANCH_BYTES)?;
    Ok(out.as_slice() == BRANCH_BYTES.as_slice() && branch == BRANCH && rest.is_empty())
}

/// Whether a name is taken from what it is written as.
fn is_name_kept(alloc: Global, name: &Name) -> Result<bool, TakeErr> {
    name_fits(name);
    let mut out = Vec::new(alloc);
    put_name(&mut out, name)?;
    let (taken, rest) = take_name(alloc, &out)?;
    Ok(taken.is(name) && rest.is_empty())
}

/// Whether a name is kept.
fn keeps_names(alloc: Global) -> Result<bool, NameErr> {
    let name = Name::from_bytes(alloc, b"hq")?;
    Ok(is_name_kept(alloc, &name) == Ok(true))
}

/// Whether a row is written as the bytes that it is taken from, and the byte after them is left.
fn keeps_rows(alloc: Global) -> Result<bool, TakeErr> {
    let (row, rest) = take_row(alloc, b"\x02\x00\x02\x00\x01a\x09")?;
    let mut out = Vec::new(alloc);
    put_row(&mut out, &row)?;
    Ok(out.as_slice() == b"\x02\x00\x02\x00\x01a".as_slice() && rest.len() == 1)
}

/// Whether these bytes are the change's that is taken from them.
fn keeps_changes(alloc: Global, bytes: &[u8]) -> Result<bool, TakeErr> {
    let (change, rest) = take_change(alloc, bytes)?;
    let mut out = Vec::new(alloc);
    put_change(&mut out, &change)?;
    Ok(rest.is_empty() && out.as_slice() == bytes)
}

/// Whether what is taken from these bytes is written as they are, with nothing after it.
fn is_field_kept<F: Field>(alloc: Global, bytes: &[u8]) -> Result<bool, TakeErr>
    requires { IsExact F.format }
{
    let (value, rest) = read_front::<F>(alloc, bytes)?;
    let mut out = Vec::new(alloc);
    F::put_into(&mut out, &value)?;
    Ok(rest.is_empty() && out.as_slice() == bytes)
}

/// Whether advice, a comment, a text of UTF-8, a run of bytes and a list of rows are kept.
fn keeps_others(alloc: Global) -> Result<bool, TakeErr> {
    fields_are_exact();
    runs_are_exact();
    list_is_exact::<RowField>();
    Ok(
        is_field_kept::<AdviceField>(alloc, &[2])?
            && is_field_kept::<CommentField>(alloc, b"\x00\x02hi")?
            && is_field_kept::<Utf8Field>(alloc, b"\x00\x00")?
            && is_field_kept::<BytesField>(alloc, b"\x00\x00\x00\x01\xff")?
            && is_field_kept::<ListField<RowField>>(alloc, b"\x00\x00\x00\x02\x00\x01\x00")?,
    )
}

#[test]
fn other_fields_are_written_and_taken(rt: HostRuntime) {
    assert!(rt; keeps_others(rt.alloc()) == Ok(true));
}

#[test]
fn parts_are_written_and_taken(rt: HostRuntime) {
    assert!(rt; keeps_branches(rt.alloc()) == Ok(true));
    assert!(rt; keeps_names(rt.alloc()) == Ok(true));
    assert!(rt; keeps_rows(rt.alloc()) == Ok(true));
    assert!(rt; keeps_changes(rt.alloc(), &CHANGE) == Ok(true));
    assert!(rt; keeps_changes(rt.alloc(), b"\x01T\x02\x00\x01a\x00") == Ok(true));
}

#[test]
fn no_bytes_are_two_fields() {
    fields_are_exact();
}

/// The bytes of a change of the table at 7 to a row of 7.
fn change_bytes(alloc: Global, table: Name) -> Result<Vec<u8>, AllocError> {
    let cells = Cells::of(vec![in alloc; Value::Number(7)]?);
    let row = Row { cells };
    row_fits(&row);
    let change = Change {
        table,
        key: Value::Number(7),
        after: Some(row),
    };
    change_fits(&change);
    let mut out = Vec::new(alloc);
    put_change(&mut out, &change)?;
    Ok(out)
}

/// How many bytes a change of the table T has.
fn change_bytes_len(alloc: Global) -> Result<usize, NameErr> {
    let table = Name::from_bytes(alloc, b"t")?;
    Ok(change_bytes(alloc, table)?.len())
}

#[test]
fn a_change_that_was_made_is_written(rt: HostRuntime) {
    assert!(rt; change_bytes_len(rt.alloc()) == Ok(22));
}
