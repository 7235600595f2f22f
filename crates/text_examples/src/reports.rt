//! What no clause says of answers: that calls succeed, and texts as they are to be printed.
use crate::texts::{is_text, texts};
use dtx_values::{Answer, Bytes, Done, Listing, Notice, Refusal, Row, RowSet, Rows, Value};
use report::{answer_lines, notice_lines, put_numbered, refusal_text};
use std::alloc::{AllocError, Global};

/// Whether the refusal with this code and these arguments is written as this text.
fn says(alloc: Global, code: u16, args: &[&[u8]], due: &[u8]) -> bool {
    match texts(alloc, args) {
        Ok(args) => {
            let refusal = Refusal { code, args };
            let text = refusal_text(alloc, &refusal);
            drop(refusal);
            is_text(text, due)
        }
        Err(_) => false,
    }
}

/// Refusals by their codes and arguments, each with its text.
const REFUSALS: [(u16, &[&[u8]], &str); 6] = [
    (
        1,
        &[b"STOCK"],
        "ORA-00001: unique constraint (APP.STOCK_PK) violated",
    ),
    (
        1400,
        &[b"STOCK", b"GOODS"],
        "ORA-01400: cannot insert NULL into (\"APP\".\"STOCK\".\"GOODS\")",
    ),
    (
        2049,
        &[],
        "ORA-02049: timeout: distributed transaction waiting for lock",
    ),
    (
        12899,
        &[b"STOCK", b"GOODS", b"11", b"10"],
        "ORA-12899: value too large for column \"APP\".\"STOCK\".\"GOODS\" (actual: 11, maximum: 10)",
    ),
    (60005, &[], "DTX-05: deliveries ended at 4096"),
    (60013, &[b"HQ"], "DTX-13: node HQ is running"),
];

/// The first text that is not written for its refusal.
fn first_unsaid(alloc: Global) -> Option<&'static str> {
    for (code, args, due) in &REFUSALS {
        if !says(alloc, *code, args, due.as_bytes()) {
            return Some(*due);
        }
    }
    None
}

#[test]
fn refusals_are_written(rt: HostRuntime) {
    assert!(rt; first_unsaid(rt.alloc()).is_none());
}

/// Whether these lines came about, and are those that are due.
fn are(lines: Result<Vec<Bytes>, AllocError>, due: &[&[u8]]) -> bool {
    match lines {
        Ok(lines) => are_same(&lines, due),
        Err(_) => false,
    }
}

fn are_same(lines: &[Bytes], due: &[&[u8]]) -> bool {
    lines.len() == due.len()
        && lines
            .iter()
            .zip(due)
            .all(|(line, due)| line.as_slice() == *due)
}

/// Whether the answer is written in these lines.
fn tells(alloc: Global, answer: Answer, due: &[&[u8]]) -> bool {
    let lines = answer_lines(alloc, &answer);
    drop(answer);
    are(lines, due)
}

/// A row with -1 in the column ID, and NULL in the column GOODS.
fn one_row(alloc: Global) -> Result<Rows, AllocError> {
    let cells = Listing::of(vec![in alloc; Value::Number(-1), Value::Null]?);
    Ok(Listing::of(vec![in alloc; Row { cells }]?))
}

/// Whether these rows of the columns ID and GOODS are written in these lines.
fn tells_found(alloc: Global, rows: Rows, due: &[&[u8]]) -> bool {
    match texts(alloc, &[b"ID", b"GOODS"]) {
        Ok(heads) => tells(alloc, Answer::Found(RowSet { heads, rows }), due),
        Err(_) => {
            drop(rows);
            false
        }
    }
}

fn tells_none(alloc: Global) -> bool {
    tells_found(alloc, Listing::new(alloc), &[b"no rows selected"])
}

fn tells_one(alloc: Global) -> bool {
    match one_row(alloc) {
        Ok(rows) => tells_found(alloc, rows, &[b"ID|GOODS", b"-1|NULL", b"1 row selected."]),
        Err(_) => false,
    }
}

#[test]
fn found_rows_are_written(rt: HostRuntime) {
    assert!(rt; tells_none(rt.alloc()));
    assert!(rt; tells_one(rt.alloc()));
}

/// Whether the answer that this was done, to no row, is written as this line.
fn tells_done(alloc: Global, done: Done, due: &[u8]) -> bool {
    tells(alloc, Answer::Did(done, 0), &[due])
}

#[test]
fn what_was_done_is_written(rt: HostRuntime) {
    assert!(rt; tells_done(rt.alloc(), Done::Created, b"0 rows created."));
    assert!(rt; tells_done(rt.alloc(), Done::Committed, b"Commit complete."));
}

/// Whether the notice is written as this line.
fn is_noted(alloc: Global, notice: Notice, due: &[u8]) -> bool {
    let lines = notice_lines(alloc, &notice);
    drop(notice);
    are(lines, &[due])
}

/// The text of the lines, each behind the number of their command.
fn numbered(alloc: Global, lines: &[Bytes]) -> Result<Bytes, AllocError> {
    let mut out = Vec::new(alloc);
    put_numbered(&mut out, 12, lines)?;
    Ok(Listing::of(out))
}

/// Whether lines are written as this text, behind the number of their command.
fn are_numbered(alloc: Global, lines: &[&[u8]], due: &[u8]) -> bool {
    match texts(alloc, lines) {
        Ok(lines) => is_text(numbered(alloc, lines.as_slice()), due),
        Err(_) => false,
    }
}

#[test]
fn notices_and_numbered_lines_are_written(rt: HostRuntime) {
    assert!(rt; is_noted(rt.alloc(), Notice::Waiting, b"waiting"));
    assert!(rt; are_numbered(rt.alloc(), &[b"ID", b"1"], b"12 ID\n12 1\n"));
}
