//! A statement whose changes are too many bytes.
use crate::ends::{Ended, ended};
use script_run::Status;
use std::alloc::{AllocError, Global};

/// How many rows the table has.
const ROWS: usize = 5_000;

/// The length of the text that each row is to get, in bytes. With it the changes of all rows are over 8,388,608 bytes.
const TEXT: usize = 2_000;

/// A script that gives each row a text of 2,000 bytes in one statement, and then counts the rows that have none.
fn script(alloc: Global) -> Result<Vec<u8>, AllocError> {
    let mut text =
        b"NODE X UNDO 1024;\nAT X SESSION 1: CREATE TABLE T (K NUMBER PRIMARY KEY, V VARCHAR2(2000));\n".to_vec(
            alloc,
        )?;
    for key in 0..ROWS {
        text.extend_from_slice(format!(in alloc;
            "AT X SESSION 1: INSERT INTO T (K) VALUES ({key});\n"
        )?.as_bytes())?;
    }
    text.extend_from_slice(b"AT X SESSION 1: COMMIT;\nAT X SESSION 1: UPDATE T SET V = '")?;
    text.extend_from_slice(&vec![in alloc; b'x'; TEXT]?)?;
    text.extend_from_slice(b"';\nAT X SESSION 1: SELECT COUNT(*) FROM T WHERE V IS NULL;\n")?;
    Ok(text)
}

/// What the script prints.
fn report(alloc: Global) -> Result<Vec<u8>, AllocError> {
    let mut text = b"1 ok\n2 Table created.\n".to_vec(alloc)?;
    for key in 0..ROWS {
        text.extend_from_slice(format!(in alloc; "{} 1 row created.\n", key + 3)?.as_bytes())?;
    }
    text.extend_from_slice(
        b"5003 Commit complete.\n5004 DTX-16: changes of one branch too large\n",
    )?;
    text.extend_from_slice(b"5005 COUNT(*)\n5005 5000\n5005 1 row selected.\n")?;
    Ok(text)
}

/// How the script ends, or nothing where it prints something else.
fn end(alloc: Global) -> Result<Option<Ended>, AllocError> {
    let due = report(alloc)?;
    ended(alloc, &[], &script(alloc)?, (0, 0), &due)
}

#[test]
fn changes_of_a_statement_are_too_large(rt: HostRuntime) {
    let end = end(rt.alloc());
    assert!(rt; end == Ok(Some((Status::Done, [5_005, 10_009, 2]))));
}
