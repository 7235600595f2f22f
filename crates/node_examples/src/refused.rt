//! A statement that is refused changes no row, no lock and no byte of the log.
use crate::hq::{AT_HQ, PREPARE_HQ};
use crate::lives::played;
use lone_node::{Comes, LoneNode, Step, Wrote};
use std::alloc::Global;

/// A statement of session 1 that is refused, and the line that says so.
type Refused = (&'static [u8], &'static [u8]);

/// Beside a branch in doubt with the key 1, committed rows with the keys 3 and 5, and changes of session 2 at the keys 2 and 5.
const REFUSED: &[Refused] = &[
    (b"SELEKT", b"ORA-00900: invalid SQL statement"),
    (
        b"SELECT * FROM LEDGER@HQ",
        b"ORA-02019: connection description for remote database not found",
    ),
    (
        b"SELECT * FROM ORDERS",
        b"ORA-00942: table or view does not exist",
    ),
    (
        b"CREATE TABLE LEDGER (K NUMBER PRIMARY KEY)",
        b"ORA-00955: name is already used by an existing object",
    ),
    (
        b"CREATE SYNONYM LEDGER FOR T@L",
        b"ORA-00955: name is already used by an existing object",
    ),
    (
        b"SELECT QTY FROM LEDGER",
        b"ORA-00904: \"QTY\": invalid identifier",
    ),
    (
        b"UPDATE LEDGER SET ID = 4",
        b"DTX-15: key column cannot be changed",
    ),
    (
        b"INSERT INTO LEDGER VALUES (4)",
        b"ORA-00947: not enough values",
    ),
    (
        b"INSERT INTO LEDGER VALUES (4, 4, 4)",
        b"ORA-00913: too many values",
    ),
    (
        b"INSERT INTO LEDGER VALUES ('4', 4)",
        b"DTX-10: value of the wrong type",
    ),
    (
        b"INSERT INTO LEDGER VALUES (NULL, 4)",
        b"ORA-01400: cannot insert NULL into (\"APP\".\"LEDGER\".\"ID\")",
    ),
    (
        b"INSERT INTO LEDGER VALUES (1, 4)",
        b"ORA-01591: lock held by in-doubt distributed transaction 1.65.1",
    ),
    (
        b"UPDATE LEDGER SET AMOUNT = 4",
        b"ORA-01591: lock held by in-doubt distributed transaction 1.65.1",
    ),
    (
        b"DELETE FROM LEDGER WHERE ID = 1",
        b"ORA-01591: lock held by in-doubt distributed transaction 1.65.1",
    ),
    (
        b"SELECT * FROM LEDGER",
        b"ORA-01591: lock held by in-doubt distributed transaction 1.65.1",
    ),
    (
        b"INSERT INTO LEDGER VALUES (2, 4)",
        b"ORA-02049: timeout: distributed transaction waiting for lock",
    ),
    (
        b"UPDATE LEDGER SET AMOUNT = 4 WHERE ID = 5",
        b"ORA-02049: timeout: distributed transaction waiting for lock",
    ),
    (
        b"DELETE FROM LEDGER WHERE ID = 5",
        b"ORA-02049: timeout: distributed transaction waiting for lock",
    ),
    (
        b"SELECT * FROM LEDGER WHERE ID = 5 FOR UPDATE",
        b"ORA-02049: timeout: distributed transaction waiting for lock",
    ),
    (
        b"INSERT INTO LEDGER VALUES (3, 4)",
        b"ORA-00001: unique constraint (APP.LEDGER_PK) violated",
    ),
    (
        b"INSERT INTO NOTES VALUES ('abc')",
        b"ORA-12899: value too large for column \"APP\".\"NOTES\".\"K\" (actual: 3, maximum: 2)",
    ),
    (
        b"COMMIT FORCE '9.9.9'",
        b"ORA-02058: no prepared transaction found with ID 9.9.9",
    ),
    (
        b"ROLLBACK FORCE '9.9.9'",
        b"ORA-02058: no prepared transaction found with ID 9.9.9",
    ),
    (
        b"EXECUTE DBMS_TRANSACTION.PURGE_MIXED('1.65.1')",
        b"DTX-06: purge of 1.65.1 refused",
    ),
    (
        b"EXECUTE DBMS_TRANSACTION.PURGE_LOST_DB_ENTRY('9.9.9')",
        b"DTX-06: purge of 9.9.9 refused",
    ),
];

/// Rows of session 1 that are committed, changes of session 2 that are not, and another table, beside the branch in doubt.
const BEFORE: &[&[Step]] = &[
    &AT_HQ,
    &[
        PREPARE_HQ,
        (
            Comes::Call(1, b"CREATE TABLE NOTES (K VARCHAR2(2) PRIMARY KEY)"),
            Wrote::Made,
            &[],
            &[b"Table created."],
        ),
        (
            Comes::Call(1, b"INSERT INTO LEDGER VALUES (3, 7)"),
            Wrote::Nothing,
            &[],
            &[b"1 row created."],
        ),
        (
            Comes::Call(1, b"INSERT INTO LEDGER VALUES (5, 7)"),
            Wrote::Nothing,
            &[],
            &[b"1 row created."],
        ),
        (
            Comes::Call(1, b"COMMIT"),
            Wrote::Decided(2, 2),
            &[],
            &[b"Commit complete."],
        ),
        (
            Comes::Call(2, b"INSERT INTO LEDGER VALUES (2, 7)"),
            Wrote::Nothing,
            &[],
            &[b"1 row created."],
        ),
        (
            Comes::Call(2, b"UPDATE LEDGER SET AMOUNT = 8 WHERE ID = 5"),
            Wrote::Nothing,
            &[],
            &[b"1 row updated."],
        ),
    ],
];

/// What session 3 finds: no row is changed, and none is locked.
const AFTER: &[&[Step]] = &[&[
    (
        Comes::Call(3, b"SELECT * FROM LEDGER WHERE ID = 3"),
        Wrote::Nothing,
        &[],
        &[b"ID|AMOUNT", b"3|7", b"1 row selected."],
    ),
    (
        Comes::Call(3, b"UPDATE LEDGER SET AMOUNT = 8 WHERE ID = 3"),
        Wrote::Nothing,
        &[],
        &[b"1 row updated."],
    ),
    (
        Comes::Call(3, b"INSERT INTO LEDGER VALUES (4, 8)"),
        Wrote::Nothing,
        &[],
        &[b"1 row created."],
    ),
    (
        Comes::Call(3, b"INSERT INTO NOTES VALUES ('ab')"),
        Wrote::Nothing,
        &[],
        &[b"1 row created."],
    ),
]];

/// Whether a statement is refused with its line, and changes no byte of the disk. None where memory runs out.
fn is_refused(alloc: Global, node: &mut LoneNode, refused: &Refused) -> Option<bool> {
    let (text, line) = refused;
    let before = node.bytes().to_vec(alloc).ok()?;
    let is_told = node.answers(alloc, *text, &[*line]);
    Some(is_told && node.bytes() == before.as_slice())
}

/// The number of the first of them that is not refused so, from 0.
fn first_unrefused(alloc: Global, node: &mut LoneNode) -> Option<usize> {
    for number in 0..REFUSED.len() {
        if !matches!(is_refused(alloc, node, &REFUSED[number]), Some(true)) {
            return Some(number);
        }
    }
    None
}

/// Whether each statement is refused as it should be, and each turn after them is as expected.
fn change_nothing(alloc: Global) -> bool {
    match played(alloc, 3, BEFORE) {
        Some(mut node) => {
            let change_nothing = first_unrefused(alloc, &mut node).is_none()
                && node.play(alloc, AFTER).is_none();
            node.end();
            change_nothing
        }
        None => false,
    }
}

#[test]
fn a_refused_statement_changes_nothing(rt: HostRuntime) {
    assert!(rt; change_nothing(rt.alloc()));
}
