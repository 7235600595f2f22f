//! The turns of SALES in the order: the root, which collects the other two and passes the decision on.
use crate::branches::{LEDGER, ROOT, STOCK};
use crate::letters::{
    CHANGE_LEDGER, CHANGE_STOCK, LEDGER_CHANGED, OPEN_LEDGER, OPEN_STOCK, OPENED_LEDGER,
    OPENED_STOCK, STOCK_CHANGED,
};
use lone_node::{Comes, Says, Step, Wrote};
use redo_record::Decision;

/// SALES, until the order is complete.
pub(crate) const AT_SALES: [Step; 10] = [
    (
        Comes::Call(
            1,
            b"CREATE TABLE ORDERS (ID NUMBER PRIMARY KEY, QTY NUMBER)",
        ),
        Wrote::Made,
        &[],
        &[b"Table created."],
    ),
    (
        Comes::Call(1, b"CREATE DATABASE LINK WH USING 'WAREHOUSE'"),
        Wrote::Made,
        &[],
        &[b"Database link created."],
    ),
    (
        Comes::Call(1, b"CREATE DATABASE LINK HQ USING 'HQ'"),
        Wrote::Made,
        &[],
        &[b"Database link created."],
    ),
    (
        Comes::Call(1, b"INSERT INTO ORDERS VALUES (1, 10)"),
        Wrote::Nothing,
        &[],
        &[b"1 row created."],
    ),
    (
        Comes::Call(1, b"UPDATE STOCK@WH SET N = N - 10 WHERE ITEM = 'BOLT'"),
        Wrote::Nothing,
        &[OPEN_STOCK],
        &[],
    ),
    (
        Comes::Message(OPENED_STOCK),
        Wrote::Nothing,
        &[CHANGE_STOCK],
        &[],
    ),
    (
        Comes::Message(STOCK_CHANGED),
        Wrote::Nothing,
        &[],
        &[b"1 row updated."],
    ),
    (
        Comes::Call(1, b"INSERT INTO LEDGER@HQ VALUES (1, 250)"),
        Wrote::Nothing,
        &[OPEN_LEDGER],
        &[],
    ),
    (
        Comes::Message(OPENED_LEDGER),
        Wrote::Nothing,
        &[CHANGE_LEDGER],
        &[],
    ),
    (
        Comes::Message(LEDGER_CHANGED),
        Wrote::Nothing,
        &[],
        &[b"1 row created."],
    ),
];

/// SALES asks both to prepare, and WAREHOUSE is ready.
pub(crate) const COLLECT: [Step; 2] = [
    (
        Comes::Call(1, b"COMMIT"),
        Wrote::Nothing,
        &[
            (ROOT, STOCK, 1, Says::Prepare { site_below: true }),
            (ROOT, LEDGER, 1, Says::Prepare { site_below: false }),
        ],
        &[],
    ),
    (
        Comes::Message((STOCK, ROOT, 1, Says::Ready)),
        Wrote::Nothing,
        &[],
        &[],
    ),
];

/// SALES is prepared, once HQ is, and lets WAREHOUSE decide.
pub(crate) const PASS: Step = (
    Comes::Message((LEDGER, ROOT, 1, Says::Prepared)),
    Wrote::Sealed(1, 1),
    &[(ROOT, STOCK, 1, Says::CommitPoint)],
    &[],
);

/// SALES learns of the decision, and passes it on.
pub(crate) const LEARN: Step = (
    Comes::Message((STOCK, ROOT, 2, Says::Committed { scn: 2 })),
    Wrote::Ended(Decision::Commit(2)),
    &[(ROOT, LEDGER, 2, Says::Committed { scn: 2 })],
    &[],
);

/// Both others hear that it is known everywhere, and SALES forgets the order.
pub(crate) const COMPLETE: [Step; 3] = [
    (
        Comes::Message((LEDGER, ROOT, 2, Says::Ack)),
        Wrote::Nothing,
        &[(ROOT, STOCK, 2, Says::Ack)],
        &[],
    ),
    (
        Comes::Message((STOCK, ROOT, 2, Says::Forgotten)),
        Wrote::Forgot,
        &[(ROOT, LEDGER, 2, Says::Forgotten)],
        &[b"Commit complete."],
    ),
    (
        Comes::Call(2, b"SELECT * FROM ORDERS"),
        Wrote::Nothing,
        &[],
        &[b"ID|QTY", b"1|10", b"1 row selected."],
    ),
];

/// The order has no row at SALES.
pub(crate) const NO_ROW_AT_SALES: Step = (
    Comes::Call(2, b"SELECT * FROM ORDERS"),
    Wrote::Nothing,
    &[],
    &[b"no rows selected"],
);

/// The order is in doubt at SALES.
pub(crate) const KEY_IN_DOUBT_AT_SALES: Step = (
    Comes::Call(2, b"SELECT * FROM ORDERS"),
    Wrote::Nothing,
    &[],
    &[b"ORA-01591: lock held by in-doubt distributed transaction 1.1.1"],
);
