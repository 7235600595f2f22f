//! The turns of WAREHOUSE in the order: the commit point site, which decides.
use crate::branches::{ROOT, STOCK};
use crate::letters::{CHANGE_STOCK, OPEN_STOCK, OPENED_STOCK, STOCK_CHANGED};
use lone_node::{Comes, Says, Step, Wrote};

/// WAREHOUSE, until the order has changed a row there.
pub(crate) const AT_WAREHOUSE: [Step; 5] = [
    (
        Comes::Call(
            1,
            b"CREATE TABLE STOCK (ITEM VARCHAR2(20) PRIMARY KEY, N NUMBER)",
        ),
        Wrote::Made,
        &[],
        &[b"Table created."],
    ),
    (
        Comes::Call(1, b"INSERT INTO STOCK VALUES ('BOLT', 50)"),
        Wrote::Nothing,
        &[],
        &[b"1 row created."],
    ),
    (
        Comes::Call(1, b"COMMIT"),
        Wrote::Decided(1, 1),
        &[],
        &[b"Commit complete."],
    ),
    (
        Comes::Message(OPEN_STOCK),
        Wrote::Nothing,
        &[OPENED_STOCK],
        &[],
    ),
    (
        Comes::Message(CHANGE_STOCK),
        Wrote::Nothing,
        &[STOCK_CHANGED],
        &[],
    ),
];

/// WAREHOUSE is ready to decide.
pub(crate) const READY: Step = (
    Comes::Message((ROOT, STOCK, 1, Says::Prepare { site_below: true })),
    Wrote::Nothing,
    &[(STOCK, ROOT, 1, Says::Ready)],
    &[],
);

/// WAREHOUSE decides.
pub(crate) const DECIDE: Step = (
    Comes::Message((ROOT, STOCK, 1, Says::CommitPoint)),
    Wrote::Decided(2, 1),
    &[(STOCK, ROOT, 2, Says::Committed { scn: 2 })],
    &[],
);

/// WAREHOUSE forgets the order.
pub(crate) const FORGET_WAREHOUSE: Step = (
    Comes::Message((ROOT, STOCK, 2, Says::Ack)),
    Wrote::Forgot,
    &[(STOCK, ROOT, 2, Says::Forgotten)],
    &[],
);

/// The row at WAREHOUSE is changed.
pub(crate) const ROW_AT_WAREHOUSE: Step = (
    Comes::Call(2, b"SELECT * FROM STOCK"),
    Wrote::Nothing,
    &[],
    &[b"ITEM|N", b"'BOLT'|40", b"1 row selected."],
);

/// The row at WAREHOUSE is as it was before the order.
pub(crate) const OLD_ROW_AT_WAREHOUSE: Step = (
    Comes::Call(2, b"SELECT * FROM STOCK"),
    Wrote::Nothing,
    &[],
    &[b"ITEM|N", b"'BOLT'|50", b"1 row selected."],
);
