//! The turns of HQ in the order: a child that is prepared and then commits.
use crate::branches::{LEDGER, ROOT};
use crate::letters::{CHANGE_LEDGER, LEDGER_CHANGED, OPEN_LEDGER, OPENED_LEDGER};
use lone_node::{Comes, Says, Step, Wrote};
use redo_record::Decision;

/// HQ, until the order has a row there.
pub(crate) const AT_HQ: [Step; 3] = [
    (
        Comes::Call(
            1,
            b"CREATE TABLE LEDGER (ID NUMBER PRIMARY KEY, AMOUNT NUMBER)",
        ),
        Wrote::Made,
        &[],
        &[b"Table created."],
    ),
    (
        Comes::Message(OPEN_LEDGER),
        Wrote::Nothing,
        &[OPENED_LEDGER],
        &[],
    ),
    (
        Comes::Message(CHANGE_LEDGER),
        Wrote::Nothing,
        &[LEDGER_CHANGED],
        &[],
    ),
];

/// HQ is prepared.
pub(crate) const PREPARE_HQ: Step = (
    Comes::Message((ROOT, LEDGER, 1, Says::Prepare { site_below: false })),
    Wrote::Sealed(1, 1),
    &[(LEDGER, ROOT, 1, Says::Prepared)],
    &[],
);

/// HQ learns of the commit.
pub(crate) const COMMIT_HQ: Step = (
    Comes::Message((ROOT, LEDGER, 2, Says::Committed { scn: 2 })),
    Wrote::Ended(Decision::Commit(2)),
    &[(LEDGER, ROOT, 2, Says::Ack)],
    &[],
);

/// HQ forgets the order.
pub(crate) const FORGET_HQ: Step = (
    Comes::Message((ROOT, LEDGER, 2, Says::Forgotten)),
    Wrote::Forgot,
    &[],
    &[],
);

/// The row of the order is at HQ.
pub(crate) const ROW_AT_HQ: Step = (
    Comes::Call(2, b"SELECT * FROM LEDGER"),
    Wrote::Nothing,
    &[],
    &[b"ID|AMOUNT", b"1|250", b"1 row selected."],
);

/// The order has no row at HQ.
pub(crate) const NO_ROW_AT_HQ: Step = (
    Comes::Call(2, b"SELECT * FROM LEDGER"),
    Wrote::Nothing,
    &[],
    &[b"no rows selected"],
);

/// What a statement that needs the key of that row says while the order is in doubt.
pub(crate) const IN_DOUBT: &[u8] =
    b"ORA-01591: lock held by in-doubt distributed transaction 1.65.1";

/// The key of the order's row is in doubt.
pub(crate) const KEY_IN_DOUBT: Step = (
    Comes::Call(2, b"SELECT * FROM LEDGER WHERE ID = 1"),
    Wrote::Nothing,
    &[],
    &[IN_DOUBT],
);
