//! The letters by which the order gets its branches at WAREHOUSE and HQ: SALES sends them and gets the replies.
use crate::branches::{HQ, LEDGER, ROOT, STOCK, WAREHOUSE};
use dtx_values::Done;
use lone_node::{Letter, Says};

/// SALES opens a branch at WAREHOUSE.
pub(crate) const OPEN_STOCK: Letter = (
    ROOT,
    WAREHOUSE,
    0,
    Says::Open {
        edge: 1,
        root: ROOT,
        depth: 2,
    },
);

/// It is opened.
pub(crate) const OPENED_STOCK: Letter = (
    STOCK,
    ROOT,
    1,
    Says::Opened {
        edge: 1,
        strength: 140,
    },
);

/// The order takes from the stock there.
pub(crate) const CHANGE_STOCK: Letter = (
    ROOT,
    STOCK,
    1,
    Says::Exec {
        call: 1,
        room: 254,
        text: b"UPDATE STOCK SET N = N - 10 WHERE ITEM = 'BOLT'",
    },
);

/// That is done.
pub(crate) const STOCK_CHANGED: Letter = (
    STOCK,
    ROOT,
    1,
    Says::Did {
        call: 1,
        weight: 140,
        done: Done::Updated,
    },
);

/// SALES opens a branch at HQ.
pub(crate) const OPEN_LEDGER: Letter = (
    ROOT,
    HQ,
    1,
    Says::Open {
        edge: 2,
        root: ROOT,
        depth: 2,
    },
);

/// It is opened.
pub(crate) const OPENED_LEDGER: Letter = (
    LEDGER,
    ROOT,
    1,
    Says::Opened {
        edge: 2,
        strength: 75,
    },
);

/// The order gets a row there.
pub(crate) const CHANGE_LEDGER: Letter = (
    ROOT,
    LEDGER,
    1,
    Says::Exec {
        call: 1,
        room: 253,
        text: b"INSERT INTO LEDGER VALUES (1, 250)",
    },
);

/// That is done.
pub(crate) const LEDGER_CHANGED: Letter = (
    LEDGER,
    ROOT,
    1,
    Says::Did {
        call: 1,
        weight: 75,
        done: Done::Created,
    },
);
