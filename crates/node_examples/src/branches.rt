//! The branches of an order over three nodes: a root at SALES, the commit point site at WAREHOUSE, and another child at HQ.
use tran_ids::BranchId;

/// The root of the order, at SALES.
pub(crate) const ROOT: BranchId = BranchId {
    node: 1,
    boot: 1,
    session: 1,
    seq: 1,
};

/// Its branch at WAREHOUSE.
pub(crate) const STOCK: BranchId = BranchId {
    node: 2,
    boot: 1,
    session: 65,
    seq: 1,
};

/// Its branch at HQ.
pub(crate) const LEDGER: BranchId = BranchId {
    node: 3,
    boot: 1,
    session: 65,
    seq: 1,
};

/// WAREHOUSE, where it has no branch of the order yet.
pub(crate) const WAREHOUSE: BranchId = BranchId {
    node: 2,
    boot: 0,
    session: 0,
    seq: 0,
};

/// HQ, where it has none yet.
pub(crate) const HQ: BranchId = BranchId {
    node: 3,
    boot: 0,
    session: 0,
    seq: 0,
};
