//! A key that a branch holds.

use dtx_values::{Name, Value};
use tran_ids::BranchId;

/// A key of a table that a branch holds.
pub(crate) struct HeldKey {
    pub(crate) table: Name,
    pub(crate) key: Value,
    pub(crate) branch: BranchId,
    /// Whether the branch writes the row of the key.
    pub(crate) writes: bool,
    pub(crate) in_doubt: bool,
}

impl Drop for HeldKey {
    fn drop(self) {
        let HeldKey {
            table,
            key,
            branch: _branch,
            writes: _writes,
            in_doubt: _in_doubt,
        } = self;
        drop(table);
        drop(key);
    }
}

/// The branch that holds a key.
#[derive(Clone, Copy)]
pub(crate) struct Holder {
    /// The number of its lock on the key.
    pub(crate) number: u64,
    pub(crate) branch: BranchId,
    pub(crate) in_doubt: bool,
}
