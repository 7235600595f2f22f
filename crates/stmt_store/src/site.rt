//! What a statement meets at a table of a store.
ghost use Rattle.std.specs.Prelude.{◌≡◌};

use dtx_values::Table;
use row_locks::Locks;
use row_store::Store;
use tran_ids::BranchId;

/// What a statement meets at a table of a store.
#[derive(Drop)]
pub(crate) struct StoreSite<'a> {
    /// The branch that makes it.
    pub me: &'a BranchId,
    /// The table.
    pub table: &'a Table,
    /// The rows of the node, and what branches have changed of them.
    pub store: &'a Store,
    /// The locks of the node.
    pub locks: &'a Locks,
}
