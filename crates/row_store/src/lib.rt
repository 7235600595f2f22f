//! The rows of a node's tables in memory, what each branch has changed of them, and what a branch sees of a table.
//!
//! A `Store` has the committed rows of all tables, the changes of each live branch, the changes that branches in doubt hold
//! back, and the undo of both. Contracts see it as the rules do: the rows of a table as a list in the order of their keys, the
//! tables as the list of these, and a branch's changes as a list of sets, one a statement, each with its undo. They say of each
//! call what the rules' definition of its name says of these lists.
//!
//! Rows are kept in a tree by their keys, tables in a hash table by their names, and the place of the last change at each
//! key of a branch in another. So a call on one key touches this key alone. The rows from before changes are kept nowhere but
//! as undo, the bytes of each branch in its own extents of one pool, whose memory is taken when the store is made. A call that
//! returns an `AllocError` fails where memory runs out.
#![tactic(auto)]

mod changed_key;
mod held_changes;
mod laws;
mod lengths;
mod made;
mod own_sets;
mod pending;
mod pending_changes;
mod placing;
mod row_places;
mod store;
mod store_err;
mod table_places;
mod undoing;

pub use laws::undo_gives_the_rows;
pub use lengths::{changes_len, extents};
pub use pending::{ChangeSet, ChangeSets, Doubt, Owned};
pub use store::Store;
pub use store_err::StoreErr;
