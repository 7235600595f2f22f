//! What of a table at a store a statement looks at.
ghost use Rattle.std.specs.Prelude.{◌≡◌, true, map, None, Some, IfOk};
ghost use Rattle.row_locks.specs.Held.{doubt_on};
ghost use Rattle.row_locks.specs.Locks.{keys_held};
ghost use Rattle.sql_check.specs.Words.{first_some};
ghost use Rattle.sql_eval.specs.Laws.{at_key, has_one_key, AreRowsOf};
ghost use Rattle.sql_eval.specs.Meaning.{examined as examined_of, examined_by, fixed_key as fixed_key_of, meant_over as meant_over_of, written as written_of};
ghost use Rattle.stmt_store.specs.Stores.{view_of};

use crate::site::StoreSite;
use dtx_values::{Name, Value};
use row_locks::Locks;
use sql_eval::{KeyedRef, examined};
use sql_statement::Stmt;
use std::alloc::{AllocError, Global};
use std::slice;
use stmt_run::holders::first_in_doubt;
use tran_ids::BranchId;

/// The rows that a statement depends on, and the branch in doubt that holds the first of the keys that it examines.
#[derive(Drop)]
pub(crate) struct Sight<'r> {
    /// Those rows, in the order of their keys.
    pub rows: Vec<KeyedRef<'r>>,
    /// The holder, where one of those keys is in doubt.
    pub in_doubt: Option<BranchId>,
}

impl<'r> Sight<'r> {
    /// Of a statement that fixes a key: this key, and the row that is there.
    pub fn of_key(
        alloc: Global,
        statement: &Stmt,
        site: &'r StoreSite,
        key: &'r Value,
    ) -> Result<Sight<'r>, AllocError>
        requires one_key { has_one_key site.now.table.now ≡ true }
        requires rows { AreRowsOf site.now.table.now (view_of site.now) }
        requires fixed { fixed_key_of statement.now site.now.table.now ≡ Some key.now }
        ensures in_doubt { IfOk result (λ sight.
            sight.in_doubt ≡ first_some (map (doubt_on site.now.locks.now site.now.table.now.name) (examined_of statement.now site.now.table.now (view_of site.now) (keys_held site.now.locks.now site.now.table.now.name)))) }
        ensures written { IfOk result (λ sight.
            written_of statement.now site.now.table.now sight.rows.items ≡ written_of statement.now site.now.table.now (view_of site.now)) }
        ensures meant { IfOk result (λ sight.
            meant_over_of statement.now site.now.table.now sight.rows.items ≡ meant_over_of statement.now site.now.table.now (view_of site.now)) }
    {
        Ok(Sight {
            rows: rows_at(alloc, site, key)?,
            in_doubt: first_in_doubt(site.locks, &site.table.name, slice::from_ref(key)),
        })
    }

    /// Of a statement that fixes none: all rows that the branch sees, and the locked keys too.
    pub fn of_all(alloc: Global, site: &'r StoreSite) -> Result<Sight<'r>, AllocError>
        ensures in_doubt { IfOk result (λ sight.
            sight.in_doubt ≡ first_some (map (doubt_on site.now.locks.now site.now.table.now.name) (examined_by (view_of site.now) (keys_held site.now.locks.now site.now.table.now.name) None))) }
        ensures rows { IfOk result (λ sight. sight.rows.items ≡ view_of site.now) }
    {
        let rows = site.store.all(alloc, site.me, &site.table.name)?;
        let in_doubt = examined_in_doubt(alloc, &site.table.name, site.locks, rows.as_slice())?;
        Ok(Sight { rows, in_doubt })
    }
}

// The row that the branch sees at a key, if there is one.
#[tactic(auto, using(row_store::proofs::AtKey::at_key_is))]
fn rows_at<'r>(
    alloc: Global,
    site: &'r StoreSite,
    key: &'r Value,
) -> Result<Vec<KeyedRef<'r>>, AllocError>
    ensures { IfOk result (λ rows. rows.items ≡ at_key (view_of site.now) key.now) }
{
    match site.store.view(site.me, &site.table.name, key) {
        None => Ok(Vec::new(alloc)),
        Some(row) => Ok(vec![in alloc; KeyedRef { key, row }]?),
    }
}

// The branch in doubt that holds the first of the keys that a statement examines which fixes none. No key is looked up where
// none of the table is in doubt.
#[tactic(auto, using(stmt_run::proofs::Doubts::none_in_doubt))]
pub(crate) fn examined_in_doubt(
    alloc: Global,
    table: &Name,
    locks: &Locks,
    rows: &[KeyedRef],
) -> Result<Option<BranchId>, AllocError>
    ensures { IfOk result (λ holder.
        holder ≡ first_some (map (doubt_on locks.now table.now) (examined_by rows.now (keys_held locks.now table.now) None))) }
{
    if !locks.has_doubt(table) {
        return Ok(None);
    }
    let locked = locks.keys(alloc, table)?;
    let keys = examined(alloc, rows, locked.as_slice())?;
    Ok(first_in_doubt(locks, table, keys.as_slice()))
}
