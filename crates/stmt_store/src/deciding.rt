//! What a statement means at a store, before its space is tested.
ghost use Rattle.std.specs.Prelude.{◌≡◌, true, map, [], None, IfOk};
ghost use Rattle.std.specs.List.{All};
ghost use Rattle.row_locks.specs.Held.{doubt_on, hold_on};
ghost use Rattle.row_locks.specs.Locks.{keys_held};
ghost use Rattle.sql_check.specs.Checks.{checked as checked_of};
ghost use Rattle.sql_check.specs.Passed.{new_cells};
ghost use Rattle.sql_check.specs.Refusals.{else_refuse};
ghost use Rattle.sql_check.specs.Words.{first_some};
ghost use Rattle.sql_eval.specs.Laws.{has_one_key, AreRowsOf};
ghost use Rattle.sql_eval.specs.Meaning.{examined, meant_over as meant_over_of, written as written_of};
ghost use Rattle.sql_eval.specs.declared.meant.Meant.TheVariants as meants;
ghost use Rattle.stmt_run.specs.Run.{held_refusal, locked_refusal, ran_checked, ran_locked, ran_meant, ran_over};
ghost use Rattle.stmt_run.specs.Keys.{IsFree};
ghost use Rattle.stmt_store.specs.Stores.{ground_of, view_of, ChangesOnly};

use crate::sight::Sight;
use crate::site::StoreSite;
use dtx_values::{Cells, Listing, Name, Refusal, Value};
use row_locks::Locks;
use sql_check::{Checked, checked};
use sql_eval::{Meant, StmtMeaning, fixed_key, outcome_over};
use sql_statement::Stmt;
use std::alloc::{AllocError, Global};
use stmt_run::holders::first_holder;
use stmt_run::refusal::held;
use tran_ids::BranchId;

/// The keys that a statement writes and what it means at a table of a store, or its first refusal by the checks that need no
/// row, the keys in doubt, and the keys that others hold, in this order. Whether its changes have space is not tested.
#[tactic(auto, unfolding(stmt_run::specs::Run::ran_over, sql_eval::specs::Meaning::examined))]
pub(crate) fn outcome_at(
    alloc: Global,
    statement: &Stmt,
    site: &StoreSite,
) -> Result<StmtMeaning, AllocError>
    requires one_key { has_one_key site.now.table.now ≡ true }
    requires rows { AreRowsOf site.now.table.now (view_of site.now) }
    ensures ran { IfOk result (λ outcome.
        ran_over (ground_of site.now) statement.now site.now.table.now ≡ ran_meant (ground_of site.now) outcome.keys outcome.meant) }
    ensures changes { IfOk result (λ outcome. ChangesOnly site.now.table.now outcome.meant) }

    // The keys are free, or the branch's own.
    ensures free { IfOk result (λ outcome. All (IsFree site.now.locks.now site.now.me.now site.now.table.now.name) outcome.keys) }
{
    let cells = match checked(alloc, statement, site.table)? {
        Checked::Refused(refusal) => return Ok(refused(alloc, refusal)),
        Checked::Passed { cells } => cells,
    };
    match fixed_key(alloc, statement, site.table, cells.as_slice())? {
        Some(key) => {
            let sight = Sight::of_key(alloc, statement, site, &key)?;
            outcome_seeing(alloc, statement, site, cells, sight)
        }
        None => {
            let sight = Sight::of_all(alloc, site)?;
            outcome_seeing(alloc, statement, site, cells, sight)
        }
    }
}

// A refusal: nothing is written.
pub(crate) fn refused(alloc: Global, refusal: Refusal) -> StmtMeaning
    ensures { result ≡ record { keys = []; meant = meants.Refused refusal } }
{
    StmtMeaning {
        keys: Listing::new(alloc),
        meant: Meant::Refused(refusal),
    }
}

// The same of a statement that passed the checks, by what it looks at.
fn outcome_seeing(
    alloc: Global,
    statement: &Stmt,
    site: &StoreSite,
    cells: Cells,
    sight: Sight,
) -> Result<StmtMeaning, AllocError>
    requires one_key { has_one_key site.now.table.now ≡ true }
    requires rows { AreRowsOf site.now.table.now (view_of site.now) }
    requires passed { checked_of statement.now site.now.table.now ≡ None }
    requires cells { cells ≡ new_cells statement.now site.now.table.now }
    requires in_doubt { sight.in_doubt ≡ first_some (map (doubt_on site.now.locks.now site.now.table.now.name) (examined statement.now site.now.table.now (view_of site.now) (keys_held site.now.locks.now site.now.table.now.name))) }
    requires written { written_of statement.now site.now.table.now sight.rows.items ≡ written_of statement.now site.now.table.now (view_of site.now) }
    requires meant { meant_over_of statement.now site.now.table.now sight.rows.items ≡ meant_over_of statement.now site.now.table.now (view_of site.now) }
    ensures ran { IfOk result (λ outcome.
        ran_checked (ground_of site.now) statement.now site.now.table.now None ≡ ran_meant (ground_of site.now) outcome.keys outcome.meant) }
    ensures changes { IfOk result (λ outcome. ChangesOnly site.now.table.now outcome.meant) }
    ensures free { IfOk result (λ outcome. All (IsFree site.now.locks.now site.now.me.now site.now.table.now.name) outcome.keys) }
{
    let Sight { rows, in_doubt } = sight;
    let outcome = outcome_over(alloc, statement, site.table, cells, rows)?;
    match lock_refusal(alloc, site, in_doubt, outcome.keys.as_slice())? {
        Some(refusal) => Ok(refused(alloc, refusal)),
        None => Ok(outcome),
    }
}

// The same of the locks and the table of a site.
fn lock_refusal(
    alloc: Global,
    site: &StoreSite,
    in_doubt: Option<BranchId>,
    written: &[Value],
) -> Result<Option<Refusal>, AllocError>
    ensures { IfOk result (λ refusal.
        refusal ≡ else_refuse (held_refusal 1591 in_doubt) (locked_refusal (ground_of site.now) site.now.table.now written.now)) }
{
    lock_refusal_at(
        alloc,
        site.locks,
        site.me,
        &site.table.name,
        in_doubt,
        written,
    )
}

/// ORA-01591 where a branch in doubt holds an examined key, or else ORA-02049 for the first of the written keys that another
/// live branch holds.
pub(crate) fn lock_refusal_at(
    alloc: Global,
    locks: &Locks,
    me: &BranchId,
    table: &Name,
    in_doubt: Option<BranchId>,
    written: &[Value],
) -> Result<Option<Refusal>, AllocError>
    ensures { IfOk result (λ refusal.
        refusal ≡ else_refuse (held_refusal 1591 in_doubt) (held_refusal 2049 (first_some (map (hold_on locks.now me.now table.now) written.now)))) }
{
    if let Some(refusal) = held(alloc, 1591, in_doubt)? {
        return Ok(Some(refusal));
    }
    let holder = first_holder(locks, me, table, written);
    held(alloc, 2049, holder)
}
