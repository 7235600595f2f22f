//! A query of a READ ONLY transaction, over the rows at its SCN.
ghost use Rattle.std.specs.Prelude.{◌≡◌, true, IfOk, OnOk};
ghost use Rattle.read_only_tx.specs.Versions.{rows_at};
ghost use Rattle.row_store.specs.Own.{view_of};
ghost use Rattle.row_store.specs.Store.{has_table, own_changes};
ghost use Rattle.stmt_run.specs.Run.{answer_of_run, ran_over};
ghost use Rattle.stmt_store.specs.Past.{is_query};
ghost use Rattle.node_memory.specs.Versions.{versions_as};
ghost use Rattle.node_calls.specs.Handled.{ground_past, works_after_run};

use crate::routing::note;
use dtx_values::{Answer, Name, Table};
use node_memory::Versions;
use node_state::Works;
use row_locks::Locks;
use row_store::Store;
use sql_eval::KeyedRef;
use sql_statement::Stmt;
use std::alloc::{AllocError, Global};
use stmt_store::{Ran, read_past};
use tran_ids::BranchId;

/// Runs a query of a branch over the rows of a table at an SCN, and notes it. Fails where memory runs out.
pub(crate) fn read_over(
    alloc: Global,
    statement: &Stmt,
    table: &Table,
    store: &Store,
    versions: &Versions,
    locks: &Locks,
    works: &mut Works,
    branch: &BranchId,
    step: u32,
    scn: u64,
) -> Result<Answer, AllocError>
    requires table { has_table store.now.rows table.now.name ≡ true }
    requires query { is_query statement.now ≡ true }
    ensures answer { IfOk result (λ answer.
        answer ≡ answer_of_run (ran_over (ground_past store.now (versions_as versions.now) locks.now branch.now table.now scn) statement.now table.now)) }
    ensures works { OnOk result
        (works.new ≡ works_after_run works.old branch.now step table.now (ran_over (ground_past store.now (versions_as versions.now) locks.now branch.now table.now scn) statement.now table.now)) }
{
    let rows = rows_past(alloc, &table.name, store, versions, branch, scn)?;
    let too_old = versions.is_too_old(scn);
    let Ran { answer, written } = read_past(alloc, statement, table, rows, too_old, locks, branch)?;
    match note(alloc, works, branch, step, table, written) {
        Err(error) => {
            drop(answer);
            Err(error)
        }
        Ok(()) => Ok(answer),
    }
}

// The rows of a table that the branch sees at an SCN. A branch that reads so has changed nothing: one that had would be answered
// as if memory had run out.
#[tactic(auto, using(crate::proofs::PastLaws::rows_seen_past))]
fn rows_past<'r>(
    alloc: Global,
    table: &Name,
    store: &'r Store,
    versions: &'r Versions,
    branch: &BranchId,
    scn: u64,
) -> Result<Vec<KeyedRef<'r>>, AllocError>
    requires { has_table store.now.rows table.now ≡ true }
    ensures { IfOk result (λ rows.
        rows.items ≡ view_of (rows_at store.now.rows (versions_as versions.now) scn) (own_changes store.now branch.now) table.now) }
{
    if store.has_changes(branch) {
        return Err(AllocError);
    }
    let mut rows = store.all(alloc, branch, table)?;
    versions.look_back(&mut rows, table, scn)?;
    Ok(rows)
}
