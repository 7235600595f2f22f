//! What a statement means over given rows, as those at an SCN.
ghost use Rattle.std.specs.Prelude.{◌≡◌, true, [], map, IfOk};
ghost use Rattle.row_locks.specs.Held.{doubt_on};
ghost use Rattle.row_locks.specs.Locks.{keys_held};
ghost use Rattle.sql_check.specs.Refusals.{ora};
ghost use Rattle.sql_check.specs.Passed.{new_cells};
ghost use Rattle.sql_check.specs.Words.{first_some};
ghost use Rattle.sql_eval.specs.Meaning.{examined as examined_of};
ghost use Rattle.stmt_run.specs.Run.{answer_of_run, ran_meant, ran_over};
ghost use Rattle.stmt_store.specs.Past.{is_query, past_ground, ChangesNothing};
ghost use Rattle.stmt_store.specs.Stores.{written_of};

use crate::deciding::{lock_refusal_at, refused};
use crate::sight::examined_in_doubt;
use crate::written::{Ran, Written};
use dtx_values::{Answer, Listing, Refusal, Table, Value};
use row_locks::Locks;
use sql_check::{Checked, checked};
use sql_eval::{KeyedRef, Meant, StmtMeaning, fixed_key, outcome_over};
use sql_statement::Stmt;
use std::alloc::{AllocError, Global};
use std::slice;
use stmt_run::holders::first_in_doubt;
use tran_ids::BranchId;

// ORA-01555: what a branch would see is not kept any more.
const SNAPSHOT_TOO_OLD: u16 = 1555;

/// Runs a query of a branch over these rows of a table, which may lie too far back: its answer, and that no change was made.
/// Nothing is locked. Fails where memory runs out.
pub fn read_past(
    alloc: Global,
    statement: &Stmt,
    table: &Table,
    rows: Vec<KeyedRef>,
    too_old: bool,
    locks: &Locks,
    me: &BranchId,
) -> Result<Ran, AllocError>
    requires { is_query statement.now ≡ true }
    ensures answer { IfOk result (λ ran.
        ran.answer ≡ answer_of_run (ran_over (past_ground rows.entry.items too_old locks.now me.now) statement.now table.now)) }
    ensures written { IfOk result (λ ran.
        ran.written ≡ written_of (ran_over (past_ground rows.entry.items too_old locks.now me.now) statement.now table.now)) }
{
    let StmtMeaning { keys, meant } = outcome_past(
        alloc, statement, table, rows, too_old, locks, me,
    )?;
    match meant {
        Meant::Refused(refusal) => {
            drop(keys);
            Ok(Ran {
                answer: Answer::Refused(refusal),
                written: None,
            })
        }
        Meant::Gives(found) => Ok(Ran {
            answer: Answer::Found(found),
            written: Some(Written { sets: 0, keys }),
        }),
        Meant::Changes { .. } => unreachable!(),
    }
}

// The keys that a statement of a branch writes and what it means over these rows of a table, or its first refusal by the checks
// that need no row, the age of its SCN, the keys in doubt, and the keys that others hold, in this order. Fails where memory
// runs out.
#[tactic(auto, using(crate::proofs::PastLaws::queries_change_nothing), unfolding(stmt_run::specs::Run::ran_over))]
fn outcome_past(
    alloc: Global,
    statement: &Stmt,
    table: &Table,
    rows: Vec<KeyedRef>,
    too_old: bool,
    locks: &Locks,
    me: &BranchId,
) -> Result<StmtMeaning, AllocError>
    ensures ran { IfOk result (λ outcome.
        ran_over (past_ground rows.entry.items too_old locks.now me.now) statement.now table.now ≡ ran_meant (past_ground rows.entry.items too_old locks.now me.now) outcome.keys outcome.meant) }
    ensures query { IfOk result (λ outcome. is_query statement.now ≡ true → ChangesNothing outcome.meant) }
{
    let cells = match checked(alloc, statement, table)? {
        Checked::Refused(refusal) => return Ok(refused(alloc, refusal)),
        Checked::Passed { cells } => cells,
    };
    if too_old {
        return Ok(refused(alloc, too_old_told(alloc)));
    }
    let in_doubt = doubted(
        alloc,
        statement,
        table,
        cells.as_slice(),
        rows.as_slice(),
        locks,
    )?;
    let outcome = outcome_over(alloc, statement, table, cells, rows)?;
    match lock_refusal_at(
        alloc,
        locks,
        me,
        &table.name,
        in_doubt,
        outcome.keys.as_slice(),
    )? {
        Some(refusal) => Ok(refused(alloc, refusal)),
        None => Ok(outcome),
    }
}

fn too_old_told(alloc: Global) -> Refusal
    ensures { result ≡ ora 1555 [] }
{
    Refusal {
        code: SNAPSHOT_TOO_OLD,
        args: Listing::new(alloc),
    }
}

// The branch in doubt that holds the first of the keys that the statement examines.
#[tactic(auto, unfolding(sql_eval::specs::Meaning::examined))]
fn doubted(
    alloc: Global,
    statement: &Stmt,
    table: &Table,
    cells: &[Value],
    rows: &[KeyedRef],
    locks: &Locks,
) -> Result<Option<BranchId>, AllocError>
    requires { cells.now ≡ new_cells statement.now table.now }
    ensures { IfOk result (λ holder.
        holder ≡ first_some (map (doubt_on locks.now table.now.name) (examined_of statement.now table.now rows.now (keys_held locks.now table.now.name)))) }
{
    match fixed_key(alloc, statement, table, cells)? {
        Some(key) => Ok(first_in_doubt(locks, &table.name, slice::from_ref(&key))),
        None => examined_in_doubt(alloc, &table.name, locks, rows),
    }
}
