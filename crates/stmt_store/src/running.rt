//! Running a statement over a store.
ghost use Rattle.std.specs.Prelude.{◌≡◌, true, IfOk, OnOk, OnErr};
ghost use Rattle.std.specs.List.{All};
ghost use Rattle.row_store.specs.Store.{has_table, seen_by};
ghost use Rattle.sql_eval.specs.Laws.{has_one_key, AreRowsOf};
ghost use Rattle.stmt_run.specs.Run.{answer_of_run, locks_after, ran_over, ran_meant};
ghost use Rattle.stmt_run.specs.Keys.{IsFree};
ghost use Rattle.stmt_run.specs.Stored.{ground_in, store_after_run};
ghost use Rattle.stmt_store.specs.Stores.{ChangesOnly, written_of};

use crate::deciding::outcome_at;
use crate::keeping::keep;
use crate::site::StoreSite;
use crate::written::{Ran, Written, ran_by};
use dtx_values::{Answer, Table};
use row_locks::Locks;
use row_store::Store;
use sql_eval::{Meant, StmtMeaning};
use sql_statement::Stmt;
use std::alloc::{AllocError, Global};
use stmt_run::holders::take_all;
use tran_ids::BranchId;

/// Runs a statement of a branch over a table of a store, and keeps what it leaves: the changes that it makes as one more set
/// of the branch, and the keys that it locks. It tells the answer, and what was written. A statement that is refused changes nothing and locks nothing. Fails where memory
/// runs out, and then all is as before.
#[tactic(auto, using(crate::proofs::ChangeLaws::written_alike))]
pub fn run(
    alloc: Global,
    statement: &Stmt,
    table: &Table,
    store: &mut Store,
    locks: &mut Locks,
    branch: &BranchId,
) -> Result<Ran, AllocError>
    requires one_key { has_one_key table.now ≡ true }
    requires table { has_table store.old.rows table.now.name ≡ true }

    // The branch sees rows of the table.
    requires rows { AreRowsOf table.now (seen_by store.old branch.now table.now.name) }
    ensures answer { IfOk result (λ ran.
        ran.answer ≡ answer_of_run (ran_over (ground_in store.old locks.old branch.now table.now) statement.now table.now)) }
    ensures written { IfOk result (λ ran.
        ran.written ≡ written_of (ran_over (ground_in store.old locks.old branch.now table.now) statement.now table.now)) }
    ensures store { OnOk result
        (store.new ≡ store_after_run store.old branch.now table.now (ran_over (ground_in store.old locks.old branch.now table.now) statement.now table.now)) }
    ensures locks { OnOk result
        (locks.new ≡ locks_after locks.old branch.now table.now (ran_over (ground_in store.old locks.old branch.now table.now) statement.now table.now)) }
    ensures undo { store.new.extents ≡ store.old.extents }

    // After an error all is as before.
    ensures err_store { OnErr result (store.new ≡ store.old) }
    ensures err_locks { OnErr result (locks.new ≡ locks.old) }
{
    let StmtMeaning { keys, meant } = outcome_in(alloc, statement, table, store, locks, branch)?;
    match meant {
        Meant::Refused(refusal) => Ok(Ran {
            answer: Answer::Refused(refusal),
            written: None,
        }),
        Meant::Gives(rows) => {
            take_all(alloc, locks, branch, &table.name, keys.as_slice())?;
            Ok(Ran {
                answer: Answer::Found(rows),
                written: Some(Written { sets: 0, keys }),
            })
        }
        Meant::Changes {
            done,
            count: _count,
            changes,
        } => match keep(alloc, table, store, locks, branch, done, changes, &keys) {
            Err(error) => {
                drop(keys);
                Err(error)
            }
            Ok(answer) => Ok(ran_by(answer, keys)),
        },
    }
}

// What a statement means there.
fn outcome_in<'a>(
    alloc: Global,
    statement: &Stmt,
    table: &'a Table,
    store: &'a Store,
    locks: &'a Locks,
    me: &'a BranchId,
) -> Result<StmtMeaning, AllocError>
    requires one_key { has_one_key table.now ≡ true }
    requires rows { AreRowsOf table.now (seen_by store.now me.now table.now.name) }
    ensures ran { IfOk result (λ outcome.
        ran_over (ground_in store.now locks.now me.now table.now) statement.now table.now ≡ ran_meant (ground_in store.now locks.now me.now table.now) outcome.keys outcome.meant) }
    ensures changes { IfOk result (λ outcome. ChangesOnly table.now outcome.meant) }
    ensures free { IfOk result (λ outcome. All (IsFree locks.now me.now table.now.name) outcome.keys) }
{
    let site = StoreSite {
        me,
        table,
        store,
        locks,
    };
    outcome_at(alloc, statement, &site)
}
