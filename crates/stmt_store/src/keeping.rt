//! The changes of a statement, where there is space for them.
ghost use Rattle.std.specs.Prelude.{◌≡◌, ◌<◌, ◌^◌, true, None, IfOk, IsOk, OnOk, OnErr};
ghost use Rattle.std.specs.List.{All};
ghost use Rattle.dtx_values.specs.Limits.{changes_limit};
ghost use Rattle.row_store.specs.Store.{AreOfTables, bytes_with, has_table, refusal_of};
ghost use Rattle.sql_eval.specs.Laws.{AreChangesOf};
ghost use Rattle.stmt_run.specs.Run.{answer_of_run, locks_after};
ghost use Rattle.stmt_run.specs.Keys.{IsFree};
ghost use Rattle.stmt_run.specs.Stored.{ground_in, refusal_told, store_after_run};
ghost use Rattle.stmt_store.specs.Stores.{kept_unless, ran_changing};

use dtx_values::{Answer, Changes, Done, Refusal, Table};
use row_locks::{Keys, Locks};
use row_store::{Store, StoreErr};
use std::alloc::{AllocError, Global};
use stmt_run::holders::{take_all, write_all};
use stmt_run::refusal::{no_extents, too_many_changes};
use tran_ids::BranchId;

/// Keeps the changes of a statement of a branch and locks their keys, or refuses them where there is no space. After an error
/// all is as before.
pub(crate) fn keep(
    alloc: Global,
    table: &Table,
    store: &mut Store,
    locks: &mut Locks,
    branch: &BranchId,
    done: Done,
    changes: Changes,
    keys: &Keys,
) -> Result<Answer, AllocError>
    requires changes { AreChangesOf table.now changes }
    requires table { has_table store.old.rows table.now.name ≡ true }
    requires free { All (IsFree locks.old branch.now table.now.name) keys.now }
    ensures answer { IfOk result (λ answer. answer ≡ answer_of_run (ran_changing (ground_in store.old locks.old branch.now table.now) done changes keys.now)) }
    ensures store { OnOk result (store.new ≡ store_after_run store.old branch.now table.now (ran_changing (ground_in store.old locks.old branch.now table.now) done changes keys.now)) }
    ensures locks { OnOk result (locks.new ≡ locks_after locks.old branch.now table.now (ran_changing (ground_in store.old locks.old branch.now table.now) done changes keys.now)) }
    ensures undo { store.new.extents ≡ store.old.extents }
    ensures err_store { OnErr result (store.new ≡ store.old) }
    ensures err_locks { OnErr result (locks.new ≡ locks.old) }
{
    let many = changes.as_slice().len();
    let before = locks.len();
    take_all(alloc, locks, branch, &table.name, keys.as_slice())?;
    match take_in(alloc, store, branch, changes) {
        Ok(None) => {
            write_all(alloc, locks, branch, &table.name, keys.as_slice());
            let count = many as u32;
            Ok(Answer::Did(done, count))
        }
        Ok(Some(refusal)) => {
            locks.keep_first(before);
            Ok(Answer::Refused(refusal))
        }
        Err(e) => {
            locks.keep_first(before);
            Err(e)
        }
    }
}

// One more set of a branch, or its refusal: DTX-16 for too many bytes of changes, or ORA-30036 for too few free extents.
fn take_in(
    alloc: Global,
    store: &mut Store,
    branch: &BranchId,
    changes: Changes,
) -> Result<Option<Refusal>, AllocError>
    requires { AreOfTables store.old.rows changes }
    ensures refusal { IfOk result (λ refusal. refusal ≡ refusal_told (refusal_of store.old branch.now changes)) }
    ensures large { changes_limit < bytes_with store.old branch.now changes → bytes_with store.old branch.now changes < 2 ^ 64 → IsOk result }
    ensures store { IfOk result (λ refusal. store.new ≡ kept_unless refusal store.old branch.now changes) }
    ensures err { OnErr result (store.new ≡ store.old) }
{
    match store.set_pending(alloc, branch, changes) {
        Ok(()) => Ok(None),
        Err(StoreErr::TooLarge { .. }) => Ok(Some(too_many_changes(alloc))),
        Err(StoreErr::Full { need, free }) => Ok(Some(no_extents(alloc, need, free)?)),
        Err(StoreErr::NoMemory) => Err(AllocError),
    }
}
