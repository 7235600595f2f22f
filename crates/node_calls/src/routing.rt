//! A statement at a live branch: it runs here, is refused, or goes on.
ghost use Rattle.std.specs.Prelude.{◌≡◌, true, IfOk, IfSome, OnOk};
ghost use Rattle.sql_eval.specs.Laws.{has_one_key, AreRowsOf};
ghost use Rattle.row_store.specs.Store.{has_table, seen_by};
ghost use Rattle.stmt_run.specs.Run.{answer_of_run, locks_after, ran_over};
ghost use Rattle.stmt_run.specs.Stored.{ground_in, store_after_run};
ghost use Rattle.node_rules.specs.NodeState.{branch_at, live_id};
ghost use Rattle.node_rules.specs.Calls.{statement_at as statement_at_of};
ghost use Rattle.node_rules.specs.Marks.{keys_of_table as keys_of_table_by};
ghost use Rattle.node_rules.specs.Statement.{makes_changes};
ghost use Rattle.node_state.specs.Changed.{change_item};
ghost use Rattle.node_state.specs.Lives.{changed_by};
ghost use Rattle.node_drafts.specs.Gives.{GivesDraft};
ghost use Rattle.node_memory.specs.Parts.{kept_in};
ghost use Rattle.node_memory.specs.Versions.{versions_as};
ghost use Rattle.stmt_store.specs.Past.{is_query};
ghost use Rattle.node_calls.specs.Handled.{at_live, did_changes, ground_at, with_written, works_after_run, SeesRows, TakesStatement};

use crate::answering::answer;
use crate::calling::{call_over, open_through, step_of};
use crate::looking_back::read_over;
use dtx_values::{Answer, Duplicate, Listing, Name, Table, Value};
use node_drafts::TurnDraft;
use node_memory::{Memory, Versions};
use node_rules::Errand;
use node_state::{Lives, Works};
use node_ways::{Way, passed_on, way_of};
use row_locks::Locks;
use row_store::Store;
use savepoints::{RowKey, RowKeys};
use sql_statement::Stmt;
use std::alloc::{AllocError, Global};
use stmt_store::{Ran, Written, run};
use tran_ids::BranchId;

/// A statement at a live branch, with the room that its Exec carried: it runs here, is refused, or goes on to a child, or over a
/// link that is used for the first time. Nothing where the branch is not live.
#[tactic(auto, using(crate::proofs::BranchLaws::nothing_so))]
pub(crate) fn statement_at(
    memory: &mut Memory,
    alloc: Global,
    branch: &BranchId,
    statement: &Stmt,
    given: u16,
) -> Result<TurnDraft, AllocError>
    requires { TakesStatement memory.old branch.now statement.now }
    ensures gives { IfOk result (λ draft.
        GivesDraft (at_live (kept_in memory.old) (λ x. statement_at_of memory.old.place (kept_in memory.old) x statement.now given) (branch_at (kept_in memory.old) branch.now)) (kept_in memory.new) draft) }
    ensures place { memory.new.place ≡ memory.old.place }
{
    let Some(live) = memory.lives.get(branch) else {
        return Ok(TurnDraft::nothing(alloc));
    };
    match way_of(
        alloc,
        &memory.place,
        &memory.catalog,
        live,
        given,
        statement,
    ) {
        Way::RunsHere(table) => {
            let step = step_of(&memory.sessions, &memory.works, branch, live);
            let read_at = live.read_at;
            let told = run_at(
                alloc,
                statement,
                table,
                &mut memory.store,
                &memory.versions,
                &mut memory.locks,
                &mut memory.lives,
                &mut memory.works,
                branch,
                step,
                read_at,
            )?;
            answer(memory, alloc, branch, told)
        }
        Way::NowhereTo(refusal) => answer(memory, alloc, branch, Answer::Refused(refusal)),
        Way::Over { edge, table } => {
            let passed = passed_on(alloc, statement, table)?;
            let errand = Errand::Statement {
                statement: passed,
                room: given,
            };
            call_over(memory, alloc, branch, edge, errand)
        }
        Way::Through { node, link, table } => {
            let link = link.copy(alloc)?;
            match passed_on(alloc, statement, table) {
                Err(error) => {
                    drop(link);
                    Err(error)
                }
                Ok(passed) => open_through(memory, alloc, branch, node, link, passed, given),
            }
        }
    }
}

// Runs a statement over a table of the node, a query of a READ ONLY transaction over the rows at its SCN.
#[tactic(auto, using(crate::proofs::PastLaws::store_stays, crate::proofs::PastLaws::locks_stay, crate::proofs::GroundLaws::changes_is))]
fn run_at(
    alloc: Global,
    statement: &Stmt,
    table: &Table,
    store: &mut Store,
    versions: &Versions,
    locks: &mut Locks,
    lives: &mut Lives,
    works: &mut Works,
    branch: &BranchId,
    step: u32,
    read_at: Option<u64>,
) -> Result<Answer, AllocError>
    requires one_key { has_one_key table.now ≡ true }
    requires table { has_table store.old.rows table.now.name ≡ true }
    requires rows { SeesRows store.old branch.now table.now read_at }
    requires query { IfSome read_at (λ scn. is_query statement.now ≡ true) }
    ensures answer { IfOk result (λ answer.
        answer ≡ answer_of_run (ran_over (ground_at store.old (versions_as versions.now) locks.old branch.now table.now read_at) statement.now table.now)) }
    ensures store { OnOk result
        (store.new ≡ store_after_run store.old branch.now table.now (ran_over (ground_at store.old (versions_as versions.now) locks.old branch.now table.now read_at) statement.now table.now)) }
    ensures locks { OnOk result
        (locks.new ≡ locks_after locks.old branch.now table.now (ran_over (ground_at store.old (versions_as versions.now) locks.old branch.now table.now read_at) statement.now table.now)) }
    ensures lives { OnOk result
        (lives.new ≡ change_item live_id (changed_by (makes_changes (ran_over (ground_at store.old (versions_as versions.now) locks.old branch.now table.now read_at) statement.now table.now))) lives.old branch.now) }
    ensures works { OnOk result
        (works.new ≡ works_after_run works.old branch.now step table.now (ran_over (ground_at store.old (versions_as versions.now) locks.old branch.now table.now read_at) statement.now table.now)) }
    ensures undo { store.new.extents ≡ store.old.extents }
{
    match read_at {
        None => run_over(
            alloc, statement, table, store, locks, lives, works, branch, step,
        ),
        Some(scn) => {
            let answer = read_over(
                alloc, statement, table, store, versions, locks, works, branch, step, scn,
            )?;
            lives.note_changes(branch, has_changed(&answer));
            Ok(answer)
        }
    }
}

// Runs a statement over a table of the node, and notes what it wrote, and whether the branch has made changes.
#[tactic(auto, using(crate::proofs::GroundLaws::changes_is))]
fn run_over(
    alloc: Global,
    statement: &Stmt,
    table: &Table,
    store: &mut Store,
    locks: &mut Locks,
    lives: &mut Lives,
    works: &mut Works,
    branch: &BranchId,
    step: u32,
) -> Result<Answer, AllocError>
    requires one_key { has_one_key table.now ≡ true }
    requires table { has_table store.old.rows table.now.name ≡ true }
    requires rows { AreRowsOf table.now (seen_by store.old branch.now table.now.name) }
    ensures answer { IfOk result (λ answer.
        answer ≡ answer_of_run (ran_over (ground_in store.old locks.old branch.now table.now) statement.now table.now)) }
    ensures store { OnOk result
        (store.new ≡ store_after_run store.old branch.now table.now (ran_over (ground_in store.old locks.old branch.now table.now) statement.now table.now)) }
    ensures locks { OnOk result
        (locks.new ≡ locks_after locks.old branch.now table.now (ran_over (ground_in store.old locks.old branch.now table.now) statement.now table.now)) }
    ensures lives { OnOk result
        (lives.new ≡ change_item live_id (changed_by (makes_changes (ran_over (ground_in store.old locks.old branch.now table.now) statement.now table.now))) lives.old branch.now) }
    ensures works { OnOk result
        (works.new ≡ works_after_run works.old branch.now step table.now (ran_over (ground_in store.old locks.old branch.now table.now) statement.now table.now)) }
    ensures undo { store.new.extents ≡ store.old.extents }
{
    let Ran { answer, written } = run(alloc, statement, table, store, locks, branch)?;
    lives.note_changes(branch, has_changed(&answer));
    match note(alloc, works, branch, step, table, written) {
        Err(error) => {
            drop(answer);
            Err(error)
        }
        Ok(()) => Ok(answer),
    }
}

/// Notes what an accepted statement wrote.
pub(crate) fn note(
    alloc: Global,
    works: &mut Works,
    branch: &BranchId,
    step: u32,
    table: &Table,
    written: Option<Written>,
) -> Result<(), AllocError>
    ensures { OnOk result (works.new ≡ with_written works.old branch.now step table.now written) }
{
    match written {
        None => Ok(()),
        Some(Written { sets, keys }) => {
            let rows = keys_of_table(alloc, &table.name, keys.as_slice());
            drop(keys);
            works.note_run(alloc, branch, step, sets, rows?)
        }
    }
}

// These keys of a table.
fn keys_of_table(alloc: Global, table: &Name, keys: &[Value]) -> Result<RowKeys, AllocError>
    ensures { IfOk result (λ rows. rows ≡ keys_of_table_by table.now keys.now) }
{
    let mut rows = Vec::with_capacity(alloc, keys.len())?;
    for key in keys {
        rows.push(row_key(alloc, table, key)?)?;
    }
    Ok(Listing::of(rows))
}

fn row_key(alloc: Global, table: &Name, key: &Value) -> Result<RowKey, AllocError>
    ensures { IfOk result (λ row. row ≡ record { table = table.now; key = key.now }) }
{
    let table = table.copy(alloc)?;
    let key = key.copy(alloc)?;
    Ok(RowKey { table, key })
}

// Whether an answer tells of changes.
fn has_changed(answer: &Answer) -> bool
    ensures { result ≡ did_changes answer.now }
{
    match answer {
        Answer::Did(_, count) => 0 < *count,
        _ => false,
    }
}
