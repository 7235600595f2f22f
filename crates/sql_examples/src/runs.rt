//! What no script can show yet of a statement at its node: a key in doubt, by an example.
ghost use Rattle.std.specs.Prelude.{◌≡◌, [], true, false, length, position, Some, IfOk};
ghost use Rattle.std.specs.List.{AllByRecursion};
ghost use Rattle.std.specs.Str.{bytes_eq};
ghost use Rattle.sql_eval.specs.Laws.{has_one_key, AreRowsOf, IsChangeOf};
ghost use Rattle.row_store.specs.Store.{has_table};
ghost use Rattle.row_store.specs.Tables.{rows_of_table};

use crate::given::{name, store_of};
use crate::statements::statement;
use dtx_values::{Answer, Change, Changes, Column, Duplicate, Listing, Name, Row, Table, Value};
use row_locks::Locks;
use row_store::Store;
use sql_statement::Stmt;
use std::alloc::{AllocError, Global};
use stmt_store::run;
use token_grammar::ReadErr;
use tran_ids::BranchId;

const ME: BranchId = BranchId {
    node: 1,
    boot: 1,
    session: 65,
    seq: 1,
};

const OTHER: BranchId = BranchId {
    node: 1,
    boot: 1,
    session: 66,
    seq: 1,
};

const DOUBTED: BranchId = BranchId {
    node: 1,
    boot: 1,
    session: 67,
    seq: 1,
};

/// EMP with the key EMPNO and the number SAL.
fn emp(alloc: Global) -> Result<Table, AllocError>
    ensures one_key { IfOk result (λ table. has_one_key table ≡ true) }
    ensures columns { IfOk result (λ table. length table.columns ≡ 2) }
    ensures key { IfOk result (λ table. position (λ c. c.key) table.columns ≡ Some 0) }
{
    let empno = name(alloc, b"EMPNO")?;
    let sal = name(alloc, b"SAL")?;
    if sal.is(&empno) {
        return Err(AllocError);
    }
    of_numbers(alloc, name(alloc, b"EMP")?, empno, sal)
}

fn of_numbers(alloc: Global, name: Name, key: Name, number: Name) -> Result<Table, AllocError>
    requires { bytes_eq number key ≡ false }
    ensures one_key { IfOk result (λ table. has_one_key table ≡ true) }
    ensures columns { IfOk result (λ table. length table.columns ≡ 2) }
    ensures key { IfOk result (λ table. position (λ c. c.key) table.columns ≡ Some 0) }
{
    let key = of_number(key, true);
    let number = of_number(number, false);
    let columns = Listing::of(vec![in alloc; key, number]?);
    Ok(Table { name, columns })
}

fn of_number(name: Name, key: bool) -> Column
    ensures name { result.name ≡ name }
    ensures key { result.key ≡ key }
{
    Column {
        name,
        text_max: None,
        not_null: false,
        key,
    }
}

fn employed(alloc: Global, table: &Table, number: i64) -> Result<Change, AllocError>
    requires columns { length table.now.columns ≡ 2 }
    requires key { position (λ c. c.key) table.now.columns ≡ Some 0 }
    ensures { IfOk result (IsChangeOf table.now) }
{
    let name = table.name.copy(alloc)?;
    let cells = vec![in alloc; Value::Number(number), Value::Number(100)]?;
    Ok(Change {
        table: name,
        key: Value::Number(number),
        after: Some(Row {
            cells: Listing::of(cells),
        }),
    })
}

/// The changes by which EMP gets the employees 1 and 2.
fn staff(alloc: Global, table: &Table) -> Result<Changes, AllocError>
    requires columns { length table.now.columns ≡ 2 }
    requires key { position (λ c. c.key) table.now.columns ≡ Some 0 }
    ensures { IfOk result (AllByRecursion (IsChangeOf table.now)) }
{
    let mut staff = Changes::new(alloc);
    for number in 1..=2 {
        staff.push(employed(alloc, table, number)?)?;
    }
    Ok(staff)
}

/// A store of one extent with these rows of its table, where no branch has changed anything.
fn store_with(alloc: Global, table: &Table, rows: &Changes) -> Result<Store, AllocError>
    requires { AllByRecursion (IsChangeOf table.now) rows.now }
    ensures table { IfOk result (λ store. has_table store.rows table.now.name ≡ true) }
    ensures rows { IfOk result (λ store. AreRowsOf table.now (rows_of_table store.rows table.now.name)) }
    ensures owns { IfOk result (λ store. store.owns ≡ []) }
{
    let mut store = store_of(alloc, &table.name, 1)?;
    match store.apply(alloc, rows.as_slice()) {
        Ok(()) => Ok(store),
        Err(error) => {
            drop(store);
            Err(error)
        }
    }
}

/// The same where EMP has the employees 1 and 2.
fn staffed(alloc: Global, table: &Table) -> Result<Store, AllocError>
    requires columns { length table.now.columns ≡ 2 }
    requires key { position (λ c. c.key) table.now.columns ≡ Some 0 }
    ensures table { IfOk result (λ store. has_table store.rows table.now.name ≡ true) }
    ensures rows { IfOk result (λ store. AreRowsOf table.now (rows_of_table store.rows table.now.name)) }
    ensures owns { IfOk result (λ store. store.owns ≡ []) }
{
    let staff = staff(alloc, table)?;
    let store = store_with(alloc, table, &staff);
    drop(staff);
    store
}

/// The code of a refusal, or 0.
fn code_of(answer: &Answer) -> u16 {
    match answer {
        Answer::Refused(refusal) => refusal.code,
        Answer::Did(..) | Answer::Found(_) => 0,
    }
}

/// The code of the refusal of a branch's first statement, or 0.
fn first(
    alloc: Global,
    statement: &Stmt,
    table: &Table,
    store: &mut Store,
    locks: &mut Locks,
) -> Result<u16, AllocError>
    requires one_key { has_one_key table.now ≡ true }
    requires table { has_table store.old.rows table.now.name ≡ true }
    requires rows { AreRowsOf table.now (rows_of_table store.old.rows table.now.name) }
    requires owns { store.old.owns ≡ [] }
{
    let ran = run(alloc, statement, table, store, locks, &ME)?;
    let code = code_of(&ran.answer);
    drop(ran);
    Ok(code)
}

/// The same at a node where EMP has the employees 1 and 2.
fn among_staff(alloc: Global, statement: &Stmt, locks: &mut Locks) -> Result<u16, AllocError> {
    let table = emp(alloc)?;
    let mut store = staffed(alloc, &table)?;
    let code = first(alloc, statement, &table, &mut store, locks);
    drop(store);
    code
}

/// Puts a lock on the key 1, of another branch, and on the key 2, of a branch in doubt.
fn hold_both(alloc: Global, locks: &mut Locks, emp: &Name) -> bool {
    let are_held = locks
        .take(alloc, &OTHER, emp, &Value::Number(1), true)
        .is_ok()
        && locks
            .take(alloc, &DOUBTED, emp, &Value::Number(2), true)
            .is_ok();
    locks.mark_in_doubt(&DOUBTED);
    are_held
}

/// The code of the refusal of a statement over every row, where the branch in doubt has its key still, or has ended.
fn code_over(
    alloc: Global,
    statement: &Stmt,
    locks: &mut Locks,
    in_doubt: bool,
) -> Result<u16, AllocError> {
    let emp = name(alloc, b"EMP")?;
    if !hold_both(alloc, locks, &emp) {
        return Err(AllocError);
    }
    if !in_doubt {
        locks.release(&DOUBTED);
    }
    among_staff(alloc, statement, locks)
}

fn raise_code(alloc: Global, in_doubt: bool) -> Result<u16, ReadErr> {
    let raise = statement(alloc, b"UPDATE EMP SET SAL = SAL + 1")?;
    let mut locks = Locks::new(alloc);
    let code = code_over(alloc, &raise, &mut locks, in_doubt);
    drop(locks);
    drop(raise);
    Ok(code?)
}

#[test]
fn a_key_in_doubt_refuses_before_a_key_that_is_held(rt: HostRuntime) {
    assert!(rt; raise_code(rt.alloc(), true) == Ok(1591));
    assert!(rt; raise_code(rt.alloc(), false) == Ok(2049));
}
