//! A statement as a node passes it on.
ghost use Rattle.std.specs.Prelude.{◌≡◌, None, IfOk};
ghost use Rattle.sql_statement.specs.declared.statement.Stmt.TheVariants.{Insert, Update, Delete, Select};
ghost use Rattle.node_rules.specs.Names.{bare as bare_of, passed_on as passed_on_of};

use dtx_values::{Duplicate, Name, Names};
use sql_statement::{Conds, Picked, Sets, Stmt, Sums, TableRef};
use std::alloc::{AllocError, Global};

fn bare(alloc: Global, name: &Name) -> Result<TableRef, AllocError>
    ensures { IfOk result (λ table. table ≡ bare_of name.now) }
{
    Ok(TableRef {
        name: name.copy(alloc)?,
        link: None,
    })
}

fn pass_insert(
    alloc: Global,
    name: &Name,
    columns: &Option<Names>,
    values: &Sums,
) -> Result<Stmt, AllocError>
    ensures { IfOk result (λ passed. passed ≡ Insert (bare_of name.now) columns.now values.now) }
{
    Ok(Stmt::Insert {
        table: bare(alloc, name)?,
        columns: columns.copy(alloc)?,
        values: values.copy(alloc)?,
    })
}

fn pass_update(alloc: Global, name: &Name, sets: &Sets, conds: &Conds) -> Result<Stmt, AllocError>
    ensures { IfOk result (λ passed. passed ≡ Update (bare_of name.now) sets.now conds.now) }
{
    Ok(Stmt::Update {
        table: bare(alloc, name)?,
        sets: sets.copy(alloc)?,
        conds: conds.copy(alloc)?,
    })
}

fn pass_delete(alloc: Global, name: &Name, conds: &Conds) -> Result<Stmt, AllocError>
    ensures { IfOk result (λ passed. passed ≡ Delete (bare_of name.now) conds.now) }
{
    Ok(Stmt::Delete {
        table: bare(alloc, name)?,
        conds: conds.copy(alloc)?,
    })
}

fn pass_select(
    alloc: Global,
    name: &Name,
    list: &Picked,
    conds: &Conds,
    for_update: bool,
) -> Result<Stmt, AllocError>
    ensures { IfOk result (λ passed. passed ≡ Select list.now (bare_of name.now) conds.now for_update) }
{
    Ok(Stmt::Select {
        list: list.copy(alloc)?,
        table: bare(alloc, name)?,
        conds: conds.copy(alloc)?,
        for_update,
    })
}

/// A copy of a statement that names its table barely, by the name that the table has at the next node. A statement of a form
/// without a table is copied as it is. Fails where memory runs out.
pub fn passed_on(alloc: Global, statement: &Stmt, name: &Name) -> Result<Stmt, AllocError>
    ensures { IfOk result (λ passed. passed ≡ passed_on_of statement.now name.now) }
{
    match statement {
        Stmt::Insert {
            columns,
            values,
            ..
        } => pass_insert(alloc, name, columns, values),
        Stmt::Update { sets, conds, .. } => pass_update(alloc, name, sets, conds),
        Stmt::Delete { conds, .. } => pass_delete(alloc, name, conds),
        Stmt::Select {
            list,
            conds,
            for_update,
            ..
        } => pass_select(alloc, name, list, conds, *for_update),
        _ => statement.copy(alloc),
    }
}
