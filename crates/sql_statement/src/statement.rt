//! Statements (SQL Language Reference, the chapters of their names).
ghost use Rattle.std.specs.Prelude.{◌≡◌, IfOk};
ghost use Rattle.sql_statement.specs.declared.statement.Stmt.TheVariants.{Insert, Update, Delete, Select};

use crate::condition::Conds;
use crate::query::Picked;
use crate::sum::{Sum, Sums};
use dtx_values::{Advice, Bytes, Duplicate, Link, Listing, Name, Names, Synonym, Table};
use std::alloc::{AllocError, Global};

/// A table by its name, `T`, or a remote table, `T@LINK`.
pub struct TableRef {
    /// The name of the table, or of a synonym of one.
    pub name: Name,
    /// The database link of a remote table.
    pub link: Option<Name>,
}

impl Drop for TableRef {
    fn drop(self) {
        let TableRef { name, link } = self;
        drop(name);
        drop(link);
    }
}

impl Duplicate for TableRef {
    fn copy(&self, alloc: Global) -> Result<TableRef, AllocError> {
        Ok(TableRef {
            name: self.name.copy(alloc)?,
            link: self.link.copy(alloc)?,
        })
    }
}

/// An assignment of an UPDATE.
pub struct Set {
    /// The column that gets a value.
    pub column: Name,
    /// Its new value, over the row as it was.
    pub to: Sum,
}

impl Drop for Set {
    fn drop(self) {
        let Set { column, to } = self;
        drop(column);
        drop(to);
    }
}

/// The assignments of an UPDATE, in the order of its text.
pub type Sets = Listing<Set>;

impl Duplicate for Set {
    fn copy(&self, alloc: Global) -> Result<Set, AllocError> {
        Ok(Set {
            column: self.column.copy(alloc)?,
            to: self.to.copy(alloc)?,
        })
    }
}

/// A statement.
pub enum Stmt {
    /// CREATE TABLE
    CreateTable(Table),
    /// CREATE DATABASE LINK
    CreateLink(Link),
    /// CREATE SYNONYM
    CreateSynonym(Synonym),
    /// INSERT
    Insert {
        /// The table that gets the row.
        table: TableRef,
        /// The columns that get values, or all of them.
        columns: Option<Names>,
        /// Their values, in the same order.
        values: Sums,
    },
    /// UPDATE
    Update {
        /// The table that is changed.
        table: TableRef,
        /// The columns that get new values.
        sets: Sets,
        /// Which of its rows are changed.
        conds: Conds,
    },
    /// DELETE
    Delete {
        /// The table that rows are deleted from.
        table: TableRef,
        /// Which of its rows are deleted.
        conds: Conds,
    },
    /// SELECT
    Select {
        /// What is asked of the rows.
        list: Picked,
        /// The table that has the rows.
        table: TableRef,
        /// Which of its rows are asked for.
        conds: Conds,
        /// Whether FOR UPDATE stands, which locks the rows.
        for_update: bool,
    },
    /// COMMIT
    Commit {
        /// The text of its COMMENT.
        comment: Option<Bytes>,
    },
    /// COMMIT FORCE, with an SCN where the statement names one.
    CommitForce {
        /// A local or global transaction id.
        id: Bytes,
        /// The SCN that the transaction is to have.
        scn: Option<u64>,
    },
    /// ROLLBACK
    Rollback,
    /// ROLLBACK FORCE
    RollbackForce {
        /// A local or global transaction id.
        id: Bytes,
    },
    /// ALTER SESSION ADVISE, with no advice for NOTHING.
    Advise(Option<Advice>),
    /// ALTER SYSTEM ENABLE or DISABLE DISTRIBUTED RECOVERY.
    Recovery(bool),
    /// ALTER SYSTEM SET COMMIT_POINT_STRENGTH, with the strength.
    SetStrength(u8),
    /// SET TRANSACTION READ ONLY
    SetReadOnly,
    /// SAVEPOINT, with its name.
    Savepoint(Name),
    /// ROLLBACK TO SAVEPOINT, with the savepoint's name.
    RollbackTo(Name),
    /// EXECUTE DBMS_TRANSACTION.PURGE_MIXED
    PurgeMixed {
        /// A local transaction id.
        id: Bytes,
    },
    /// EXECUTE DBMS_TRANSACTION.PURGE_LOST_DB_ENTRY
    PurgeLost {
        /// A local transaction id.
        id: Bytes,
    },
}

impl Drop for Stmt {
    fn drop(self) {
        match self {
            Stmt::CreateTable(table) => drop(table),
            Stmt::CreateLink(link) => drop(link),
            Stmt::CreateSynonym(synonym) => drop(synonym),
            Stmt::Insert {
                table,
                columns,
                values,
            } => {
                drop(table);
                drop(columns);
                drop(values);
            }
            Stmt::Update { table, sets, conds } => drop((table, sets, conds)),
            Stmt::Delete { table, conds } => drop((table, conds)),
            Stmt::Select {
                list,
                table,
                conds,
                for_update: _for_update,
            } => {
                drop(list);
                drop(table);
                drop(conds);
            }
            Stmt::Commit { comment } => drop(comment),
            Stmt::CommitForce { id, scn: _scn } => drop(id),
            Stmt::RollbackForce { id } | Stmt::PurgeMixed { id } | Stmt::PurgeLost { id } => {
                drop(id)
            }
            Stmt::Rollback => {}
            Stmt::Advise(_advice) => {}
            Stmt::Recovery(_on) => {}
            Stmt::SetStrength(_strength) => {}
            Stmt::SetReadOnly => {}
            Stmt::Savepoint(name) | Stmt::RollbackTo(name) => drop(name),
        }
    }
}

impl Duplicate for Stmt {
    fn copy(&self, alloc: Global) -> Result<Stmt, AllocError> {
        match self {
            Stmt::CreateTable(table) => Ok(Stmt::CreateTable(table.copy(alloc)?)),
            Stmt::CreateLink(link) => Ok(Stmt::CreateLink(link.copy(alloc)?)),
            Stmt::CreateSynonym(synonym) => Ok(Stmt::CreateSynonym(synonym.copy(alloc)?)),
            Stmt::Insert {
                table,
                columns,
                values,
            } => copy_insert(alloc, table, columns, values),
            Stmt::Update { table, sets, conds } => copy_update(alloc, table, sets, conds),
            Stmt::Delete { table, conds } => copy_delete(alloc, table, conds),
            Stmt::Select {
                list,
                table,
                conds,
                for_update,
            } => copy_select(alloc, list, table, conds, *for_update),
            Stmt::Commit { comment } => Ok(Stmt::Commit {
                comment: comment.copy(alloc)?,
            }),
            Stmt::CommitForce { id, scn } => Ok(Stmt::CommitForce {
                id: id.copy(alloc)?,
                scn: *scn,
            }),
            Stmt::Rollback => Ok(Stmt::Rollback),
            Stmt::RollbackForce { id } => Ok(Stmt::RollbackForce {
                id: id.copy(alloc)?,
            }),
            Stmt::Advise(advice) => Ok(Stmt::Advise(*advice)),
            Stmt::Recovery(on) => Ok(Stmt::Recovery(*on)),
            Stmt::SetStrength(strength) => Ok(Stmt::SetStrength(*strength)),
            Stmt::SetReadOnly => Ok(Stmt::SetReadOnly),
            Stmt::Savepoint(name) => Ok(Stmt::Savepoint(name.copy(alloc)?)),
            Stmt::RollbackTo(name) => Ok(Stmt::RollbackTo(name.copy(alloc)?)),
            Stmt::PurgeMixed { id } => Ok(Stmt::PurgeMixed {
                id: id.copy(alloc)?,
            }),
            Stmt::PurgeLost { id } => Ok(Stmt::PurgeLost {
                id: id.copy(alloc)?,
            }),
        }
    }
}

fn copy_insert(
    alloc: Global,
    table: &TableRef,
    columns: &Option<Names>,
    values: &Sums,
) -> Result<Stmt, AllocError>
    ensures { IfOk result (λ copy. copy ≡ Insert table.now columns.now values.now) }
{
    Ok(Stmt::Insert {
        table: table.copy(alloc)?,
        columns: columns.copy(alloc)?,
        values: values.copy(alloc)?,
    })
}

fn copy_update(
    alloc: Global,
    table: &TableRef,
    sets: &Sets,
    conds: &Conds,
) -> Result<Stmt, AllocError>
    ensures { IfOk result (λ copy. copy ≡ Update table.now sets.now conds.now) }
{
    Ok(Stmt::Update {
        table: table.copy(alloc)?,
        sets: sets.copy(alloc)?,
        conds: conds.copy(alloc)?,
    })
}

fn copy_delete(alloc: Global, table: &TableRef, conds: &Conds) -> Result<Stmt, AllocError>
    ensures { IfOk result (λ copy. copy ≡ Delete table.now conds.now) }
{
    Ok(Stmt::Delete {
        table: table.copy(alloc)?,
        conds: conds.copy(alloc)?,
    })
}

fn copy_select(
    alloc: Global,
    list: &Picked,
    table: &TableRef,
    conds: &Conds,
    for_update: bool,
) -> Result<Stmt, AllocError>
    ensures { IfOk result (λ copy. copy ≡ Select list.now table.now conds.now for_update) }
{
    Ok(Stmt::Select {
        list: list.copy(alloc)?,
        table: table.copy(alloc)?,
        conds: conds.copy(alloc)?,
        for_update,
    })
}
