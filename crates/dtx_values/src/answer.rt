//! What is answered to a call, and what is said of a command beside it.
ghost use Rattle.std.specs.Prelude.{◌≡◌};

use crate::{Duplicate, Rows, Texts};
use std::alloc::{AllocError, Global};

/// The code of ORA-00900, invalid SQL statement.
pub const INVALID_SQL: u16 = 900;

/// The rows that a query found, behind the names of what it asked for.
pub struct RowSet {
    /// A head for each column, in order.
    pub heads: Texts,
    /// The rows, each with a cell for each head.
    pub rows: Rows,
}

impl Drop for RowSet {
    fn drop(self) {
        let RowSet { heads, rows } = self;
        drop(heads);
        drop(rows);
    }
}

impl Duplicate for RowSet {
    fn copy(&self, alloc: Global) -> Result<RowSet, AllocError> {
        Ok(RowSet {
            heads: self.heads.copy(alloc)?,
            rows: self.rows.copy(alloc)?,
        })
    }
}

/// A refusal: its code, as 900 for ORA-00900, and what its text names.
pub struct Refusal {
    /// The number of ORA-nnnnn, or 60000 and the number of DTX-nn.
    pub code: u16,
    /// What stands in the places that the text of this code leaves open, in order.
    pub args: Texts,
}

impl Drop for Refusal {
    fn drop(self) {
        let Refusal { code: _code, args } = self;
        drop(args);
    }
}

impl Duplicate for Refusal {
    fn copy(&self, alloc: Global) -> Result<Refusal, AllocError> {
        let args = self.args.copy(alloc)?;
        Ok(Refusal {
            code: self.code,
            args,
        })
    }
}

/// What was done.
#[derive(Clone, Copy, Debug, PartialEq, Eq)]
pub enum Done {
    /// Rows were inserted.
    Created,
    /// Rows were updated.
    Updated,
    /// Rows were deleted.
    Deleted,
    /// A transaction was committed, or none was open.
    Committed,
    /// A transaction was rolled back, or none was open.
    RolledBack,
    /// A table was created.
    TableMade,
    /// A database link was created.
    LinkMade,
    /// A synonym was created.
    SynonymMade,
    /// ALTER SESSION.
    SessionAltered,
    /// ALTER SYSTEM.
    SystemAltered,
    /// A row of the pending transactions is no longer shown.
    Purged,
    /// SET TRANSACTION READ ONLY.
    TransactionSet,
    /// SAVEPOINT.
    SavepointMade,
}

impl Duplicate for Done {
    fn copy(&self, _alloc: Global) -> Result<Done, AllocError> {
        Ok(*self)
    }
}

/// What a node answers to a call.
pub enum Answer {
    /// It was done, to so many rows.
    Did(Done, u32),
    /// A query found these rows, which may be none.
    Found(RowSet),
    /// It was refused.
    Refused(Refusal),
}

impl Drop for Answer {
    fn drop(self) {
        match self {
            Answer::Did(_done, _rows) => {}
            Answer::Found(found) => drop(found),
            Answer::Refused(refusal) => drop(refusal),
        }
    }
}

impl Duplicate for Answer {
    fn copy(&self, alloc: Global) -> Result<Answer, AllocError> {
        match self {
            Answer::Did(done, rows) => Ok(Answer::Did(*done, *rows)),
            Answer::Found(found) => Ok(Answer::Found(found.copy(alloc)?)),
            Answer::Refused(refusal) => Ok(Answer::Refused(refusal.copy(alloc)?)),
        }
    }
}

/// What is said of a command that no node answers.
pub enum Notice {
    /// The command was carried out.
    Fine,
    /// The call is pending; a later line answers it.
    Waiting,
    /// The command was refused.
    Refused(Refusal),
    /// It shows these lines.
    Shown(Texts),
}

impl Drop for Notice {
    fn drop(self) {
        match self {
            Notice::Fine => {}
            Notice::Waiting => {}
            Notice::Refused(refusal) => drop(refusal),
            Notice::Shown(lines) => drop(lines),
        }
    }
}

impl Duplicate for Notice {
    fn copy(&self, alloc: Global) -> Result<Notice, AllocError> {
        match self {
            Notice::Fine => Ok(Notice::Fine),
            Notice::Waiting => Ok(Notice::Waiting),
            Notice::Refused(refusal) => Ok(Notice::Refused(refusal.copy(alloc)?)),
            Notice::Shown(lines) => Ok(Notice::Shown(lines.copy(alloc)?)),
        }
    }
}
