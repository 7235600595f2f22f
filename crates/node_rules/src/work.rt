//! The calls of a live branch: those that came to it, those that it made, and what it noted of them.
ghost use Rattle.std.specs.Prelude.{◌≡◌};

use dtx_values::{Listing, Name};
use link_session::Calls;
use savepoints::{CallNumbers, Marks};
use sql_statement::Stmt;
use tran_ids::BranchId;

/// What a statement that was passed on waits for.
pub enum Waits {
    /// The child that an Open asks for, over this link.
    ForOpened(Name),
    /// The Reply of the child of this number, from 1.
    ForReply(u8),
}

impl Drop for Waits {
    fn drop(self) {
        match self {
            Waits::ForOpened(link) => drop(link),
            Waits::ForReply(_number) => {}
        }
    }
}

/// What a branch does that calls its children.
pub enum Errand {
    /// A statement was passed on.
    Statement {
        /// As it goes to the child.
        statement: Stmt,
        /// How many branches the tree may still get, as the call that brought the statement told it. At a root it is 0, and not used.
        room: u16,
    },
    /// It goes back to a savepoint: one child after the other is called.
    GoBack {
        /// The step that it goes back to.
        step: u32,
    },
}

impl Drop for Errand {
    fn drop(self) {
        match self {
            Errand::Statement {
                statement,
                room: _room,
            } => drop(statement),
            Errand::GoBack { step: _step } => {}
        }
    }
}

/// What is under way at a branch and not answered yet.
pub struct Going {
    /// What the branch does.
    pub errand: Errand,
    /// What it waits for.
    pub waits: Waits,
}

impl Drop for Going {
    fn drop(self) {
        let Going { errand, waits } = self;
        drop(errand);
        drop(waits);
    }
}

/// The calls of a live branch.
pub struct Work {
    /// The live branch.
    pub branch: BranchId,
    /// The calls that came to it.
    pub came: Calls,
    /// The last call number of each edge, and 0 before any.
    pub calls: CallNumbers,
    /// What is under way and not answered yet.
    pub going: Option<Going>,
    /// What it noted of its statements and calls, and the savepoints of its transaction.
    pub marks: Marks,
}

impl Drop for Work {
    fn drop(self) {
        let Work {
            branch: _branch,
            came,
            calls,
            going,
            marks,
        } = self;
        drop(came);
        drop(calls);
        drop(going);
        drop(marks);
    }
}

/// The calls of live branches.
pub type Works = Listing<Work>;
