//! What a parent calls its child for.
ghost use Rattle.std.specs.Prelude.{◌≡◌};

use dtx_values::{Advice, Duplicate};
use sql_statement::Stmt;
use std::alloc::{AllocError, Global};

/// What a call asks of a child.
pub enum Task {
    /// To run a statement: the message EXEC.
    Run {
        /// How many branches the session tree may still get.
        room: u16,
        /// The advice of the client's session, which DBA_2PC_PENDING shows at the child's node.
        advice: Option<Advice>,
        /// The statement. Its table is named as the child's node knows it.
        statement: Stmt,
    },
    /// To go back to a savepoint: the message BACK.
    GoBack {
        /// The number of the last call before the savepoint, and 0 where there was none: what later calls did is undone.
        keep: u32,
    },
}

impl Drop for Task {
    fn drop(self) {
        match self {
            Task::Run {
                room: _room,
                advice: _advice,
                statement,
            } => drop(statement),
            Task::GoBack { keep: _keep } => {}
        }
    }
}

impl Duplicate for Task {
    fn copy(&self, alloc: Global) -> Result<Task, AllocError> {
        match self {
            Task::Run {
                room,
                advice,
                statement,
            } => {
                let statement = statement.copy(alloc)?;
                Ok(Task::Run {
                    room: *room,
                    advice: *advice,
                    statement,
                })
            }
            Task::GoBack { keep } => Ok(Task::GoBack { keep: *keep }),
        }
    }
}
