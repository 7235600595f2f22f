//! What a node takes in one turn.
ghost use Rattle.std.specs.Prelude.{◌≡◌};

use crate::msg::Msg;
use dtx_values::Duplicate;
use sql_statement::Stmt;
use std::alloc::{AllocError, Global};

/// What comes to a node.
pub enum Input {
    /// A call of a client session.
    Call {
        /// The session's number, 1 to 64.
        session: u32,
        /// The statement, or nothing where the text is outside the grammar.
        statement: Option<Stmt>,
    },
    /// The pending call of a client session is given up, since no answer comes.
    GiveUp {
        /// The session's number, 1 to 64.
        session: u32,
    },
    /// A message is delivered.
    Message(Msg),
    /// The recoverer process RECO is called: the node asks about its branches in doubt.
    Reco,
    /// A checkpoint: the node writes an image of what it stores.
    Checkpoint,
}

impl Drop for Input {
    fn drop(self) {
        match self {
            Input::Call {
                session: _session,
                statement,
            } => drop(statement),
            Input::GiveUp { session: _session } => {}
            Input::Message(msg) => drop(msg),
            Input::Reco => {}
            Input::Checkpoint => {}
        }
    }
}

impl Duplicate for Input {
    fn copy(&self, alloc: Global) -> Result<Input, AllocError> {
        match self {
            Input::Call { session, statement } => {
                let statement = statement.copy(alloc)?;
                Ok(Input::Call {
                    session: *session,
                    statement,
                })
            }
            Input::GiveUp { session } => Ok(Input::GiveUp { session: *session }),
            Input::Message(msg) => Ok(Input::Message(msg.copy(alloc)?)),
            Input::Reco => Ok(Input::Reco),
            Input::Checkpoint => Ok(Input::Checkpoint),
        }
    }
}
