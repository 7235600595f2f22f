//! The answers of commands.
ghost use Rattle.std.specs.Prelude.{◌≡◌};

use dtx_values::{Answer, Duplicate, Listing, Notice};
use std::alloc::{AllocError, Global};

/// The answer of a command.
pub enum Said {
    /// A node's answer to a statement.
    Node(Answer),
    /// What the run answers in a node's place: that it is done, that the call is pending, a refusal, or printed lines.
    World(Notice),
}

impl Drop for Said {
    fn drop(self) {
        match self {
            Said::Node(answer) => drop(answer),
            Said::World(notice) => drop(notice),
        }
    }
}

impl Duplicate for Said {
    fn copy(&self, alloc: Global) -> Result<Said, AllocError> {
        match self {
            Said::Node(answer) => Ok(Said::Node(answer.copy(alloc)?)),
            Said::World(notice) => Ok(Said::World(notice.copy(alloc)?)),
        }
    }
}

/// An answer with the number of its command.
pub struct AnswerLine {
    /// The command's number in the script, from 1.
    pub command: u32,
    /// Its answer.
    pub said: Said,
}

impl Drop for AnswerLine {
    fn drop(self) {
        let AnswerLine {
            command: _command,
            said,
        } = self;
        drop(said);
    }
}

/// Answers in order.
pub type AnswerLines = Listing<AnswerLine>;

impl Duplicate for AnswerLine {
    fn copy(&self, alloc: Global) -> Result<AnswerLine, AllocError> {
        let said = self.said.copy(alloc)?;
        Ok(AnswerLine {
            command: self.command,
            said,
        })
    }
}
