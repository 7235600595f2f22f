//! What has been read of a script.

use crate::before::Before;
use crate::command::Commands;

/// The commands so far.
#[derive(Drop)]
pub struct Reading {
    pub commands: Commands,
    pub before: Before,
    /// The line on which the next command begins, with its blanks and comments.
    pub line: usize,
}
