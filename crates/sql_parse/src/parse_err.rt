//! Why no statement was read.
ghost use Rattle.std.specs.Prelude.{◌≡◌};

use thiserror::Error;

/// Why no statement was read.
#[derive(Clone, Copy, Debug, Drop, Error, PartialEq, Eq)]
pub enum ParseErr {
    /// The text spells no statement of the grammar.
    #[error("invalid SQL statement")]
    BadSql,
    /// Memory ran out. Nothing is said of the text.
    #[error("out of memory")]
    NoMemory,
}
