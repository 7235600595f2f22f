//! Why a script is not read.
ghost use Rattle.std.specs.Prelude.{◌≡◌};
ghost use Rattle.script_read.specs.declared.why.ScriptErr.TheVariants.{NoMemory};

use std::alloc::{AllocError, AllocFailed};
use thiserror::Error;

/// Why a command is bad: the first of these that holds, in this order.
#[derive(Clone, Copy, Debug, Error, PartialEq, Eq)]
pub enum Why {
    /// It holds a byte that is not UTF-8, or a control byte that is not allowed where it stands.
    #[error("bad byte")]
    Byte,
    /// No `;` ends it.
    #[error("unended command")]
    Unended,
    /// It is a NODE command after a command of another form.
    #[error("node after other commands")]
    LateNode,
    /// It is outside the grammar, or a number is out of its range.
    #[error("bad command")]
    Form,
    /// It is a NODE command with a name that is taken.
    #[error("node named twice")]
    Twice,
    /// It is one NODE command too many.
    #[error("more than 16 nodes")]
    Many,
    /// It names a node that there is not.
    #[error("unknown node")]
    Unknown,
}

/// Why a script is not read.
#[derive(Clone, Copy, Debug, Error, PartialEq, Eq)]
pub enum ScriptErr {
    /// The first bad command begins on this line, from 1.
    #[error("line {line}: {why}")]
    Bad { line: u32, why: Why },
    /// There was no memory left to read it.
    #[error("out of memory")]
    NoMemory,
}

impl From<AllocError> for ScriptErr {
    ghost from_gives = { λ _ e. e ≡ NoMemory };

    fn from(_: AllocError) -> ScriptErr {
        ScriptErr::NoMemory
    }
}

impl<T: Drop> From<AllocFailed<T>> for ScriptErr {
    ghost from_gives = { λ _ e. e ≡ NoMemory };

    fn from(_: AllocFailed<T>) -> ScriptErr {
        ScriptErr::NoMemory
    }
}
