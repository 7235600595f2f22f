//! Why no message was read.
ghost use Rattle.std.specs.Prelude.{◌≡◌};

use thiserror::Error;

/// Why no message was read from some bytes.
#[derive(Clone, Copy, Debug, Drop, Error, PartialEq, Eq)]
pub enum WireErr {
    /// The bytes spell no message.
    #[error("not a message")]
    NotAMessage,
    /// Memory ran out. Nothing is said of the bytes.
    #[error("out of memory")]
    NoMemory,
}
