//! Why bytes are no text.
ghost use Rattle.std.specs.Prelude.{◌≡◌};
ghost use Rattle.dtx_values.specs.declared.text_err.TextErr.TheVariants.{NoMemory};

use std::alloc::{AllocError, AllocFailed};

/// Why no text was made of some bytes. The first of the faults that holds is given.
#[derive(Clone, Copy, Debug, PartialEq, Eq)]
pub enum TextErr {
    /// There is no byte.
    Empty,
    /// There are more than 2,000 bytes.
    TooLong,
    /// The bytes are not UTF-8.
    NotUtf8,
    /// The bytes are a text, but there is no memory for it.
    NoMemory,
}

impl From<AllocError> for TextErr {
    ghost from_gives = { λ _ e. e ≡ NoMemory };

    fn from(_e: AllocError) -> TextErr {
        TextErr::NoMemory
    }
}

impl<T: Drop> From<AllocFailed<T>> for TextErr {
    ghost from_gives = { λ _ e. e ≡ NoMemory };

    fn from(_e: AllocFailed<T>) -> TextErr {
        TextErr::NoMemory
    }
}
