//! Why bytes are no name.
ghost use Rattle.std.specs.Prelude.{◌≡◌};
ghost use Rattle.dtx_values.specs.declared.name_err.NameErr.TheVariants.{NoMemory};

use std::alloc::{AllocError, AllocFailed};

/// Why no name was made of some bytes.
#[derive(Clone, Copy, Debug, PartialEq, Eq)]
pub enum NameErr {
    /// The bytes are no name.
    Bad,
    /// The bytes are a name, but there is no memory for it.
    NoMemory,
}

impl From<AllocError> for NameErr {
    ghost from_gives = { λ _ e. e ≡ NoMemory };

    fn from(_e: AllocError) -> NameErr {
        NameErr::NoMemory
    }
}

impl<T: Drop> From<AllocFailed<T>> for NameErr {
    ghost from_gives = { λ _ e. e ≡ NoMemory };

    fn from(_e: AllocFailed<T>) -> NameErr {
        NameErr::NoMemory
    }
}
