//! Why nothing was taken.
ghost use Rattle.std.specs.Prelude.{◌≡◌};
ghost use Rattle.byte_format.specs.declared.errors.TakeErr.TheVariants.{NoMemory, NoSpelling as IsNowhere};

use std::alloc::{AllocError, AllocFailed};

/// No spelling begins here.
#[derive(Clone, Copy, Debug, PartialEq, Eq)]
pub struct NoSpelling;

/// Why nothing was taken, where what is taken needs memory.
#[derive(Clone, Copy, Debug, PartialEq, Eq)]
pub enum TakeErr {
    /// No spelling begins here.
    NoSpelling,
    /// There was no memory for the value.
    NoMemory,
}

impl From<NoSpelling> for TakeErr {
    ghost from_gives = { λ _ e. e ≡ IsNowhere };

    fn from(_: NoSpelling) -> TakeErr {
        TakeErr::NoSpelling
    }
}

impl From<AllocError> for TakeErr {
    ghost from_gives = { λ _ e. e ≡ NoMemory };

    fn from(_: AllocError) -> TakeErr {
        TakeErr::NoMemory
    }
}

impl<T: Drop> From<AllocFailed<T>> for TakeErr {
    ghost from_gives = { λ _ e. e ≡ NoMemory };

    fn from(_: AllocFailed<T>) -> TakeErr {
        TakeErr::NoMemory
    }
}
