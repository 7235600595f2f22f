//! Why an item was not added.
ghost use Rattle.std.specs.Prelude.{◌≡◌};
ghost use Rattle.catalog.specs.declared.cat_err.CatErr.TheVariants.{NoMemory};

use std::alloc::{AllocError, AllocFailed};

/// Why an item was not added to a catalog.
#[derive(Clone, Copy, Debug, PartialEq, Eq)]
pub enum CatErr {
    /// Its name is taken: by a table or a synonym where it is one of these, by a link where it is a link.
    Used,
    /// Its name is free, and memory ran out.
    NoMemory,
}

impl From<AllocError> for CatErr {
    ghost from_gives = { λ _ e. e ≡ NoMemory };

    fn from(_: AllocError) -> CatErr {
        CatErr::NoMemory
    }
}

impl<T: Drop> From<AllocFailed<T>> for CatErr {
    ghost from_gives = { λ _ e. e ≡ NoMemory };

    fn from(_: AllocFailed<T>) -> CatErr {
        CatErr::NoMemory
    }
}
