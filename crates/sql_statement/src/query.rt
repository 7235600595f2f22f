//! The list of a query.
ghost use Rattle.std.specs.Prelude.{◌≡◌};

use dtx_values::{Duplicate, Name, Names};
use std::alloc::{AllocError, Global};

/// The list of a SELECT.
pub enum Picked {
    /// `*`
    All,
    /// `COUNT(*)`
    Count,
    /// `SUM(column)`
    Sum(Name),
    /// Columns by their names.
    Columns(Names),
}

impl Drop for Picked {
    fn drop(self) {
        match self {
            Picked::All => {}
            Picked::Count => {}
            Picked::Sum(name) => drop(name),
            Picked::Columns(names) => drop(names),
        }
    }
}

impl Duplicate for Picked {
    fn copy(&self, alloc: Global) -> Result<Picked, AllocError> {
        match self {
            Picked::All => Ok(Picked::All),
            Picked::Count => Ok(Picked::Count),
            Picked::Sum(name) => Ok(Picked::Sum(name.copy(alloc)?)),
            Picked::Columns(names) => Ok(Picked::Columns(names.copy(alloc)?)),
        }
    }
}
