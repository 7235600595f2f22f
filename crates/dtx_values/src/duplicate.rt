//! Copies that may run out of memory.
ghost use Rattle.std.specs.Prelude.{◌≡◌, IfOk};

use crate::Listing;
use std::alloc::{AllocError, Global};

/// A value that can be copied, where there is memory for the copy.
pub trait Duplicate {
    /// A copy, equal to the original.
    fn copy(&self, alloc: Global) -> Result<Self, AllocError>
        ensures { IfOk result (λ copy. copy ≡ self.now) };
}

impl Duplicate for u8 {
    fn copy(&self, _alloc: Global) -> Result<u8, AllocError> {
        Ok(*self)
    }
}

impl<T: Duplicate + Drop> Duplicate for Listing<T> {
    fn copy(&self, alloc: Global) -> Result<Listing<T>, AllocError> {
        let items = self.as_slice();
        let mut copies = Vec::with_capacity(alloc, items.len())?;
        for item in items {
            copies.push(item.copy(alloc)?)?;
        }
        Ok(Listing::of(copies))
    }
}

impl<T: Duplicate + Drop> Duplicate for Option<T> {
    fn copy(&self, alloc: Global) -> Result<Option<T>, AllocError> {
        match self {
            None => Ok(None),
            Some(item) => Ok(Some(item.copy(alloc)?)),
        }
    }
}
