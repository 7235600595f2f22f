//! What becomes of a transaction.
ghost use Rattle.std.specs.Prelude.{◌≡◌};

use dtx_values::Duplicate;
use std::alloc::{AllocError, Global};

/// The outcome of a transaction.
#[derive(Clone, Copy, Debug, PartialEq, Eq)]
pub enum Decision {
    /// It commits, at this SCN.
    Commit(u64),
    /// It is rolled back.
    Rollback,
}

impl Duplicate for Decision {
    fn copy(&self, _alloc: Global) -> Result<Decision, AllocError> {
        Ok(*self)
    }
}
