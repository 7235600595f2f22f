//! The advice that a session gives for its branches in doubt.
ghost use Rattle.std.specs.Prelude.{◌≡◌};

use crate::Duplicate;
use std::alloc::{AllocError, Global};

/// What ALTER SESSION ADVISE tells an administrator to force, should a branch be left in doubt.
#[derive(Clone, Copy, Debug, PartialEq, Eq)]
pub enum Advice {
    /// COMMIT FORCE.
    Commit,
    /// ROLLBACK FORCE.
    Rollback,
}

impl Duplicate for Advice {
    fn copy(&self, _alloc: Global) -> Result<Advice, AllocError> {
        Ok(*self)
    }
}
