//! Why a key was not taken.
ghost use Rattle.std.specs.Prelude.{◌≡◌};
ghost use Rattle.row_locks.specs.declared.lock_err.LockErr.TheVariants.{NoMemory};

use std::alloc::AllocError;
use tran_ids::BranchId;

/// Why a key was not taken.
#[derive(Clone, Copy, Debug, PartialEq, Eq)]
pub enum LockErr {
    /// Another branch has the key.
    Held {
        /// That branch.
        by: BranchId,
        /// Whether it is in doubt.
        in_doubt: bool,
    },
    /// The key is free, but there is no memory for the lock.
    NoMemory,
}

impl From<AllocError> for LockErr {
    ghost from_gives = { λ _ e. e ≡ NoMemory };

    fn from(_e: AllocError) -> LockErr {
        LockErr::NoMemory
    }
}
