//! Why changes were not taken.
ghost use Rattle.std.specs.Prelude.{◌≡◌};
ghost use Rattle.row_store.specs.declared.store_err.StoreErr.TheVariants.{NoMemory};

use std::alloc::AllocError;

/// Why a store did not take the changes of a statement.
#[derive(Clone, Copy, Debug, PartialEq, Eq)]
pub enum StoreErr {
    /// Too few undo extents are free.
    Full {
        /// How many more extents the branch needs.
        need: u64,
        /// How many are free.
        free: u64,
    },
    /// The changes of the branch would take more than `CHANGES_LIMIT` bytes.
    TooLarge {
        /// The bytes that they would take.
        bytes: u64,
    },
    /// There is no memory for the changes.
    NoMemory,
}

impl From<AllocError> for StoreErr {
    ghost from_gives = { λ _ e. e ≡ NoMemory };

    fn from(_e: AllocError) -> StoreErr {
        StoreErr::NoMemory
    }
}
