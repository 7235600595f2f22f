//! Why a statement came to nothing.
ghost use Rattle.std.specs.Prelude.{◌≡◌};
ghost use Rattle.sql_eval.specs.declared.sql_err.SqlErr.TheVariants.{NoMemory};

use dtx_values::Refusal;
use std::alloc::{AllocError, AllocFailed};

/// Why a statement came to nothing.
#[derive(Drop)]
pub enum SqlErr {
    /// It is refused.
    Refused(Refusal),
    /// Memory ran out.
    NoMemory,
}

impl From<AllocError> for SqlErr {
    ghost from_gives = { λ _ e. e ≡ NoMemory };

    fn from(_e: AllocError) -> SqlErr {
        SqlErr::NoMemory
    }
}

impl<T: Drop> From<AllocFailed<T>> for SqlErr {
    ghost from_gives = { λ _ e. e ≡ NoMemory };

    fn from(_e: AllocFailed<T>) -> SqlErr {
        SqlErr::NoMemory
    }
}
