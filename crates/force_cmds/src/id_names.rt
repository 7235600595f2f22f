//! Which branch an id names.
ghost use Rattle.std.specs.Prelude.{◌≡◌};

use tran_ids::BranchId;

/// Which of the sealed branches of a node an id names.
#[derive(Clone, Copy, Debug, PartialEq, Eq)]
pub enum IdNames {
    /// None of them.
    Nobody,
    /// This one alone.
    One(BranchId),
    /// Several of them: the first two.
    Several(BranchId, BranchId),
}
