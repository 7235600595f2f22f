//! The places that a turn passes.

use crash_points::TurnPlace;
use tran_ids::BranchId;

/// The places that a turn passes, and whose transaction's they are.
#[derive(Clone, Copy, Debug, PartialEq, Eq)]
pub struct Passes {
    /// The root of the transaction.
    pub root: BranchId,
    /// Whether the branch is the commit point site.
    pub at_site: bool,
    /// Whether all children of the branch have just answered. This is before the record stands.
    pub collected: bool,
    /// The place before the record stands.
    pub before: Option<TurnPlace>,
    /// The place after it stands.
    pub after: Option<TurnPlace>,
}
