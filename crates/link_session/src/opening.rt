//! Branches that were opened over links.
ghost use Rattle.std.specs.Prelude.{◌≡◌};

use dtx_values::Listing;
use tran_ids::BranchId;

/// An Open that was answered.
#[derive(Clone, Copy, Debug)]
pub struct Opening {
    /// The branch that sent the Open.
    pub parent: BranchId,
    /// The parent's number for the edge, from 1.
    pub edge: u8,
    /// The branch that began with it.
    pub child: BranchId,
    /// The commit point strength that Opened told.
    pub strength: u8,
}
