//! Children that are asked.
ghost use Rattle.std.specs.Prelude.{◌≡◌};

use dtx_values::Listing;
use tran_ids::BranchId;

/// A child that is sent Prepare.
#[derive(Clone, Copy, Debug)]
pub struct Asked {
    pub child: BranchId,
    /// Whether the walk to the commit point site goes to the child.
    pub site_below: bool,
}

/// Children in order of reference.
pub type AskedChildren = Listing<Asked>;
