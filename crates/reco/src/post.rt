//! Messages before they are sent.
ghost use Rattle.std.specs.Prelude.{◌≡◌};

use dtx_values::Listing;
use tran_ids::BranchId;
use wire_msg::Kind;

/// A message before the node's clock is set on it.
#[derive(Drop)]
pub struct Post {
    /// The branch that sends it.
    pub from: BranchId,
    /// The branch that it is for.
    pub to: BranchId,
    /// What it says.
    pub kind: Kind,
}

/// The messages of a turn, in the order in which they are sent.
pub type Posts = Listing<Post>;
