//! What one branch sends when its node recovers.
ghost use Rattle.std.specs.Prelude.{◌≡◌};

use crate::post::Posts;
use dtx_values::Listing;
use tran_ids::BranchId;

/// What one branch sends when its node recovers.
#[derive(Drop)]
pub struct Asking {
    /// The branch that sends.
    pub me: BranchId,
    /// Its messages.
    pub says: Posts,
}

/// What branches send, in order of boot, session and number.
pub type Askings = Listing<Asking>;
