//! The undo of a branch.

use dtx_values::{Bytes, Listing};
use tran_ids::BranchId;

/// The undo that a branch holds.
#[derive(Drop)]
pub struct Undo {
    /// The branch.
    pub branch: BranchId,
    /// The extents that it holds.
    pub extents: u32,
    /// Its changes as bytes, each with the row from before it.
    pub bytes: Bytes,
}

/// What branches hold, in the order of boot, session and seq.
pub type Undos = Listing<Undo>;
