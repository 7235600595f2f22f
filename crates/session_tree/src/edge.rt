//! The children of a live branch.
ghost use Rattle.std.specs.Prelude.{◌≡◌};

use dtx_values::{Duplicate, Listing, Name};
use std::alloc::{AllocError, Global};
use tran_ids::BranchId;

/// How far a child is in the prepare phase. Its first answer counts.
#[derive(Clone, Copy, Debug, PartialEq, Eq)]
pub enum Vote {
    /// Its parent has sent it no Prepare yet.
    Unasked,
    /// Its parent has sent it Prepare, and has no answer yet.
    Asked,
    /// It is sealed, and in doubt until it knows the decision.
    Prepared,
    /// Nothing was changed on it or below it, and it is gone.
    ReadOnly,
    /// The commit point site is on it or below it, and it stays live.
    Ready,
    /// It has rolled back.
    Abort,
}

impl Duplicate for Vote {
    fn copy(&self, _alloc: Global) -> Result<Vote, AllocError> {
        Ok(*self)
    }
}

/// A child of a live branch, and what the branch knows of it from its answers.
pub struct Edge {
    /// The child.
    pub peer: BranchId,
    /// The link that leads to it.
    pub link: Name,
    /// The commit point strength of its node, as its Opened gave it.
    pub strength: u8,
    /// Its weight by its last Reply, where it has one.
    pub weight: Option<u8>,
    /// The number of branches in its subtree by its last Reply, and 1 before any.
    pub count: u16,
    /// Its answer to Prepare.
    pub vote: Vote,
}

impl Drop for Edge {
    fn drop(self) {
        let Edge {
            peer: _peer,
            link,
            strength: _strength,
            weight: _weight,
            count: _count,
            vote: _vote,
        } = self;
        drop(link);
    }
}

/// Edges in order of reference.
pub type Edges = Listing<Edge>;

impl Duplicate for Edge {
    fn copy(&self, alloc: Global) -> Result<Edge, AllocError> {
        let link = self.link.copy(alloc)?;
        Ok(Edge {
            peer: self.peer,
            link,
            strength: self.strength,
            weight: self.weight,
            count: self.count,
            vote: self.vote,
        })
    }
}
