//! Branches of transactions (Database Administrator's Guide, "Distributed Transactions Concepts").
ghost use Rattle.std.specs.Prelude.{◌≡◌};
ghost use Rattle.tran_ids.specs.Branch.{same, branch_below};

use dtx_values::Duplicate;
use std::alloc::{AllocError, Global};

/// The id of a branch, which is one transaction's work in one session of one node. No id is ever used twice.
#[derive(Clone, Copy, Debug, PartialEq, Eq, Hash)]
pub struct BranchId {
    /// The node's number, from 1.
    pub node: u8,
    /// Which start of the node this is, from 1.
    pub boot: u32,
    /// The session's number: 1 to 64 for a session of a client, 65 and above for one that was opened over a link.
    pub session: u32,
    /// The transaction's number within its session and boot, from 1.
    pub seq: u32,
}

impl BranchId {
    /// Whether two ids are the same.
    pub fn is(&self, other: &BranchId) -> bool
        ensures { result ≡ same self.now other.now }
    {
        self.node == other.node
            && self.boot == other.boot
            && self.session == other.session
            && self.seq == other.seq
    }

    /// Whether this branch comes before the other in the order of boot, session and seq, in which the branches of one
    /// node are kept and printed.
    pub fn is_before(&self, other: &BranchId) -> bool
        ensures { result ≡ branch_below self.now other.now }
    {
        if self.boot != other.boot {
            self.boot < other.boot
        } else if self.session != other.session {
            self.session < other.session
        } else {
            self.seq < other.seq
        }
    }
}

impl Duplicate for BranchId {
    fn copy(&self, _alloc: Global) -> Result<BranchId, AllocError> {
        Ok(*self)
    }
}
