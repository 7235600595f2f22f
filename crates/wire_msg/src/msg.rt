//! Messages between branches.
ghost use Rattle.std.specs.Prelude.{◌≡◌};

use crate::kind::Kind;
use dtx_values::{Duplicate, Listing};
use std::alloc::{AllocError, Global};
use tran_ids::BranchId;

/// A message from a branch to a branch. An Open is for a node, since its branch is not there yet: boot, session and
/// seq of its `to` are 0.
pub struct Msg {
    /// The branch that sends it.
    pub from: BranchId,
    /// The branch that it is for.
    pub to: BranchId,
    /// The sender's clock after the turn that sent it. It raises the receiver's clock.
    pub scn: u64,
    /// Its kind, with what it says.
    pub kind: Kind,
}

impl Drop for Msg {
    fn drop(self) {
        let Msg {
            from: _from,
            to: _to,
            scn: _scn,
            kind,
        } = self;
        drop(kind);
    }
}

/// Messages in order.
pub type Msgs = Listing<Msg>;

impl Duplicate for Msg {
    fn copy(&self, alloc: Global) -> Result<Msg, AllocError> {
        let kind = self.kind.copy(alloc)?;
        Ok(Msg {
            from: self.from,
            to: self.to,
            scn: self.scn,
            kind,
        })
    }
}
