//! Redo records.
ghost use Rattle.std.specs.Prelude.{◌≡◌};

use crate::decision::Decision;
use crate::image::Image;
use dtx_values::{Advice, Bytes, Changes, Duplicate, Link, Listing, Name, Synonym, Table};
use std::alloc::{AllocError, Global};
use tran_ids::BranchId;

/// A child of a branch, and the link that leads to it.
pub struct Peer {
    /// The child.
    pub branch: BranchId,
    /// The link.
    pub link: Name,
}

impl Drop for Peer {
    fn drop(self) {
        let Peer {
            branch: _branch,
            link,
        } = self;
        drop(link);
    }
}

/// Children in order of reference.
pub type Peers = Listing<Peer>;

impl Duplicate for Peer {
    fn copy(&self, alloc: Global) -> Result<Peer, AllocError> {
        let link = self.link.copy(alloc)?;
        Ok(Peer {
            branch: self.branch,
            link,
        })
    }
}

/// Which neighbour of a prepared branch is on the way to the commit point site.
#[derive(Clone, Copy, Debug, PartialEq, Eq)]
pub enum Toward {
    /// The branch's parent.
    Parent,
    /// The child at this place among the record's children, from 0.
    Child(u8),
}

impl Duplicate for Toward {
    fn copy(&self, _alloc: Global) -> Result<Toward, AllocError> {
        Ok(*self)
    }
}

/// A setting of a node that survives its stops.
#[derive(Clone, Copy, Debug, PartialEq, Eq)]
pub enum Param {
    /// Whether distributed recovery is enabled.
    Recovery(bool),
    /// The commit point strength of branches that begin afterwards.
    Strength(u8),
}

impl Duplicate for Param {
    fn copy(&self, _alloc: Global) -> Result<Param, AllocError> {
        Ok(*self)
    }
}

/// A branch is prepared: its changes wait for the decision.
pub struct Sealed {
    /// The branch.
    pub me: BranchId,
    /// The root of the transaction, which names it in all nodes.
    pub root: BranchId,
    /// The node's SCN.
    pub scn: u64,
    /// Its neighbour on the way to the commit point site.
    pub toward: Toward,
    /// Its parent, if it is not the root.
    pub parent: Option<BranchId>,
    /// The children that are prepared, and the one on the way to the commit point site.
    pub children: Peers,
    /// The session's advice for administrators, if it gave any.
    pub advice: Option<Advice>,
    /// The comment of the COMMIT.
    pub comment: Bytes,
    /// What the branch changed.
    pub changes: Changes,
}

impl Drop for Sealed {
    fn drop(self) {
        let Sealed {
            me: _me,
            root: _root,
            scn: _scn,
            toward: _toward,
            parent: _parent,
            children,
            advice: _advice,
            comment,
            changes,
        } = self;
        drop(children);
        drop(comment);
        drop(changes);
    }
}

impl Duplicate for Sealed {
    fn copy(&self, alloc: Global) -> Result<Sealed, AllocError> {
        let children = self.children.copy(alloc)?;
        let comment = self.comment.copy(alloc)?;
        let changes = self.changes.copy(alloc)?;
        Ok(Sealed {
            me: self.me,
            root: self.root,
            scn: self.scn,
            toward: self.toward,
            parent: self.parent,
            children,
            advice: self.advice,
            comment,
            changes,
        })
    }
}

/// The commit point site decided to commit.
pub struct Decided {
    /// The commit point site's branch.
    pub me: BranchId,
    /// The root of the transaction, which names it in all nodes.
    pub root: BranchId,
    /// The commit SCN.
    pub scn: u64,
    /// Its parent, if it is not the root.
    pub parent: Option<BranchId>,
    /// The children that are prepared.
    pub children: Peers,
    /// The session's advice for administrators, if it gave any.
    pub advice: Option<Advice>,
    /// The comment of the COMMIT.
    pub comment: Bytes,
    /// What the branch changed.
    pub changes: Changes,
}

impl Drop for Decided {
    fn drop(self) {
        let Decided {
            me: _me,
            root: _root,
            scn: _scn,
            parent: _parent,
            children,
            advice: _advice,
            comment,
            changes,
        } = self;
        drop(children);
        drop(comment);
        drop(changes);
    }
}

impl Duplicate for Decided {
    fn copy(&self, alloc: Global) -> Result<Decided, AllocError> {
        let children = self.children.copy(alloc)?;
        let comment = self.comment.copy(alloc)?;
        let changes = self.changes.copy(alloc)?;
        Ok(Decided {
            me: self.me,
            root: self.root,
            scn: self.scn,
            parent: self.parent,
            children,
            advice: self.advice,
            comment,
            changes,
        })
    }
}

/// What a node writes to its log.
pub enum RedoRecord {
    /// The node was started: the number of this start, from 1.
    Boot(u32),
    /// A table was created.
    Table(Table),
    /// A database link was created.
    Link(Link),
    /// A synonym was created.
    Synonym(Synonym),
    /// A setting was changed.
    Param(Param),
    /// A branch is prepared.
    Sealed(Sealed),
    /// The commit point site decided to commit.
    Decided(Decided),
    /// The decision reached a prepared branch.
    Ended {
        /// The branch.
        me: BranchId,
        /// The decision.
        decision: Decision,
    },
    /// An administrator forced a prepared branch.
    Forced {
        /// The branch.
        me: BranchId,
        /// The outcome that was forced.
        decision: Decision,
        /// Whether the user gave the SCN.
        given: bool,
    },
    /// The decision reached a forced branch.
    Met {
        /// The branch.
        me: BranchId,
        /// The decision.
        decision: Decision,
        /// Whether it is another outcome than the forced one.
        mixed: bool,
    },
    /// A branch that committed has no one left to tell.
    Forgot(BranchId),
    /// A purge took the branch's row out of the view.
    Hidden(BranchId),
    /// A checkpoint: what all records before it leave.
    Image(Image),
}

impl Drop for RedoRecord {
    fn drop(self) {
        match self {
            RedoRecord::Boot(_boot) => {}
            RedoRecord::Table(table) => drop(table),
            RedoRecord::Link(link) => drop(link),
            RedoRecord::Synonym(synonym) => drop(synonym),
            RedoRecord::Param(_param) => {}
            RedoRecord::Sealed(sealed) => drop(sealed),
            RedoRecord::Decided(decided) => drop(decided),
            RedoRecord::Ended {
                me: _me,
                decision: _decision,
            } => {}
            RedoRecord::Forced {
                me: _me,
                decision: _decision,
                given: _given,
            } => {}
            RedoRecord::Met {
                me: _me,
                decision: _decision,
                mixed: _mixed,
            } => {}
            RedoRecord::Forgot(_branch) => {}
            RedoRecord::Hidden(_branch) => {}
            RedoRecord::Image(image) => drop(image),
        }
    }
}

impl Duplicate for RedoRecord {
    fn copy(&self, alloc: Global) -> Result<RedoRecord, AllocError> {
        match self {
            RedoRecord::Boot(boot) => Ok(RedoRecord::Boot(*boot)),
            RedoRecord::Table(table) => Ok(RedoRecord::Table(table.copy(alloc)?)),
            RedoRecord::Link(link) => Ok(RedoRecord::Link(link.copy(alloc)?)),
            RedoRecord::Synonym(synonym) => Ok(RedoRecord::Synonym(synonym.copy(alloc)?)),
            RedoRecord::Param(param) => Ok(RedoRecord::Param(*param)),
            RedoRecord::Sealed(sealed) => Ok(RedoRecord::Sealed(sealed.copy(alloc)?)),
            RedoRecord::Decided(decided) => Ok(RedoRecord::Decided(decided.copy(alloc)?)),
            RedoRecord::Ended { me, decision } => Ok(RedoRecord::Ended {
                me: *me,
                decision: *decision,
            }),
            RedoRecord::Forced {
                me,
                decision,
                given,
            } => Ok(RedoRecord::Forced {
                me: *me,
                decision: *decision,
                given: *given,
            }),
            RedoRecord::Met {
                me,
                decision,
                mixed,
            } => Ok(RedoRecord::Met {
                me: *me,
                decision: *decision,
                mixed: *mixed,
            }),
            RedoRecord::Forgot(branch) => Ok(RedoRecord::Forgot(*branch)),
            RedoRecord::Hidden(branch) => Ok(RedoRecord::Hidden(*branch)),
            RedoRecord::Image(image) => Ok(RedoRecord::Image(image.copy(alloc)?)),
        }
    }
}
