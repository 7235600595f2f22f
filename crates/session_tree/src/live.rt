//! Live branches.
ghost use Rattle.std.specs.Prelude.{◌≡◌};

use crate::edge::Edges;
use dtx_values::{Advice, Bytes, Duplicate, Listing};
use std::alloc::{AllocError, Global};
use tran_ids::BranchId;

/// How far a live branch is in its transaction.
#[derive(Clone, Copy, Debug, PartialEq, Eq)]
pub enum Phase {
    /// From its beginning on, until COMMIT or Prepare: it takes statements.
    Working,
    /// From COMMIT at the root, and from Prepare elsewhere, until all its children have answered.
    Collecting {
        /// Whether the walk to the commit point site comes to this branch.
        site_below: bool,
    },
    /// From its answer Ready on, until CommitPoint or a rollback comes.
    Ready,
}

impl Duplicate for Phase {
    fn copy(&self, _alloc: Global) -> Result<Phase, AllocError> {
        Ok(*self)
    }
}

/// A live branch: neither sealed nor decided nor gone. A stop of its node loses it.
pub struct Live {
    /// Its id.
    pub me: BranchId,
    /// The root of its transaction.
    pub root: BranchId,
    /// Its parent in the session tree, and none at the root.
    pub parent: Option<BranchId>,
    /// Its depth in the session tree: 1 at the root, at most 8.
    pub depth: u8,
    /// Whether it has changes of its own.
    pub changed: bool,
    /// The commit point strength of its node when it began, 0 to 255.
    pub strength: u8,
    /// Its children, in the order in which their links were first used.
    pub edges: Edges,
    /// How far it is in its transaction.
    pub phase: Phase,
    /// The advice that came with the last statement it took, and none at the root.
    pub advice: Option<Advice>,
    /// The comment of the COMMIT, once that has come; empty before.
    pub comment: Bytes,
    /// The SCN at which its transaction reads, where that is READ ONLY.
    pub read_at: Option<u64>,
}

impl Drop for Live {
    fn drop(self) {
        let Live {
            me: _me,
            root: _root,
            parent: _parent,
            depth: _depth,
            changed: _changed,
            strength: _strength,
            edges,
            phase: _phase,
            advice: _advice,
            comment,
            read_at: _read_at,
        } = self;
        drop(edges);
        drop(comment);
    }
}

/// Live branches in order of beginning.
pub type Lives = Listing<Live>;

impl Duplicate for Live {
    fn copy(&self, alloc: Global) -> Result<Live, AllocError> {
        let edges = self.edges.copy(alloc)?;
        let comment = self.comment.copy(alloc)?;
        Ok(Live {
            me: self.me,
            root: self.root,
            parent: self.parent,
            depth: self.depth,
            changed: self.changed,
            strength: self.strength,
            edges,
            phase: self.phase,
            advice: self.advice,
            comment,
            read_at: self.read_at,
        })
    }
}
