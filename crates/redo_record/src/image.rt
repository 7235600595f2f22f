//! Images: what a node writes at a checkpoint, so that it can start without the records before.
ghost use Rattle.std.specs.Prelude.{◌≡◌};

use crate::decision::Decision;
use crate::record::{Peers, Toward};
use dtx_values::{Advice, Bytes, Changes, Duplicate, Link, Listing, Rows, Synonym, Table};
use std::alloc::{AllocError, Global};
use tran_ids::BranchId;

/// The state of a kept branch in an image.
#[derive(Clone, Copy, Debug, PartialEq, Eq)]
pub enum KeptState {
    /// Prepared, and in doubt.
    Sealed,
    /// Committed, by the decision.
    Committed,
    /// An administrator committed it.
    ForcedCommit,
    /// An administrator rolled it back.
    ForcedRollback,
}

impl Duplicate for KeptState {
    fn copy(&self, _alloc: Global) -> Result<KeptState, AllocError> {
        Ok(*self)
    }
}

/// A branch that the node keeps a row of, as an image has it. No image has Acks: they are kept in memory alone.
pub struct KeptItem {
    /// The branch.
    pub me: BranchId,
    /// The root of its transaction.
    pub root: BranchId,
    /// The SCN of its Sealed record, or, at the commit point site, the commit SCN.
    pub scn: u64,
    /// Whether it is in doubt, committed or forced.
    pub state: KeptState,
    /// The neighbour on the way to the commit point site, and none at the commit point site.
    pub toward: Option<Toward>,
    /// Its parent, if it is not the root.
    pub parent: Option<BranchId>,
    /// The children of its record, in order of reference.
    pub children: Peers,
    /// The session's advice for administrators, if it gave any.
    pub advice: Option<Advice>,
    /// The comment of the COMMIT.
    pub comment: Bytes,
    /// The decision, once the branch knows it.
    pub decision: Option<Decision>,
    /// The SCN at which it committed or was forced to commit, and 0 for none.
    pub number: u64,
    /// Whether it was forced to another outcome than the decision.
    pub mixed: bool,
    /// Whether it has forgotten the transaction.
    pub forgot: bool,
    /// Whether a purge took its row out of the view.
    pub hidden: bool,
    /// What it holds back while it is in doubt.
    pub changes: Changes,
}

impl Drop for KeptItem {
    fn drop(self) {
        let KeptItem {
            me: _me,
            root: _root,
            scn: _scn,
            state: _state,
            toward: _toward,
            parent: _parent,
            children,
            advice: _advice,
            comment,
            decision: _decision,
            number: _number,
            mixed: _mixed,
            forgot: _forgot,
            hidden: _hidden,
            changes,
        } = self;
        drop(children);
        drop(comment);
        drop(changes);
    }
}

impl Duplicate for KeptItem {
    fn copy(&self, alloc: Global) -> Result<KeptItem, AllocError> {
        let children = self.children.copy(alloc)?;
        let comment = self.comment.copy(alloc)?;
        let changes = self.changes.copy(alloc)?;
        Ok(KeptItem {
            me: self.me,
            root: self.root,
            scn: self.scn,
            state: self.state,
            toward: self.toward,
            parent: self.parent,
            children,
            advice: self.advice,
            comment,
            decision: self.decision,
            number: self.number,
            mixed: self.mixed,
            forgot: self.forgot,
            hidden: self.hidden,
            changes,
        })
    }
}

/// What a node's records leave, written as one record.
pub struct Image {
    /// The number of the image, from 1.
    pub generation: u64,
    /// The node's SCN.
    pub clock: u64,
    /// The greatest SCN of a commit that changed rows, and 0 before any.
    pub top: u64,
    /// Which start of the node this is.
    pub boot: u32,
    /// Whether distributed recovery is enabled.
    pub recovery: bool,
    /// The commit point strength that was set, where one was.
    pub strength: Option<u8>,
    /// The tables, in the order in which they were created.
    pub tables: Listing<Table>,
    /// The database links, in the order in which they were created.
    pub links: Listing<Link>,
    /// The synonyms, in the order in which they were created.
    pub synonyms: Listing<Synonym>,
    /// The committed rows of each table, in key order.
    pub rows: Listing<Rows>,
    /// The branches that the node keeps rows of, in the order of their ids.
    pub kept: Listing<KeptItem>,
}

impl Drop for Image {
    fn drop(self) {
        let Image {
            generation: _generation,
            clock: _clock,
            top: _top,
            boot: _boot,
            recovery: _recovery,
            strength: _strength,
            tables,
            links,
            synonyms,
            rows,
            kept,
        } = self;
        drop(tables);
        drop(links);
        drop(synonyms);
        drop(rows);
        drop(kept);
    }
}

impl Duplicate for Image {
    fn copy(&self, alloc: Global) -> Result<Image, AllocError> {
        let tables = self.tables.copy(alloc)?;
        let links = self.links.copy(alloc)?;
        let synonyms = self.synonyms.copy(alloc)?;
        let rows = self.rows.copy(alloc)?;
        let kept = self.kept.copy(alloc)?;
        Ok(Image {
            generation: self.generation,
            clock: self.clock,
            top: self.top,
            boot: self.boot,
            recovery: self.recovery,
            strength: self.strength,
            tables,
            links,
            synonyms,
            rows,
            kept,
        })
    }
}
