//! What the records of a node leave: its catalog, and the branches that it keeps rows of.
ghost use Rattle.std.specs.Prelude.{◌≡◌, IfOk, OnOk, OnErr};
ghost use Rattle.redo_record.specs.Durable.{no_durable, set_param, with_kept, durable_after, durable};
ghost use Rattle.redo_record.specs.Kept.{kept_after};

use crate::{Decision, KeptRows, Param, RedoRecord};
use dtx_values::{Advice, Bytes, Duplicate, Link, Listing, Name, Synonym, Table};
use std::alloc::{AllocError, Global};
use tran_ids::BranchId;

/// The state of a kept branch, as its row among the pending transactions shows it.
#[derive(Clone, Copy, Debug, PartialEq, Eq)]
pub enum State {
    /// Prepared, from its Sealed record on: in doubt until it is ended or forced.
    Sealed,
    /// From Decided, or from Ended commit, until it forgets.
    Committed,
    /// An administrator committed it, at this SCN.
    ForcedCommit(u64),
    /// An administrator rolled it back.
    ForcedRollback,
}

impl Duplicate for State {
    fn copy(&self, _alloc: Global) -> Result<State, AllocError> {
        Ok(*self)
    }
}

/// A child of a kept branch.
pub struct Kid {
    /// The child.
    pub branch: BranchId,
    /// The link that leads to it.
    pub link: Name,
    /// Whether it has acknowledged the commit. This is kept in memory alone.
    pub acked: bool,
}

impl Drop for Kid {
    fn drop(self) {
        let Kid {
            branch: _branch,
            link,
            acked: _acked,
        } = self;
        drop(link);
    }
}

/// Children in order of reference.
pub type Kids = Listing<Kid>;

impl Duplicate for Kid {
    fn copy(&self, alloc: Global) -> Result<Kid, AllocError> {
        let link = self.link.copy(alloc)?;
        Ok(Kid {
            branch: self.branch,
            link,
            acked: self.acked,
        })
    }
}

/// A branch that the node keeps a row of.
pub struct KeptRow {
    /// The branch.
    pub me: BranchId,
    /// The root of its transaction.
    pub root: BranchId,
    /// The SCN of its Sealed record, or, at the commit point site, the commit SCN.
    pub scn: u64,
    /// Its parent, if it is not the root.
    pub parent: Option<BranchId>,
    /// Whether the parent has acknowledged the commit. This is kept in memory alone.
    pub parent_acked: bool,
    /// The children of its record, in order of reference.
    pub children: Kids,
    /// The neighbour on the way to the commit point site, and none at the commit point site.
    pub toward: Option<BranchId>,
    /// The session's advice for administrators, if it gave any.
    pub advice: Option<Advice>,
    /// The comment of the COMMIT.
    pub comment: Bytes,
    /// Whether it is in doubt, committed or forced.
    pub state: State,
    /// The decision, once the branch knows it.
    pub decision: Option<Decision>,
    /// Whether it was forced to another outcome than the decision.
    pub mixed: bool,
    /// Whether it has forgotten the transaction: no neighbour is left to tell.
    pub forgot: bool,
    /// Whether a purge took its row out of the view.
    pub hidden: bool,
}

impl Drop for KeptRow {
    fn drop(self) {
        let KeptRow {
            me: _me,
            root: _root,
            scn: _scn,
            parent: _parent,
            parent_acked: _parent_acked,
            children,
            toward: _toward,
            advice: _advice,
            comment,
            state: _state,
            decision: _decision,
            mixed: _mixed,
            forgot: _forgot,
            hidden: _hidden,
        } = self;
        drop(children);
        drop(comment);
    }
}

impl Duplicate for KeptRow {
    fn copy(&self, alloc: Global) -> Result<KeptRow, AllocError> {
        let children = self.children.copy(alloc)?;
        let comment = self.comment.copy(alloc)?;
        Ok(KeptRow {
            me: self.me,
            root: self.root,
            scn: self.scn,
            parent: self.parent,
            parent_acked: self.parent_acked,
            children,
            toward: self.toward,
            advice: self.advice,
            comment,
            state: self.state,
            decision: self.decision,
            mixed: self.mixed,
            forgot: self.forgot,
            hidden: self.hidden,
        })
    }
}

/// What the records of a node say, but for its rows.
pub struct Durable {
    /// Which start of the node this is, from 1, and 0 before it is made.
    pub boot: u32,
    /// Whether distributed recovery is enabled.
    pub recovery: bool,
    /// The tables, in the order in which they were created.
    pub tables: Listing<Table>,
    /// The database links, in the order in which they were created.
    pub links: Listing<Link>,
    /// The synonyms, in the order in which they were created.
    pub synonyms: Listing<Synonym>,
    /// The branches that the node keeps rows of, in the order of their ids.
    pub kept: KeptRows,
    /// The commit point strength that was set, where one was.
    pub strength: Option<u8>,
}

impl Drop for Durable {
    fn drop(self) {
        let Durable {
            boot: _boot,
            recovery: _recovery,
            tables,
            links,
            synonyms,
            kept,
            strength: _strength,
        } = self;
        drop(tables);
        drop(links);
        drop(synonyms);
        drop(kept);
    }
}

impl Durable {
    /// What a node has before any record.
    pub fn new(alloc: Global) -> Durable
        ensures { result ≡ no_durable }
    {
        Durable {
            boot: 0,
            recovery: true,
            tables: Listing::new(alloc),
            links: Listing::new(alloc),
            synonyms: Listing::new(alloc),
            kept: KeptRows::new(alloc),
            strength: None,
        }
    }

    /// What the records of a node leave, oldest first. Fails where memory runs out.
    pub fn of(alloc: Global, records: &[RedoRecord]) -> Result<Durable, AllocError>
        ensures { IfOk result (λ left. left ≡ durable records.now) }
    {
        let mut left = Durable::new(alloc);
        for item in records {
            left.apply(alloc, item)?;
        }
        Ok(left)
    }

    /// Takes one more record of the node in. Fails where memory runs out, and then nothing changes.
    #[tactic(auto, unfolding(crate::specs::Durable::durable_after))]
    pub fn apply(&mut self, alloc: Global, item: &RedoRecord) -> Result<(), AllocError>
        ensures ok { OnOk result (self.new ≡ durable_after self.old item.now) }
        ensures err { OnErr result (self.new ≡ self.old) }
    {
        match item {
            RedoRecord::Boot(boot) => self.boot = *boot,
            RedoRecord::Table(table) => self.tables.push(table.copy(alloc)?)?,
            RedoRecord::Link(link) => self.links.push(link.copy(alloc)?)?,
            RedoRecord::Synonym(synonym) => self.synonyms.push(synonym.copy(alloc)?)?,
            RedoRecord::Param(param) => self.set(*param),
            _ => self.apply_to_kept(alloc, item)?,
        }
        Ok(())
    }

    fn set(&mut self, param: Param)
        ensures { self.new ≡ set_param self.old param }
    {
        match param {
            Param::Recovery(on) => self.recovery = on,
            Param::Strength(strength) => self.strength = Some(strength),
        }
    }

    fn apply_to_kept(&mut self, alloc: Global, item: &RedoRecord) -> Result<(), AllocError>
        ensures ok { OnOk result (self.new ≡ with_kept self.old (kept_after self.old.kept item.now)) }
        ensures err { OnErr result (self.new ≡ self.old) }
    {
        self.kept.apply(alloc, item)
    }
}

impl Duplicate for Durable {
    fn copy(&self, alloc: Global) -> Result<Durable, AllocError> {
        let tables = self.tables.copy(alloc)?;
        let links = self.links.copy(alloc)?;
        let synonyms = self.synonyms.copy(alloc)?;
        let kept = self.kept.copy(alloc)?;
        Ok(Durable {
            boot: self.boot,
            recovery: self.recovery,
            tables,
            links,
            synonyms,
            kept,
            strength: self.strength,
        })
    }
}
