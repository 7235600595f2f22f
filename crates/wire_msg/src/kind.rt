//! The kinds of messages. The guide has the phases prepare, commit and forget; the messages are dtx's own.
ghost use Rattle.std.specs.Prelude.{◌≡◌};
ghost use Rattle.wire_msg.specs.Names.{kind_text, name_of_kind, place_of_kind, same_kind};

use crate::task::Task;
use dtx_values::{Answer, Bytes, Duplicate};
use std::alloc::{AllocError, Global};
use tran_ids::BranchId;

/// What a message says.
pub enum Kind {
    /// A branch asks a node for a child, over a link that it has not used yet.
    Open {
        /// The parent's number for the edge, from 1.
        edge: u8,
        /// The root of the transaction.
        root: BranchId,
        /// The depth of the new branch: 2 for a child of the root.
        depth: u8,
        /// The SCN at which a READ ONLY transaction reads, and nothing of any other transaction.
        read_at: Option<u64>,
    },
    /// The child is there: the answer to Open.
    Opened {
        /// The number of the edge.
        edge: u8,
        /// The commit point strength of the child's node.
        strength: u8,
    },
    /// A call of a child.
    Exec {
        /// The number of the call on its edge, from 1.
        call: u32,
        /// What the child is to do.
        task: Task,
    },
    /// The answer to Exec.
    Reply {
        /// The number of the call.
        call: u32,
        /// The weight of the child, where it has one.
        weight: Option<u8>,
        /// The number of branches in its subtree, itself among them.
        count: u16,
        /// The answer of the statement.
        result: Answer,
    },
    /// The prepare phase begins at a child.
    Prepare {
        /// Whether the walk to the commit point site goes to this child.
        site_below: bool,
        /// The comment of the COMMIT.
        comment: Bytes,
    },
    /// A child is sealed, and in doubt until it knows the decision: an answer to Prepare.
    Prepared,
    /// Nothing was changed at a child or below it, and it is gone: an answer to Prepare.
    ReadOnly,
    /// The commit point site is a child or below it, and the child stays live: an answer to Prepare.
    Ready,
    /// A child has rolled back or is gone: an answer to Prepare.
    Abort,
    /// Down the walk to the commit point site: each branch on it seals and passes this on, and the site decides.
    CommitPoint,
    /// The transaction is committed.
    Committed {
        /// The commit SCN.
        scn: u64,
    },
    /// The transaction is rolled back: to a parent, or the answer to an Ask or a CommitPoint.
    RolledBack,
    /// The sender does not know the decision either: an answer to Ask.
    InDoubt,
    /// The sender and all beyond it know of the commit.
    Ack,
    /// All branches know of the commit, and the receiver may forget the transaction.
    Forgotten,
    /// The transaction rolls back: from a parent to a child.
    Rollback,
    /// RECO asks for the decision.
    Ask,
}

impl Drop for Kind {
    fn drop(self) {
        match self {
            Kind::Open {
                edge: _edge,
                root: _root,
                depth: _depth,
                read_at: _read_at,
            } => {}
            Kind::Opened {
                edge: _edge,
                strength: _strength,
            } => {}
            Kind::Exec { call: _call, task } => drop(task),
            Kind::Reply {
                call: _call,
                weight: _weight,
                count: _count,
                result,
            } => drop(result),
            Kind::Prepare {
                site_below: _site_below,
                comment,
            } => drop(comment),
            Kind::Prepared | Kind::ReadOnly | Kind::Ready | Kind::Abort | Kind::CommitPoint => {}
            Kind::Committed { scn: _scn } => {}
            Kind::RolledBack | Kind::InDoubt | Kind::Ack => {}
            Kind::Forgotten | Kind::Rollback | Kind::Ask => {}
        }
    }
}

impl KindName {
    /// Whether two names are the same.
    pub fn is(self, other: KindName) -> bool
        ensures { result ≡ same_kind self other }
    {
        self.place() == other.place()
    }

    // Where it stands in the list of kinds.
    fn place(self) -> u8
        ensures { result ≡ place_of_kind self }
    {
        match self {
            KindName::Open => 1,
            KindName::Opened => 2,
            KindName::Exec => 3,
            KindName::Reply => 4,
            KindName::Prepare => 5,
            KindName::Prepared => 6,
            KindName::ReadOnly => 7,
            KindName::Ready => 8,
            KindName::Abort => 9,
            KindName::CommitPoint => 10,
            KindName::Committed => 11,
            KindName::RolledBack => 12,
            KindName::InDoubt => 13,
            KindName::Ack => 14,
            KindName::Forgotten => 15,
            KindName::Rollback => 16,
            KindName::Ask => 17,
            KindName::OpenAt => 18,
            KindName::Back => 19,
        }
    }

    /// The name as it is printed.
    pub fn text(self) -> &'static [u8]
        ensures { result.now ≡ kind_text self }
    {
        match self {
            KindName::Open => b"OPEN",
            KindName::Opened => b"OPENED",
            KindName::Exec => b"EXEC",
            KindName::Reply => b"REPLY",
            KindName::Prepare => b"PREPARE",
            KindName::Prepared => b"PREPARED",
            KindName::ReadOnly => b"READONLY",
            KindName::Ready => b"READY",
            KindName::Abort => b"ABORT",
            KindName::CommitPoint => b"COMMITPOINT",
            KindName::Committed => b"COMMITTED",
            KindName::RolledBack => b"ROLLEDBACK",
            KindName::InDoubt => b"INDOUBT",
            KindName::Ack => b"ACK",
            KindName::Forgotten => b"FORGOTTEN",
            KindName::Rollback => b"ROLLBACK",
            KindName::Ask => b"ASK",
            KindName::OpenAt => b"OPENAT",
            KindName::Back => b"BACK",
        }
    }
}

impl Duplicate for Kind {
    fn copy(&self, alloc: Global) -> Result<Kind, AllocError> {
        match self {
            Kind::Open {
                edge,
                root,
                depth,
                read_at,
            } => Ok(Kind::Open {
                edge: *edge,
                root: *root,
                depth: *depth,
                read_at: *read_at,
            }),
            Kind::Opened { edge, strength } => Ok(Kind::Opened {
                edge: *edge,
                strength: *strength,
            }),
            Kind::Exec { call, task } => {
                let task = task.copy(alloc)?;
                Ok(Kind::Exec { call: *call, task })
            }
            Kind::Reply {
                call,
                weight,
                count,
                result,
            } => {
                let result = result.copy(alloc)?;
                Ok(Kind::Reply {
                    call: *call,
                    weight: *weight,
                    count: *count,
                    result,
                })
            }
            Kind::Prepare {
                site_below,
                comment,
            } => {
                let comment = comment.copy(alloc)?;
                Ok(Kind::Prepare {
                    site_below: *site_below,
                    comment,
                })
            }
            Kind::Prepared => Ok(Kind::Prepared),
            Kind::ReadOnly => Ok(Kind::ReadOnly),
            Kind::Ready => Ok(Kind::Ready),
            Kind::Abort => Ok(Kind::Abort),
            Kind::CommitPoint => Ok(Kind::CommitPoint),
            Kind::Committed { scn } => Ok(Kind::Committed { scn: *scn }),
            Kind::RolledBack => Ok(Kind::RolledBack),
            Kind::InDoubt => Ok(Kind::InDoubt),
            Kind::Ack => Ok(Kind::Ack),
            Kind::Forgotten => Ok(Kind::Forgotten),
            Kind::Rollback => Ok(Kind::Rollback),
            Kind::Ask => Ok(Kind::Ask),
        }
    }
}

/// The name of a kind of messages, as LOSE NEXT and SHOW NET use it. The kinds are described at [`Kind`]. An Open of a READ
/// ONLY transaction and an Exec that goes back have names of their own, OPENAT and BACK.
#[derive(Clone, Copy, Debug, PartialEq, Eq)]
pub enum KindName {
    Open,
    Opened,
    Exec,
    Reply,
    Prepare,
    Prepared,
    ReadOnly,
    Ready,
    Abort,
    CommitPoint,
    Committed,
    RolledBack,
    InDoubt,
    Ack,
    Forgotten,
    Rollback,
    Ask,
    OpenAt,
    Back,
}

impl Duplicate for KindName {
    fn copy(&self, _alloc: Global) -> Result<KindName, AllocError> {
        Ok(*self)
    }
}

impl Kind {
    /// The name of the kind.
    pub fn name(&self) -> KindName
        ensures { result ≡ name_of_kind self.now }
    {
        match self {
            Kind::Open { read_at: None, .. } => KindName::Open,
            Kind::Open {
                read_at: Some(_scn),
                ..
            } => KindName::OpenAt,
            Kind::Opened { .. } => KindName::Opened,
            Kind::Exec {
                task: Task::Run { .. },
                ..
            } => KindName::Exec,
            Kind::Exec {
                task: Task::GoBack { .. },
                ..
            } => KindName::Back,
            Kind::Reply { .. } => KindName::Reply,
            Kind::Prepare { .. } => KindName::Prepare,
            Kind::Prepared => KindName::Prepared,
            Kind::ReadOnly => KindName::ReadOnly,
            Kind::Ready => KindName::Ready,
            Kind::Abort => KindName::Abort,
            Kind::CommitPoint => KindName::CommitPoint,
            Kind::Committed { .. } => KindName::Committed,
            Kind::RolledBack => KindName::RolledBack,
            Kind::InDoubt => KindName::InDoubt,
            Kind::Ack => KindName::Ack,
            Kind::Forgotten => KindName::Forgotten,
            Kind::Rollback => KindName::Rollback,
            Kind::Ask => KindName::Ask,
        }
    }
}
