//! What a picture of a run shows. A row is a line of the picture, counted from 0 downwards: each happening but the
//! beginning of a command has a row of its own.
ghost use Rattle.std.specs.Prelude.{◌≡◌};

use dtx_values::{Duplicate, Listing, Names, Texts};
use std::alloc::{AllocError, Global};
use tran_ids::BranchId;
use wire_msg::KindName;

/// A command as it was asked, and its answers, both as lines.
pub struct Told {
    /// The text of the command.
    pub text: Texts,
    /// The lines of its answers.
    pub answer: Texts,
}

impl Drop for Told {
    fn drop(self) {
        let Told { text, answer } = self;
        drop(text);
        drop(answer);
    }
}

/// What was told of each command, in order.
pub type Tale = Listing<Told>;

/// The rows of a command: from its own row to that of the next one.
pub struct Band {
    /// The command's number, from 1.
    pub command: u32,
    /// Its first row.
    pub row: u32,
    /// The text of the command, which stands at the left.
    pub text: Texts,
    /// The lines of its answers, which stand at the right.
    pub answer: Texts,
}

impl Drop for Band {
    fn drop(self) {
        let Band {
            command: _command,
            row: _row,
            text,
            answer,
        } = self;
        drop(text);
        drop(answer);
    }
}

/// What became of a message.
#[derive(Clone, Copy, Debug, PartialEq, Eq)]
pub enum End {
    /// It is still in flight, and shown so in this row.
    InFlight(u32),
    /// It was delivered in this row.
    Delivered(u32),
    /// It was lost in this row.
    Lost(u32),
}

impl Duplicate for End {
    fn copy(&self, _alloc: Global) -> Result<End, AllocError> {
        Ok(*self)
    }
}

/// A message, from the row in which it was sent to its end.
#[derive(Clone, Copy, Debug)]
pub struct Arrow {
    /// Its number in the order of sending, from 1.
    pub number: u64,
    /// Its kind.
    pub kind: KindName,
    /// The node that sent it.
    pub from: u8,
    /// The node that it is for.
    pub to: u8,
    /// The row in which it was sent.
    pub sent: u32,
    /// What became of it.
    pub end: End,
}

/// A copy of a message, delivered once more.
#[derive(Clone, Copy, Debug)]
pub struct Repeat {
    /// The number of the message.
    pub number: u64,
    /// Its kind.
    pub kind: KindName,
    /// The node that sent it.
    pub from: u8,
    /// The node that it is for.
    pub to: u8,
    /// The row in which the copy was delivered.
    pub row: u32,
}

/// What a note on a lane says.
#[derive(Clone, Copy, Debug, PartialEq, Eq)]
pub enum NoteKind {
    /// A client's call came in, at this session.
    Call(u32),
    /// The pending call of this session was given up.
    GiveUp(u32),
    /// The recoverer process RECO was called.
    Reco,
    /// A branch is prepared: from now on it is in doubt.
    Prepared,
    /// The commit point site decided to commit, at this SCN.
    Decided(u64),
    /// A prepared branch learned that the transaction is committed, at this SCN.
    Committed(u64),
    /// A prepared branch learned that the transaction is rolled back.
    RolledBack,
    /// An administrator committed a prepared branch, at this SCN.
    ForcedCommit(u64),
    /// An administrator rolled a prepared branch back.
    ForcedRollback,
    /// The decision reached a forced branch, and was the forced outcome.
    Met,
    /// The decision reached a forced branch, and was not the forced outcome.
    MetMixed,
    /// A branch has no one left to tell.
    Forgotten,
    /// A purge took the branch's row out of the view.
    Purged,
    /// The node stopped.
    Stopped,
    /// The node started, as the start with this number.
    Started(u32),
}

/// The side of a lane.
#[derive(Clone, Copy, Debug, PartialEq, Eq)]
pub enum Side {
    /// The side of the lanes with lower numbers.
    Left,
    /// The side of the lanes with higher numbers.
    Right,
}

/// What a node did or met, beside its lane.
#[derive(Clone, Copy, Debug)]
pub struct Note {
    /// The node's number, from 1.
    pub node: u8,
    /// Its row.
    pub row: u32,
    /// On which side of the lane it stands: that of a record where no arrow comes in.
    pub side: Side,
    /// What it says.
    pub note_kind: NoteKind,
}

/// A branch in doubt: prepared, and neither told of the decision nor forced.
#[derive(Clone, Copy, Debug)]
pub struct Doubt {
    /// The branch.
    pub branch: BranchId,
    /// The row in which it was prepared.
    pub from: u32,
    /// The row in which it was told or forced, if it was.
    pub till: Option<u32>,
}

/// A node that is down.
#[derive(Clone, Copy, Debug)]
pub struct Outage {
    /// The node's number, from 1.
    pub node: u8,
    /// The row in which it stopped.
    pub from: u32,
    /// The row in which it started again, if it did.
    pub till: Option<u32>,
}

/// A pair of nodes that is cut or joined.
#[derive(Clone, Copy, Debug)]
pub struct Parting {
    /// One node of the pair.
    pub a: u8,
    /// The other.
    pub b: u8,
    /// The row.
    pub row: u32,
    /// Whether messages pass from now on.
    pub joined: bool,
}

/// All that a picture shows.
pub struct Marks {
    /// A lane for each node, by the names of the nodes in the order of their numbers.
    pub lanes: Names,
    /// The commands, in order.
    pub bands: Listing<Band>,
    /// The messages, in the order of sending.
    pub arrows: Listing<Arrow>,
    /// The copies that were delivered, oldest first.
    pub repeats: Listing<Repeat>,
    /// What nodes did or met, oldest first.
    pub notes: Listing<Note>,
    /// The branches in doubt, oldest first.
    pub doubts: Listing<Doubt>,
    /// The nodes that are down, oldest first.
    pub outages: Listing<Outage>,
    /// The pairs that are cut or joined, oldest first.
    pub partings: Listing<Parting>,
    /// How many rows the picture has.
    pub rows: u32,
}

impl Drop for Marks {
    fn drop(self) {
        let Marks {
            lanes,
            bands,
            arrows,
            repeats,
            notes,
            doubts,
            outages,
            partings,
            rows: _rows,
        } = self;
        drop(lanes);
        drop(bands);
        drop(arrows);
        drop(repeats);
        drop(notes);
        drop(doubts);
        drop(outages);
        drop(partings);
    }
}
