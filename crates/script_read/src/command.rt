//! The commands of a script.
ghost use Rattle.std.specs.Prelude.{◌≡◌};

use dtx_values::{Bytes, Duplicate, Listing, Name};
use sql_statement::Stmt;
use std::alloc::{AllocError, Global};
use wire_msg::KindName;

/// What a write that stops a node leaves on the disk.
#[derive(Drop)]
pub enum How {
    /// So many of its first bytes.
    Keep(u32),
    /// These bytes.
    Leave(Bytes),
}

impl Duplicate for How {
    fn copy(&self, alloc: Global) -> Result<How, AllocError> {
        match self {
            How::Keep(count) => Ok(How::Keep(*count)),
            How::Leave(bytes) => Ok(How::Leave(bytes.copy(alloc)?)),
        }
    }
}

/// A command of a script. A node stands as its number, from 1 in the order of the NODE commands.
#[derive(Drop)]
pub enum Command {
    /// Makes a node.
    Node {
        name: Name,
        strength: u8,
        links: u32,
        undo: u32,
    },
    /// A client's call at a session of a node: its statement, or nothing where the text is outside the grammar.
    At {
        node: u8,
        session: u32,
        statement: Option<Stmt>,
    },
    /// No message passes between the two nodes from now on.
    Cut {
        a: u8,
        b: u8,
    },
    /// Messages pass again between the two nodes.
    Join {
        a: u8,
        b: u8,
    },
    /// Loses the message with this number, which is in flight.
    Lose {
        k: u32,
    },
    /// Loses the next message of this kind from a node to a node.
    LoseNext {
        kind: KindName,
        from: u8,
        to: u8,
    },
    /// Stops a node at once.
    Stop {
        node: u8,
    },
    /// Starts a node from the records on its disk.
    Start {
        node: u8,
    },
    /// Stops a node in one of its next disk writes, counted from 1.
    Crash {
        node: u8,
        write: u32,
        how: How,
    },
    /// Lets one of the next disk calls of a node fail, counted from 1.
    Fault {
        node: u8,
        call: u32,
    },
    /// Holds messages back, or lets them go.
    Hold {
        on: bool,
    },
    /// Delivers the message with this number, which is in flight.
    Deliver {
        k: u32,
    },
    /// Delivers a copy of the message with this number.
    Again {
        k: u32,
    },
    /// Delivers messages in order, at most so many.
    Pump {
        most: Option<u32>,
    },
    /// Gives up the call of a session.
    GiveUp {
        node: u8,
        session: u32,
    },
    /// Lets a node recover its branches in doubt.
    Reco {
        node: u8,
    },
    /// Shows a node's DBA_2PC_PENDING.
    ShowPending {
        node: u8,
    },
    /// Shows a node's DBA_2PC_NEIGHBORS.
    ShowNeighbors {
        node: u8,
    },
    /// Shows the book of all nodes.
    ShowBook,
    /// Shows the messages in flight.
    ShowNet,
    /// Shows the bytes of a node's disk.
    ShowDisk {
        node: u8,
    },
    /// Shows the undo that a node's branches hold.
    ShowUndo {
        node: u8,
    },
}

/// Commands in the order in which they are run.
pub type Commands = Listing<Command>;

impl Duplicate for Command {
    fn copy(&self, alloc: Global) -> Result<Command, AllocError> {
        match self {
            Command::Node {
                name,
                strength,
                links,
                undo,
            } => {
                let name = name.copy(alloc)?;
                Ok(Command::Node {
                    name,
                    strength: *strength,
                    links: *links,
                    undo: *undo,
                })
            }
            Command::At {
                node,
                session,
                statement,
            } => {
                let statement = statement.copy(alloc)?;
                Ok(Command::At {
                    node: *node,
                    session: *session,
                    statement,
                })
            }
            Command::Crash { node, write, how } => {
                let how = how.copy(alloc)?;
                Ok(Command::Crash {
                    node: *node,
                    write: *write,
                    how,
                })
            }
            Command::Cut { a, b } => Ok(Command::Cut { a: *a, b: *b }),
            Command::Join { a, b } => Ok(Command::Join { a: *a, b: *b }),
            Command::Lose { k } => Ok(Command::Lose { k: *k }),
            Command::LoseNext { kind, from, to } => Ok(Command::LoseNext {
                kind: *kind,
                from: *from,
                to: *to,
            }),
            Command::Stop { node } => Ok(Command::Stop { node: *node }),
            Command::Start { node } => Ok(Command::Start { node: *node }),
            Command::Fault { node, call } => Ok(Command::Fault {
                node: *node,
                call: *call,
            }),
            Command::Hold { on } => Ok(Command::Hold { on: *on }),
            Command::Deliver { k } => Ok(Command::Deliver { k: *k }),
            Command::Again { k } => Ok(Command::Again { k: *k }),
            Command::Pump { most } => Ok(Command::Pump { most: *most }),
            Command::GiveUp { node, session } => Ok(Command::GiveUp {
                node: *node,
                session: *session,
            }),
            Command::Reco { node } => Ok(Command::Reco { node: *node }),
            Command::ShowPending { node } => Ok(Command::ShowPending { node: *node }),
            Command::ShowNeighbors { node } => Ok(Command::ShowNeighbors { node: *node }),
            Command::ShowBook => Ok(Command::ShowBook),
            Command::ShowNet => Ok(Command::ShowNet),
            Command::ShowDisk { node } => Ok(Command::ShowDisk { node: *node }),
            Command::ShowUndo { node } => Ok(Command::ShowUndo { node: *node }),
        }
    }
}
