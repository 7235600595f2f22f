//! What happens in a run.
ghost use Rattle.std.specs.Prelude.{◌≡◌};

use dtx_values::{Duplicate, Listing};
use redo_record::RedoRecord;
use std::alloc::{AllocError, Global};
use wire_msg::{Input, Msgs};

/// Which message was delivered in a turn.
#[derive(Clone, Copy, Debug, PartialEq, Eq)]
pub struct Took {
    /// Its number, in the order of sending.
    pub number: u64,
    /// Whether it is a copy, delivered by AGAIN.
    pub again: bool,
}

impl Duplicate for Took {
    fn copy(&self, _alloc: Global) -> Result<Took, AllocError> {
        Ok(*self)
    }
}

/// A turn of a node: it takes an input, writes at most one redo record, and then sends messages.
pub struct Turn {
    /// The node's number, from 1.
    pub node: u8,
    /// What it took: a call of a client, a call that is given up, a message, or RECO.
    pub input: Input,
    /// Which message this was, where the input is a message.
    pub took: Option<Took>,
    /// The record that it wrote to its log.
    pub wrote: Option<RedoRecord>,
    /// The messages that it sent, in order.
    pub sent: Msgs,
    /// Whether the node stopped in this turn, before or after its record. Then none of its messages was sent.
    pub cut: bool,
}

impl Drop for Turn {
    fn drop(self) {
        let Turn {
            node: _node,
            input,
            took: _took,
            wrote,
            sent,
            cut: _cut,
        } = self;
        drop(input);
        drop(wrote);
        drop(sent);
    }
}

/// One step of a run.
pub enum Happening {
    /// The command with this number begins. Numbers count from 1.
    Begun { command: u32 },
    /// A node takes a turn.
    Turn(Turn),
    /// From now on no message passes between the two nodes.
    Cut { a: u8, b: u8 },
    /// Messages pass between the two nodes again.
    Join { a: u8, b: u8 },
    /// The message with this number is lost. Numbers count from 1 in the order of sending.
    Lost { k: u64 },
    /// The node stops. What it had in memory alone is lost.
    Stopped { node: u8 },
    /// The node starts from the records of its log, as the start with this number. Its Boot record is on the disk.
    Started { node: u8, boot: u32 },
}

impl Drop for Happening {
    fn drop(self) {
        match self {
            Happening::Begun { command: _command } => {}
            Happening::Turn(turn) => drop(turn),
            Happening::Cut { a: _a, b: _b } => {}
            Happening::Join { a: _a, b: _b } => {}
            Happening::Lost { k: _k } => {}
            Happening::Stopped { node: _node } => {}
            Happening::Started {
                node: _node,
                boot: _boot,
            } => {}
        }
    }
}

/// Happenings, oldest first.
pub type Trace = Listing<Happening>;
