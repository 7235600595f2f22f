//! What a turn tells.
ghost use Rattle.std.specs.Prelude.{◌≡◌};

use crate::finished::Finished;
use dtx_values::{Bytes, Listing};
use node_points::Passes;
use redo_record::RedoRecord;
use wire_msg::{Input, Msg};

/// A message as it is sent.
#[derive(Drop)]
pub struct Mailed {
    /// The message.
    pub msg: Msg,
    /// Its bytes.
    pub bytes: Bytes,
}

/// The messages of a turn, in order.
pub type Sent = Listing<Mailed>;

/// The calls of clients that a turn ended, in order.
pub type Ends = Listing<Finished>;

/// What a turn tells. Its record stands on the disk then.
#[derive(Drop)]
pub struct DurableTurn {
    /// What came, as it was read.
    pub input: Input,
    /// The record of the turn, where there is one.
    pub wrote: Option<RedoRecord>,
    /// The messages that it sends.
    pub sent: Sent,
    /// The calls of clients that it ends.
    pub ended: Ends,
    /// The places that it passed, at which a crash-test comment stops a node.
    pub passes: Option<Passes>,
}
