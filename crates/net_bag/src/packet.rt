//! Messages that were sent, and what became of each.
ghost use Rattle.std.specs.Prelude.{◌≡◌};

use dtx_values::{Duplicate, Listing};
use std::alloc::{AllocError, Global};
use wire_msg::Msg;

/// What became of a message.
#[derive(Clone, Copy, Debug, PartialEq, Eq)]
pub enum Fate {
    /// It was sent, and is neither delivered nor lost.
    InFlight,
    /// Its receiver took it.
    Delivered,
    /// It was not delivered: its pair was cut, its target was down, or the script lost it.
    Lost,
}

impl Duplicate for Fate {
    fn copy(&self, _alloc: Global) -> Result<Fate, AllocError> {
        Ok(*self)
    }
}

/// A message that was sent, with what became of it.
#[derive(Drop)]
pub struct Packet {
    /// The message.
    pub msg: Msg,
    /// What became of it so far.
    pub fate: Fate,
}

impl Duplicate for Packet {
    fn copy(&self, alloc: Global) -> Result<Packet, AllocError> {
        let msg = self.msg.copy(alloc)?;
        Ok(Packet {
            msg,
            fate: self.fate,
        })
    }
}
