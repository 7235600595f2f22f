//! What a node is given when it is made.
ghost use Rattle.std.specs.Prelude.{◌≡◌};

use dtx_values::{Duplicate, Listing, Names};
use std::alloc::{AllocError, Global};

/// A node's place among the nodes of a run.
pub struct Place {
    /// The names of all nodes, in the order of their numbers.
    pub names: Names,
    /// The node's own number, from 1.
    pub number: u8,
    /// Its commit point strength.
    pub strength: u8,
    /// The most links that a branch may have open.
    pub links: u32,
    /// Its undo space, in extents of 4,096 bytes.
    pub undo: u32,
}

impl Drop for Place {
    fn drop(self) {
        let Place {
            names,
            number: _number,
            strength: _strength,
            links: _links,
            undo: _undo,
        } = self;
        drop(names);
    }
}

/// The places of all nodes, in the order of their numbers.
pub type Places = Listing<Place>;

impl Duplicate for Place {
    fn copy(&self, alloc: Global) -> Result<Place, AllocError> {
        let names = self.names.copy(alloc)?;
        Ok(Place {
            names,
            number: self.number,
            strength: self.strength,
            links: self.links,
            undo: self.undo,
        })
    }
}
