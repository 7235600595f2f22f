//! The bodies read from a log.
ghost use Rattle.std.specs.Prelude.{◌≡◌, ◌<◌, ◌++◌, ◌∷◌, [], length, slice_index_or, OnOk};

use std::alloc::{AllocFailed, Global};
use std::marker::Model;

/// The bodies of a log, in their order.
#[derive(Drop)]
pub struct Bodies {
    items: Vec<Vec<u8>>,
}

impl Model for Bodies {
    ghost use Rattle.std.specs.Prelude.{List, ℕ, map, Vec};
    ghost use Rattle.std.specs.declared.alloc.Global.{Global};

    ghost Value = { List (List ℕ) };

    ghost view = { λ bodies. map (λ (body : Vec ℕ Global). body.items) bodies.items.items };
}

impl Bodies {
    /// No bodies yet.
    pub(crate) fn new(alloc: Global) -> Bodies
        ensures { result ≡ [] }
    {
        Bodies {
            items: Vec::new(alloc),
        }
    }

    /// How many there are.
    pub fn len(&self) -> usize
        ensures { result ≡ length self.now }
    {
        self.items.len()
    }

    /// The body at an index.
    pub fn at(&self, i: usize) -> &[u8]
        requires { i < length self.now }
        ensures { result.now ≡ slice_index_or self.now i [] }
    {
        &self.items[i]
    }

    /// Adds a body at the end.
    pub(crate) fn push(&mut self, body: Vec<u8>) -> Result<(), AllocFailed<Vec<u8>>>
        ensures { OnOk result (self.new ≡ self.old ++ body.items ∷ []) }
    {
        self.items.push(body)
    }
}
