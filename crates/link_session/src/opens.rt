//! The Opens that a node answered.
ghost use Rattle.std.specs.Prelude.{◌≡◌, [], length, None, OnOk, OnErr};
ghost use Rattle.link_session.specs.Opens.{opening_of, with_opening, AreOfDistinctEdges};
ghost use Rattle.link_session.specs.Keyed.{told_by};

use crate::Opening;
use crate::open_key::{OpenKey, Opened};
use indexmap::IndexMap;
use std::alloc::{AllocError, Global};
use std::marker::Model;
use tran_ids::BranchId;

/// The Opens that a node answered since it started, in order. An Open that comes again is found by its parent and edge.
pub struct Opens {
    opened: IndexMap<OpenKey, Opened>,
}

impl Drop for Opens {
    fn drop(self) {
        let Opens { opened } = self;
        drop(opened);
    }
}

impl Model for Opens {
    ghost use Rattle.std.specs.Prelude.{List, map};
    ghost use Rattle.link_session.specs.declared.opening.Opening.{Opening};
    ghost use Rattle.link_session.specs.Opens.{AreOfDistinctEdges};
    ghost use Rattle.link_session.specs.Keyed.{opening_in};

    ghost Value = { List Opening };

    ghost view = { λ o. map opening_in o.opened.entries };

    ghost invariant = { λ o. AreOfDistinctEdges (map opening_in o.opened.entries) };
}

impl Opens {
    /// None yet.
    pub fn new(alloc: Global) -> Opens
        ensures { result ≡ [] }
    {
        Opens {
            opened: IndexMap::new(alloc),
        }
    }

    /// How many there are.
    pub fn len(&self) -> usize
        ensures { result ≡ length self.now }
    {
        self.opened.len()
    }

    /// The answer to the Open of this parent and edge, where there was one.
    pub fn find(&self, parent: &BranchId, edge: u8) -> Option<Opening>
        ensures found { result ≡ opening_of self.now parent.now edge }

        // One parent and edge has one child.
        ensures distinct { AreOfDistinctEdges self.now }
    {
        let opened = self.opened(parent, edge)?;
        Some(Opening {
            parent: *parent,
            edge,
            child: opened.child,
            strength: opened.strength,
        })
    }

    /// Takes note of an Open that is answered for the first time. Fails where memory runs out, and then nothing has changed.
    pub fn add(&mut self, opening: Opening) -> Result<(), AllocError>
        requires { opening_of self.old opening.parent opening.edge ≡ None }
        ensures ok { OnOk result (self.new ≡ with_opening self.old opening) }
        ensures err { OnErr result (self.new ≡ self.old) }
    {
        let key = OpenKey::of(&opening.parent, opening.edge);
        let opened = Opened {
            child: opening.child,
            strength: opening.strength,
        };
        self.opened.insert(key, opened)?;
        Ok(())
    }

    fn opened(&self, parent: &BranchId, edge: u8) -> Option<Opened>
        ensures found { told_by parent.now edge result ≡ opening_of self.now parent.now edge }
        ensures distinct { AreOfDistinctEdges self.now }
    {
        self.opened.get(&OpenKey::of(parent, edge)).copied()
    }
}
