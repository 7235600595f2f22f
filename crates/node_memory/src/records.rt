//! A record of the node becomes part of what it keeps.
ghost use Rattle.std.specs.Prelude.{◌≡◌, OnOk};
ghost use Rattle.node_rules.specs.Records.{applied, with_record};
ghost use Rattle.node_memory.specs.Versions.{versions_as};
ghost use Rattle.node_memory.specs.Parts.{stored_in, kept_in};
ghost use Rattle.node_memory.specs.After.{with_stored};
ghost use Rattle.node_memory.specs.Room.{HasRoomFor};
ghost use Rattle.node_ready_laws.specs.Following.{MayFollow};

use crate::Memory;
use crate::parts::{
    add_version, change_boot, change_catalog, change_generation, change_locks, change_scn,
    change_store, change_strength, change_top,
};
use redo_record::RedoRecord;
use std::alloc::{AllocError, Global};

impl Memory {
    /// A record that the node writes is at once part of what it keeps. Fails where memory runs out, and the node may not be
    /// used then: some parts have the record, and some have not.
    pub fn take_in(&mut self, alloc: Global, redo: &RedoRecord) -> Result<(), AllocError>
        requires follow { MayFollow (stored_in self.old) redo.now }
        requires room { HasRoomFor self.old.store redo.now }
        ensures kept { OnOk result (kept_in self.new ≡ with_record (kept_in self.old) redo.now) }
        ensures place { self.new.place ≡ self.old.place }
    {
        add_version(&mut self.versions, alloc, &self.store, redo)?;
        self.apply(alloc, redo)?;
        change_locks(&mut self.locks, alloc, redo)?;
        Ok(())
    }

    /// A record becomes part of what is stored. The locks and the commits that are kept stay as they are. Fails where memory
    /// runs out, and then some parts have the record, and some have not.
    pub(crate) fn apply(&mut self, alloc: Global, redo: &RedoRecord) -> Result<(), AllocError>
        requires follow { MayFollow (stored_in self.old) redo.now }
        requires room { HasRoomFor self.old.store redo.now }
        ensures kept { OnOk result (kept_in self.new ≡ with_stored (kept_in self.old) (applied (stored_in self.old) redo.now) (versions_as self.old.versions)) }
        ensures place { self.new.place ≡ self.old.place }
    {
        change_boot(&mut self.boot, redo);
        change_strength(&mut self.strength, redo);
        change_catalog(&mut self.catalog, alloc, redo)?;
        change_top(&mut self.top, &self.store, redo);
        change_store(&mut self.store, alloc, redo)?;
        change_scn(&mut self.scn, redo);
        change_generation(&mut self.generation, redo);
        self.kept.apply(alloc, redo)?;
        Ok(())
    }
}
