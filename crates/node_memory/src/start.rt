//! What a node keeps after a start.
ghost use Rattle.std.specs.Prelude.{◌≡◌, ◌≤◌, [], OnOk, IfOk};
ghost use Rattle.read_only_tx.specs.Versions.{versions_from};
ghost use Rattle.node_rules.specs.Records.{nothing_stored, stored_by, versions_in};
ghost use Rattle.node_memory.specs.Versions.{versions_as};
ghost use Rattle.node_rules.specs.Turn.{kept_by, start_of};
ghost use Rattle.node_memory.specs.Parts.{stored_in, kept_in};
ghost use Rattle.node_memory.specs.After.{with_stored};
ghost use Rattle.node_memory.specs.Room.{AllHaveRoom};
ghost use Rattle.node_ready_laws.specs.Following.{MayAllFollow};

use crate::Memory;
use crate::doubts::{hold_all, in_doubt};
use crate::parts::read_version;
use crate::versions::Versions;
use catalog::Catalog;
use link_session::Opens;
use node_state::{Lives, Sessions, Works};
use redo_record::{KeptRows, Place, RedoRecord};
use row_locks::Locks;
use row_store::Store;
use std::alloc::{AllocError, Global};
use tran_ids::Clock;

impl Memory {
    /// A node of this place before any record. Fails where memory runs out.
    pub(crate) fn new(alloc: Global, place: Place) -> Result<Memory, AllocError>
        requires { place.undo ≤ 1024 }
        ensures kept { IfOk result (λ memory. kept_in memory ≡ kept_by nothing_stored (versions_from 0)) }
        ensures place { IfOk result (λ memory. memory.place ≡ place) }
    {
        let sessions = Sessions::new(alloc)?;
        let store = Store::new(alloc, place.undo)?;
        Ok(Memory {
            store,
            place,
            boot: 0,
            strength: None,
            catalog: Catalog::new(alloc),
            kept: KeptRows::new(alloc),
            scn: Clock::new(),
            top: Clock::new(),
            generation: 0,
            lives: Lives::new(alloc),
            works: Works::new(alloc),
            locks: Locks::new(alloc),
            clock: Clock::new(),
            versions: Versions::from(alloc, 0),
            opens: Opens::new(alloc),
            sessions,
        })
    }

    /// What a node of this place keeps after a start, by its records, oldest first: nobody is live, branches in doubt hold
    /// their keys and their undo, for which there is room, and the clock is the greatest SCN. Fails where memory runs out.
    pub fn rebuild(
        alloc: Global,
        place: Place,
        records: &[RedoRecord],
    ) -> Result<Memory, AllocError>
        requires undo { place.undo ≤ 1024 }
        requires follow { MayAllFollow nothing_stored records.now }
        requires room { AllHaveRoom place.undo nothing_stored records.now }
        ensures kept { IfOk result (λ memory. kept_in memory ≡ start_of records.now) }
        ensures place { IfOk result (λ memory. memory.place ≡ place) }
    {
        let mut memory = Memory::new(alloc, place)?;
        match memory.start(alloc, records) {
            Ok(()) => Ok(memory),
            Err(error) => {
                drop(memory);
                Err(error)
            }
        }
    }

    // A node that has no record yet starts with these.
    fn start(&mut self, alloc: Global, records: &[RedoRecord]) -> Result<(), AllocError>
        requires none { kept_in self.old ≡ kept_by nothing_stored (versions_from 0) }
        requires follow { MayAllFollow nothing_stored records.now }
        requires room { AllHaveRoom self.old.place.undo nothing_stored records.now }
        ensures kept { OnOk result (kept_in self.new ≡ start_of records.now) }
        ensures place { self.new.place ≡ self.old.place }
    {
        self.replay(alloc, records)?;
        let scn = self.scn.now();
        self.clock.meet(scn);
        let doubts = in_doubt(alloc, records)?;
        hold_all(&mut self.locks, alloc, doubts.as_slice())?;
        Ok(())
    }

    // These records become part of what is stored.
    #[tactic(auto, using(crate::proofs::ReplayLaws::replays))]
    fn replay(&mut self, alloc: Global, records: &[RedoRecord]) -> Result<(), AllocError>
        requires idle { self.old.store.owns ≡ [] }
        requires follow { MayAllFollow (stored_in self.old) records.now }
        requires room { AllHaveRoom self.old.place.undo (stored_in self.old) records.now }
        ensures kept { OnOk result (kept_in self.new ≡ with_stored (kept_in self.old) (stored_by (stored_in self.old) records.now) (versions_in (stored_in self.old) (versions_as self.old.versions) records.now)) }
        ensures place { self.new.place ≡ self.old.place }
    {
        for item in records {
            read_version(&mut self.versions, alloc, &self.store, item)?;
            self.apply(alloc, item)?;
        }
        Ok(())
    }
}
