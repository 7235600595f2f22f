//! All that a node keeps from turn to turn.
ghost use Rattle.std.specs.Prelude.{◌≡◌};

use crate::versions::Versions;
use catalog::Catalog;
use link_session::Opens;
use node_state::{Lives, Sessions, Works};
use redo_record::{KeptRows, Place};
use row_locks::Locks;
use row_store::Store;
use tran_ids::Clock;

/// All that a node keeps from turn to turn. Contracts see it as the rules' `NodeState` by `kept_in`.
pub struct Memory {
    /// The node's number, name and settings, and the names of all nodes.
    pub place: Place,
    /// Which start of the node this is, from 1, and 0 before it is made.
    pub boot: u32,
    /// The commit point strength that was set, where one was.
    pub strength: Option<u8>,
    /// The tables, links and synonyms, and whether distributed recovery is enabled.
    pub catalog: Catalog,
    /// The branches that the node keeps rows of.
    pub kept: KeptRows,
    /// The committed rows, what live branches have changed, and what branches in doubt hold back.
    pub store: Store,
    /// The greatest SCN of the records, except those that users gave.
    pub scn: Clock,
    /// The greatest SCN of a commit that changed rows.
    pub top: Clock,
    /// The number of the newest image, and 0 before any.
    pub generation: u64,
    /// The live branches.
    pub lives: Lives,
    /// The calls of the live branches.
    pub works: Works,
    /// Which branch holds which key.
    pub locks: Locks,
    /// The node's clock.
    pub clock: Clock,
    /// The newest commits, behind which READ ONLY transactions can look.
    pub versions: Versions,
    /// The Opens that were answered since the start.
    pub opens: Opens,
    /// The client sessions.
    pub sessions: Sessions,
    // The store has the undo extents of the node's place.
    ghost own_undo: { store.extents ≡ place.undo },
}

impl Drop for Memory {
    fn drop(self) {
        let Memory {
            place,
            boot: _boot,
            strength: _strength,
            catalog,
            kept,
            store,
            scn: _scn,
            top: _top,
            generation: _generation,
            lives,
            works,
            locks,
            clock: _clock,
            versions,
            opens,
            sessions,
        } = self;
        drop(place);
        drop(catalog);
        drop(kept);
        drop(store);
        drop(lives);
        drop(works);
        drop(locks);
        drop(versions);
        drop(opens);
        drop(sessions);
    }
}
