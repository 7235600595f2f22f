//! The rows of a node, with what branches have changed of them.
ghost use Rattle.std.specs.Prelude.{◌≡◌, ◌-◌, ◌<◌, ◌≤◌, ◌^◌, List, [], ◌∷◌, ◌++◌, false, None, flat_map, length, nat_lt, IfOk, OnOk, OnErr, IsErrOf, MatchResult};
ghost use Rattle.std.specs.List.{list_any};
ghost use Rattle.std.specs.List.Sorted.{IsStrictlySortedBy};
ghost use Rattle.std.specs.Option.{option_copied};
ghost use Rattle.dtx_values.specs.declared.row.Change.{Change as AnyChange};
ghost use Rattle.dtx_values.specs.Limits.{changes_limit};
ghost use Rattle.dtx_values.specs.Order.{value_cmp};
ghost use Rattle.sql_check.specs.Words.{same_text};
ghost use Rattle.sql_eval.specs.Rows.{get as get_of, keys_of as keys_in};
ghost use Rattle.field_codec.specs.Change.{change_format};
ghost use Rattle.undo_book.specs.Undo.{changes_in};
ghost use Rattle.row_store.specs.Own.{changes_length, last_at as last_at_of, extents as extents_of};
ghost use Rattle.row_store.specs.Pending.{changes_of, undo_of, undo_over};
ghost use Rattle.row_store.specs.Tables.{apply_all, rows_of_table, with_table};
ghost use Rattle.tran_ids.specs.Listed.{item_at};
ghost use Rattle.row_store.specs.Store.{doubt_id, held_back, nothing_kept, AreOfTables, own_changes, seen_by, set_seen, sets_at, extents_of_sets, with_pending, bytes_with as bytes_with_of, extents_needed, extents_free, refusal_of, RefusesOnly, without_last, without_sets, committed, rolled_back, held_from, sealed, is_in_doubt as is_in_doubt_of, doubt_committed, doubt_dropped, undo_held, holders};

use crate::StoreErr;
use crate::lengths::{changes_len, extents, sum};
use crate::own_sets::{bytes_of, last_of};
use crate::pending_changes::PendingChanges;
use crate::placing::{UndoneChanges, copies, made_over, make_changes, make_places};
use crate::row_places::refs_seen;
use crate::table_places::TablePlaces;
use crate::undoing::add_undo;
use dtx_values::{Bytes, CHANGES_LIMIT, Change, Changes, Duplicate, Listing, Name, Row, Value};
use sql_eval::KeyedRef;
use std::alloc::{AllocError, Global};
use std::marker::Model;
use tran_ids::BranchId;
use undo_book::UndoSet;

/// The committed rows of a node, for each live branch the changes of its statements, the changes that branches in doubt hold
/// back, and the undo of both in a pool. A commit moves rows to places that were made for them when the changes came, and takes
/// no memory.
pub struct Store {
    tables: TablePlaces,
    pending: PendingChanges,
}

impl Drop for Store {
    fn drop(self) {
        let Store { tables, pending } = self;
        drop(tables);
        drop(pending);
    }
}

impl Model for Store {
    ghost use Rattle.row_store.specs.TablePlaces.{rows_in};
    ghost use Rattle.row_store.specs.AllPlaced.{HavePlaces};
    ghost use Rattle.row_store.specs.Store.{Contents};

    ghost Value = { Contents };

    ghost view = { λ s. record { rows = rows_in s.tables; owns = s.pending.owns; doubts = s.pending.doubts; extents = s.pending.extents } };

    ghost invariant = { λ s. HavePlaces s.tables s.pending.owns s.pending.doubts };
}

impl Store {
    /// No table, with so many undo extents, for which it takes the memory. At most 1,024.
    pub fn new(alloc: Global, undo: u32) -> Result<Store, AllocError>
        requires { undo ≤ 1024 }
        ensures { IfOk result (λ store. store ≡ nothing_kept undo) }
    {
        let pending = PendingChanges::new(alloc, undo)?;
        Ok(Store {
            tables: TablePlaces::new(alloc),
            pending,
        })
    }

    /// Adds a table of a new name, with no rows.
    pub fn add_table(&mut self, alloc: Global, table: Name) -> Result<(), AllocError>
        requires new { list_any (λ t. same_text t.table table) self.old.rows ≡ false }
        ensures ok { OnOk result (self.new ≡ record self.old { rows = with_table self.old.rows table }) }
        ensures err { OnErr result (self.new ≡ self.old) }
    {
        self.tables.add_table(alloc, table)
    }

    /// The row at a key as a branch sees it: what its last own change there leaves, or else the committed row.
    pub fn view(&self, branch: &BranchId, table: &Name, key: &Value) -> Option<&Row>
        ensures row { option_copied result ≡ get_of (seen_by self.now branch.now table.now) key.now }

        // The keys that the branch sees rise.
        ensures ordered { IsStrictlySortedBy value_cmp (keys_in (seen_by self.now branch.now table.now)) }
    {
        let committed = self.tables.get(table, key);
        match last_of(self.pending.sets(branch), table, key) {
            Some(after) => after.as_ref(),
            None => committed,
        }
    }

    /// All rows of a table as a branch sees them, where they stand, in key order: own rows where the branch has changed
    /// something, else the committed ones. A branch that has changed nothing has no key looked up.
    pub fn all(
        &self,
        alloc: Global,
        branch: &BranchId,
        table: &Name,
    ) -> Result<Vec<KeyedRef<'_>>, AllocError>
        ensures { IfOk result (λ rows. rows.items ≡ seen_by self.now branch.now table.now) }
    {
        match self.tables.places(table) {
            Some(places) => refs_seen(alloc, places, table, self.pending.sets(branch)),
            None => Ok(Vec::new(alloc)),
        }
    }

    /// The keys of the rows of a table that a branch sees, in order.
    pub fn keys(
        &self,
        alloc: Global,
        branch: &BranchId,
        table: &Name,
    ) -> Result<Vec<Value>, AllocError>
        ensures { IfOk result (λ keys. keys.items ≡ keys_in (seen_by self.now branch.now table.now)) }
    {
        let rows = self.all(alloc, branch, table)?;
        keys_of(alloc, rows.as_slice())
    }

    /// The committed row at a key of a table.
    pub fn committed(&self, table: &Name, key: &Value) -> Option<&Row>
        ensures { option_copied result ≡ get_of (rows_of_table self.now.rows table.now) key.now }
    {
        self.tables.get(table, key)
    }

    /// The changes that a branch in doubt holds back, and none where it is not in doubt.
    pub fn held(&self, branch: &BranchId) -> &[Change]
        ensures { result.now ≡ held_back (item_at doubt_id self.now.doubts branch.now) }
    {
        self.pending.held(branch)
    }

    /// Whether a branch has changed anything.
    pub fn has_changes(&self, branch: &BranchId) -> bool
        ensures { result ≡ nat_lt 0 (length (own_changes self.now branch.now)) }
    {
        match self.pending.sets(branch) {
            Some(sets) => sets.has_changes(),
            None => false,
        }
    }

    /// What a branch has changed.
    pub fn changes(&self, branch: &BranchId) -> &[Change]
        ensures { result.now ≡ own_changes self.now branch.now }
    {
        match self.pending.sets(branch) {
            Some(sets) => sets.as_slice(),
            None => &[],
        }
    }

    /// A copy of what a branch has changed, of tables that are there.
    pub fn own(&self, alloc: Global, branch: &BranchId) -> Result<Changes, AllocError>
        ensures changes { IfOk result (λ changes. changes ≡ own_changes self.now branch.now) }
        ensures tables { AreOfTables self.now.rows (own_changes self.now branch.now) }
    {
        match self.pending.sets(branch) {
            Some(sets) => sets.changes(alloc),
            None => Ok(Listing::new(alloc)),
        }
    }

    /// The undo extents that nobody holds.
    pub fn free(&self) -> u64
        ensures { result ≡ extents_free self.now }
    {
        self.room()
    }

    /// The bytes of the undo that a branch holds: each of its changes with the row from before it, which the bytes say. Fails
    /// where memory runs out.
    pub fn undo(&self, alloc: Global, branch: &BranchId) -> Result<Bytes, AllocError>
        ensures text { IfOk result (λ bytes. bytes ≡ flat_map change_format.text (undo_held self.now branch.now)) }
        ensures said { IfOk result (λ bytes. changes_in bytes ≡ undo_held self.now branch.now) }
    {
        self.pending.undo(alloc, branch)
    }

    /// The undo extents that a branch holds.
    pub fn extents(&self, branch: &BranchId) -> u32
        ensures { result ≡ extents_of (changes_length (undo_held self.now branch.now)) }
    {
        self.pending.extents(branch)
    }

    /// The branches that may hold undo: the live ones that have run statements, and then those in doubt. Fails where memory
    /// runs out.
    pub fn branches(&self, alloc: Global) -> Result<Vec<BranchId>, AllocError>
        ensures { IfOk result (λ branches. branches.items ≡ holders self.now.owns self.now.doubts) }
    {
        self.pending.branches(alloc)
    }

    /// Adds the changes of one more statement of a branch, with the undo of each over what the branch saw before the statement.
    /// Each changed key gets a place, so that a commit takes no memory. An empty list counts as one, and holds no undo. Fails with
    /// `TooLarge` exactly where the branch's changes would take more than `CHANGES_LIMIT` bytes, else with `Full` exactly
    /// where their undo needs more extents than are free, and with `NoMemory` where memory runs out. After an error all is as
    /// before. No other branch may have a change of these keys.
    pub fn set_pending(
        &mut self,
        alloc: Global,
        branch: &BranchId,
        changes: Changes,
    ) -> Result<(), StoreErr>
        requires { AreOfTables self.old.rows changes }
        ensures ok { OnOk result (self.new ≡ with_pending self.old branch.now changes) }
        ensures refused { RefusesOnly result (refusal_of self.old branch.now changes) }
        // That they would be too large is seen before any memory is taken.
        ensures large { changes_limit < bytes_with_of self.old branch.now changes → bytes_with_of self.old branch.now changes < 2 ^ 64
            → IsErrOf result (StoreErr.TooLarge (bytes_with_of self.old branch.now changes)) }
        ensures err { OnErr result (self.new ≡ self.old) }
    {
        let undo = self.admitted(alloc, branch, changes.as_slice())?;
        self.take(alloc, branch, changes, &undo)?;
        Ok(())
    }

    /// Takes back the last set of changes of a branch, where it has one.
    pub fn undo_last(&mut self, branch: &BranchId)
        ensures { self.new ≡ record self.old { owns = without_last self.old.owns branch.now } }
    {
        self.pending.pop(branch);
    }

    /// Takes back so many of the last sets of changes of a branch, or all where it has no more.
    pub fn undo_sets(&mut self, branch: &BranchId, count: u32)
        ensures { self.new ≡ record self.old { owns = without_sets self.old.owns branch.now count } }
    {
        for _ in 0..count {
            self.undo_last(branch);
        }
    }

    /// Makes the changes of a branch, and drops it.
    pub fn commit(&mut self, branch: &BranchId)
        ensures { self.new ≡ committed self.old branch.now }
    {
        if let Some(changes) = self.pending.remove(branch) {
            make_changes(&mut self.tables, changes);
        }
    }

    /// Drops the changes of a branch.
    pub fn rollback(&mut self, branch: &BranchId)
        ensures { self.new ≡ rolled_back self.old branch.now }
    {
        drop(self.pending.remove(branch));
    }

    /// Makes the changes of a live branch those of a branch in doubt. Neither they nor their undo are copied:
    /// the undo that the branch holds is that of its changes over the committed rows. After an error all is as before.
    pub fn seal(&mut self, alloc: Global, branch: &BranchId) -> Result<(), AllocError>
        requires apart { is_in_doubt_of self.old.doubts branch.now ≡ false }
        requires undo { undo_of (sets_at self.old.owns branch.now) ≡ undo_over self.old.rows (own_changes self.old branch.now) }
        ensures ok { OnOk result (self.new ≡ sealed self.old branch.now) }
        ensures err { OnErr result (self.new ≡ self.old) }
    {
        self.pending.seal(alloc, branch)
    }

    /// Adds a branch in doubt with these changes, as a start does of its records. Each changed key gets a
    /// place, so that committing them takes no memory. Their undo has room. After an error all is as before.
    pub fn hold_back(
        &mut self,
        alloc: Global,
        branch: &BranchId,
        changes: Changes,
    ) -> Result<(), AllocError>
        requires tables { AreOfTables self.old.rows changes }
        requires apart { is_in_doubt_of self.old.doubts branch.now ≡ false }
        requires room { extents_of (changes_length (undo_over self.old.rows changes)) ≤ extents_free self.old }
        ensures ok { OnOk result (self.new ≡ held_from self.old branch.now changes) }
        ensures err { OnErr result (self.new ≡ self.old) }
    {
        let UndoneChanges { made, undo } = made_over(alloc, &self.tables, changes)?;
        make_places(alloc, &mut self.tables, made.as_slice())?;
        self.pending.hold_back(branch, made.into_vec(), &undo)
    }

    /// Makes the changes of a branch in doubt, which is then in doubt no longer. Nothing where it is not in doubt.
    pub fn commit_doubt(&mut self, branch: &BranchId)
        ensures { self.new ≡ doubt_committed self.old branch.now }
    {
        if let Some(changes) = self.pending.settle(branch) {
            make_changes(&mut self.tables, changes);
        }
    }

    /// Drops the changes of a branch in doubt, which is then in doubt no longer. Nothing where it is not in doubt.
    pub fn drop_doubt(&mut self, branch: &BranchId)
        ensures { self.new ≡ doubt_dropped self.old branch.now }
    {
        drop(self.pending.settle(branch));
    }

    /// Makes changes of no branch that is known here, as a start does of its records. After an error all is as before.
    pub fn apply(&mut self, alloc: Global, changes: &[Change]) -> Result<(), AllocError>
        requires tables { AreOfTables self.old.rows changes.now }
        ensures ok { OnOk result (self.new ≡ record self.old { rows = apply_all self.old.rows changes.now }) }
        ensures err { OnErr result (self.new ≡ self.old) }
    {
        let made = copies(alloc, changes)?;
        make_places(alloc, &mut self.tables, made.as_slice())?;
        make_changes(&mut self.tables, made);
        Ok(())
    }

    // The undo of the changes, where nothing refuses them.
    fn admitted(
        &self,
        alloc: Global,
        branch: &BranchId,
        changes: &[Change],
    ) -> Result<UndoSet, StoreErr>
        ensures undo { IfOk result (λ undo. undo ≡ (set_seen self.now branch.now changes.now).undo) }
        ensures refused { RefusesOnly result (refusal_of self.now branch.now changes.now) }
        ensures large { changes_limit < bytes_with_of self.now branch.now changes.now → bytes_with_of self.now branch.now changes.now < 2 ^ 64
            → IsErrOf result (StoreErr.TooLarge (bytes_with_of self.now branch.now changes.now)) }
        ensures room { OnOk result (extents_needed self.now branch.now changes.now ≤ extents_free self.now) }
    {
        let bytes = self.bytes_with(branch, changes)?;
        if bytes > CHANGES_LIMIT {
            return Err(StoreErr::TooLarge { bytes });
        }
        let undo = self.seen(alloc, branch, changes)?;
        let need = self.needed(branch, &undo)?;
        fits(need, self.room())?;
        Ok(undo)
    }

    // The bytes of a branch's changes with these.
    fn bytes_with(&self, branch: &BranchId, changes: &[Change]) -> Result<u64, AllocError>
        ensures bytes { IfOk result (λ bytes. bytes ≡ bytes_with_of self.now branch.now changes.now) }
        ensures many { OnErr result (2 ^ 64 ≤ bytes_with_of self.now branch.now changes.now) }
    {
        sum(bytes_of(self.pending.sets(branch)), changes_len(changes)?)
    }

    // The undo of the changes: each with the row that the branch sees now.
    fn seen(
        &self,
        alloc: Global,
        branch: &BranchId,
        changes: &[Change],
    ) -> Result<UndoSet, AllocError>
        ensures { IfOk result (λ undo. undo ≡ (set_seen self.now branch.now changes.now).undo) }
    {
        let mut undo = UndoSet::new(alloc);
        for change in changes {
            add_undo(
                &mut undo,
                change,
                self.view(branch, &change.table, &change.key),
            )?;
        }
        Ok(undo)
    }

    // The extents that changes with this undo need beside those that the branch holds.
    fn needed(&self, branch: &BranchId, undo: &UndoSet) -> Result<u64, AllocError>
        ensures { let sets = sets_at self.now.owns branch.now in
            IfOk result (λ need. (changes : List AnyChange) → need ≡ extents_of_sets (sets ++ (record { changes = changes; undo = undo.now }) ∷ []) - extents_of_sets sets) }
    {
        let held = u64::from(self.pending.undo_len(branch));
        let all = sum(held, undo.len() as u64)?;
        Ok(extents(all).saturating_sub(extents(held)))
    }

    // The undo extents that nobody holds.
    fn room(&self) -> u64
        ensures { result ≡ extents_free self.now }
    {
        u64::from(self.pending.free())
    }

    // Takes a set of changes with their undo, which has room.
    fn take(
        &mut self,
        alloc: Global,
        branch: &BranchId,
        changes: Changes,
        undo: &UndoSet,
    ) -> Result<(), AllocError>
        requires tables { AreOfTables self.old.rows changes }
        requires undo { undo.now ≡ (set_seen self.old branch.now changes).undo }
        requires room { extents_needed self.old branch.now changes ≤ extents_free self.old }
        ensures ok { OnOk result (self.new ≡ with_pending self.old branch.now changes) }
        ensures err { OnErr result (self.new ≡ self.old) }
    {
        make_places(alloc, &mut self.tables, changes.as_slice())?;
        self.pending.push(alloc, branch, changes, undo)
    }
}

// Whether what is needed is free. That it is not is never answered as out of memory.
fn fits(need: u64, free: u64) -> Result<(), StoreErr>
    ensures { MatchResult result (λ _. need ≤ free) (λ err. (err ≡ StoreErr.Full need free) × (free < need)) }
{
    if need > free {
        return Err(StoreErr::Full { need, free });
    }
    Ok(())
}

// Copies of the keys of rows.
fn keys_of(alloc: Global, rows: &[KeyedRef]) -> Result<Vec<Value>, AllocError>
    ensures { IfOk result (λ keys. keys.items ≡ keys_in rows.now) }
{
    let mut keys = Vec::with_capacity(alloc, rows.len())?;
    for keyed in rows {
        keys.push(keyed.key.copy(alloc)?)?;
    }
    Ok(keys)
}
