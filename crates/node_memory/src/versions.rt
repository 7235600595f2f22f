//! The newest commits of a node, with the rows from before each, behind which READ ONLY transactions look.
ghost use Rattle.std.specs.Prelude.{◌≡◌, ◌∷◌, [], ◌++◌, map, fold, OnOk, IfOk};
ghost use Rattle.std.specs.Option.{option_copied, option_map};
ghost use Rattle.sql_eval.specs.Rows.{apply};
ghost use Rattle.row_store.specs.Own.{before};
ghost use Rattle.row_store.specs.Tables.{rows_of_table};
ghost use Rattle.read_only_tx.specs.Versions.{newest, versions_from, version_over, is_too_old as is_too_old_by};
ghost use Rattle.tran_ids.specs.Listed.{item_at};
ghost use Rattle.row_store.specs.Store.{doubt_id};
ghost use Rattle.node_rules.specs.Records.{commit_of, doubt_commit};
ghost use Rattle.node_memory.specs.Versions.{versions_as, HasSpare, commit_as, with_version, version_changing as version_changing_by, version_made, undone_in, redone_in, looked_back};

use dtx_values::{Change, Changes, Duplicate, Listing, Name, Row};
use redo_record::{Decision, RedoRecord};
use row_store::Store;
use sql_eval::KeyedRef;
use std::alloc::{AllocError, Global};
use std::marker::Model;
use stmt_store::change_all;
use tran_ids::BranchId;

// How many commits are kept.
const VERSION_LIMIT: usize = 64;

/// A commit that changed rows.
pub(crate) struct Version {
    /// Its SCN.
    scn: u64,
    /// Its changes.
    changes: Changes,
    /// Each of their keys with the row from before the commit.
    before: Changes,
}

impl Drop for Version {
    fn drop(self) {
        let Version {
            scn: _scn,
            changes,
            before,
        } = self;
        drop(changes);
        drop(before);
    }
}

impl Model for Version {
    ghost use Rattle.read_only_tx.specs.Versions.{Version};

    ghost Value = { Version };

    ghost view = { λ v. record { scn = v.scn; changes = v.changes; before = v.before } };
}

/// The newest commits, oldest first, and the greatest SCN of the others. Contracts see it by `versions_as`.
pub struct Versions {
    kept: Vec<Version>,
    floor: u64,
}

impl Drop for Versions {
    fn drop(self) {
        let Versions {
            kept,
            floor: _floor,
        } = self;
        drop(kept);
    }
}

impl Versions {
    /// No commit is kept, and the greatest SCN of all is this.
    pub(crate) fn from(alloc: Global, floor: u64) -> Versions
        ensures { versions_as result ≡ versions_from floor }
    {
        Versions {
            kept: Vec::new(alloc),
            floor,
        }
    }

    /// Makes room for one commit more. Fails where memory runs out.
    pub(crate) fn reserve(&mut self) -> Result<(), AllocError>
        ensures same { versions_as self.new ≡ versions_as self.old }
        ensures spare { OnOk result (HasSpare self.new) }
    {
        self.kept.try_reserve(1)?;
        Ok(())
    }

    /// With one commit more, where there is one. No memory is taken.
    pub(crate) fn keep(&mut self, version: Option<Version>)
        requires { HasSpare self.old }
        ensures { versions_as self.new ≡ with_version (versions_as self.old) version }
    {
        if let Some(version) = version {
            self.kept.push(version).unwrap();
            self.forget_oldest();
        }
    }

    /// Whether a commit up to this SCN may be one that is not kept any more.
    pub fn is_too_old(&self, scn: u64) -> bool
        ensures { result ≡ is_too_old_by (versions_as self.now) scn }
    {
        scn < self.floor
    }

    /// Takes the rows of a table back to an SCN: without the changes of the commits that are kept, and then with those of the
    /// commits up to it. Fails where memory runs out.
    pub fn look_back<'r>(
        &'r self,
        rows: &mut Vec<KeyedRef<'r>>,
        table: &Name,
        scn: u64,
    ) -> Result<(), AllocError>
        ensures { OnOk result (rows.new.items ≡ looked_back table.now rows.old.items (versions_as self.now) scn) }
    {
        undo_all(rows, table, self.kept.as_slice())?;
        redo_until(rows, table, self.kept.as_slice(), scn)
    }

    // Without the oldest commits that are too many.
    #[tactic(auto, using(crate::proofs::VersionLaws::all_kept, crate::proofs::VersionLaws::oldest_gone))]
    fn forget_oldest(&mut self)
        ensures { versions_as self.new ≡ newest (versions_as self.old).kept (versions_as self.old).floor }
    {
        while VERSION_LIMIT < self.kept.len() {
            let oldest = self.kept.remove(0);
            self.floor = self.floor.max(oldest.scn);
            drop(oldest);
        }
    }
}

/// A commit that a record makes.
#[derive(Drop)]
pub(crate) struct Commit<'a> {
    /// Its SCN.
    pub scn: u64,
    /// Its changes.
    pub changes: &'a [Change],
}

/// The commit that a record makes in the rows, where it makes one.
pub(crate) fn commit_in<'a>(store: &'a Store, redo: &'a RedoRecord) -> Option<Commit<'a>>
    ensures { option_map commit_as result ≡ commit_of store.now.doubts redo.now }
{
    match redo {
        RedoRecord::Decided(decided) => Some(Commit {
            scn: decided.scn,
            changes: decided.changes.as_slice(),
        }),
        RedoRecord::Ended { me, decision } => held_commit(store, me, *decision),
        RedoRecord::Forced {
            me,
            decision,
            given: _given,
        } => held_commit(store, me, *decision),
        _ => None,
    }
}

// A branch in doubt that commits.
#[tactic(auto, using(crate::proofs::PartLaws::held_alike))]
fn held_commit<'a>(store: &'a Store, branch: &BranchId, decision: Decision) -> Option<Commit<'a>>
    ensures { option_map commit_as result ≡ doubt_commit (item_at doubt_id store.now.doubts branch.now) decision }
{
    match decision {
        Decision::Commit(scn) => Some(Commit {
            scn,
            changes: store.held(branch),
        }),
        Decision::Rollback => None,
    }
}

/// The commit that a record makes, where it changes rows, with the rows from before it. Fails where memory runs out.
pub(crate) fn version_of(
    alloc: Global,
    store: &Store,
    redo: &RedoRecord,
) -> Result<Option<Version>, AllocError>
    ensures { IfOk result (λ version. version ≡ version_made store.now.rows (commit_of store.now.doubts redo.now)) }
{
    match commit_in(store, redo) {
        None => Ok(None),
        Some(commit) => version_changing(alloc, store, commit.scn, commit.changes),
    }
}

// A commit of these changes, where there are some.
#[tactic(auto, using(crate::proofs::VersionLaws::none_changing, crate::proofs::VersionLaws::some_changing))]
fn version_changing(
    alloc: Global,
    store: &Store,
    scn: u64,
    changes: &[Change],
) -> Result<Option<Version>, AllocError>
    ensures { IfOk result (λ version. version ≡ version_changing_by store.now.rows scn changes.now) }
{
    if changes.is_empty() {
        Ok(None)
    } else {
        Ok(Some(version_over(alloc, store, scn, changes)?))
    }
}

// A commit of these changes, over the rows from before it.
fn version_over(
    alloc: Global,
    store: &Store,
    scn: u64,
    changes: &[Change],
) -> Result<Version, AllocError>
    ensures { IfOk result (λ version. version ≡ version_over store.now.rows scn changes.now) }
{
    let before = rows_before(alloc, store, changes)?;
    let changes = copies(alloc, changes)?;
    Ok(Version {
        scn,
        changes: Listing::of(changes),
        before: Listing::of(before),
    })
}

// Each key with the committed row.
fn rows_before(alloc: Global, store: &Store, changes: &[Change]) -> Result<Vec<Change>, AllocError>
    ensures { IfOk result (λ rows. rows.items ≡ map (λ c. before (rows_of_table store.now.rows c.table) c) changes.now) }
{
    let mut rows = Vec::with_capacity(alloc, changes.len())?;
    for change in changes {
        rows.push(row_before(alloc, store, change)?)?;
    }
    Ok(rows)
}

fn row_before(alloc: Global, store: &Store, change: &Change) -> Result<Change, AllocError>
    ensures { IfOk result (λ row. row ≡ before (rows_of_table store.now.rows change.now.table) change.now) }
{
    let after = row_copy(alloc, store.committed(&change.table, &change.key))?;
    Ok(Change {
        table: change.table.copy(alloc)?,
        key: change.key.copy(alloc)?,
        after,
    })
}

fn row_copy(alloc: Global, row: Option<&Row>) -> Result<Option<Row>, AllocError>
    ensures { IfOk result (λ copy. copy ≡ option_copied row.entry) }
{
    match row {
        None => Ok(None),
        Some(row) => Ok(Some(row.copy(alloc)?)),
    }
}

fn copies(alloc: Global, changes: &[Change]) -> Result<Vec<Change>, AllocError>
    ensures { IfOk result (λ copies. copies.items ≡ changes.now) }
{
    let mut copies = Vec::with_capacity(alloc, changes.len())?;
    for change in changes {
        copies.push(change.copy(alloc)?)?;
    }
    Ok(copies)
}

// Puts back the rows from before commits, the newest first.
fn undo_all<'r>(
    rows: &mut Vec<KeyedRef<'r>>,
    table: &Name,
    kept: &'r [Version],
) -> Result<(), AllocError>
    ensures { OnOk result (rows.new.items ≡ undone_in table.now rows.old.items kept.now) }
{
    let mut left = kept.len();
    while 0 < left {
        left -= 1;
        undo(rows, table, &kept[left])?;
    }
    Ok(())
}

fn undo<'r>(
    rows: &mut Vec<KeyedRef<'r>>,
    table: &Name,
    version: &'r Version,
) -> Result<(), AllocError>
    ensures { OnOk result (rows.new.items ≡ apply table.now rows.old.items version.now.before) }
{
    change_all(rows, table, version.before.as_slice())
}

// Puts the changes of the commits up to an SCN in their places, the oldest first.
fn redo_until<'r>(
    rows: &mut Vec<KeyedRef<'r>>,
    table: &Name,
    kept: &'r [Version],
    scn: u64,
) -> Result<(), AllocError>
    ensures { OnOk result (rows.new.items ≡ fold (redone_in table.now scn) rows.old.items kept.now) }
{
    for version in kept {
        redo(rows, table, version, scn)?;
    }
    Ok(())
}

fn redo<'r>(
    rows: &mut Vec<KeyedRef<'r>>,
    table: &Name,
    version: &'r Version,
    scn: u64,
) -> Result<(), AllocError>
    ensures { OnOk result (rows.new.items ≡ redone_in table.now scn rows.old.items version.now) }
{
    if version.scn <= scn {
        change_all(rows, table, version.changes.as_slice())?;
    }
    Ok(())
}
