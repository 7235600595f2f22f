//! What one more record makes of each part of memory.
ghost use Rattle.std.specs.Prelude.{◌≡◌, OnOk, OnErr, false, fold};
ghost use Rattle.catalog.specs.Catalog.{is_used, is_link_used, with_table, with_link, with_synonym};
ghost use Rattle.node_rules.specs.Records.{raised_by, forced_scn, scn_after, commit_of, raised_to, top_by, versions_by, generation_after, take_changed, with_doubt, locks_after};
ghost use Rattle.redo_record.specs.declared.record.RedoRecord.TheVariants as records;
ghost use Rattle.node_memory.specs.After.{boot_after, strength_set, strength_after, catalog_set, catalog_after, store_after};
ghost use Rattle.node_memory.specs.Room.{HasRoomFor};
ghost use Rattle.node_memory.specs.Versions.{versions_as, versions_read_over};
ghost use Rattle.node_ready_laws.specs.Following.{MayBeListed, MayBeStored};

use crate::versions::{Versions, commit_in, version_of};
use catalog::{CatErr, Catalog};
use dtx_values::{Change, Duplicate, Link, Synonym, Table};
use redo_record::{Decision, Param, RedoRecord};
use row_locks::Locks;
use row_store::Store;
use std::alloc::{AllocError, Global};
use std::mem;
use tran_ids::{BranchId, Clock};

/// The number of the start.
pub(crate) fn change_boot(boot: &mut u32, redo: &RedoRecord)
    ensures { boot.new ≡ boot_after boot.old redo.now }
{
    if let RedoRecord::Boot(number) = redo {
        *boot = *number;
    }
}

/// The commit point strength that was set.
pub(crate) fn change_strength(strength: &mut Option<u8>, redo: &RedoRecord)
    ensures { strength.new ≡ strength_after strength.old redo.now }
{
    if let RedoRecord::Param(param) = redo {
        set_strength(strength, *param);
    }
}

fn set_strength(strength: &mut Option<u8>, param: Param)
    ensures { strength.new ≡ strength_set strength.old param }
{
    match param {
        Param::Recovery(_) => {}
        Param::Strength(set) => *strength = Some(set),
    }
}

/// The catalog. Fails where memory runs out, and then it stays as it is.
pub(crate) fn change_catalog(
    catalog: &mut Catalog,
    alloc: Global,
    redo: &RedoRecord,
) -> Result<(), AllocError>
    requires { MayBeListed catalog.old redo.now }
    ensures ok { OnOk result (catalog.new ≡ catalog_after catalog.old redo.now) }
    ensures err { OnErr result (catalog.new ≡ catalog.old) }
{
    match redo {
        RedoRecord::Table(table) => add_table(catalog, alloc, table),
        RedoRecord::Link(link) => add_link(catalog, alloc, link),
        RedoRecord::Synonym(synonym) => add_synonym(catalog, alloc, synonym),
        RedoRecord::Param(param) => {
            set_recovery(catalog, *param);
            Ok(())
        }
        _ => Ok(()),
    }
}

fn add_table(catalog: &mut Catalog, alloc: Global, table: &Table) -> Result<(), AllocError>
    requires { is_used catalog.old table.now.name ≡ false }
    ensures ok { OnOk result (catalog.new ≡ with_table catalog.old table.now) }
    ensures err { OnErr result (catalog.new ≡ catalog.old) }
{
    match catalog.add_table(alloc, table.copy(alloc)?) {
        Ok(()) => Ok(()),
        Err(CatErr::NoMemory) => Err(AllocError),
        Err(CatErr::Used) => unreachable!(),
    }
}

fn add_link(catalog: &mut Catalog, alloc: Global, link: &Link) -> Result<(), AllocError>
    requires { is_link_used catalog.old link.now.name ≡ false }
    ensures ok { OnOk result (catalog.new ≡ with_link catalog.old link.now) }
    ensures err { OnErr result (catalog.new ≡ catalog.old) }
{
    match catalog.add_link(alloc, link.copy(alloc)?) {
        Ok(()) => Ok(()),
        Err(CatErr::NoMemory) => Err(AllocError),
        Err(CatErr::Used) => unreachable!(),
    }
}

fn add_synonym(catalog: &mut Catalog, alloc: Global, synonym: &Synonym) -> Result<(), AllocError>
    requires { is_used catalog.old synonym.now.name ≡ false }
    ensures ok { OnOk result (catalog.new ≡ with_synonym catalog.old synonym.now) }
    ensures err { OnErr result (catalog.new ≡ catalog.old) }
{
    match catalog.add_synonym(alloc, synonym.copy(alloc)?) {
        Ok(()) => Ok(()),
        Err(CatErr::NoMemory) => Err(AllocError),
        Err(CatErr::Used) => unreachable!(),
    }
}

fn set_recovery(catalog: &mut Catalog, param: Param)
    ensures { catalog.new ≡ catalog_set catalog.old param }
{
    match param {
        Param::Recovery(on) => catalog.set_recovery(on),
        Param::Strength(_) => {}
    }
}

/// The rows, and what branches in doubt hold back. Fails where memory runs out, and then they stay as they are.
pub(crate) fn change_store(
    store: &mut Store,
    alloc: Global,
    redo: &RedoRecord,
) -> Result<(), AllocError>
    requires stored { MayBeStored store.old.rows store.old.doubts redo.now }
    requires room { HasRoomFor store.old redo.now }
    ensures ok { OnOk result (store.new ≡ store_after store.old redo.now) }
    ensures err { OnErr result (store.new ≡ store.old) }
{
    match redo {
        RedoRecord::Table(table) => store.add_table(alloc, table.name.copy(alloc)?),
        RedoRecord::Sealed(sealed) => {
            store.hold_back(alloc, &sealed.me, sealed.changes.copy(alloc)?)
        }
        RedoRecord::Decided(decided) => store.apply(alloc, decided.changes.as_slice()),
        RedoRecord::Ended { me, decision } => {
            settle(store, me, *decision);
            Ok(())
        }
        RedoRecord::Forced {
            me,
            decision,
            given: _given,
        } => {
            settle(store, me, *decision);
            Ok(())
        }
        _ => Ok(()),
    }
}

// A branch in doubt is ended or forced.
#[tactic(auto, using(crate::proofs::PartLaws::held_alike))]
fn settle(store: &mut Store, branch: &BranchId, decision: Decision)
    ensures ended { store.new ≡ store_after store.old (records.Ended branch.now decision) }
{
    match decision {
        Decision::Commit(_) => store.commit_doubt(branch),
        Decision::Rollback => store.drop_doubt(branch),
    }
}

/// The greatest SCN of the records, except those that users gave.
pub(crate) fn change_scn(scn: &mut Clock, redo: &RedoRecord)
    ensures { scn.new ≡ scn_after scn.old redo.now }
{
    match redo {
        RedoRecord::Sealed(sealed) => scn.meet(sealed.scn),
        RedoRecord::Decided(decided) => scn.meet(decided.scn),
        RedoRecord::Ended { decision, .. } => raise_by(scn, *decision),
        RedoRecord::Forced {
            decision,
            given,
            ..
        } => raise_forced(scn, *decision, *given),
        RedoRecord::Met { decision, .. } => raise_by(scn, *decision),
        RedoRecord::Image(image) => scn.meet(image.clock),
        _ => {}
    }
}

fn raise_by(scn: &mut Clock, decision: Decision)
    ensures { scn.new ≡ raised_by scn.old decision }
{
    match decision {
        Decision::Commit(n) => scn.meet(n),
        Decision::Rollback => {}
    }
}

fn raise_forced(scn: &mut Clock, decision: Decision, given: bool)
    ensures { scn.new ≡ forced_scn scn.old decision given }
{
    if !given {
        raise_by(scn, decision);
    }
}

/// The greatest SCN of a commit that changed rows, where these are the rows before the record.
pub(crate) fn change_top(top: &mut Clock, store: &Store, redo: &RedoRecord)
    ensures { top.new ≡ top_by top.old (commit_of store.now.doubts redo.now) }
{
    if let Some(commit) = commit_in(store, redo) {
        raise_top(top, commit.scn, commit.changes);
    }
}

#[tactic(auto, using(crate::proofs::VersionLaws::none_raised, crate::proofs::VersionLaws::some_raised))]
fn raise_top(top: &mut Clock, scn: u64, changes: &[Change])
    ensures { top.new ≡ raised_to top.old scn changes.now }
{
    if !changes.is_empty() {
        top.meet(scn);
    }
}

/// The number of the newest image.
pub(crate) fn change_generation(generation: &mut u64, redo: &RedoRecord)
    ensures { generation.new ≡ generation_after generation.old redo.now }
{
    if let RedoRecord::Image(image) = redo {
        *generation = image.generation;
    }
}

/// The commits that are kept, where these are the rows before the record. Fails where memory runs out.
#[tactic(auto, using(crate::proofs::VersionLaws::versions_so))]
pub(crate) fn add_version(
    versions: &mut Versions,
    alloc: Global,
    store: &Store,
    redo: &RedoRecord,
) -> Result<(), AllocError>
    ensures { OnOk result (versions_as versions.new ≡ versions_by store.now.rows (versions_as versions.old) (commit_of store.now.doubts redo.now)) }
{
    let version = version_of(alloc, store, redo)?;
    match versions.reserve() {
        Err(error) => {
            drop(version);
            Err(error)
        }
        Ok(()) => {
            versions.keep(version);
            Ok(())
        }
    }
}

/// The same in a start: of the commits before an image only the greatest SCN is known.
#[tactic(auto, using(crate::proofs::VersionLaws::versions_read_so))]
pub(crate) fn read_version(
    versions: &mut Versions,
    alloc: Global,
    store: &Store,
    redo: &RedoRecord,
) -> Result<(), AllocError>
    ensures { OnOk result (versions_as versions.new ≡ versions_read_over store.now.rows store.now.doubts (versions_as versions.old) redo.now) }
{
    match redo {
        RedoRecord::Image(image) => {
            let from = Versions::from(alloc, image.top);
            drop(mem::replace(versions, from));
            Ok(())
        }
        _ => add_version(versions, alloc, store, redo),
    }
}

/// The locks. Fails where memory runs out, and then some keys are held and some are not.
pub(crate) fn change_locks(
    locks: &mut Locks,
    alloc: Global,
    redo: &RedoRecord,
) -> Result<(), AllocError>
    ensures { OnOk result (locks.new ≡ locks_after locks.old redo.now) }
{
    match redo {
        RedoRecord::Sealed(sealed) => {
            locks.release(&sealed.me);
            hold_in_doubt(locks, alloc, &sealed.me, sealed.changes.as_slice())
        }
        RedoRecord::Ended { me, .. } => {
            locks.release(me);
            Ok(())
        }
        RedoRecord::Forced { me, .. } => {
            locks.release(me);
            Ok(())
        }
        _ => Ok(()),
    }
}

/// A branch holds the keys of its changes, in doubt. Fails where memory runs out, and then it holds some of them.
pub(crate) fn hold_in_doubt(
    locks: &mut Locks,
    alloc: Global,
    branch: &BranchId,
    changes: &[Change],
) -> Result<(), AllocError>
    ensures { OnOk result (locks.new ≡ with_doubt locks.old branch.now changes.now) }
{
    hold(locks, alloc, branch, changes)?;
    locks.mark_in_doubt(branch);
    Ok(())
}

fn hold(
    locks: &mut Locks,
    alloc: Global,
    branch: &BranchId,
    changes: &[Change],
) -> Result<(), AllocError>
    ensures { OnOk result (locks.new ≡ fold (take_changed branch.now) locks.old changes.now) }
{
    for change in changes {
        locks.hold(alloc, branch, &change.table, &change.key)?;
    }
    Ok(())
}
