//! The branches in doubt, as their records have them.
ghost use Rattle.std.specs.Prelude.{◌≡◌, ◌≤◌, OnOk, IfOk, map, fold, length};
ghost use Rattle.std.specs.List.{position_or_len};
ghost use Rattle.tran_ids.specs.Branch.{branch_below, put_by_branch};
ghost use Rattle.tran_ids.specs.Listed.{drop_item};
ghost use Rattle.node_memory.specs.Doubts.{sealed_id, in_doubt_after, in_doubt_by, with_keys_of};

use crate::parts::hold_in_doubt;
use redo_record::{RedoRecord, Sealed};
use row_locks::Locks;
use std::alloc::{AllocError, Global};
use tran_ids::BranchId;

/// The records of the branches that are in doubt after all these. Fails where memory runs out.
pub(crate) fn in_doubt(alloc: Global, records: &[RedoRecord]) -> Result<Vec<&Sealed>, AllocError>
    ensures { IfOk result (λ doubts. map (λ r. r.now) doubts.items ≡ in_doubt_by records.now) }
{
    let mut doubts = Vec::new(alloc);
    for item in records {
        note(&mut doubts, item)?;
    }
    Ok(doubts)
}

fn note<'a>(doubts: &mut Vec<&'a Sealed>, item: &'a RedoRecord) -> Result<(), AllocError>
    ensures { OnOk result (map (λ r. r.now) doubts.new.items ≡ in_doubt_after (map (λ r. r.now) doubts.old.items) item.now) }
{
    match item {
        RedoRecord::Sealed(sealed) => enter(doubts, sealed)?,
        RedoRecord::Ended { me, .. } => leave(doubts, me),
        RedoRecord::Forced { me, .. } => leave(doubts, me),
        _ => {}
    }
    Ok(())
}

// It stands in front of the first that it comes before.
fn enter<'a>(doubts: &mut Vec<&'a Sealed>, sealed: &'a Sealed) -> Result<(), AllocError>
    ensures { OnOk result (map (λ r. r.now) doubts.new.items ≡ put_by_branch sealed_id (map (λ r. r.now) doubts.old.items) sealed.now) }
{
    let place = place_among(doubts.as_slice(), &sealed.me);
    doubts.insert(place, sealed)?;
    Ok(())
}

fn place_among(doubts: &[&Sealed], branch: &BranchId) -> usize
    ensures first { result ≡ position_or_len (λ r. branch_below branch.now r.now.me) doubts.now }
    ensures within { result ≤ length doubts.now }
{
    for (place, other) in doubts.iter().enumerate() {
        if branch.is_before(&other.me) {
            return place;
        }
    }
    doubts.len()
}

fn leave(doubts: &mut Vec<&Sealed>, branch: &BranchId)
    ensures { map (λ r. r.now) doubts.new.items ≡ drop_item sealed_id (map (λ r. r.now) doubts.old.items) branch.now }
{
    doubts.retain(|sealed| !sealed.me.is(branch));
}

/// Each of these branches holds the keys of its changes, in doubt. Fails where memory runs out.
pub(crate) fn hold_all(
    locks: &mut Locks,
    alloc: Global,
    doubts: &[&Sealed],
) -> Result<(), AllocError>
    ensures { OnOk result (locks.new ≡ fold (λ held r. with_keys_of held r.now) locks.old doubts.now) }
{
    for sealed in doubts {
        hold_in_doubt(locks, alloc, &sealed.me, sealed.changes.as_slice())?;
    }
    Ok(())
}
