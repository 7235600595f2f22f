//! The rows of the two views of a node.
ghost use Rattle.std.specs.Prelude.{◌≡◌, [], ◌++◌, map, filter, flat_map, fold, IfOk, OnOk};
ghost use Rattle.tran_ids.specs.Branch.{put_by_branch};
ghost use Rattle.pending_view.specs.Views.{has_sent_prepare as has_sent_prepare_of, is_working as is_working_in, in_view, in_row, out_row, pending_kept, pending_live, pending_rows, neighbors_of, neighbor_rows};

use crate::{NeighborRow, NeighborRows, PendingRow, PendingRows};
use dtx_values::{Listing, Name};
use redo_record::{KeptRow, Kid};
use session_tree::{Live, Phase};
use std::alloc::{AllocError, Global};

/// The rows of DBA_2PC_PENDING at a node, in the order of boot, session and seq: the live branches that have sent
/// Prepare, and the kept ones whose row is not hidden. Fails where memory runs out.
#[tactic(auto, unfolding(crate::specs::Views::pending_rows))]
pub fn pending(alloc: Global, kept: &[KeptRow], lives: &[Live]) -> Result<PendingRows, AllocError>
    ensures { IfOk result (λ rows. rows ≡ pending_rows kept.now lives.now) }
{
    let mut rows = Vec::new(alloc);
    add_collecting(&mut rows, alloc, lives)?;
    add_kept(&mut rows, alloc, kept)?;
    sort(&mut rows)?;
    Ok(Listing::of(rows))
}

/// The rows of DBA_2PC_NEIGHBORS at a node, where `names` are the names of all nodes: for each kept branch whose row is
/// not hidden its parent, and then its children in order of reference. Fails where memory runs out.
#[tactic(auto, unfolding(crate::specs::Views::neighbor_rows))]
pub fn neighbors(
    alloc: Global,
    names: &[Name],
    kept: &[KeptRow],
) -> Result<NeighborRows, AllocError>
    ensures { IfOk result (λ rows. rows ≡ neighbor_rows names.now kept.now) }
{
    let mut rows = Vec::new(alloc);
    for branch in kept {
        if !branch.hidden {
            add_neighbors(&mut rows, alloc, names, branch)?;
        }
    }
    Ok(Listing::of(rows))
}

fn is_working(phase: Phase) -> bool
    ensures { result ≡ is_working_in phase }
{
    matches!(phase, Phase::Working)
}

// A branch without children has none to send Prepare to.
fn has_sent_prepare(live: &Live) -> bool
    ensures { result ≡ has_sent_prepare_of live.now }
{
    !is_working(live.phase) && live.edges.as_slice().get(0).is_some()
}

fn add_collecting(
    rows: &mut Vec<PendingRow>,
    alloc: Global,
    lives: &[Live],
) -> Result<(), AllocError>
    ensures { OnOk result (rows.new.items ≡ rows.old.items ++ map pending_live (filter has_sent_prepare_of lives.now)) }
{
    for live in lives {
        if has_sent_prepare(live) {
            rows.push(PendingRow::of_live(alloc, live)?)?;
        }
    }
    Ok(())
}

fn add_kept(rows: &mut Vec<PendingRow>, alloc: Global, kept: &[KeptRow]) -> Result<(), AllocError>
    ensures { OnOk result (rows.new.items ≡ rows.old.items ++ map pending_kept (in_view kept.now)) }
{
    for row in kept {
        if !row.hidden {
            rows.push(PendingRow::of_kept(alloc, row)?)?;
        }
    }
    Ok(())
}

// Rows of equal places stay in the order in which they stand.
fn sort(rows: &mut Vec<PendingRow>) -> Result<(), AllocError>
    ensures { OnOk result (rows.new.items ≡ fold (put_by_branch (λ r. r.me)) [] rows.old.items) }
{
    rows.sort_by_key(|row| row.place())?;
    Ok(())
}

fn add_neighbors(
    rows: &mut Vec<NeighborRow>,
    alloc: Global,
    names: &[Name],
    branch: &KeptRow,
) -> Result<(), AllocError>
    ensures { OnOk result (rows.new.items ≡ rows.old.items ++ neighbors_of names.now branch.now) }
{
    add_parent(rows, alloc, names, branch)?;
    add_children(rows, alloc, branch, branch.children.as_slice())
}

fn add_parent(
    rows: &mut Vec<NeighborRow>,
    alloc: Global,
    names: &[Name],
    branch: &KeptRow,
) -> Result<(), AllocError>
    ensures { OnOk result (rows.new.items ≡ rows.old.items ++ in_row names.now branch.now branch.now.parent) }
{
    if let Some(parent) = branch.parent {
        rows.push(NeighborRow::of_parent(alloc, names, branch, parent)?)?;
    }
    Ok(())
}

fn add_children(
    rows: &mut Vec<NeighborRow>,
    alloc: Global,
    branch: &KeptRow,
    children: &[Kid],
) -> Result<(), AllocError>
    ensures { OnOk result (rows.new.items ≡ rows.old.items ++ map (out_row branch.now) children.now) }
{
    for child in children {
        rows.push(NeighborRow::of_child(alloc, branch, child)?)?;
    }
    Ok(())
}
