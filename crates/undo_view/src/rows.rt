//! What the branches of a node hold that hold undo.
ghost use Rattle.std.specs.Prelude.{◌≡◌, filter, map, IfOk, OnOk};
ghost use Rattle.row_store.specs.Store.{undo_held};
ghost use Rattle.pending_view.specs.Order.{place_of};
ghost use Rattle.undo_view.specs.Views.{has_bytes, held, in_order, undo_rows};

use crate::{Undo, Undos};
use dtx_values::Listing;
use row_store::Store;
use std::alloc::{AllocError, Global};
use tran_ids::BranchId;

/// What the branches of a node hold that hold undo, live ones and those in doubt, in the order of boot, session and seq.
/// Fails where memory runs out.
#[tactic(auto, unfolding(crate::specs::Views::undo_rows))]
pub fn undos(alloc: Global, store: &Store) -> Result<Undos, AllocError>
    ensures { IfOk result (λ undos. undos ≡ undo_rows store.now.owns store.now.doubts) }
{
    let mut branches = store.branches(alloc)?;
    sort(&mut branches)?;
    Ok(Listing::of(undos_of(alloc, store, branches.as_slice())?))
}

fn place(branch: &BranchId) -> (u32, u32, u32)
    ensures { result ≡ place_of branch.now }
{
    (branch.boot, branch.session, branch.seq)
}

fn sort(branches: &mut Vec<BranchId>) -> Result<(), AllocError>
    ensures { OnOk result (branches.new.items ≡ in_order branches.old.items) }
{
    branches.sort_by_key(|branch| place(branch))?;
    Ok(())
}

// What these branches hold, those that hold undo.
fn undos_of(alloc: Global, store: &Store, branches: &[BranchId]) -> Result<Vec<Undo>, AllocError>
    ensures { IfOk result (λ undos. undos.items ≡ filter has_bytes (map (λ b. held b (undo_held store.now b)) branches.now)) }
{
    let mut undos = Vec::new(alloc);
    for branch in branches {
        let undo = undo_of(alloc, store, branch)?;
        if !undo.bytes.as_slice().is_empty() {
            undos.push(undo)?;
        }
    }
    Ok(undos)
}

fn undo_of(alloc: Global, store: &Store, branch: &BranchId) -> Result<Undo, AllocError>
    ensures { IfOk result (λ undo. undo ≡ held branch.now (undo_held store.now branch.now)) }
{
    let bytes = store.undo(alloc, branch)?;
    Ok(Undo {
        branch: *branch,
        extents: store.extents(branch),
        bytes,
    })
}
