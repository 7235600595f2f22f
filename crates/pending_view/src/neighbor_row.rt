//! A row of DBA_2PC_NEIGHBORS (Database Reference).
ghost use Rattle.std.specs.Prelude.{◌≡◌, [], ◌∷◌, Some, IfOk};
ghost use Rattle.session_tree.specs.Live.{is_branch as is_branch_of};
ghost use Rattle.pending_view.specs.Views.{in_row, out_row};

use dtx_values::{Bytes, Listing, Name};
use redo_record::{KeptRow, Kid};
use std::alloc::{AllocError, Global};
use std::marker::Model;
use tran_ids::{BranchId, node_name};

/// A row of DBA_2PC_NEIGHBORS: the edge from a branch to a neighbour.
#[derive(Drop)]
pub struct NeighborRow {
    /// LOCAL_TRAN_ID: the branch.
    pub me: BranchId,
    /// IN_OUT: whether the neighbour is the parent. Else it is a child.
    pub is_in: bool,
    /// DATABASE: the name of the parent's node, or of the link to the child.
    pub database: Bytes,
    /// INTERFACE: whether the neighbour is on the way to the commit point site.
    pub to_site: bool,
}

/// Rows of DBA_2PC_NEIGHBORS in order.
pub type NeighborRows = Listing<NeighborRow>;

impl Model for NeighborRow {
    ghost use Rattle.pending_view.specs.Views.{Neighbor};

    ghost Value = { Neighbor };

    ghost view = { λ r. record { me = r.me; is_in = r.is_in; database = r.database; to_site = r.to_site } };
}

impl NeighborRow {
    /// The row of the parent.
    pub(crate) fn of_parent(
        alloc: Global,
        names: &[Name],
        kept: &KeptRow,
        parent: BranchId,
    ) -> Result<NeighborRow, AllocError>
        ensures { IfOk result (λ row. row ∷ [] ≡ in_row names.now kept.now (Some parent)) }
    {
        let name = Vec::from_slice(alloc, node_name(names, parent.node))?;
        Ok(NeighborRow {
            me: kept.me,
            is_in: true,
            database: Listing::of(name),
            to_site: is_branch(&parent, kept.toward),
        })
    }

    /// The row of a child.
    pub(crate) fn of_child(
        alloc: Global,
        kept: &KeptRow,
        child: &Kid,
    ) -> Result<NeighborRow, AllocError>
        ensures { IfOk result (λ row. row ≡ out_row kept.now child.now) }
    {
        let link = Vec::from_slice(alloc, child.link.as_bytes())?;
        Ok(NeighborRow {
            me: kept.me,
            is_in: false,
            database: Listing::of(link),
            to_site: is_branch(&child.branch, kept.toward),
        })
    }
}

fn is_branch(branch: &BranchId, toward: Option<BranchId>) -> bool
    ensures { result ≡ is_branch_of branch.now toward }
{
    match toward {
        None => false,
        Some(toward) => toward.is(branch),
    }
}
