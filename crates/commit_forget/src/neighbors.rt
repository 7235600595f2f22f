//! The neighbours of a kept branch that are away from the commit point site.
ghost use Rattle.std.specs.Prelude.{◌≡◌, not, option_to_list, IfOk};
ghost use Rattle.std.specs.List.{list_all, list_any};
ghost use Rattle.tran_ids.specs.Branch.{same};
ghost use Rattle.session_tree.specs.Live.{is_branch as is_branch_of};
ghost use Rattle.commit_forget.specs.Beyond.{parent_beyond as parent_beyond_of, kid_beyond as kid_beyond_of, beyond, all_acked as all_acked_of, is_beyond as is_beyond_of, is_neighbor as is_neighbor_of, needs_no_ack as needs_no_ack_of, is_this_kid as is_this_kid_of};

use crate::{Beyond, Beyonds};
use dtx_values::Listing;
use redo_record::{KeptRow, Kid};
use std::alloc::{AllocError, Global};
use tran_ids::BranchId;

/// Whether this branch is the one of an id that may be missing.
pub(crate) fn is_branch(id: &BranchId, other: Option<BranchId>) -> bool
    ensures { result ≡ is_branch_of id.now other }
{
    match other {
        None => false,
        Some(other) => other.is(id),
    }
}

/// The neighbours of a kept branch away from the commit point site: its parent, unless it is toward the site, then its
/// children but for the one toward the site, in order of reference.
#[tactic(auto, unfolding(crate::specs::Beyond::beyond))]
pub fn beyond_of(alloc: Global, row: &KeptRow) -> Result<Beyonds, AllocError>
    ensures { IfOk result (λ found. found ≡ beyond row.now) }
{
    let kids = row.children.as_slice();
    let mut found = Vec::new(alloc);
    if let Some(parent) = parent_beyond(row) {
        found.push(parent)?;
    }
    for kid in kids {
        if is_away(kid, row.toward) {
            found.push(kid_beyond(kid))?;
        }
    }
    Ok(Listing::of(found))
}

/// Whether everybody beyond has acknowledged the commit.
pub fn all_acked(row: &KeptRow) -> bool
    ensures { result ≡ all_acked_of row.now }
{
    parent_has_acked(row) && kids_have_acked(row)
}

/// Whether this branch is one of those beyond.
pub fn is_beyond(row: &KeptRow, from: &BranchId) -> bool
    ensures { result ≡ is_beyond_of row.now from.now }
{
    is_parent_beyond(row, from) || is_kid_beyond(row, from)
}

/// Whether this branch is the parent or a child.
pub fn is_neighbor(row: &KeptRow, from: &BranchId) -> bool
    ensures { result ≡ is_neighbor_of row.now from.now }
{
    is_branch(from, row.parent) || is_child(row, from)
}

// The parent, unless it is toward the site.
fn parent_beyond(row: &KeptRow) -> Option<Beyond>
    ensures { option_to_list result ≡ parent_beyond_of row.now row.now.parent }
{
    let parent = row.parent?;
    if is_branch(&parent, row.toward) {
        return None;
    }
    Some(Beyond {
        branch: parent,
        acked: row.parent_acked,
        is_parent: true,
    })
}

fn parent_has_acked(row: &KeptRow) -> bool
    ensures { result ≡ list_all (λ b. b.acked) (parent_beyond_of row.now row.now.parent) }
{
    match row.parent {
        None => true,
        Some(parent) => is_branch(&parent, row.toward) || row.parent_acked,
    }
}

fn is_parent_beyond(row: &KeptRow, from: &BranchId) -> bool
    ensures { result ≡ list_any (λ b. same b.branch from.now) (parent_beyond_of row.now row.now.parent) }
{
    match row.parent {
        None => false,
        Some(parent) => !is_branch(&parent, row.toward) && parent.is(from),
    }
}

// Whether a child is not the neighbour toward the site.
fn is_away(kid: &Kid, toward: Option<BranchId>) -> bool
    ensures { result ≡ not (is_branch_of kid.now.branch toward) }
{
    !is_branch(&kid.branch, toward)
}

fn kid_beyond(kid: &Kid) -> Beyond
    ensures { result ≡ kid_beyond_of kid.now }
{
    Beyond {
        branch: kid.branch,
        acked: kid.acked,
        is_parent: false,
    }
}

// Whether a child has acknowledged, or need not.
fn needs_no_ack(kid: &Kid, toward: Option<BranchId>) -> bool
    ensures { result ≡ needs_no_ack_of toward kid.now }
{
    !is_away(kid, toward) || kid.acked
}

fn kids_have_acked(row: &KeptRow) -> bool
    ensures { result ≡ list_all (needs_no_ack_of row.now.toward) row.now.children }
{
    row.children
        .as_slice()
        .iter()
        .all(|kid| needs_no_ack(kid, row.toward))
}

// Whether a child is this branch, and away from the site.
fn is_this_kid(kid: &Kid, toward: Option<BranchId>, from: &BranchId) -> bool
    ensures { result ≡ is_this_kid_of toward from.now kid.now }
{
    is_away(kid, toward) && kid.branch.is(from)
}

fn is_kid_beyond(row: &KeptRow, from: &BranchId) -> bool
    ensures { result ≡ list_any (is_this_kid_of row.now.toward from.now) row.now.children }
{
    row.children
        .as_slice()
        .iter()
        .any(|kid| is_this_kid(kid, row.toward, from))
}

fn is_child(row: &KeptRow, from: &BranchId) -> bool
    ensures { result ≡ list_any (λ c. same c.branch from.now) row.now.children }
{
    row.children
        .as_slice()
        .iter()
        .any(|kid| kid.branch.is(from))
}
