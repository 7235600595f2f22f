//! What the children of a branch are asked.
ghost use Rattle.std.specs.Prelude.{◌≡◌, ◌≤◌, length, IfOk};
ghost use Rattle.dtx_values.specs.Limits.{link_limit};
ghost use Rattle.session_tree.specs.Tree.{step as step_of};
ghost use Rattle.prepare_phase.specs.Records.{path_of, is_place, asked_from, asked_by as asked_by_of};

use crate::{Asked, AskedChildren};
use dtx_values::Listing;
use session_tree::{Edge, Live, Walk, step};
use std::alloc::{AllocError, Global};

/// The children of a branch, in order of reference, and whether the walk to the commit point site goes there: it goes to
/// one child at most, and to none where it does not come to the branch or ends there.
#[tactic(auto, unfolding(crate::specs::Records::asked_by))]
pub fn asked_by(alloc: Global, live: &Live, site_below: bool) -> Result<AskedChildren, AllocError>
    requires { length live.now.edges ≤ link_limit }
    ensures { IfOk result (λ asked. asked ≡ asked_by_of live.now site_below) }
{
    asked_on(alloc, live.edges.as_slice(), path(live, site_below))
}

// The number of the child that the walk goes to.
fn path(live: &Live, site_below: bool) -> Option<u8>
    requires { length live.now.edges ≤ link_limit }
    ensures { result ≡ path_of site_below (step_of live.now) }
{
    if !site_below {
        return None;
    }
    match step(live) {
        Walk::Down(number) => Some(number),
        Walk::Here | Walk::Nowhere => None,
    }
}

/// Whether the walk goes to the child of this number.
pub(crate) fn is_on_path(number: u8, path: Option<u8>) -> bool
    ensures { result ≡ is_place number path }
{
    match path {
        None => false,
        Some(there) => number == there,
    }
}

fn asked_on(alloc: Global, edges: &[Edge], path: Option<u8>) -> Result<AskedChildren, AllocError>
    requires { length edges.now ≤ link_limit }
    ensures { IfOk result (λ asked. asked ≡ asked_from path 1 edges.now) }
{
    let mut asked = Vec::new(alloc);
    let mut number = 0;
    for edge in edges {
        number += 1;
        asked.push(Asked {
            child: edge.peer,
            site_below: is_on_path(number, path),
        })?;
    }
    Ok(Listing::of(asked))
}
