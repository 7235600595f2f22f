//! What a branch weighs, one step of the walk to the commit point site, and the room in a session tree.
//! (Database Administrator's Guide, "Distributed Transactions Concepts": session trees and the commit point site.)
ghost use Rattle.std.specs.Prelude.{◌≡◌, ◌+◌, ◌≤◌, ◌<◌, ℕ, ◌∷◌, [], map, length, None, OnOk, OnErr};
ghost use Rattle.dtx_values.specs.Limits.{link_limit};
ghost use Rattle.session_tree.specs.Live.{add_edge as add_edge_of};
ghost use Rattle.session_tree.specs.Tree.{place_of_greatest, best_child as best_child_of, weight as weight_of, step as step_of, count as count_of, room as room_of};

use crate::{Edge, Live, Walk};
use dtx_values::BRANCH_LIMIT;
use std::alloc::AllocError;

// The better of the best so far and the child of this number, which wins only where it weighs more.
fn better(best: Option<(u8, u8)>, weight: Option<u8>, number: u8) -> Option<(u8, u8)>
    ensures { result ≡ place_of_greatest number (weight ∷ []) best }
{
    match (best, weight) {
        (_, None) => best,
        (None, Some(weight)) => Some((weight, number)),
        (Some((greatest, _)), Some(weight)) if greatest < weight => Some((weight, number)),
        _ => best,
    }
}

// The greatest weight of the children, and the number of the first that has it.
fn best_child(live: &Live) -> Option<(u8, u8)>
    requires { length live.now.edges ≤ link_limit }
    ensures { result ≡ best_child_of live.now }
{
    let edges = live.edges.as_slice();
    let mut best = None;
    let mut number = 0;
    for edge in edges {
        number += 1;
        best = better(best, edge.weight, number);
    }
    best
}

/// What a branch weighs: the commit point strength of its node where it has changes, else the greatest weight of its
/// children, and nothing where no branch below it has changes.
#[tactic(auto, unfolding(crate::specs::Tree::weight))]
pub fn weight(live: &Live) -> Option<u8>
    requires { length live.now.edges ≤ link_limit }
    ensures { result ≡ weight_of live.now }
{
    if live.changed {
        return Some(live.strength);
    }
    match best_child(live) {
        None => None,
        Some((weight, _)) => Some(weight),
    }
}

/// One step of the walk to the commit point site. A branch with changes is the site unless a child weighs more than its
/// strength; else the walk goes to the first child of the greatest weight.
#[tactic(auto, unfolding(crate::specs::Tree::step))]
pub fn step(live: &Live) -> Walk
    requires { length live.now.edges ≤ link_limit }
    ensures { result ≡ step_of live.now }
{
    match best_child(live) {
        None if live.changed => Walk::Here,
        None => Walk::Nowhere,
        Some((weight, _)) if live.changed && weight <= live.strength => Walk::Here,
        Some((_, number)) => Walk::Down(number),
    }
}

/// The branches of the subtree, as far as Replies have told.
pub fn count(live: &Live) -> usize
    requires { length live.now.edges ≤ link_limit }
    ensures { result ≡ count_of live.now }
{
    let edges = live.edges.as_slice();
    let mut total = 1;
    for edge in edges {
        total += usize::from(edge.count);
    }
    total
}

/// How many branches the tree may still get, as far as this branch knows: at a root by its own count, elsewhere `given`,
/// which is what the Exec carried, less a child that was opened for that call.
pub fn room(live: &Live, given: u16) -> u16
    requires { length live.now.edges ≤ link_limit }
    ensures { result ≡ room_of live.now given }
{
    if live.parent.is_none() {
        BRANCH_LIMIT.saturating_sub(count(live)) as u16
    } else {
        given
    }
}

/// Adds a child behind the others. Fails where memory runs out, and then nothing has changed.
pub fn add_edge(live: &mut Live, edge: Edge) -> Result<(), AllocError>
    requires { length live.old.edges < link_limit }
    ensures ok { OnOk result (live.new ≡ add_edge_of live.old edge) }
    ensures err { OnErr result (live.new ≡ live.old) }
{
    live.edges.push(edge)
}
