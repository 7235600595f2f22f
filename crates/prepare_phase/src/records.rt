//! What the record of a branch names that becomes sealed or decides.
ghost use Rattle.std.specs.Prelude.{◌≡◌, ◌≤◌, ◌-◌, length, take, count_by, IfOk};
ghost use Rattle.std.specs.List.{list_any};
ghost use Rattle.dtx_values.specs.Limits.{link_limit};
ghost use Rattle.prepare_phase.specs.Records.{is_prepared as is_prepared_edge, peer_record as peer_record_of, named_children as named_children_of, prepared_before as prepared_before_of, toward_in as toward_in_of, sealed_of as sealed_record, decided_of as decided_record, site_neighbors as site_neighbors_of, is_alone as is_alone_of};

use crate::prepares::is_on_path;
use dtx_values::{Bytes, Changes, Duplicate, Listing};
use redo_record::{Decided, Peer, Peers, Sealed, Toward};
use session_tree::{Edge, Live, Vote};
use std::alloc::{AllocError, Global};
use tran_ids::BranchId;

/// The record of a branch that becomes sealed at this SCN with these changes. It names the children that answered Prepared
/// and the child that the walk goes to, whose number `path` is, and which of these, or the parent, is toward the site. Fails
/// where memory runs out.
pub fn sealed_of(
    alloc: Global,
    scn: u64,
    live: &Live,
    changes: Changes,
    path: Option<u8>,
) -> Result<Sealed, AllocError>
    requires { length live.now.edges ≤ link_limit }
    ensures { IfOk result (λ sealed. sealed ≡ sealed_record scn live.now changes path) }
{
    let (children, comment) = copies(alloc, live, path)?;
    Ok(Sealed {
        me: live.me,
        root: live.root,
        scn,
        toward: toward_in(path, live.edges.as_slice()),
        parent: live.parent,
        children,
        advice: live.advice,
        comment,
        changes,
    })
}

/// The record of the commit point site that decides with these changes, at this commit SCN. It names the children that
/// answered Prepared. Fails where memory runs out.
pub fn decided_of(
    alloc: Global,
    scn: u64,
    live: &Live,
    changes: Changes,
) -> Result<Decided, AllocError>
    requires { length live.now.edges ≤ link_limit }
    ensures { IfOk result (λ decided. decided ≡ decided_record scn live.now changes) }
{
    let (children, comment) = copies(alloc, live, None)?;
    Ok(Decided {
        me: live.me,
        root: live.root,
        scn,
        parent: live.parent,
        children,
        advice: live.advice,
        comment,
        changes,
    })
}

// The children that a record names, where the walk goes to the child of the number `path`, and the comment.
fn copies(alloc: Global, live: &Live, path: Option<u8>) -> Result<(Peers, Bytes), AllocError>
    requires { length live.now.edges ≤ link_limit }
    ensures { IfOk result (λ copies. copies ≡ (named_children_of path 1 live.now.edges, live.now.comment)) }
{
    let children = named_children(alloc, live.edges.as_slice(), path)?;
    let comment = live.comment.copy(alloc)?;
    Ok((children, comment))
}

/// The neighbours of the commit point site: its parent, then the children that answered Prepared. Fails where memory runs out.
pub fn site_neighbors(alloc: Global, live: &Live) -> Result<Listing<BranchId>, AllocError>
    ensures { IfOk result (λ neighbors. neighbors ≡ site_neighbors_of live.now) }
{
    let edges = live.edges.as_slice();
    let mut neighbors = Vec::new(alloc);
    if let Some(parent) = live.parent {
        neighbors.push(parent)?;
    }
    for edge in edges {
        if is_prepared(edge) {
            neighbors.push(edge.peer)?;
        }
    }
    Ok(Listing::of(neighbors))
}

/// Whether the commit point site has no neighbours: nobody is to hear its decision.
pub fn is_alone(live: &Live) -> bool
    ensures { result ≡ is_alone_of live.now }
{
    live.parent.is_none() && !has_prepared(live)
}

// Whether a child answered Prepared.
fn has_prepared(live: &Live) -> bool
    ensures { result ≡ list_any is_prepared_edge live.now.edges }
{
    live.edges.as_slice().iter().any(|edge| is_prepared(edge))
}

fn is_prepared(edge: &Edge) -> bool
    ensures { result ≡ is_prepared_edge edge.now }
{
    matches!(edge.vote, Vote::Prepared)
}

fn peer_record(alloc: Global, edge: &Edge) -> Result<Peer, AllocError>
    ensures { IfOk result (λ peer. peer ≡ peer_record_of edge.now) }
{
    let link = edge.link.copy(alloc)?;
    Ok(Peer {
        branch: edge.peer,
        link,
    })
}

fn named_children(alloc: Global, edges: &[Edge], path: Option<u8>) -> Result<Peers, AllocError>
    requires { length edges.now ≤ link_limit }
    ensures { IfOk result (λ children. children ≡ named_children_of path 1 edges.now) }
{
    let mut children = Vec::new(alloc);
    let mut number = 0;
    for edge in edges {
        number += 1;
        if is_prepared(edge) || is_on_path(number, path) {
            children.push(peer_record(alloc, edge)?)?;
        }
    }
    Ok(Listing::of(children))
}

// How many of these children answered Prepared.
fn count_prepared(edges: &[Edge]) -> usize
    ensures { result ≡ count_by is_prepared_edge edges.now }
{
    edges.iter().filter(|edge| is_prepared(edge)).count()
}

// The children before this one.
#[tactic(auto, using(std::proofs::lemmas::List::take_min))]
fn before(path: u8, edges: &[Edge]) -> &[Edge]
    ensures { result.now ≡ take (path - 1) edges.now }
{
    let (before, _) = edges.split_at(usize::from(path).saturating_sub(1).min(edges.len()));
    before
}

// How many children before this one answered Prepared.
#[tactic(auto, using(crate::proofs::ListLemmas::prepared_fits))]
fn prepared_before(path: u8, edges: &[Edge]) -> u8
    requires { length edges.now ≤ link_limit }
    ensures { result ≡ prepared_before_of path edges.now }
{
    count_prepared(before(path, edges)) as u8
}

fn toward_in(path: Option<u8>, edges: &[Edge]) -> Toward
    requires { length edges.now ≤ link_limit }
    ensures { result ≡ toward_in_of path edges.now }
{
    match path {
        None => Toward::Parent,
        Some(number) => Toward::Child(prepared_before(number, edges)),
    }
}
