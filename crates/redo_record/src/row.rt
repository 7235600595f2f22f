//! The row that a branch has when its first record stands.
ghost use Rattle.std.specs.Prelude.{◌≡◌, map, IfOk};
ghost use Rattle.redo_record.specs.Rows.{kid_of, toward_of, sealed_as, decided_as, has_neighbors as has_neighbors_of};

use crate::{Decided, Decision, KeptRow, Kid, Kids, Peer, Sealed, State, Toward};
use dtx_values::{Duplicate, Listing};
use std::alloc::{AllocError, Global};
use tran_ids::BranchId;

fn kids(alloc: Global, peers: &[Peer]) -> Result<Kids, AllocError>
    ensures { IfOk result (λ kids. kids ≡ map kid_of peers.now) }
{
    let mut kids = Vec::with_capacity(alloc, peers.len())?;
    for peer in peers {
        kids.push(kid(alloc, peer)?)?;
    }
    Ok(Listing::of(kids))
}

fn kid(alloc: Global, peer: &Peer) -> Result<Kid, AllocError>
    ensures { IfOk result (λ kid. kid ≡ kid_of peer.now) }
{
    let link = peer.link.copy(alloc)?;
    Ok(Kid {
        branch: peer.branch,
        link,
        acked: false,
    })
}

fn toward(sealed: &Sealed) -> Option<BranchId>
    ensures { result ≡ toward_of sealed.now sealed.now.toward }
{
    match sealed.toward {
        Toward::Parent => sealed.parent,
        Toward::Child(place) => match sealed.children.as_slice().get(usize::from(place)) {
            None => None,
            Some(peer) => Some(peer.branch),
        },
    }
}

/// The row of a branch that is prepared. Fails where memory runs out.
pub fn sealed_row(alloc: Global, sealed: &Sealed) -> Result<KeptRow, AllocError>
    ensures { IfOk result (λ row. row ≡ sealed_as sealed.now) }
{
    let children = kids(alloc, sealed.children.as_slice())?;
    let comment = sealed.comment.copy(alloc)?;
    Ok(KeptRow {
        me: sealed.me,
        root: sealed.root,
        scn: sealed.scn,
        parent: sealed.parent,
        parent_acked: false,
        children,
        toward: toward(sealed),
        advice: sealed.advice,
        comment,
        state: State::Sealed,
        decision: None,
        mixed: false,
        forgot: false,
        hidden: false,
    })
}

/// The row of the commit point site, from which no neighbour is on the way to it. Fails where memory runs out.
pub fn decided_row(alloc: Global, decided: &Decided) -> Result<KeptRow, AllocError>
    ensures { IfOk result (λ row. row ≡ decided_as decided.now) }
{
    let children = kids(alloc, decided.children.as_slice())?;
    let comment = decided.comment.copy(alloc)?;
    Ok(KeptRow {
        me: decided.me,
        root: decided.root,
        scn: decided.scn,
        parent: decided.parent,
        parent_acked: false,
        children,
        toward: None,
        advice: decided.advice,
        comment,
        state: State::Committed,
        decision: Some(Decision::Commit(decided.scn)),
        mixed: false,
        forgot: false,
        hidden: false,
    })
}

/// Whether a branch has a parent or a child.
pub fn has_neighbors(row: &KeptRow) -> bool
    ensures { result ≡ has_neighbors_of row.now }
{
    row.parent.is_some() || row.children.as_slice().get(0).is_some()
}
