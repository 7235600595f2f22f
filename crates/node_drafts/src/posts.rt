//! Messages of a turn.
ghost use Rattle.std.specs.Prelude.{◌≡◌, map, take, IfOk};
ghost use Rattle.reco.specs.Asks.{post_one as post_one_of, to_each as to_each_of, to_one as to_one_of};
ghost use Rattle.node_rules.specs.NodeState.{post as post_of};

use dtx_values::{Duplicate, Listing};
use reco::{Post, Posts};
use std::alloc::{AllocError, Global};
use tran_ids::BranchId;
use wire_msg::Kind;

/// A copy of a message, to one of several branches.
pub(crate) fn post_one(
    alloc: Global,
    from: BranchId,
    kind: &Kind,
    to: BranchId,
) -> Result<Post, AllocError>
    ensures { IfOk result (λ post. post ≡ post_one_of from kind.now to) }
{
    Ok(Post {
        from,
        to,
        kind: kind.copy(alloc)?,
    })
}

/// One message. Fails where memory runs out.
pub fn post(alloc: Global, from: BranchId, to: BranchId, kind: Kind) -> Result<Posts, AllocError>
    ensures { IfOk result (λ posts. posts ≡ post_of from to kind) }
{
    Ok(Listing::of(vec![in alloc; Post { from, to, kind }]?))
}

/// A message to a branch, where there is one. Fails where memory runs out.
pub fn to_one(
    alloc: Global,
    from: BranchId,
    kind: Kind,
    to: Option<BranchId>,
) -> Result<Posts, AllocError>
    ensures { IfOk result (λ posts. posts ≡ to_one_of from kind to) }
{
    match to {
        None => {
            drop(kind);
            Ok(Listing::new(alloc))
        }
        Some(to) => post(alloc, from, to, kind),
    }
}

/// The same message to each of these. Fails where memory runs out.
pub fn to_each(
    alloc: Global,
    from: BranchId,
    kind: &Kind,
    tos: &[BranchId],
) -> Result<Posts, AllocError>
    ensures { IfOk result (λ posts. posts ≡ to_each_of from kind.now tos.now) }
{
    let mut posts = Vec::with_capacity(alloc, tos.len())?;
    for to in tos {
        posts.push(post_one(alloc, from, kind, *to)?)?;
    }
    Ok(Listing::of(posts))
}
