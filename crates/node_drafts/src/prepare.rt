//! What a live branch says to its children and its parent in the prepare phase and when it rolls back.
ghost use Rattle.std.specs.Prelude.{◌≡◌, ◌++◌, ◌≤◌, map, length, IfOk, OnOk};
ghost use Rattle.dtx_values.specs.Limits.{link_limit};
ghost use Rattle.session_tree.specs.Tree.{step};
ghost use Rattle.node_rules.specs.Data.kinds as kinds;
ghost use Rattle.node_rules.specs.NodeState.{to_each, to_one as to_one_of};
ghost use Rattle.node_rules.specs.Prepare.{path_of, prepare_to as prepare_to_of, prepares as prepares_of, to_children as to_children_of};

use crate::posts::{post_one, to_one};
use dtx_values::{Bytes, Duplicate, Listing};
use prepare_phase::{Asked, asked_by};
use reco::{Post, Posts};
use session_tree::{Edge, Live};
use std::alloc::{AllocError, Global};
use tran_ids::BranchId;
use wire_msg::Kind;

fn prepare_to(
    alloc: Global,
    me: BranchId,
    comment: &Bytes,
    asked: &Asked,
) -> Result<Post, AllocError>
    ensures { IfOk result (λ post. post ≡ prepare_to_of me comment.now asked.now) }
{
    let comment = comment.copy(alloc)?;
    Ok(Post {
        from: me,
        to: asked.child,
        kind: Kind::Prepare {
            site_below: asked.site_below,
            comment,
        },
    })
}

fn prepare_each(
    alloc: Global,
    me: BranchId,
    comment: &Bytes,
    children: &[Asked],
) -> Result<Posts, AllocError>
    ensures { IfOk result (λ posts. posts ≡ map (prepare_to_of me comment.now) children.now) }
{
    let mut posts = Vec::with_capacity(alloc, children.len())?;
    for asked in children {
        posts.push(prepare_to(alloc, me, comment, asked)?)?;
    }
    Ok(Listing::of(posts))
}

/// Prepare to each child of a branch, which tells whether the walk to the commit point site goes there: it does to one child
/// at most, and to none where it does not come to the branch. Fails where memory runs out.
#[tactic(auto, unfolding(prepare_phase::specs::Records::asked_by))]
pub fn prepares(alloc: Global, live: &Live, site_below: bool) -> Result<Posts, AllocError>
    requires { length live.now.edges ≤ link_limit }
    ensures { IfOk result (λ posts. posts ≡ prepares_of live.now.me live.now.comment (path_of site_below (step live.now)) 1 live.now.edges) }
{
    let children = asked_by(alloc, live, site_below)?;
    prepare_each(alloc, live.me, &live.comment, children.as_slice())
}

fn add_to_children(
    posts: &mut Vec<Post>,
    alloc: Global,
    me: BranchId,
    kind: &Kind,
    edges: &[Edge],
) -> Result<(), AllocError>
    ensures { OnOk result (posts.new.items ≡ posts.old.items ++ to_each me kind.now (map (λ e. e.peer) edges.now)) }
{
    for edge in edges {
        posts.push(post_one(alloc, me, kind, edge.peer)?)?;
    }
    Ok(())
}

/// The same message to each child of a branch, in order of reference. Fails where memory runs out.
pub fn to_children(alloc: Global, live: &Live, kind: &Kind) -> Result<Posts, AllocError>
    ensures { IfOk result (λ posts. posts ≡ to_children_of live.now kind.now) }
{
    let edges = live.edges.as_slice();
    let mut posts = Vec::with_capacity(alloc, edges.len())?;
    add_to_children(&mut posts, alloc, live.me, kind, edges)?;
    Ok(Listing::of(posts))
}

/// What a branch says that rolls back: these messages, then Rollback to each child. Fails where memory runs out.
pub fn drop_says(alloc: Global, live: &Live, first: Posts) -> Result<Posts, AllocError>
    ensures { IfOk result (λ posts. posts ≡ first ++ to_children_of live.now kinds.Rollback) }
{
    let mut posts = first.into_vec();
    let kind = Kind::Rollback;
    let added = add_to_children(&mut posts, alloc, live.me, &kind, live.edges.as_slice());
    drop(kind);
    added?;
    Ok(Listing::of(posts))
}

/// What a branch says whose collect an Abort ended: Abort to its parent, where it has one, and Rollback to each child. Fails
/// where memory runs out.
pub fn abandon_says(alloc: Global, live: &Live) -> Result<Posts, AllocError>
    ensures { IfOk result (λ posts. posts ≡ to_one_of live.now.me kinds.Abort live.now.parent ++ to_children_of live.now kinds.Rollback) }
{
    let first = to_one(alloc, live.me, Kind::Abort, live.parent)?;
    drop_says(alloc, live, first)
}
