//! What a kept branch says to those beyond, and to the neighbour toward the commit point site.
ghost use Rattle.std.specs.Prelude.{◌≡◌, map, IfOk};
ghost use Rattle.node_rules.specs.NodeState.{to_each};
ghost use Rattle.node_rules.specs.Commit.{to_beyond as to_beyond_of, passes_commit as passes_commit_of, rollback_to as rollback_to_of, passes as passes_of};

use crate::posts::{post_one, to_one};
use commit_forget::{Beyond, beyond_of};
use dtx_values::Listing;
use reco::{Post, Posts};
use redo_record::{Decision, KeptRow};
use std::alloc::{AllocError, Global};
use tran_ids::BranchId;
use wire_msg::Kind;

fn to_these(
    alloc: Global,
    me: BranchId,
    kind: &Kind,
    beyond: &[Beyond],
) -> Result<Posts, AllocError>
    ensures { IfOk result (λ posts. posts ≡ to_each me kind.now (map (λ b. b.branch) beyond.now)) }
{
    let mut posts = Vec::with_capacity(alloc, beyond.len())?;
    for neighbor in beyond {
        posts.push(post_one(alloc, me, kind, neighbor.branch)?)?;
    }
    Ok(Listing::of(posts))
}

/// The same message to everybody beyond. Fails where memory runs out.
pub fn to_beyond(alloc: Global, row: &KeptRow, kind: &Kind) -> Result<Posts, AllocError>
    ensures { IfOk result (λ posts. posts ≡ to_beyond_of row.now kind.now) }
{
    let beyond = beyond_of(alloc, row)?;
    to_these(alloc, row.me, kind, beyond.as_slice())
}

// Where there is nobody beyond, the commit is acknowledged at once.
fn passes_commit(
    alloc: Global,
    row: &KeptRow,
    scn: u64,
    beyond: &[Beyond],
) -> Result<Posts, AllocError>
    ensures { IfOk result (λ posts. posts ≡ passes_commit_of row.now scn beyond.now) }
{
    match beyond {
        [] => to_one(alloc, row.me, Kind::Ack, row.toward),
        _ => {
            let kind = Kind::Committed { scn };
            let posts = to_these(alloc, row.me, &kind, beyond);
            drop(kind);
            posts
        }
    }
}

fn rollback_to(me: BranchId, neighbor: &Beyond) -> Post
    ensures { result ≡ rollback_to_of me neighbor.now }
{
    let kind = if neighbor.is_parent {
        Kind::RolledBack
    } else {
        Kind::Rollback
    };
    Post {
        from: me,
        to: neighbor.branch,
        kind,
    }
}

fn rollbacks(alloc: Global, me: BranchId, beyond: &[Beyond]) -> Result<Posts, AllocError>
    ensures { IfOk result (λ posts. posts ≡ map (rollback_to_of me) beyond.now) }
{
    let mut posts = Vec::with_capacity(alloc, beyond.len())?;
    for neighbor in beyond {
        posts.push(rollback_to(me, neighbor))?;
    }
    Ok(Listing::of(posts))
}

/// What a kept branch says that learns the decision: Committed to those beyond, or an Ack toward where there is nobody;
/// RolledBack to a parent beyond and Rollback to the children. Fails where memory runs out.
pub fn passes(alloc: Global, row: &KeptRow, decision: Decision) -> Result<Posts, AllocError>
    ensures { IfOk result (λ posts. posts ≡ passes_of row.now decision) }
{
    let beyond = beyond_of(alloc, row)?;
    match decision {
        Decision::Commit(scn) => passes_commit(alloc, row, scn, beyond.as_slice()),
        Decision::Rollback => rollbacks(alloc, row.me, beyond.as_slice()),
    }
}
