//! What the branches of a node send when it recovers.
ghost use Rattle.std.specs.Prelude.{◌≡◌, ◌++◌, ◌≤◌, map, flat_map, fold, length, IfOk, OnOk};
ghost use Rattle.std.specs.List.{insert, position_or_len};
ghost use Rattle.tran_ids.specs.Branch.{branch_below};
ghost use Rattle.reco.specs.Asks.{to_one as to_one_of, asks_live as asks_live_of, missing as missing_of, tells_commit as tells_commit_of, recovers as recovers_of, asks_kept as asks_kept_of, put_asking, askings_of as askings_of_all, stamped as stamped_at, asks as asks_of};

use crate::{Asking, Askings, Post, Posts};
use commit_forget::{Beyond, all_acked, beyond_of};
use dtx_values::Listing;
use redo_record::{Decision, KeptRow};
use session_tree::Live;
use std::alloc::{AllocError, Global};
use tran_ids::BranchId;
use wire_msg::{Kind, Msg, Msgs};

/// The messages of a node that recovers, with its clock on them, in the order of its branches: a live branch asks its
/// parent, a sealed or forced branch that knows no decision asks toward, and one that knows the commit tells those beyond
/// whose Ack is missing, or acknowledges toward again where none is.
#[tactic(auto, unfolding(crate::specs::Asks::asks))]
pub fn asks(alloc: Global, kept: &[KeptRow], lives: &[Live], scn: u64) -> Result<Msgs, AllocError>
    ensures { IfOk result (λ msgs. msgs ≡ asks_of kept.now lives.now scn) }
{
    stamp_all(alloc, askings(alloc, kept, lives)?, scn)
}

// A message to a branch, where there is one.
fn to_one(
    alloc: Global,
    from: BranchId,
    kind: Kind,
    to: Option<BranchId>,
) -> Result<Posts, AllocError>
    ensures { IfOk result (λ posts. posts ≡ to_one_of from kind to) }
{
    let mut posts = Listing::new(alloc);
    if let Some(to) = to {
        posts.push(Post { from, to, kind })?;
    }
    Ok(posts)
}

fn asks_live(alloc: Global, live: &Live) -> Result<Asking, AllocError>
    ensures { IfOk result (λ asking. asking ≡ asks_live_of live.now) }
{
    let says = to_one(alloc, live.me, Kind::Ask, live.parent)?;
    Ok(Asking { me: live.me, says })
}

fn asks_kept(alloc: Global, row: &KeptRow) -> Result<Asking, AllocError>
    ensures { IfOk result (λ asking. asking ≡ asks_kept_of row.now) }
{
    let says = recovers(alloc, row)?;
    Ok(Asking { me: row.me, says })
}

// By what the branch knows.
fn recovers(alloc: Global, row: &KeptRow) -> Result<Posts, AllocError>
    ensures { IfOk result (λ posts. posts ≡ recovers_of row.now row.now.decision) }
{
    match row.decision {
        None => to_one(alloc, row.me, Kind::Ask, row.toward),
        Some(Decision::Commit(scn)) => tells_commit(alloc, row, scn),
        Some(Decision::Rollback) => Ok(Listing::new(alloc)),
    }
}

// The commit is told to those whose Ack is missing, and acknowledged toward where none is.
fn tells_commit(alloc: Global, row: &KeptRow, scn: u64) -> Result<Posts, AllocError>
    ensures { IfOk result (λ posts. posts ≡ tells_commit_of row.now scn) }
{
    let beyond = beyond_of(alloc, row)?;
    let mut posts = missing(alloc, row.me, scn, beyond.as_slice())?;
    if all_acked(row) && !row.forgot {
        if let Some(toward) = row.toward {
            posts.push(Post {
                from: row.me,
                to: toward,
                kind: Kind::Ack,
            })?;
        }
    }
    Ok(Listing::of(posts))
}

// Committed to each of these whose Ack is missing.
fn missing(
    alloc: Global,
    me: BranchId,
    scn: u64,
    beyond: &[Beyond],
) -> Result<Vec<Post>, AllocError>
    ensures { IfOk result (λ posts. posts.items ≡ missing_of me scn beyond.now) }
{
    let mut posts = Vec::new(alloc);
    for neighbor in beyond {
        if !neighbor.acked {
            posts.push(Post {
                from: me,
                to: neighbor.branch,
                kind: Kind::Committed { scn },
            })?;
        }
    }
    Ok(posts)
}

// In front of the first branch that this one comes before.
fn place_of(askings: &[Asking], me: &BranchId) -> usize
    ensures first { result ≡ position_or_len (λ asking. branch_below me.now asking.me) askings.now }
    ensures within { result ≤ length askings.now }
{
    for (place, asking) in askings.iter().enumerate() {
        if me.is_before(&asking.me) {
            return place;
        }
    }
    askings.len()
}

#[tactic(auto, using(tran_ids::proofs::BranchLemmas::put_is_insert))]
fn place_for(askings: &[Asking], asking: &Asking) -> usize
    ensures added { insert askings.now result asking.now ≡ put_asking askings.now asking.now }
    ensures within { result ≤ length askings.now }
{
    place_of(askings, &asking.me)
}

fn put(askings: &mut Vec<Asking>, asking: Asking) -> Result<(), AllocError>
    ensures { OnOk result (askings.new.items ≡ put_asking askings.old.items asking) }
{
    let place = place_for(askings, &asking);
    askings.insert(place, asking)?;
    Ok(())
}

fn put_lives(askings: &mut Vec<Asking>, alloc: Global, lives: &[Live]) -> Result<(), AllocError>
    ensures { OnOk result (askings.new.items ≡ fold put_asking askings.old.items (map asks_live_of lives.now)) }
{
    for live in lives {
        put(askings, asks_live(alloc, live)?)?;
    }
    Ok(())
}

fn put_rows(askings: &mut Vec<Asking>, alloc: Global, kept: &[KeptRow]) -> Result<(), AllocError>
    ensures { OnOk result (askings.new.items ≡ fold put_asking askings.old.items (map asks_kept_of kept.now)) }
{
    for row in kept {
        put(askings, asks_kept(alloc, row)?)?;
    }
    Ok(())
}

fn askings(alloc: Global, kept: &[KeptRow], lives: &[Live]) -> Result<Askings, AllocError>
    ensures { IfOk result (λ askings. askings ≡ askings_of_all kept.now lives.now) }
{
    let mut askings = Vec::new(alloc);
    put_lives(&mut askings, alloc, lives)?;
    put_rows(&mut askings, alloc, kept)?;
    Ok(Listing::of(askings))
}

fn stamp(post: Post, scn: u64) -> Msg
    ensures { result ≡ stamped_at scn post }
{
    Msg {
        from: post.from,
        to: post.to,
        scn,
        kind: post.kind,
    }
}

fn stamp_into(msgs: &mut Vec<Msg>, posts: Posts, scn: u64) -> Result<(), AllocError>
    ensures { OnOk result (msgs.new.items ≡ msgs.old.items ++ map (stamped_at scn) posts) }
{
    for post in posts.into_vec() {
        msgs.push(stamp(post, scn))?;
    }
    Ok(())
}

fn stamp_all(alloc: Global, askings: Askings, scn: u64) -> Result<Msgs, AllocError>
    ensures { IfOk result (λ msgs. msgs ≡ map (stamped_at scn) (flat_map (λ a. a.says) askings)) }
{
    let mut msgs = Vec::new(alloc);
    for asking in askings.into_vec() {
        stamp_into(&mut msgs, asking.says, scn)?;
    }
    Ok(Listing::of(msgs))
}
