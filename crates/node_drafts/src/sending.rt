//! Messages as they are sent.
ghost use Rattle.std.specs.Prelude.{◌≡◌, map, IfOk};
ghost use Rattle.reco.specs.Asks.{stamped};

use dtx_values::Listing;
use reco::{Post, Posts};
use std::alloc::{AllocError, Global};
use wire_msg::{Msg, Msgs};

fn stamp_one(scn: u64, post: Post) -> Msg
    ensures { result ≡ stamped scn post }
{
    Msg {
        from: post.from,
        to: post.to,
        scn,
        kind: post.kind,
    }
}

/// The messages with the node's clock on each. Fails where memory runs out.
pub fn stamp(alloc: Global, scn: u64, posts: Posts) -> Result<Msgs, AllocError>
    ensures { IfOk result (λ msgs. msgs ≡ map (stamped scn) posts) }
{
    let posts = posts.into_vec();
    let mut msgs = Vec::with_capacity(alloc, posts.len())?;
    for post in posts {
        msgs.push(stamp_one(scn, post))?;
    }
    Ok(Listing::of(msgs))
}
