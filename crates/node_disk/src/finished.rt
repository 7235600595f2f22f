//! The end of a client's call.
ghost use Rattle.std.specs.Prelude.{◌≡◌, map, IfOk};
ghost use Rattle.node_disk.specs.Effects.{call_of};

use crate::effects::Ends;
use dtx_values::{Answer, Listing};
use node_rules::{Ended, Finished as Call};
use std::alloc::{AllocError, Global};

/// The end of a client's call: the session that made it, and its answer. A node's turn alone makes one.
#[derive(Drop)]
pub struct Finished {
    call: Call,
}

impl Finished {
    /// The session that made the call.
    pub fn session(&self) -> u32
        ensures { result ≡ (call_of self.now).session }
    {
        self.call.session
    }

    /// The answer.
    pub fn answer(&self) -> &Answer
        ensures { result.now ≡ (call_of self.now).answer }
    {
        &self.call.answer
    }

    /// The session and its answer.
    pub fn into_call(self) -> Call
        ensures { result ≡ call_of self }
    {
        self.call
    }
}

fn ended_call(call: Call) -> Finished
    ensures { call_of result ≡ call }
{
    Finished { call }
}

/// These calls have ended. Fails where memory runs out.
pub(crate) fn finish(alloc: Global, ended: Ended) -> Result<Ends, AllocError>
    ensures { IfOk result (λ ends. map call_of ends ≡ ended) }
{
    let calls = ended.into_vec();
    let mut ends = Vec::with_capacity(alloc, calls.len())?;
    for call in calls {
        ends.push(ended_call(call))?;
    }
    Ok(Listing::of(ends))
}
