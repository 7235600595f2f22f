//! RECO: what the node asks and tells when it recovers.
ghost use Rattle.std.specs.Prelude.{◌≡◌, IfOk};
ghost use Rattle.node_rules.specs.Turn.{output_of};
ghost use Rattle.node_rules.specs.Recovery.{recovery as recovery_of};
ghost use Rattle.node_memory.specs.Parts.{kept_in};
ghost use Rattle.node_core.specs.Serves.{Serves};

use crate::StampedTurn;
use dtx_values::Listing;
use node_memory::Memory;
use reco::asks;
use std::alloc::{AllocError, Global};

/// The recoverer process RECO is called: each branch of the node asks for the decision that it lacks, and tells the one that it
/// knows to those whose Ack is missing. The node keeps what it kept.
#[tactic(auto, unfolding(node_rules::specs::Recovery::recovery, reco::specs::Asks::asks))]
pub(crate) fn recovery(memory: &Memory, alloc: Global) -> Result<StampedTurn, AllocError>
    ensures { IfOk result (λ served. Serves (output_of (recovery_of (kept_in memory.now))) (kept_in memory.now) served) }
{
    let kept = memory.kept.as_slice();
    let lives = memory.lives.as_slice();
    let sent = asks(alloc, kept, lives, memory.clock.now())?;
    Ok(StampedTurn {
        wrote: None,
        sent,
        ended: Listing::new(alloc),
    })
}
