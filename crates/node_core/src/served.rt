//! What a turn does beside changing what the node keeps.
ghost use Rattle.std.specs.Prelude.{◌≡◌, IfOk};
ghost use Rattle.node_rules.specs.NodeState.{TurnDraft as DraftByRules};
ghost use Rattle.node_rules.specs.Turn.{output_of};
ghost use Rattle.node_memory.specs.Parts.{kept_in};
ghost use Rattle.node_drafts.specs.Gives.{GivesDraft};
ghost use Rattle.node_core.specs.Serves.{Serves};

use node_drafts::{TurnDraft, stamp};
use node_memory::Memory;
use node_rules::Ended;
use redo_record::RedoRecord;
use std::alloc::{AllocError, Global};
use wire_msg::Msgs;

/// What a turn does beside changing what the node keeps.
#[derive(Drop)]
pub struct StampedTurn {
    /// The record that has to stand on the disk before the messages go out and the calls end, where there is one.
    pub wrote: Option<RedoRecord>,
    /// The messages that it sends, in order, with the node's clock on each.
    pub sent: Msgs,
    /// The calls of clients that it ends, in order.
    pub ended: Ended,
}

/// What a turn did, as it is told once its record stands: its messages get the clock of the node as it is now. Fails where memory
/// runs out.
#[tactic(auto, using(crate::proofs::ServedLaws::serves_so))]
pub(crate) fn stamped(
    memory: &Memory,
    alloc: Global,
    draft: TurnDraft,
) -> Result<StampedTurn, AllocError>
    ensures { IfOk result (λ served. (d : DraftByRules) → GivesDraft d (kept_in memory.now) draft → Serves (output_of d) (kept_in memory.now) served) }
{
    let TurnDraft { wrote, says, ended } = draft;
    match stamp(alloc, memory.clock.now(), says) {
        Err(error) => {
            drop(wrote);
            drop(ended);
            Err(error)
        }
        Ok(sent) => Ok(StampedTurn { wrote, sent, ended }),
    }
}
