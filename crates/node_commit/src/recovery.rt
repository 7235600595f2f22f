//! Ask at a live branch.
ghost use Rattle.std.specs.Prelude.{◌≡◌, IfOk};
ghost use Rattle.node_rules.specs.Recovery.{on_ask as on_ask_of};
ghost use Rattle.node_memory.specs.Parts.{kept_in};
ghost use Rattle.node_drafts.specs.Gives.{GivesDraft};
ghost use Rattle.node_commit.specs.Branches.{at_live};

use crate::leaving::drops;
use crate::looking::live_of;
use node_drafts::{TurnDraft, post};
use node_memory::Memory;
use reco::{Told, live_told};
use std::alloc::{AllocError, Global};
use tran_ids::BranchId;

/// Ask at a live branch: where its parent asks, it rolls back and says so; to any other, nothing is known.
pub(crate) fn on_ask(
    memory: &mut Memory,
    alloc: Global,
    branch: &BranchId,
    from: BranchId,
) -> Result<TurnDraft, AllocError>
    ensures gives { IfOk result (λ draft. GivesDraft (at_live (kept_in memory.old) branch.now (λ l. on_ask_of (kept_in memory.old) l from)) (kept_in memory.new) draft) }
    ensures place { memory.new.place ≡ memory.old.place }
{
    match live_of(memory, branch) {
        None => Ok(TurnDraft::nothing(alloc)),
        Some(live) => {
            let told = live_told(live, &from);
            let says = post(alloc, live.me, from, told.kind())?;
            match told {
                Told::RollBackFirst => drops(memory, alloc, branch, says),
                _ => Ok(TurnDraft::saying(alloc, says)),
            }
        }
    }
}
