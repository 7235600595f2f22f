//! SET TRANSACTION READ ONLY.
ghost use Rattle.std.specs.Prelude.{◌≡◌, ◌+◌, ◌<◌, ◌^◌, None, IfOk};
ghost use Rattle.tran_ids.specs.Listed.{item_at};
ghost use Rattle.node_rules.specs.NodeState.{live_id};
ghost use Rattle.node_rules.specs.Sessions.{session_at};
ghost use Rattle.node_rules.specs.Client.{new_root, read_only_by};
ghost use Rattle.node_drafts.specs.Gives.{GivesDraft};
ghost use Rattle.node_memory.specs.Parts.{kept_in};

use crate::beginning::begin_root;
use crate::defining::refuse;
use dtx_values::{Answer, Done};
use node_drafts::{IN_TRAN, TurnDraft};
use node_memory::Memory;
use std::alloc::{AllocError, Global};

/// SET TRANSACTION READ ONLY in a session: a transaction begins that reads at the node's clock. ORA-01453 where one has begun
/// already.
#[tactic(auto, using(crate::proofs::RootLaws::reader_begun))]
pub fn set_read_only(
    memory: &mut Memory,
    alloc: Global,
    session: u32,
) -> Result<TurnDraft, AllocError>
    requires seq { (session_at memory.old.sessions session).seq + 1 < 2 ^ 32 }
    requires new { item_at live_id memory.old.lives (new_root memory.old.place (kept_in memory.old) session) ≡ None }
    ensures gives { IfOk result (λ draft.
        GivesDraft (read_only_by memory.old.place (kept_in memory.old) session (session_at memory.old.sessions session).root) (kept_in memory.new) draft) }
    ensures place { memory.new.place ≡ memory.old.place }
{
    match memory.sessions.at(session).root {
        Some(_) => {
            let draft = refuse(alloc, session, IN_TRAN)?;
            Ok(draft)
        }
        None => {
            let read_at = memory.clock.now();
            begin_root(memory, alloc, session, Some(read_at))?;
            TurnDraft::ending(alloc, session, Answer::Did(Done::TransactionSet, 0))
        }
    }
}
