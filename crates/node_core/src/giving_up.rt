//! A call that is given up, since no answer comes.
ghost use Rattle.std.specs.Prelude.{◌≡◌, IfOk};
ghost use Rattle.node_rules.specs.Client.{give_up_turn as give_up_turn_of};
ghost use Rattle.node_memory.specs.Parts.{kept_in};
ghost use Rattle.node_drafts.specs.Gives.{GivesDraft};

use node_calls::statement_given_up;
use node_commit::commit_given_up;
use node_drafts::TurnDraft;
use node_memory::Memory;
use node_rules::PendingCall;
use std::alloc::{AllocError, Global};

/// The pending call of a session is given up. Nothing where none is pending.
pub(crate) fn give_up_turn(
    memory: &mut Memory,
    alloc: Global,
    session: u32,
) -> Result<TurnDraft, AllocError>
    ensures gives { IfOk result (λ draft. GivesDraft (give_up_turn_of (kept_in memory.old) session) (kept_in memory.new) draft) }
    ensures place { memory.new.place ≡ memory.old.place }
{
    let given = memory.sessions.at(session);
    match given.root {
        None => Ok(TurnDraft::nothing(alloc)),
        Some(root) => match given.call {
            PendingCall::NoCall => Ok(TurnDraft::nothing(alloc)),
            PendingCall::Statement => statement_given_up(memory, alloc, session, &root),
            PendingCall::Commit => commit_given_up(memory, alloc, &root),
        },
    }
}
