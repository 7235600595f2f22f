//! ALTER SESSION ADVISE.
ghost use Rattle.std.specs.Prelude.{◌≡◌, IfOk};
ghost use Rattle.node_rules.specs.Client.{advise as advise_of};
ghost use Rattle.node_drafts.specs.Gives.{GivesDraft};
ghost use Rattle.node_memory.specs.Parts.{kept_in};

use dtx_values::{Advice, Answer, Done};
use node_drafts::TurnDraft;
use node_memory::Memory;
use std::alloc::{AllocError, Global};

/// A session gives advice for branches that become in doubt, or none any more.
pub fn advise(
    memory: &mut Memory,
    alloc: Global,
    session: u32,
    advice: Option<Advice>,
) -> Result<TurnDraft, AllocError>
    ensures gives { IfOk result (λ draft. GivesDraft (advise_of (kept_in memory.old) session advice) (kept_in memory.new) draft) }
    ensures place { memory.new.place ≡ memory.old.place }
{
    let draft = TurnDraft::ending(alloc, session, Answer::Did(Done::SessionAltered, 0))?;
    memory.sessions.set_advice(session, advice);
    Ok(draft)
}
