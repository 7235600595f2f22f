//! What a turn does beside changing what the node keeps.
ghost use Rattle.std.specs.Prelude.{◌≡◌, None, Some, [], ◌∷◌, IfOk};
ghost use Rattle.node_rules.specs.NodeState.{NodeState, nothing as nothing_of, saying as saying_of, ending as ending_of};
ghost use Rattle.node_drafts.specs.Gives.{GivesDraft};

use crate::answers::ended;
use dtx_values::{Answer, Listing};
use node_rules::Ended;
use reco::Posts;
use redo_record::RedoRecord;
use std::alloc::{AllocError, Global};

/// What a turn does beside changing what the node keeps.
#[derive(Drop)]
pub struct TurnDraft {
    /// The record that it writes, where it writes one.
    pub wrote: Option<RedoRecord>,
    /// The messages that it sends, in order, before the node's clock is set on them.
    pub says: Posts,
    /// The calls of clients that it ends, in order.
    pub ended: Ended,
}

impl TurnDraft {
    /// Nothing is done.
    pub fn nothing(alloc: Global) -> TurnDraft
        ensures is { result ≡ record { wrote = None; says = []; ended = [] } }
        ensures gives { (k : NodeState) → GivesDraft (nothing_of k) k result }
    {
        TurnDraft::saying(alloc, Listing::new(alloc))
    }

    /// Only messages are sent.
    pub fn saying(alloc: Global, says: Posts) -> TurnDraft
        ensures is { result ≡ record { wrote = None; says = says; ended = [] } }
        ensures gives { (k : NodeState) → GivesDraft (saying_of k says) k result }
    {
        TurnDraft {
            wrote: None,
            says,
            ended: Listing::new(alloc),
        }
    }

    /// Only a session's call ends. Fails where memory runs out.
    pub fn ending(alloc: Global, session: u32, answer: Answer) -> Result<TurnDraft, AllocError>
        ensures is { IfOk result (λ draft. draft ≡ record { wrote = None; says = []; ended = (record { session = session; answer = answer }) ∷ [] }) }
        ensures gives { IfOk result (λ draft. (k : NodeState) → GivesDraft (ending_of k session answer) k draft) }
    {
        let ended = ended(alloc, session, answer)?;
        Ok(TurnDraft {
            wrote: None,
            says: Listing::new(alloc),
            ended,
        })
    }

    /// A record is written, messages are sent, and calls end.
    pub fn writing(redo: RedoRecord, says: Posts, ended: Ended) -> TurnDraft
        ensures { result ≡ record { wrote = Some redo; says = says; ended = ended } }
    {
        TurnDraft {
            wrote: Some(redo),
            says,
            ended,
        }
    }
}
