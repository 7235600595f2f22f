//! A parent learns that its new child is there, and what waited for it goes on.
ghost use Rattle.std.specs.Prelude.{◌≡◌, ◌≤◌, length, IfOk};
ghost use Rattle.dtx_values.specs.Limits.{link_limit};
ghost use Rattle.session_tree.specs.Live.{new_edge as new_edge_of, next_edge as next_edge_of};
ghost use Rattle.node_rules.specs.NodeState.{branch_at};
ghost use Rattle.node_rules.specs.Calls.{less_room as less_room_of, on_opened as on_opened_of};
ghost use Rattle.node_state.specs.Works.{work_of};
ghost use Rattle.node_drafts.specs.Gives.{GivesDraft};
ghost use Rattle.node_memory.specs.Parts.{kept_in};
ghost use Rattle.node_calls.specs.Handled.{at_live, EdgesHaveNumbers, BranchHasRoom, waited_for as waited_for_of, waits_for as waits_for_of};

use crate::calling::call_over;
use dtx_values::{Duplicate, Name};
use node_drafts::TurnDraft;
use node_memory::Memory;
use node_rules::{Errand, Going, Waits};
use node_state::Works;
use session_tree::{Edge, Live, Vote};
use std::alloc::{AllocError, Global};
use tran_ids::BranchId;

/// What waits for a child.
#[derive(Drop)]
pub(crate) struct Waited {
    /// The link over which the child was asked for.
    pub link: Name,
    /// As it goes on: a statement has room for one branch less.
    pub errand: Errand,
}

/// Opened at a live branch: the statement that waits for this child goes on to it. Any other Opened is ignored.
#[tactic(auto, using(crate::proofs::BranchLaws::nothing_so))]
pub(crate) fn on_opened(
    memory: &mut Memory,
    alloc: Global,
    from: BranchId,
    to: &BranchId,
    edge: u8,
    strength: u8,
) -> Result<TurnDraft, AllocError>
    requires room { BranchHasRoom memory.old to.now }
    requires numbers { EdgesHaveNumbers memory.old to.now }
    ensures gives { IfOk result (λ draft.
        GivesDraft (at_live (kept_in memory.old) (λ x. on_opened_of (kept_in memory.old) x from edge strength) (branch_at (kept_in memory.old) to.now)) (kept_in memory.new) draft) }
    ensures place { memory.new.place ≡ memory.old.place }
{
    let Some(live) = memory.lives.get(to) else {
        return Ok(TurnDraft::nothing(alloc));
    };
    let next = next_edge(live);
    let Some(waited) = waited_for(alloc, &memory.works, to, edge, next)? else {
        return Ok(TurnDraft::nothing(alloc));
    };
    let Waited { link, errand } = waited;
    match memory.lives.add_edge(to, new_edge(from, link, strength)) {
        Err(error) => {
            drop(errand);
            Err(error)
        }
        Ok(()) => match memory.works.add_edge(alloc, to) {
            Err(error) => {
                drop(errand);
                Err(error)
            }
            Ok(()) => {
                let draft = call_over(memory, alloc, to, edge, errand)?;
                Ok(draft)
            }
        },
    }
}

// An errand once a child is there: a statement has room for one branch less.
fn less_room(alloc: Global, errand: &Errand) -> Result<Errand, AllocError>
    ensures { IfOk result (λ less. less ≡ less_room_of errand.now) }
{
    match errand {
        Errand::Statement { statement, room } => Ok(Errand::Statement {
            statement: statement.copy(alloc)?,
            room: room.saturating_sub(1),
        }),
        Errand::GoBack { step } => Ok(Errand::GoBack { step: *step }),
    }
}

// The number of the next child.
fn next_edge(live: &Live) -> u8
    requires { length live.now.edges ≤ link_limit }
    ensures { result ≡ next_edge_of live.now }
{
    live.edges.as_slice().len() as u8 + 1
}

// A new child: only its strength is known.
fn new_edge(peer: BranchId, link: Name, strength: u8) -> Edge
    ensures { result ≡ new_edge_of peer link strength }
{
    Edge {
        peer,
        link,
        strength,
        weight: None,
        count: 1,
        vote: Vote::Unasked,
    }
}

// What waits at a branch for the child of this number, which is the next one.
fn waited_for(
    alloc: Global,
    works: &Works,
    branch: &BranchId,
    number: u8,
    next: u8,
) -> Result<Option<Waited>, AllocError>
    ensures { IfOk result (λ waited. waited ≡ waited_for_of number next (work_of works.now branch.now).going) }
{
    match works.get(branch) {
        None => Ok(None),
        Some(work) => waited_by(alloc, &work.going, number, next),
    }
}

fn waited_by(
    alloc: Global,
    going: &Option<Going>,
    number: u8,
    next: u8,
) -> Result<Option<Waited>, AllocError>
    ensures { IfOk result (λ waited. waited ≡ waited_for_of number next going.now) }
{
    match going {
        None => Ok(None),
        Some(going) => {
            if number == next {
                waits_for(alloc, going)
            } else {
                Ok(None)
            }
        }
    }
}

fn waits_for(alloc: Global, going: &Going) -> Result<Option<Waited>, AllocError>
    ensures { IfOk result (λ waited. waited ≡ waits_for_of going.now going.now.waits) }
{
    match &going.waits {
        Waits::ForReply(_) => Ok(None),
        Waits::ForOpened(link) => Ok(Some(Waited {
            link: link.copy(alloc)?,
            errand: less_room(alloc, &going.errand)?,
        })),
    }
}
