//! A branch begins for its parent on another node.
ghost use Rattle.std.specs.Prelude.{◌≡◌, ◌+◌, ◌<◌, ◌^◌, None, Some, length, IfOk};
ghost use Rattle.tran_ids.specs.Listed.{item_at};
ghost use Rattle.session_tree.specs.Live.{fresh_live};
ghost use Rattle.node_rules.specs.NodeState.{live_id};
ghost use Rattle.node_rules.specs.Calls.{new_opening as new_opening_of, next_child as next_child_of, on_open as on_open_of, strength_of as strength_of_node};
ghost use Rattle.node_drafts.specs.Gives.{GivesDraft};
ghost use Rattle.node_memory.specs.Parts.{kept_in};

use dtx_values::Listing;
use link_session::Opening;
use node_drafts::{TurnDraft, opened_says};
use node_memory::Memory;
use session_tree::{Live, Phase};
use std::alloc::{AllocError, Global};
use tran_ids::BranchId;

/// Open: an Open that comes again gets the same Opened, and one that comes first begins a branch.
pub fn on_open(
    memory: &mut Memory,
    alloc: Global,
    parent: BranchId,
    edge: u8,
    root: BranchId,
    depth: u8,
    read_at: Option<u64>,
) -> Result<TurnDraft, AllocError>
    requires sessions { 65 + length memory.old.opens < 2 ^ 32 }
    requires new { item_at live_id memory.old.lives (next_child_of memory.old.place (kept_in memory.old)) ≡ None }
    ensures gives { IfOk result (λ draft. GivesDraft (on_open_of memory.old.place (kept_in memory.old) parent edge root depth read_at) (kept_in memory.new) draft) }
    ensures place { memory.new.place ≡ memory.old.place }
{
    match memory.opens.find(&parent, edge) {
        Some(opening) => Ok(TurnDraft::saying(alloc, opened_says(alloc, &opening)?)),
        None => {
            let opening = new_opening(memory, parent, edge);
            memory
                .lives
                .begin(begun(alloc, &opening, root, depth, read_at))?;
            memory.opens.add(opening)?;
            Ok(TurnDraft::saying(alloc, opened_says(alloc, &opening)?))
        }
    }
}

// An Open that makes a branch.
fn new_opening(memory: &Memory, parent: BranchId, edge: u8) -> Opening
    requires { 65 + length memory.now.opens < 2 ^ 32 }
    ensures { result ≡ new_opening_of memory.now.place (kept_in memory.now) parent edge }
{
    Opening {
        parent,
        edge,
        child: next_child(memory),
        strength: strength_of(memory),
    }
}

// The id of the next branch that is opened over a link.
fn next_child(memory: &Memory) -> BranchId
    requires { 65 + length memory.now.opens < 2 ^ 32 }
    ensures { result ≡ next_child_of memory.now.place (kept_in memory.now) }
{
    BranchId {
        node: memory.place.number,
        boot: memory.boot,
        session: 65 + memory.opens.len() as u32,
        seq: 1,
    }
}

/// The node's commit point strength: the one that was set, or else that of its NODE command.
pub(crate) fn strength_of(memory: &Memory) -> u8
    ensures { result ≡ strength_of_node memory.now.place (kept_in memory.now) }
{
    match memory.strength {
        Some(strength) => strength,
        None => memory.place.strength,
    }
}

// A branch that has just begun for its parent.
fn begun(alloc: Global, opening: &Opening, root: BranchId, depth: u8, read_at: Option<u64>) -> Live
    ensures { result ≡ fresh_live opening.now.child root (Some opening.now.parent) depth opening.now.strength read_at }
{
    Live {
        me: opening.child,
        root,
        parent: Some(opening.parent),
        depth,
        changed: false,
        strength: opening.strength,
        edges: Listing::new(alloc),
        phase: Phase::Working,
        advice: None,
        comment: Listing::new(alloc),
        read_at,
    }
}
