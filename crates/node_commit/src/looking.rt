//! The live branch that a handler is about.
ghost use Rattle.std.specs.Prelude.{◌≡◌, IfSome};
ghost use Rattle.std.specs.Option.{option_copied};
ghost use Rattle.tran_ids.specs.Listed.{put_item};
ghost use Rattle.node_rules.specs.NodeState.{live_id, live_at as live_at_of};
ghost use Rattle.node_state.specs.Lives.{HasRoom};
ghost use Rattle.node_memory.specs.Parts.{kept_in};

use node_memory::Memory;
use session_tree::Live;
use tran_ids::BranchId;

/// The live branch of an id. It has no more children than a tree has branches.
pub(crate) fn live_of<'a>(memory: &'a Memory, branch: &BranchId) -> Option<&'a Live>
    ensures live { option_copied result ≡ live_at_of (kept_in memory.now) branch.now }
    ensures room { IfSome result (λ live. HasRoom live.now) }
    ensures me { IfSome result (λ live. live.now.me ≡ branch.now) }

    // It stands in its place.
    ensures stays { IfSome result (λ live. put_item live_id memory.now.lives live.now ≡ memory.now.lives) }
{
    match memory.live_at(branch) {
        None => None,
        Some(live) => Some(live),
    }
}
