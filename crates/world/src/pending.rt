//! How many rows DBA_2PC_PENDING has, counted without taking memory.
ghost use Rattle.std.specs.Prelude.{◌≡◌, ◌≤◌, ◌^◌, sum_by};
ghost use Rattle.run_trace.specs.Recorded.{past_of};
ghost use Rattle.world.specs.Linked.{IsLinked};
ghost use Rattle.world.specs.Pending.{pending_at as pending_by, pending_in};

use crate::World;
use crate::slot::NodeSlot;
use pending_count::count_pending;

// At a node: none where it is down.
fn pending_at(slot: &NodeSlot) -> u128
    ensures is { result ≡ pending_by slot.now }
    ensures few { result ≤ 2 ^ 64 }
{
    match slot {
        NodeSlot::Up(node) => count_pending(node.kept(), node.lives()),
        NodeSlot::Down(_disk) => 0,
    }
}

fn pending_over(slots: &[NodeSlot]) -> u128
    ensures { result ≡ sum_by pending_by slots.now }
{
    let mut count: u128 = 0;
    for slot in slots {
        count += pending_at(slot);
    }
    count
}

impl World {
    /// How many rows DBA_2PC_PENDING has over all nodes. It takes no memory.
    #[tactic(auto, using(crate::proofs::PendingLemmas::pending_is))]
    pub(crate) fn pending_rows(&self) -> u128
        requires linked { IsLinked self.now }
        ensures { result ≡ pending_in (past_of self.now.trace).facts }
    {
        pending_over(&self.slots)
    }
}
