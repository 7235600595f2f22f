//! Acks that kept branches hear.
ghost use Rattle.std.specs.Prelude.{◌≡◌};
ghost use Rattle.std.specs.Option.{option_map};
ghost use Rattle.commit_forget.specs.Next.{acked_next};
ghost use Rattle.node_rules.specs.NodeState.{kept_row_at};
ghost use Rattle.node_memory.specs.Parts.{kept_in};
ghost use Rattle.node_memory.specs.Acks.{with_ack};

use crate::Memory;
use commit_forget::{Next, on_ack};
use std::alloc::Global;
use tran_ids::BranchId;

impl Memory {
    /// A kept branch hears an Ack, which is noted in its row where it counts. Tells what the branch does next, and nothing
    /// where it is not kept. No memory is taken.
    pub fn hear_ack(&mut self, alloc: Global, branch: &BranchId, from: &BranchId) -> Option<Next>
        ensures next { result ≡ option_map (λ row. acked_next row from.now) (kept_row_at (kept_in self.old) branch.now) }
        ensures kept { kept_in self.new ≡ with_ack (kept_in self.old) from.now (kept_row_at (kept_in self.old) branch.now) }
        ensures place { self.new.place ≡ self.old.place }
    {
        let mut row = self.kept.lend(alloc, branch)?;
        let next = on_ack(alloc, &mut row, from);
        self.kept.put(row);
        Some(next)
    }
}
