//! Checkpoints.
//!
//! No command asks for one yet, so none comes in a run. What is not written ends as for lack of memory.
ghost use Rattle.std.specs.Prelude.{◌≡◌, IfOk};
ghost use Rattle.node_rules.specs.Turn.{output_of};
ghost use Rattle.node_rules.specs.Images.{checkpoint as checkpoint_of};
ghost use Rattle.node_memory.specs.Parts.{kept_in};
ghost use Rattle.node_core.specs.Serves.{Serves};

use crate::StampedTurn;
use node_memory::Memory;
use std::alloc::{AllocError, Global};

/// The image of what the node stores is written.
pub(crate) fn checkpoint(_memory: &mut Memory, _alloc: Global) -> Result<StampedTurn, AllocError>
    ensures serves { IfOk result (λ served. Serves (output_of (checkpoint_of (kept_in _memory.old))) (kept_in _memory.new) served) }
    ensures place { _memory.new.place ≡ _memory.old.place }
{
    Err(AllocError)
}
