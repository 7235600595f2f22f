//! The records of a live branch that becomes sealed or decides.
ghost use Rattle.std.specs.Prelude.{◌≡◌, ◌≤◌, length, IfOk};
ghost use Rattle.dtx_values.specs.Limits.{link_limit};
ghost use Rattle.redo_record.specs.declared.record.RedoRecord.TheVariants as records;
ghost use Rattle.node_rules.specs.NodeState.{NodeState};
ghost use Rattle.node_rules.specs.Prepare.{own_changes, sealed_of as sealed_of_branch, decided_of as decided_of_branch};

use dtx_values::Changes;
use prepare_phase::{decided_of, sealed_of};
use redo_record::RedoRecord;
use session_tree::Live;
use std::alloc::{AllocError, Global};

/// The record of a branch that becomes sealed at the node's clock `scn` with these changes; `path` is the number of the child
/// that the walk to the commit point site goes to. Fails where memory runs out.
pub fn sealed_record(
    alloc: Global,
    scn: u64,
    live: &Live,
    changes: Changes,
    path: Option<u8>,
) -> Result<RedoRecord, AllocError>
    requires { length live.now.edges ≤ link_limit }
    ensures { IfOk result (λ redo. redo ≡ records.Sealed (sealed_of_branch scn live.now changes path)) }
{
    Ok(RedoRecord::Sealed(sealed_of(alloc, scn, live, changes, path)?))
}

/// The record of the commit point site that decides at the commit SCN `scn`, one more than the node's clock, with these
/// changes. Fails where memory runs out.
pub fn decided_record(
    alloc: Global,
    scn: u64,
    live: &Live,
    changes: Changes,
) -> Result<RedoRecord, AllocError>
    requires { length live.now.edges ≤ link_limit }
    ensures { IfOk result (λ redo. redo ≡ records.Decided (decided_of_branch scn live.now changes)) }
{
    Ok(RedoRecord::Decided(decided_of(alloc, scn, live, changes)?))
}
