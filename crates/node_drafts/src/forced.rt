//! The branch that COMMIT FORCE or ROLLBACK FORCE names.
ghost use Rattle.std.specs.Prelude.{◌≡◌, IfOk};
ghost use Rattle.node_rules.specs.Force.{one_named as one_named_of, branch_to_force as branch_to_force_of};

use crate::refusals::{no_branch, several_branches};
use dtx_values::{Name, Refusal};
use force_cmds::{IdNames, find};
use redo_record::KeptRow;
use std::alloc::{AllocError, Global};
use tran_ids::BranchId;

/// The one branch that an id names; ORA-02058 where it names none, DTX-07 where it names several. Fails where memory runs
/// out.
fn one_named(
    alloc: Global,
    id: &[u8],
    found: IdNames,
) -> Result<Result<BranchId, Refusal>, AllocError>
    ensures { IfOk result (λ named. named ≡ one_named_of id.now found) }
{
    match found {
        IdNames::Nobody => Ok(Err(no_branch(alloc, id)?)),
        IdNames::One(branch) => Ok(Ok(branch)),
        IdNames::Several(first, second) => Ok(Err(several_branches(alloc, id, first, second)?)),
    }
}

/// The branch that an id of COMMIT FORCE or ROLLBACK FORCE names, where `names` are the names of all nodes, or the refusal
/// that answers the statement. Fails where memory runs out.
#[tactic(auto, unfolding(node_rules::specs::Force::branch_to_force))]
pub fn branch_to_force(
    alloc: Global,
    names: &[Name],
    kept: &[KeptRow],
    id: &[u8],
) -> Result<Result<BranchId, Refusal>, AllocError>
    ensures { IfOk result (λ named. named ≡ branch_to_force_of names.now kept.now id.now) }
{
    one_named(alloc, id, find(alloc, names, kept, id)?)
}
