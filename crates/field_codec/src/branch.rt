//! The bytes of branches.
ghost use Rattle.std.specs.Prelude.{◌≡◌, ◌++◌, IfOk, IsErrOf, OnOk};
ghost use Rattle.std.specs.Io.{StartsWith};
ghost use Rattle.byte_format.specs.Format.{IsFront, HasNoFront};
ghost use Rattle.byte_format.specs.Reads.{Reads};
ghost use Rattle.field_codec.specs.Branch.{branch_format};

use byte_format::{Field, NoSpelling, TakeErr, put_u8, put_u32, take_u8, take_u32};
use std::alloc::{AllocError, Global};
use tran_ids::BranchId;

/// A branch: its node, the start of the node, its session and its number.
pub struct BranchField;

impl Field for BranchField {
    type Value = BranchId;

    ghost format = { branch_format };

    fn put_into(out: &mut Vec<u8>, branch: &BranchId) -> Result<(), AllocError> {
        put_branch(out, branch)
    }

    fn take_from(_alloc: Global, bytes: &[u8]) -> Result<(BranchId, &[u8]), TakeErr> {
        Ok(branch_at(bytes)?)
    }
}

/// The branch whose spelling is at the front, and the bytes after it. Fails exactly where none is there.
fn branch_at(bytes: &[u8]) -> Result<(BranchId, &[u8]), NoSpelling>
    ensures { Reads (λ x. (x.0, x.1.now)) result (branch_format.read bytes.now) }
{
    let (node, rest) = take_u8(bytes)?;
    let (boot, rest) = take_u32(rest)?;
    let (session, rest) = take_u32(rest)?;
    let (seq, rest) = take_u32(rest)?;
    let branch = BranchId {
        node,
        boot,
        session,
        seq,
    };
    Ok((branch, rest))
}

/// Writes the branch's spelling at the end. Fails where memory runs out.
pub fn put_branch(out: &mut Vec<u8>, branch: &BranchId) -> Result<(), AllocError>
    ensures written { OnOk result (out.new.items ≡ out.old.items ++ branch_format.text branch.now) }
    ensures kept { StartsWith out.new.items out.old.items }
{
    put_u8(out, branch.node)?;
    put_u32(out, branch.boot)?;
    put_u32(out, branch.session)?;
    put_u32(out, branch.seq)
}

/// The branch whose spelling is at the front, and the bytes after it. Fails with `NoSpelling` exactly where none is there.
/// No memory is taken.
pub fn take_branch(_alloc: Global, bytes: &[u8]) -> Result<(BranchId, &[u8]), TakeErr>
    ensures found { IfOk result (λ x. IsFront branch_format bytes.now x.0 x.1.now) }
    ensures refused { IsErrOf result TakeErr.NoSpelling → HasNoFront branch_format bytes.now }
    ensures memory { IsErrOf result TakeErr.NoMemory → ⊥ }
{
    match branch_at(bytes) {
        Ok(front) => Ok(front),
        Err(NoSpelling) => Err(TakeErr::NoSpelling),
    }
}
