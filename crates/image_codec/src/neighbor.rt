//! The bytes of decisions and children, as in other records.
ghost use Rattle.std.specs.Prelude.{◌≡◌, ◌++◌, OnOk};
ghost use Rattle.std.specs.Io.{StartsWith};
ghost use Rattle.byte_format.specs.Reads.{ReadsInMemory};
ghost use Rattle.redo_codec.specs.Decision.{decision_format, peer_format};

use byte_format::{Field, TakeErr, put_u8, put_u48, take_constant, take_u8, take_u48};
use field_codec::{BranchField, NameField, put_branch, put_name};
use redo_record::{Decision, Peer};
use std::alloc::{AllocError, Global};

/// A decision: 1 and the SCN for a commit, 2 and an SCN of 0 for a rollback.
pub(crate) struct DecisionField;

impl Field for DecisionField {
    type Value = Decision;

    ghost format = { decision_format };

    fn put_into(out: &mut Vec<u8>, decision: &Decision) -> Result<(), AllocError> {
        match decision {
            Decision::Commit(scn) => {
                put_u8(out, 1)?;
                put_u48(out, *scn)
            }
            Decision::Rollback => {
                put_u8(out, 2)?;
                out.extend_from_slice(&[0, 0, 0, 0, 0, 0])
            }
        }
    }

    fn take_from(_alloc: Global, bytes: &[u8]) -> Result<(Decision, &[u8]), TakeErr> {
        let (kind, rest) = take_u8(bytes)?;
        match kind {
            1 => {
                let (scn, rest) = take_u48(rest)?;
                Ok((Decision::Commit(scn), rest))
            }
            2 => {
                let rest = take_constant(rest, &[0, 0, 0, 0, 0, 0])?;
                Ok((Decision::Rollback, rest))
            }
            _ => Err(TakeErr::NoSpelling),
        }
    }
}

/// A child of a branch: the branch, and the link that leads to it.
pub(crate) struct PeerField;

impl Field for PeerField {
    type Value = Peer;

    ghost format = { peer_format };

    fn put_into(out: &mut Vec<u8>, peer: &Peer) -> Result<(), AllocError> {
        put_branch(out, &peer.branch)?;
        put_name(out, &peer.link)
    }

    fn take_from(alloc: Global, bytes: &[u8]) -> Result<(Peer, &[u8]), TakeErr> {
        let (branch, rest) = BranchField::take_from(alloc, bytes)?;
        let (link, rest) = NameField::take_from(alloc, rest)?;
        Ok((Peer { branch, link }, rest))
    }
}
