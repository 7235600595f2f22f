//! The bytes of prepared and decided branches.
ghost use Rattle.std.specs.Prelude.{◌≡◌, ◌++◌, OnOk};
ghost use Rattle.std.specs.Io.{StartsWith};
ghost use Rattle.byte_format.specs.Reads.{ReadsInMemory};
ghost use Rattle.redo_codec.specs.Sealed.{is_sealed, head_format, tree_format, end_format, sealed_format, decided_format};

use crate::decision::PeerField;
use crate::toward::TowardField;
use byte_format::{Field, TakeErr, put_u48, take_u48};
use dtx_values::{Advice, Bytes, Changes};
use field_codec::{AdviceField, BranchField, ChangeField, CommentField, ListField, put_branch};
use redo_record::{Decided, Peers, Sealed, Toward};
use std::alloc::{AllocError, Global};
use tran_ids::BranchId;

/// Whether the way of a prepared branch leads to a parent or a child that it has.
fn is_sealed(sealed: &Sealed) -> bool
    ensures { result ≡ is_sealed sealed.now }
{
    match sealed.toward {
        Toward::Parent => sealed.parent.is_some(),
        Toward::Child(child) => (child as usize) < sealed.children.as_slice().len(),
    }
}

/// Writes the branch, the root of its transaction, and an SCN. Fails where memory runs out.
fn put_head(out: &mut Vec<u8>, me: &BranchId, root: &BranchId, scn: u64) -> Result<(), AllocError>
    requires { head_format.Fits (me.now, (root.now, scn)) }
    ensures written { OnOk result (out.new.items ≡ out.old.items ++ head_format.text (me.now, (root.now, scn))) }
    ensures kept { StartsWith out.new.items out.old.items }
{
    put_branch(out, me)?;
    put_branch(out, root)?;
    put_u48(out, scn)
}

/// Writes the parent, if there is one, and the children. Fails where memory runs out.
fn put_tree(
    out: &mut Vec<u8>,
    parent: &Option<BranchId>,
    children: &Peers,
) -> Result<(), AllocError>
    requires { tree_format.Fits (parent.now, children.now) }
    ensures written { OnOk result (out.new.items ≡ out.old.items ++ tree_format.text (parent.now, children.now)) }
    ensures kept { StartsWith out.new.items out.old.items }
{
    Option::<BranchField>::put_into(out, parent)?;
    ListField::<PeerField>::put_into(out, children)
}

/// Writes the advice, the comment, and the changes. Fails where memory runs out.
fn put_end(
    out: &mut Vec<u8>,
    advice: &Option<Advice>,
    comment: &Bytes,
    changes: &Changes,
) -> Result<(), AllocError>
    requires { end_format.Fits (advice.now, (comment.now, changes.now)) }
    ensures written { OnOk result (out.new.items ≡ out.old.items ++ end_format.text (advice.now, (comment.now, changes.now))) }
    ensures kept { StartsWith out.new.items out.old.items }
{
    AdviceField::put_into(out, advice)?;
    CommentField::put_into(out, comment)?;
    ListField::<ChangeField>::put_into(out, changes)
}

/// A prepared branch.
pub(crate) struct SealedField;

impl Field for SealedField {
    type Value = Sealed;

    ghost format = { sealed_format };

    fn put_into(out: &mut Vec<u8>, sealed: &Sealed) -> Result<(), AllocError> {
        put_head(out, &sealed.me, &sealed.root, sealed.scn)?;
        TowardField::put_into(out, &sealed.toward)?;
        put_tree(out, &sealed.parent, &sealed.children)?;
        put_end(out, &sealed.advice, &sealed.comment, &sealed.changes)
    }

    fn take_from(alloc: Global, bytes: &[u8]) -> Result<(Sealed, &[u8]), TakeErr> {
        let (me, rest) = BranchField::take_from(alloc, bytes)?;
        let (root, rest) = BranchField::take_from(alloc, rest)?;
        let (scn, rest) = take_u48(rest)?;
        let (toward, rest) = TowardField::take_from(alloc, rest)?;
        let (parent, rest) = Option::<BranchField>::take_from(alloc, rest)?;
        let (children, rest) = ListField::<PeerField>::take_from(alloc, rest)?;
        let (advice, rest) = AdviceField::take_from(alloc, rest)?;
        let (comment, rest) = CommentField::take_from(alloc, rest)?;
        let (changes, rest) = ListField::<ChangeField>::take_from(alloc, rest)?;
        let sealed = Sealed {
            me,
            root,
            scn,
            toward,
            parent,
            children,
            advice,
            comment,
            changes,
        };
        if !is_sealed(&sealed) {
            return Err(TakeErr::NoSpelling);
        }
        Ok((sealed, rest))
    }
}

/// A branch whose commit point site decided to commit.
pub(crate) struct DecidedField;

impl Field for DecidedField {
    type Value = Decided;

    ghost format = { decided_format };

    fn put_into(out: &mut Vec<u8>, decided: &Decided) -> Result<(), AllocError> {
        put_head(out, &decided.me, &decided.root, decided.scn)?;
        put_tree(out, &decided.parent, &decided.children)?;
        put_end(out, &decided.advice, &decided.comment, &decided.changes)
    }

    fn take_from(alloc: Global, bytes: &[u8]) -> Result<(Decided, &[u8]), TakeErr> {
        let (me, rest) = BranchField::take_from(alloc, bytes)?;
        let (root, rest) = BranchField::take_from(alloc, rest)?;
        let (scn, rest) = take_u48(rest)?;
        let (parent, rest) = Option::<BranchField>::take_from(alloc, rest)?;
        let (children, rest) = ListField::<PeerField>::take_from(alloc, rest)?;
        let (advice, rest) = AdviceField::take_from(alloc, rest)?;
        let (comment, rest) = CommentField::take_from(alloc, rest)?;
        let (changes, rest) = ListField::<ChangeField>::take_from(alloc, rest)?;
        let decided = Decided {
            me,
            root,
            scn,
            parent,
            children,
            advice,
            comment,
            changes,
        };
        Ok((decided, rest))
    }
}
