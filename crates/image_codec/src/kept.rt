//! The bytes of kept branches.
ghost use Rattle.std.specs.Prelude.{◌≡◌, ◌++◌, OnOk};
ghost use Rattle.std.specs.Io.{StartsWith};
ghost use Rattle.byte_format.specs.Reads.{ReadsInMemory};
ghost use Rattle.redo_codec.specs.Sealed.{head_format, tree_format};
ghost use Rattle.image_codec.specs.Kept.{way_leads, may_hold, is_kept, note_format, outcome_format, end_format, item_format};

use crate::neighbor::{DecisionField, PeerField};
use crate::state::{StateField, WayField};
use byte_format::{Field, TakeErr, put_flag, put_u48, take_flag, take_u48};
use dtx_values::{Advice, Bytes};
use field_codec::{AdviceField, BranchField, ChangeField, CommentField, ListField, put_branch};
use redo_record::{Decision, KeptItem, KeptState, Peers, Toward};
use std::alloc::{AllocError, Global};
use tran_ids::BranchId;

/// Whether a way leads to a parent or a child that there is, or nowhere.
fn way_leads(way: &Option<Toward>, parent: &Option<BranchId>, children: usize) -> bool
    ensures { result ≡ way_leads way.now parent.now children }
{
    match way {
        None => true,
        Some(Toward::Parent) => parent.is_some(),
        Some(Toward::Child(child)) => (*child as usize) < children,
    }
}

/// Whether a branch in this state may hold so many changes back.
fn may_hold(state: KeptState, changes: usize) -> bool
    ensures { result ≡ may_hold state changes }
{
    match state {
        KeptState::Sealed => true,
        KeptState::Committed => changes == 0,
        KeptState::ForcedCommit => changes == 0,
        KeptState::ForcedRollback => changes == 0,
    }
}

/// Whether the way of a kept branch leads somewhere, and it holds changes back only in doubt.
fn is_kept(item: &KeptItem) -> bool
    ensures { result ≡ is_kept item.now }
{
    way_leads(&item.toward, &item.parent, item.children.as_slice().len())
        && may_hold(item.state, item.changes.as_slice().len())
}

/// Writes the branch, the root of its transaction, and an SCN. Fails where memory runs out.
fn put_head(out: &mut Vec<u8>, me: &BranchId, root: &BranchId, scn: u64) -> Result<(), AllocError>
    requires { head_format.Fits (me.now, (root.now, scn)) }
    ensures written { OnOk result (out.new.items ≡ out.old.items ++ head_format.text (me.now, (root.now, scn))) }
    ensures kept { StartsWith out.new.items out.old.items }
{
    put_branch(out, me)?;
    put_branch(out, root)?;
    put_u48(out, scn)
}

/// Writes the parent, if there is one, and the children. Fails where memory runs out.
fn put_tree(
    out: &mut Vec<u8>,
    parent: &Option<BranchId>,
    children: &Peers,
) -> Result<(), AllocError>
    requires { tree_format.Fits (parent.now, children.now) }
    ensures written { OnOk result (out.new.items ≡ out.old.items ++ tree_format.text (parent.now, children.now)) }
    ensures kept { StartsWith out.new.items out.old.items }
{
    Option::<BranchField>::put_into(out, parent)?;
    ListField::<PeerField>::put_into(out, children)
}

/// Writes the advice and the comment. Fails where memory runs out.
fn put_note(out: &mut Vec<u8>, advice: &Option<Advice>, comment: &Bytes) -> Result<(), AllocError>
    requires { note_format.Fits (advice.now, comment.now) }
    ensures written { OnOk result (out.new.items ≡ out.old.items ++ note_format.text (advice.now, comment.now)) }
    ensures kept { StartsWith out.new.items out.old.items }
{
    AdviceField::put_into(out, advice)?;
    CommentField::put_into(out, comment)
}

/// What is known of the outcome of a kept branch.
#[derive(Drop)]
struct Outcome {
    decision: Option<Decision>,
    number: u64,
    mixed: bool,
    forgot: bool,
    hidden: bool,
}

/// Writes what is known of the outcome. Fails where memory runs out.
fn put_outcome(out: &mut Vec<u8>, item: &KeptItem) -> Result<(), AllocError>
    requires { outcome_format.Fits (item.now.decision, (item.now.number, (item.now.mixed, (item.now.forgot, item.now.hidden)))) }
    ensures written { OnOk result (out.new.items ≡ out.old.items ++ outcome_format.text (item.now.decision, (item.now.number, (item.now.mixed, (item.now.forgot, item.now.hidden))))) }
    ensures kept { StartsWith out.new.items out.old.items }
{
    Option::<DecisionField>::put_into(out, &item.decision)?;
    put_u48(out, item.number)?;
    put_flag(out, item.mixed)?;
    put_flag(out, item.forgot)?;
    put_flag(out, item.hidden)
}

/// Writes the note, what is known of the outcome, and what is held back. Fails where memory runs out.
fn put_end(out: &mut Vec<u8>, item: &KeptItem) -> Result<(), AllocError>
    requires { end_format.Fits ((item.now.advice, item.now.comment), ((item.now.decision, (item.now.number, (item.now.mixed, (item.now.forgot, item.now.hidden)))), item.now.changes)) }
    ensures written { OnOk result (out.new.items ≡ out.old.items ++ end_format.text ((item.now.advice, item.now.comment), ((item.now.decision, (item.now.number, (item.now.mixed, (item.now.forgot, item.now.hidden)))), item.now.changes))) }
    ensures kept { StartsWith out.new.items out.old.items }
{
    put_note(out, &item.advice, &item.comment)?;
    put_outcome(out, item)?;
    ListField::<ChangeField>::put_into(out, &item.changes)
}

/// What is known of the outcome, and the bytes after it.
fn take_outcome(alloc: Global, bytes: &[u8]) -> Result<(Outcome, &[u8]), TakeErr>
    ensures { ReadsInMemory (λ x. ((x.0.decision, (x.0.number, (x.0.mixed, (x.0.forgot, x.0.hidden)))), x.1.now)) result (outcome_format.read bytes.now) }
{
    let (decision, rest) = Option::<DecisionField>::take_from(alloc, bytes)?;
    let (number, rest) = take_u48(rest)?;
    let (mixed, rest) = take_flag(rest)?;
    let (forgot, rest) = take_flag(rest)?;
    let (hidden, rest) = take_flag(rest)?;
    let outcome = Outcome {
        decision,
        number,
        mixed,
        forgot,
        hidden,
    };
    Ok((outcome, rest))
}

/// A kept branch.
pub(crate) struct ItemField;

impl Field for ItemField {
    type Value = KeptItem;

    ghost format = { item_format };

    fn put_into(out: &mut Vec<u8>, item: &KeptItem) -> Result<(), AllocError> {
        put_head(out, &item.me, &item.root, item.scn)?;
        StateField::put_into(out, &item.state)?;
        WayField::put_into(out, &item.toward)?;
        put_tree(out, &item.parent, &item.children)?;
        put_end(out, item)
    }

    fn take_from(alloc: Global, bytes: &[u8]) -> Result<(KeptItem, &[u8]), TakeErr> {
        let (me, rest) = BranchField::take_from(alloc, bytes)?;
        let (root, rest) = BranchField::take_from(alloc, rest)?;
        let (scn, rest) = take_u48(rest)?;
        let (state, rest) = StateField::take_from(alloc, rest)?;
        let (toward, rest) = WayField::take_from(alloc, rest)?;
        let (parent, rest) = Option::<BranchField>::take_from(alloc, rest)?;
        let (children, rest) = ListField::<PeerField>::take_from(alloc, rest)?;
        let (advice, rest) = AdviceField::take_from(alloc, rest)?;
        let (comment, rest) = CommentField::take_from(alloc, rest)?;
        let (outcome, rest) = take_outcome(alloc, rest)?;
        let (changes, rest) = ListField::<ChangeField>::take_from(alloc, rest)?;
        let item = KeptItem {
            me,
            root,
            scn,
            state,
            toward,
            parent,
            children,
            advice,
            comment,
            decision: outcome.decision,
            number: outcome.number,
            mixed: outcome.mixed,
            forgot: outcome.forgot,
            hidden: outcome.hidden,
            changes,
        };
        if !is_kept(&item) {
            return Err(TakeErr::NoSpelling);
        }
        Ok((item, rest))
    }
}
