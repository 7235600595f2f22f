//! Messages as a field.
ghost use Rattle.std.specs.Prelude.{◌≡◌, ◌++◌, OnOk};
ghost use Rattle.std.specs.Io.{StartsWith};
ghost use Rattle.byte_format.specs.Part.{mapped_at};
ghost use Rattle.byte_format.specs.Reads.{ReadsInMemory};
ghost use Rattle.sql_print.specs.Printing.{printed};
ghost use Rattle.msg_codec.specs.Kind.{kind_byte};
ghost use Rattle.msg_codec.specs.Message.{head_format, body_as, message, msg_as};

use crate::putting::put_fields;
use crate::taking::take_fields;
use byte_format::{Field, TakeErr, put_u8, put_u64, take_u64};
use field_codec::{BranchField, put_branch};
use std::alloc::{AllocError, Global};
use tran_ids::BranchId;
use wire_msg::{Kind, Msg, Task};

/// The byte that names the kind.
fn kind_byte(kind: &Kind) -> u8
    ensures { result ≡ kind_byte kind.now }
{
    match kind {
        Kind::Open { read_at: None, .. } => 1,
        Kind::Open {
            read_at: Some(_scn),
            ..
        } => 18,
        Kind::Opened { .. } => 2,
        Kind::Exec {
            task: Task::Run { .. },
            ..
        } => 3,
        Kind::Exec {
            task: Task::GoBack { .. },
            ..
        } => 19,
        Kind::Reply { .. } => 4,
        Kind::Prepare { .. } => 5,
        Kind::Prepared => 6,
        Kind::ReadOnly => 7,
        Kind::Ready => 8,
        Kind::Abort => 9,
        Kind::CommitPoint => 10,
        Kind::Committed { .. } => 11,
        Kind::RolledBack => 12,
        Kind::InDoubt => 13,
        Kind::Ack => 14,
        Kind::Forgotten => 15,
        Kind::Rollback => 16,
        Kind::Ask => 17,
    }
}

/// Writes who sends the message, who it is for, and the sender's clock. Fails where memory runs out.
fn put_head(out: &mut Vec<u8>, from: &BranchId, to: &BranchId, scn: u64) -> Result<(), AllocError>
    ensures written { OnOk result (out.new.items ≡ out.old.items ++ head_format.text (from.now, (to.now, scn))) }
    ensures kept { StartsWith out.new.items out.old.items }
{
    put_branch(out, from)?;
    put_branch(out, to)?;
    put_u64(out, scn)
}

/// The message of this kind that is at the front behind the byte of its kind, and the bytes after it. Fails with
/// `NoSpelling` exactly where none is there, and with `NoMemory` where memory runs out.
fn take_body(alloc: Global, kind: u8, bytes: &[u8]) -> Result<(Msg, &[u8]), TakeErr>
    ensures { ReadsInMemory (λ x. (x.0, x.1.now)) result (mapped_at message (body_as printed kind).read bytes.now) }
{
    let (from, rest) = BranchField::take_from(alloc, bytes)?;
    let (to, rest) = BranchField::take_from(alloc, rest)?;
    let (scn, rest) = take_u64(rest)?;
    let (kind, rest) = take_fields(alloc, kind, rest)?;
    let msg = Msg {
        from,
        to,
        scn,
        kind,
    };
    Ok((msg, rest))
}

/// A message: the byte of its kind, who sends it, who it is for, the sender's clock, and what it says.
pub(crate) struct MsgField;

impl Field for MsgField {
    type Value = Msg;

    ghost format = { msg_as printed };

    fn put_into(out: &mut Vec<u8>, msg: &Msg) -> Result<(), AllocError> {
        put_u8(out, kind_byte(&msg.kind))?;
        put_head(out, &msg.from, &msg.to, msg.scn)?;
        put_fields(out, &msg.kind)
    }

    fn take_from(alloc: Global, bytes: &[u8]) -> Result<(Msg, &[u8]), TakeErr> {
        match bytes {
            [kind, rest @ ..] => take_body(alloc, *kind, rest),
            [] => Err(TakeErr::NoSpelling),
        }
    }
}
