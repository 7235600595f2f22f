//! Takes the fields of each kind of message. Each call fails with `NoSpelling` exactly where the fields are not at the
//! front, and with `NoMemory` where memory runs out.
ghost use Rattle.std.specs.Prelude.{◌≡◌, Some, None};
ghost use Rattle.byte_format.specs.Number.{number64};
ghost use Rattle.byte_format.specs.Part.{mapped_at};
ghost use Rattle.byte_format.specs.Reads.{ReadsInMemory};
ghost use Rattle.sql_print.specs.Printing.{printed};
ghost use Rattle.msg_codec.specs.Kind.{kinds_as, open_format, open_at_format, back_format, opened_format, exec_as, reply_format, prepare_format};

use crate::answer::AnswerField;
use crate::statement::StatementField;
use byte_format::{Field, TakeErr, take_flag, take_u8, take_u16, take_u32, take_u64};
use field_codec::{AdviceField, BranchField, CommentField};
use std::alloc::Global;
use wire_msg::{Kind, Task};

/// What the message of this kind says whose fields are at the front, and the bytes after them.
pub(crate) fn take_fields(alloc: Global, kind: u8, bytes: &[u8]) -> Result<(Kind, &[u8]), TakeErr>
    ensures { ReadsInMemory (λ x. (x.0, x.1.now)) result ((kinds_as printed kind).read bytes.now) }
{
    match kind {
        1 => take_open(alloc, bytes),
        2 => take_opened(bytes),
        3 => take_exec(alloc, bytes),
        4 => take_reply(alloc, bytes),
        5 => take_prepare(alloc, bytes),
        6 => Ok((Kind::Prepared, bytes)),
        7 => Ok((Kind::ReadOnly, bytes)),
        8 => Ok((Kind::Ready, bytes)),
        9 => Ok((Kind::Abort, bytes)),
        10 => Ok((Kind::CommitPoint, bytes)),
        11 => take_committed(bytes),
        12 => Ok((Kind::RolledBack, bytes)),
        13 => Ok((Kind::InDoubt, bytes)),
        14 => Ok((Kind::Ack, bytes)),
        15 => Ok((Kind::Forgotten, bytes)),
        16 => Ok((Kind::Rollback, bytes)),
        17 => Ok((Kind::Ask, bytes)),
        18 => take_open_at(alloc, bytes),
        19 => take_back(bytes),
        _ => Err(TakeErr::NoSpelling),
    }
}

/// What an Open says.
fn take_open(alloc: Global, bytes: &[u8]) -> Result<(Kind, &[u8]), TakeErr>
    ensures { ReadsInMemory (λ x. (x.0, x.1.now)) result
        (mapped_at (λ x. Kind.Open x.0 x.1.0 x.1.1 None) open_format.read bytes.now) }
{
    let (edge, rest) = take_u8(bytes)?;
    let (root, rest) = BranchField::take_from(alloc, rest)?;
    let (depth, rest) = take_u8(rest)?;
    let kind = Kind::Open {
        edge,
        root,
        depth,
        read_at: None,
    };
    Ok((kind, rest))
}

/// What an Open says that tells an SCN.
fn take_open_at(alloc: Global, bytes: &[u8]) -> Result<(Kind, &[u8]), TakeErr>
    ensures { ReadsInMemory (λ x. (x.0, x.1.now)) result
        (mapped_at (λ x. Kind.Open x.0 x.1.0 x.1.1.0 (Some x.1.1.1)) open_at_format.read bytes.now) }
{
    let (edge, rest) = take_u8(bytes)?;
    let (root, rest) = BranchField::take_from(alloc, rest)?;
    let (depth, rest) = take_u8(rest)?;
    let (scn, rest) = take_u64(rest)?;
    let kind = Kind::Open {
        edge,
        root,
        depth,
        read_at: Some(scn),
    };
    Ok((kind, rest))
}

/// What an Exec says that goes back.
fn take_back(bytes: &[u8]) -> Result<(Kind, &[u8]), TakeErr>
    ensures { ReadsInMemory (λ x. (x.0, x.1.now)) result (mapped_at (λ x. Kind.Exec x.0 (Task.GoBack x.1)) back_format.read bytes.now) }
{
    let (call, rest) = take_u32(bytes)?;
    let (keep, rest) = take_u32(rest)?;
    let kind = Kind::Exec {
        call,
        task: Task::GoBack { keep },
    };
    Ok((kind, rest))
}

/// What an Opened says.
fn take_opened(bytes: &[u8]) -> Result<(Kind, &[u8]), TakeErr>
    ensures { ReadsInMemory (λ x. (x.0, x.1.now)) result (mapped_at (λ x. Kind.Opened x.0 x.1) opened_format.read bytes.now) }
{
    let (edge, rest) = take_u8(bytes)?;
    let (strength, rest) = take_u8(rest)?;
    Ok((Kind::Opened { edge, strength }, rest))
}

/// What an Exec says.
fn take_exec(alloc: Global, bytes: &[u8]) -> Result<(Kind, &[u8]), TakeErr>
    ensures { ReadsInMemory (λ x. (x.0, x.1.now)) result
        (mapped_at (λ x. Kind.Exec x.0.0 (Task.Run x.0.1.0 x.0.1.1 x.1)) (exec_as printed).read bytes.now) }
{
    let (call, rest) = take_u32(bytes)?;
    let (room, rest) = take_u16(rest)?;
    let (advice, rest) = AdviceField::take_from(alloc, rest)?;
    let (statement, rest) = StatementField::take_from(alloc, rest)?;
    let task = Task::Run {
        room,
        advice,
        statement,
    };
    let kind = Kind::Exec { call, task };
    Ok((kind, rest))
}

/// What a Reply says.
fn take_reply(alloc: Global, bytes: &[u8]) -> Result<(Kind, &[u8]), TakeErr>
    ensures { ReadsInMemory (λ x. (x.0, x.1.now)) result
        (mapped_at (λ x. Kind.Reply x.0 x.1.0 x.1.1.0 x.1.1.1) reply_format.read bytes.now) }
{
    let (call, rest) = take_u32(bytes)?;
    let (weight, rest) = Option::<u8>::take_from(alloc, rest)?;
    let (count, rest) = take_u16(rest)?;
    let (answer, rest) = AnswerField::take_from(alloc, rest)?;
    let kind = Kind::Reply {
        call,
        weight,
        count,
        result: answer,
    };
    Ok((kind, rest))
}

/// What a Prepare says.
fn take_prepare(alloc: Global, bytes: &[u8]) -> Result<(Kind, &[u8]), TakeErr>
    ensures { ReadsInMemory (λ x. (x.0, x.1.now)) result (mapped_at (λ x. Kind.Prepare x.0 x.1) prepare_format.read bytes.now) }
{
    let (site_below, rest) = take_flag(bytes)?;
    let (comment, rest) = CommentField::take_from(alloc, rest)?;
    let kind = Kind::Prepare {
        site_below,
        comment,
    };
    Ok((kind, rest))
}

/// What a Committed says.
fn take_committed(bytes: &[u8]) -> Result<(Kind, &[u8]), TakeErr>
    ensures { ReadsInMemory (λ x. (x.0, x.1.now)) result (mapped_at Kind.Committed number64.read bytes.now) }
{
    let (scn, rest) = take_u64(bytes)?;
    Ok((Kind::Committed { scn }, rest))
}
