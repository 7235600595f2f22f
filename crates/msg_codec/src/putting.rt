//! Writes the fields of each kind of message. Each call fails where memory runs out.
ghost use Rattle.std.specs.Prelude.{◌≡◌, ◌++◌, OnOk};
ghost use Rattle.std.specs.Io.{StartsWith};
ghost use Rattle.sql_print.specs.Printing.{printed};
ghost use Rattle.msg_codec.specs.Kind.{kind_byte, kinds_as, open_format, open_at_format, back_format, opened_format, exec_as, reply_format, prepare_format};

use crate::answer::AnswerField;
use crate::statement::StatementField;
use byte_format::{Field, put_flag, put_u8, put_u16, put_u32, put_u64};
use dtx_values::{Advice, Answer, Bytes};
use field_codec::{AdviceField, CommentField, put_branch};
use sql_statement::Stmt;
use std::alloc::AllocError;
use tran_ids::BranchId;
use wire_msg::{Kind, Task};

/// Writes what an Open says.
fn put_open(out: &mut Vec<u8>, edge: u8, root: &BranchId, depth: u8) -> Result<(), AllocError>
    requires { open_format.Fits (edge, (root.now, depth)) }
    ensures written { OnOk result (out.new.items ≡ out.old.items ++ open_format.text (edge, (root.now, depth))) }
    ensures kept { StartsWith out.new.items out.old.items }
{
    put_u8(out, edge)?;
    put_branch(out, root)?;
    put_u8(out, depth)
}

/// Writes what an Open says that tells an SCN.
fn put_open_at(
    out: &mut Vec<u8>,
    edge: u8,
    root: &BranchId,
    depth: u8,
    scn: u64,
) -> Result<(), AllocError>
    requires { open_at_format.Fits (edge, (root.now, (depth, scn))) }
    ensures written { OnOk result (out.new.items ≡ out.old.items ++ open_at_format.text (edge, (root.now, (depth, scn)))) }
    ensures kept { StartsWith out.new.items out.old.items }
{
    put_u8(out, edge)?;
    put_branch(out, root)?;
    put_u8(out, depth)?;
    put_u64(out, scn)
}

/// Writes what an Exec says that goes back.
fn put_back(out: &mut Vec<u8>, call: u32, keep: u32) -> Result<(), AllocError>
    ensures written { OnOk result (out.new.items ≡ out.old.items ++ back_format.text (call, keep)) }
    ensures kept { StartsWith out.new.items out.old.items }
{
    put_u32(out, call)?;
    put_u32(out, keep)
}

/// Writes what an Opened says.
fn put_opened(out: &mut Vec<u8>, edge: u8, strength: u8) -> Result<(), AllocError>
    ensures written { OnOk result (out.new.items ≡ out.old.items ++ opened_format.text (edge, strength)) }
    ensures kept { StartsWith out.new.items out.old.items }
{
    put_u8(out, edge)?;
    put_u8(out, strength)
}

/// Writes what an Exec says that runs a statement.
fn put_exec(
    out: &mut Vec<u8>,
    call: u32,
    room: u16,
    advice: &Option<Advice>,
    statement: &Stmt,
) -> Result<(), AllocError>
    requires { (exec_as printed).Fits ((call, (room, advice.now)), statement.now) }
    ensures written { OnOk result (out.new.items ≡ out.old.items ++ (exec_as printed).text ((call, (room, advice.now)), statement.now)) }
    ensures kept { StartsWith out.new.items out.old.items }
{
    put_u32(out, call)?;
    put_u16(out, room)?;
    AdviceField::put_into(out, advice)?;
    StatementField::put_into(out, statement)
}

/// Writes what a Reply says.
fn put_reply(
    out: &mut Vec<u8>,
    call: u32,
    weight: &Option<u8>,
    count: u16,
    answer: &Answer,
) -> Result<(), AllocError>
    requires { reply_format.Fits (call, (weight.now, (count, answer.now))) }
    ensures written { OnOk result (out.new.items ≡ out.old.items ++ reply_format.text (call, (weight.now, (count, answer.now)))) }
    ensures kept { StartsWith out.new.items out.old.items }
{
    put_u32(out, call)?;
    Option::<u8>::put_into(out, weight)?;
    put_u16(out, count)?;
    AnswerField::put_into(out, answer)
}

/// Writes what a Prepare says.
fn put_prepare(out: &mut Vec<u8>, site_below: bool, comment: &Bytes) -> Result<(), AllocError>
    requires { prepare_format.Fits (site_below, comment.now) }
    ensures written { OnOk result (out.new.items ≡ out.old.items ++ prepare_format.text (site_below, comment.now)) }
    ensures kept { StartsWith out.new.items out.old.items }
{
    put_flag(out, site_below)?;
    CommentField::put_into(out, comment)
}

/// Writes what the message says.
pub(crate) fn put_fields(out: &mut Vec<u8>, kind: &Kind) -> Result<(), AllocError>
    requires { (kinds_as printed (kind_byte kind.now)).Fits kind.now }
    ensures written { OnOk result (out.new.items ≡ out.old.items ++ (kinds_as printed (kind_byte kind.now)).text kind.now) }
    ensures kept { StartsWith out.new.items out.old.items }
{
    match kind {
        Kind::Open {
            edge,
            root,
            depth,
            read_at: None,
        } => put_open(out, *edge, root, *depth),
        Kind::Open {
            edge,
            root,
            depth,
            read_at: Some(scn),
        } => put_open_at(out, *edge, root, *depth, *scn),
        Kind::Opened { edge, strength } => put_opened(out, *edge, *strength),
        Kind::Exec {
            call,
            task: Task::Run {
                room,
                advice,
                statement,
            },
        } => put_exec(out, *call, *room, advice, statement),
        Kind::Exec {
            call,
            task: Task::GoBack { keep },
        } => put_back(out, *call, *keep),
        Kind::Reply {
            call,
            weight,
            count,
            result: answer,
        } => put_reply(out, *call, weight, *count, answer),
        Kind::Prepare {
            site_below,
            comment,
        } => put_prepare(out, *site_below, comment),
        Kind::Committed { scn } => put_u64(out, *scn),
        Kind::Prepared
        | Kind::ReadOnly
        | Kind::Ready
        | Kind::Abort
        | Kind::CommitPoint
        | Kind::RolledBack
        | Kind::InDoubt
        | Kind::Ack
        | Kind::Forgotten
        | Kind::Rollback
        | Kind::Ask => Ok(()),
    }
}
