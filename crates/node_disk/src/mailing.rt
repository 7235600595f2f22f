//! Messages with their bytes.
ghost use Rattle.std.specs.Prelude.{◌≡◌, ◌<◌, ◌^◌, length, map, nat_le, nat_lt, IfOk, OnErr, OnOk};
ghost use Rattle.std.specs.List.{All, AllByRecursion, list_all};
ghost use Rattle.dtx_values.specs.declared.answer.Answer.TheVariants as answers;
ghost use Rattle.field_codec.specs.Fits.{HasCount};
ghost use Rattle.sql_print.specs.Printing.{printed, IsPrintable};
ghost use Rattle.msg_codec.specs.Answer.{texts_format};
ghost use Rattle.msg_codec.specs.Fits.{AnswerFits, KindFits};
ghost use Rattle.msg_codec.specs.Statement.{statement_as};
ghost use Rattle.node_disk.specs.Effects.{mailed, IsMailed};
ghost use Rattle.node_disk.specs.Spellable.{IsUtf8, AnswerMayBeMailed, KindMayBeMailed, MayBeMailed};

use crate::effects::{Mailed, Sent};
use dtx_values::{Answer, Bytes, Listing, Row, RowSet};
use msg_codec::{encode_msg, message_fits, messages_are_read};
use sql_print::print_stmt;
use sql_statement::Stmt;
use std::alloc::{AllocError, Global};
use wire_msg::{Kind, Msg, Msgs, Task};

// The most that four bytes count.
const COUNT_LIMIT: usize = 4_294_967_295;

// Whether each of these texts has at most 65,535 bytes.
fn are_short(texts: &[Bytes]) -> bool
    ensures { result ≡ list_all (λ text. nat_lt (length text) 65536) texts.now }
{
    texts.iter().all(|text| text.as_slice().len() < 65536)
}

// Whether one byte counts the cells of each of these rows.
fn are_narrow(rows: &[Row]) -> bool
    ensures { result ≡ list_all (λ row. nat_lt (length row.cells) 256) rows.now }
{
    rows.iter().all(|row| row.cells.as_slice().len() < 256)
}

// Fails where there are too many texts, or one of them is too long.
#[tactic(auto, using(crate::proofs::MailLaws::texts_so, crate::proofs::MailLaws::texts_many, crate::proofs::MailLaws::texts_long))]
fn texts_fit(texts: &[Bytes]) -> Result<(), AllocError>
    requires { AllByRecursion IsUtf8 texts.now }
    ensures fits { OnOk result (texts_format.Fits texts.now) }
    ensures many { OnErr result (texts_format.Fits texts.now → ⊥) }
{
    if texts.len() > COUNT_LIMIT {
        return Err(AllocError);
    }
    if !are_short(texts) {
        return Err(AllocError);
    }
    Ok(())
}

// Fails where there are too many rows, or one of them has too many cells.
#[tactic(auto, using(crate::proofs::MailLaws::rows_so, crate::proofs::MailLaws::rows_wide))]
fn rows_fit(rows: &[Row]) -> Result<(), AllocError>
    ensures few { OnOk result (length rows.now < 2 ^ 32) }
    ensures narrow { OnOk result (All HasCount rows.now) }
    ensures many { OnErr result (length rows.now < 2 ^ 32 → All HasCount rows.now → ⊥) }
{
    if rows.len() > COUNT_LIMIT {
        return Err(AllocError);
    }
    if !are_narrow(rows) {
        return Err(AllocError);
    }
    Ok(())
}

// Fails where the answer is too long for its counts.
fn found_fits(found: &RowSet) -> Result<(), AllocError>
    requires { AllByRecursion IsUtf8 found.now.heads }
    ensures heads { OnOk result (texts_format.Fits found.now.heads) }
    ensures few { OnOk result (length found.now.rows < 2 ^ 32) }
    ensures narrow { OnOk result (All HasCount found.now.rows) }
    ensures many { OnErr result (AnswerFits (answers.Found found.now) → ⊥) }
{
    texts_fit(found.heads.as_slice())?;
    rows_fit(found.rows.as_slice())
}

// Fails where the answer is too long for its counts.
fn answer_fits(answer: &Answer) -> Result<(), AllocError>
    requires { AnswerMayBeMailed answer.now }
    ensures fits { OnOk result (AnswerFits answer.now) }
    ensures many { OnErr result (AnswerFits answer.now → ⊥) }
{
    match answer {
        Answer::Did(_, _) => Ok(()),
        Answer::Found(found) => found_fits(found),
        Answer::Refused(refusal) => texts_fit(refusal.args.as_slice()),
    }
}

// Whether four bytes count the bytes of this text.
fn is_counted(text: &[u8]) -> bool
    ensures { result ≡ nat_le (length text.now) 4294967295 }
{
    text.len() <= COUNT_LIMIT
}

// Fails where four bytes do not count the bytes of the printed statement, or memory runs out.
fn statement_fits(alloc: Global, statement: &Stmt) -> Result<(), AllocError>
    requires { IsPrintable statement.now }
    ensures { OnOk result ((statement_as printed).Fits statement.now) }
{
    let text = print_stmt(alloc, statement)?;
    if !is_counted(text.as_slice()) {
        return Err(AllocError);
    }
    Ok(())
}

// Fails where what a message says is too long for its counts, or memory runs out.
fn kind_fits(alloc: Global, kind: &Kind) -> Result<(), AllocError>
    requires { KindMayBeMailed kind.now }
    ensures { OnOk result (KindFits kind.now) }
{
    match kind {
        Kind::Exec {
            task: Task::Run { statement, .. },
            ..
        } => statement_fits(alloc, statement),
        Kind::Reply { result: answer, .. } => answer_fits(answer),
        _ => Ok(()),
    }
}

fn mail_one(alloc: Global, msg: Msg) -> Result<Mailed, AllocError>
    requires { MayBeMailed msg }
    ensures mail { IfOk result (λ mail. mail ≡ mailed msg) }
    ensures read { IfOk result IsMailed }
{
    messages_are_read();
    if let Err(error) = kind_fits(alloc, &msg.kind) {
        drop(msg);
        return Err(error);
    }
    message_fits(&msg);
    match encode_msg(alloc, &msg) {
        Err(error) => {
            drop(msg);
            Err(error)
        }
        Ok(bytes) => Ok(Mailed { msg, bytes }),
    }
}

/// The messages with their bytes. Fails where one is too long for its counts, or memory runs out.
#[tactic(auto, using(crate::proofs::MailLaws::mailed_last))]
pub(crate) fn mail(alloc: Global, msgs: Msgs) -> Result<Sent, AllocError>
    requires { AllByRecursion MayBeMailed msgs }
    ensures sent { IfOk result (λ sent. sent ≡ map mailed msgs) }
    ensures read { IfOk result (AllByRecursion IsMailed) }
{
    let msgs = msgs.into_vec();
    let mut sent = Vec::with_capacity(alloc, msgs.len())?;
    for msg in msgs {
        sent.push(mail_one(alloc, msg)?)?;
    }
    Ok(Listing::of(sent))
}
