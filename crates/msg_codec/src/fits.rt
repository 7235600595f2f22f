//! That messages have a spelling.
//!
//! What branches, numbers, values and the like are made of is known where they are read: these functions read them.
ghost use Rattle.std.specs.Prelude.{◌<◌, ◌^◌, length};
ghost use Rattle.std.specs.List.{All, AllByRecursion};
ghost use Rattle.sql_print.specs.Printing.{printed};
ghost use Rattle.byte_format.specs.Number.{number8};
ghost use Rattle.byte_format.specs.Part.{optional};
ghost use Rattle.field_codec.specs.Fits.{HasCount};
ghost use Rattle.field_codec.specs.Value.{row_format};
ghost use Rattle.msg_codec.specs.Answer.{texts_format, found_format, refusal_format, answer_format};
ghost use Rattle.msg_codec.specs.Kind.{kind_byte, kinds_as, reply_format};
ghost use Rattle.msg_codec.specs.Message.{HasSpelling};
ghost use Rattle.msg_codec.specs.Fits.{AnswerFits, KindFits};

use dtx_values::{Answer, Refusal, Row, RowSet};
use field_codec::{branch_fits, row_fits};
use wire_msg::{Kind, Msg, Task};

/// Each of these rows has a spelling if one byte is enough to count its cells.
fn rows_fit(rows: &[Row])
    requires { All HasCount rows.now }
    ensures { AllByRecursion row_format.Fits rows.now }
{
    for row in rows {
        row_fits(row);
    }
}

/// What a query found has a spelling if none of its lists is too long for its count, and its heads are UTF-8.
fn found_fits(found: &RowSet)
    requires heads { texts_format.Fits found.now.heads }
    requires few { length found.now.rows < 2 ^ 32 }
    requires cells { All HasCount found.now.rows }
    ensures { found_format.Fits found.now }
{
    rows_fit(found.rows.as_slice());
}

/// A refusal has a spelling if its arguments are UTF-8, and four bytes are enough to count them.
fn refusal_fits(refusal: &Refusal)
    requires { texts_format.Fits refusal.now.args }
    ensures { refusal_format.Fits refusal.now }
{
    let _code = refusal.code;
}

/// An answer that is sent has a spelling.
fn answer_fits(answer: &Answer)
    requires { AnswerFits answer.now }
    ensures { answer_format.Fits answer.now }
{
    match answer {
        Answer::Did(_, count) => {
            let _count = *count;
        }
        Answer::Found(found) => found_fits(found),
        Answer::Refused(refusal) => refusal_fits(refusal),
    }
}

/// A weight has a spelling, and so has none.
fn weight_fits(weight: &Option<u8>)
    ensures { (optional number8).Fits weight.now }
{
    if let Some(weight) = weight {
        let _weight = *weight;
    }
}

/// What a Reply says has a spelling if its answer is one that is sent.
fn reply_fits(call: u32, weight: &Option<u8>, count: u16, answer: &Answer)
    requires { AnswerFits answer.now }
    ensures { reply_format.Fits (call, (weight.now, (count, answer.now))) }
{
    weight_fits(weight);
    answer_fits(answer);
}

/// What a message says has a spelling if its statement, its answer or its comment has one.
fn kind_fits(kind: &Kind)
    requires { KindFits kind.now }
    ensures { (kinds_as printed (kind_byte kind.now)).Fits kind.now }
{
    match kind {
        Kind::Open {
            edge,
            root,
            depth,
            read_at,
        } => {
            let _edge = *edge;
            branch_fits(root);
            let _depth = *depth;
            if let Some(scn) = read_at {
                let _scn = *scn;
            }
        }
        Kind::Opened { edge, strength } => {
            let _edge = *edge;
            let _strength = *strength;
        }
        Kind::Exec {
            call,
            task: Task::Run { room, .. },
        } => {
            let _call = *call;
            let _room = *room;
        }
        Kind::Exec {
            call,
            task: Task::GoBack { keep },
        } => {
            let _call = *call;
            let _keep = *keep;
        }
        Kind::Reply {
            call,
            weight,
            count,
            result: answer,
        } => reply_fits(*call, weight, *count, answer),
        Kind::Committed { scn } => {
            let _scn = *scn;
        }
        _ => {}
    }
}

/// A message has a spelling if its statement, its answer or its comment has one; a message with none of these has one.
#[tactic(auto, unfolding(crate::specs::Message::msg_format))]
pub fn message_fits(msg: &Msg)
    requires { KindFits msg.now.kind }
    ensures { HasSpelling msg.now }
{
    branch_fits(&msg.from);
    branch_fits(&msg.to);
    let _scn = msg.scn;
    kind_fits(&msg.kind);
}
