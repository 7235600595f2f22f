//! The bytes of answers.
ghost use Rattle.std.specs.Prelude.{◌≡◌, ◌++◌, OnOk};
ghost use Rattle.std.specs.Io.{StartsWith};
ghost use Rattle.byte_format.specs.Reads.{ReadsInMemory};
ghost use Rattle.msg_codec.specs.Answer.{done_format, did_format, counts_rows as counts_rows_of, found_format, refusal_format, answer_format};

use byte_format::{Field, TakeErr, put_u8, put_u16, put_u32, take_u8, take_u16, take_u32};
use dtx_values::{Answer, Done, Refusal, RowSet};
use field_codec::{ListField, RowField, Utf8Field};
use std::alloc::{AllocError, Global};

/// What was done: 1 for rows that were created, 2 for updated, 3 for deleted, 4 for a branch that went back.
struct DoneField;

impl Field for DoneField {
    type Value = Done;

    ghost format = { done_format };

    fn put_into(out: &mut Vec<u8>, done: &Done) -> Result<(), AllocError> {
        match done {
            Done::Created => put_u8(out, 1),
            Done::Updated => put_u8(out, 2),
            Done::Deleted => put_u8(out, 3),
            Done::RolledBack => put_u8(out, 4),
            _ => unreachable!(),
        }
    }

    fn take_from(_alloc: Global, bytes: &[u8]) -> Result<(Done, &[u8]), TakeErr> {
        match bytes {
            [1, rest @ ..] => Ok((Done::Created, rest)),
            [2, rest @ ..] => Ok((Done::Updated, rest)),
            [3, rest @ ..] => Ok((Done::Deleted, rest)),
            [4, rest @ ..] => Ok((Done::RolledBack, rest)),
            _ => Err(TakeErr::NoSpelling),
        }
    }
}

/// What was done, and to how many rows: to none where a branch went back.
struct DidField;

fn counts_rows(did: &(Done, u32)) -> bool
    ensures { result ≡ counts_rows_of did.now }
{
    match did.0 {
        Done::RolledBack => did.1 == 0,
        _ => true,
    }
}

impl Field for DidField {
    type Value = (Done, u32);

    ghost format = { did_format };

    fn put_into(out: &mut Vec<u8>, did: &(Done, u32)) -> Result<(), AllocError> {
        DoneField::put_into(out, &did.0)?;
        put_u32(out, did.1)
    }

    fn take_from(alloc: Global, bytes: &[u8]) -> Result<((Done, u32), &[u8]), TakeErr> {
        let (done, rest) = DoneField::take_from(alloc, bytes)?;
        let (count, rest) = take_u32(rest)?;
        let did = (done, count);
        if counts_rows(&did) {
            Ok((did, rest))
        } else {
            Err(TakeErr::NoSpelling)
        }
    }
}

/// What a query found: the heads, and the rows.
struct FoundField;

impl Field for FoundField {
    type Value = RowSet;

    ghost format = { found_format };

    fn put_into(out: &mut Vec<u8>, found: &RowSet) -> Result<(), AllocError> {
        ListField::<Utf8Field>::put_into(out, &found.heads)?;
        ListField::<RowField>::put_into(out, &found.rows)
    }

    fn take_from(alloc: Global, bytes: &[u8]) -> Result<(RowSet, &[u8]), TakeErr> {
        let (heads, rest) = ListField::<Utf8Field>::take_from(alloc, bytes)?;
        let (rows, rest) = ListField::<RowField>::take_from(alloc, rest)?;
        Ok((RowSet { heads, rows }, rest))
    }
}

/// A refusal: its code, and the arguments of its text.
struct RefusalField;

impl Field for RefusalField {
    type Value = Refusal;

    ghost format = { refusal_format };

    fn put_into(out: &mut Vec<u8>, refusal: &Refusal) -> Result<(), AllocError> {
        put_u16(out, refusal.code)?;
        ListField::<Utf8Field>::put_into(out, &refusal.args)
    }

    fn take_from(alloc: Global, bytes: &[u8]) -> Result<(Refusal, &[u8]), TakeErr> {
        let (code, rest) = take_u16(bytes)?;
        let (args, rest) = ListField::<Utf8Field>::take_from(alloc, rest)?;
        Ok((Refusal { code, args }, rest))
    }
}

/// An answer: 1 and what was done to how many rows, 2 and what was found, or 3 and a refusal.
pub(crate) struct AnswerField;

impl Field for AnswerField {
    type Value = Answer;

    ghost format = { answer_format };

    fn put_into(out: &mut Vec<u8>, answer: &Answer) -> Result<(), AllocError> {
        match answer {
            Answer::Did(done, count) => {
                put_u8(out, 1)?;
                DidField::put_into(out, &(*done, *count))
            }
            Answer::Found(found) => {
                put_u8(out, 2)?;
                FoundField::put_into(out, found)
            }
            Answer::Refused(refusal) => {
                put_u8(out, 3)?;
                RefusalField::put_into(out, refusal)
            }
        }
    }

    fn take_from(alloc: Global, bytes: &[u8]) -> Result<(Answer, &[u8]), TakeErr> {
        let (kind, rest) = take_u8(bytes)?;
        match kind {
            1 => {
                let (did, rest) = DidField::take_from(alloc, rest)?;
                Ok((Answer::Did(did.0, did.1), rest))
            }
            2 => {
                let (found, rest) = FoundField::take_from(alloc, rest)?;
                Ok((Answer::Found(found), rest))
            }
            3 => {
                let (refusal, rest) = RefusalField::take_from(alloc, rest)?;
                Ok((Answer::Refused(refusal), rest))
            }
            _ => Err(TakeErr::NoSpelling),
        }
    }
}
