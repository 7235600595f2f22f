//! The lines of a node's answer, and of an answer of the run in a node's place.
ghost use Rattle.std.specs.Prelude.{◌≡◌, [], ◌∷◌, IfOk};
ghost use Rattle.report.specs.Answers.{done_text as done_text_of, answer_text, notice_text};

use crate::refusals::refusal_text;
use crate::rows::{counted, rows_lines};
use dtx_values::{Answer, Bytes, Done, Duplicate, Listing, Notice};
use std::alloc::{AllocError, Global};

fn text(alloc: Global, text: &[u8]) -> Result<Bytes, AllocError>
    ensures { IfOk result (λ copy. copy ≡ text.now) }
{
    Ok(Listing::of(Vec::from_slice(alloc, text)?))
}

fn one_line(alloc: Global, line: Bytes) -> Result<Vec<Bytes>, AllocError>
    ensures { IfOk result (λ lines. lines.items ≡ line ∷ []) }
{
    Ok(vec![in alloc; line]?)
}

fn done_text(alloc: Global, done: Done, count: u32) -> Result<Bytes, AllocError>
    ensures { IfOk result (λ text. text ≡ done_text_of done count) }
{
    match done {
        Done::Created => counted(alloc, u64::from(count), b"created."),
        Done::Updated => counted(alloc, u64::from(count), b"updated."),
        Done::Deleted => counted(alloc, u64::from(count), b"deleted."),
        Done::Committed => text(alloc, b"Commit complete."),
        Done::RolledBack => text(alloc, b"Rollback complete."),
        Done::TableMade => text(alloc, b"Table created."),
        Done::LinkMade => text(alloc, b"Database link created."),
        Done::SynonymMade => text(alloc, b"Synonym created."),
        Done::SessionAltered => text(alloc, b"Session altered."),
        Done::SystemAltered => text(alloc, b"System altered."),
        Done::Purged => text(alloc, b"PL/SQL procedure successfully completed."),
        Done::TransactionSet => text(alloc, b"Transaction set."),
        Done::SavepointMade => text(alloc, b"Savepoint created."),
    }
}

/// The lines of a node's answer. Fails where memory runs out.
pub fn answer_lines(alloc: Global, answer: &Answer) -> Result<Vec<Bytes>, AllocError>
    ensures { IfOk result (λ lines. lines.items ≡ answer_text answer.now) }
{
    match answer {
        Answer::Did(done, count) => one_line(alloc, done_text(alloc, *done, *count)?),
        Answer::Found(found) => rows_lines(alloc, found),
        Answer::Refused(refusal) => one_line(alloc, refusal_text(alloc, refusal)?),
    }
}

/// The lines of an answer that the run gives in a node's place. Fails where memory runs out.
pub fn notice_lines(alloc: Global, notice: &Notice) -> Result<Vec<Bytes>, AllocError>
    ensures { IfOk result (λ lines. lines.items ≡ notice_text notice.now) }
{
    match notice {
        Notice::Fine => one_line(alloc, text(alloc, b"ok")?),
        Notice::Waiting => one_line(alloc, text(alloc, b"waiting")?),
        Notice::Refused(refusal) => one_line(alloc, refusal_text(alloc, refusal)?),
        Notice::Shown(lines) => Ok(lines.copy(alloc)?.into_vec()),
    }
}
