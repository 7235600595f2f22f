//! What a run prints: the report of its answers, and then the book.
ghost use Rattle.std.specs.Prelude.{◌≡◌, ◌++◌, [], if◌then◌else◌, IfOk, OnOk};
ghost use Rattle.run_rules.specs.Scripts.{names_asked};
ghost use Rattle.script_run.specs.Report.{output_of};
ghost use Rattle.book.specs.Texts.{book_text as book_text_of};
ghost use Rattle.report.specs.Report.{said_text, report as report_of, printed};

use crate::outcome::Run;
use crate::places::node_names;
use book::{AnswerLine, Said, book_text};
use dtx_values::Bytes;
use report::{answer_lines, notice_lines, put_numbered};
use std::alloc::{AllocError, Global};

fn lines(alloc: Global, said: &Said) -> Result<Vec<Bytes>, AllocError>
    ensures { IfOk result (λ lines. lines.items ≡ said_text said.now) }
{
    match said {
        Said::Node(answer) => answer_lines(alloc, answer),
        Said::World(notice) => notice_lines(alloc, notice),
    }
}

/// The report of the answers.
#[tactic(auto, unfolding(report::specs::Report::report))]
fn reported(alloc: Global, answers: &[AnswerLine]) -> Result<Vec<u8>, AllocError>
    ensures { IfOk result (λ text. text.items ≡ printed (report_of answers.now)) }
{
    let mut out = Vec::new(alloc);
    for answer in answers {
        let lines = lines(alloc, &answer.said)?;
        put_numbered(&mut out, answer.command, &lines)?;
    }
    Ok(out)
}

/// Adds the book at the end of the text where it is wanted. It is an error only where there is no memory.
pub fn put_book(
    alloc: Global,
    out: &mut Vec<u8>,
    with_book: bool,
    run: &Run,
) -> Result<(), AllocError>
    ensures { OnOk result (out.new.items ≡ out.old.items ++ (if with_book then book_text_of (names_asked run.now.commands) run.now.book else [])) }
{
    if !with_book {
        return Ok(());
    }
    let names = node_names(alloc, run.commands.as_slice())?;
    let text = book_text(alloc, run.book.as_slice(), names.as_slice())?;
    out.extend_from_slice(text.as_slice())
}

/// What a run prints: its report, and then the book where that is wanted. It is an error only where there is no memory.
pub fn output(alloc: Global, with_book: bool, run: &Run) -> Result<Vec<u8>, AllocError>
    ensures { IfOk result (λ text. text.items ≡ output_of with_book run.now) }
{
    let mut out = reported(alloc, run.answers.as_slice())?;
    put_book(alloc, &mut out, with_book, run)?;
    Ok(out)
}
