//! The captions of commands: the text and the answers of each.
ghost use Rattle.std.specs.Prelude.{◌≡◌, ◌++◌, flat_map, IfOk, OnOk};
ghost use Rattle.report.specs.Report.{said_text};
ghost use Rattle.chart_captions.specs.Lines.{in_lines};
ghost use Rattle.chart_captions.specs.Tale.{answer_if, reported_of, tale_from};

use crate::broken::Broken;
use crate::command::put_command;
use book::{AnswerLine, Said};
use chart_marks::Told;
use dtx_values::{Bytes, Listing, Name};
use report::{answer_lines, notice_lines};
use script_read::Command;
use std::alloc::{AllocError, Global};

// A text in lines.
fn text_lines(alloc: Global, text: &[u8]) -> Result<Vec<Bytes>, AllocError>
    ensures { IfOk result (λ lines. lines.items ≡ in_lines text.now) }
{
    let mut broken = Broken::new(alloc);
    for byte in text {
        broken.put(alloc, *byte)?;
    }
    broken.into_lines(alloc)
}

fn said_lines(alloc: Global, said: &Said) -> Result<Vec<Bytes>, AllocError>
    ensures { IfOk result (λ lines. lines.items ≡ said_text said.now) }
{
    match said {
        Said::Node(answer) => answer_lines(alloc, answer),
        Said::World(notice) => notice_lines(alloc, notice),
    }
}

fn put_all(lines: &mut Vec<Bytes>, alloc: Global, texts: &[Bytes]) -> Result<(), AllocError>
    ensures { OnOk result (lines.new.items ≡ lines.old.items ++ flat_map in_lines texts.now) }
{
    for text in texts {
        let mut more = text_lines(alloc, text.as_slice())?;
        lines.append(&mut more)?;
    }
    Ok(())
}

fn put_answer(
    lines: &mut Vec<Bytes>,
    alloc: Global,
    command: u64,
    answer: &AnswerLine,
) -> Result<(), AllocError>
    ensures { OnOk result (lines.new.items ≡ lines.old.items ++ answer_if command answer.now) }
{
    if u64::from(answer.command) == command {
        let said = said_lines(alloc, &answer.said)?;
        put_all(lines, alloc, &said)?;
    }
    Ok(())
}

fn answer(alloc: Global, answers: &[AnswerLine], command: u64) -> Result<Vec<Bytes>, AllocError>
    ensures { IfOk result (λ lines. lines.items ≡ flat_map (answer_if command) answers.now) }
{
    let mut lines = Vec::new(alloc);
    for answer in answers {
        put_answer(&mut lines, alloc, command, answer)?;
    }
    Ok(lines)
}

fn told(
    alloc: Global,
    names: &[Name],
    answers: &[AnswerLine],
    number: u64,
    command: &Command,
) -> Result<Told, AllocError>
    ensures { IfOk result (λ told. told ≡ reported_of names.now answers.now number command.now) }
{
    let mut text = Vec::new(alloc);
    put_command(&mut text, alloc, names, command)?;
    let lines = text_lines(alloc, &text)?;
    let answer = answer(alloc, answers, number)?;
    Ok(Told {
        text: Listing::of(lines),
        answer: Listing::of(answer),
    })
}

/// The text and the answers of each command, where these are the names of all nodes. Fails where memory runs out.
pub fn tale(
    alloc: Global,
    names: &[Name],
    answers: &[AnswerLine],
    commands: &[Command],
) -> Result<Vec<Told>, AllocError>
    ensures { IfOk result (λ tale. tale.items ≡ tale_from names.now answers.now 1 commands.now) }
{
    let mut tale = Vec::new(alloc);
    let mut number: u64 = 1;
    for command in commands {
        tale.push(told(alloc, names, answers, number, command)?)?;
        number += 1;
    }
    Ok(tale)
}
