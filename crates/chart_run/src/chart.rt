//! From the bytes of a script to the bytes of a picture.
ghost use Rattle.std.specs.Prelude.{◌≡◌, ◌++◌, map, IfOk, OnOk};
ghost use Rattle.std.specs.String.{string_bytes};
ghost use Rattle.script_read.specs.Asked.{names_made};
ghost use Rattle.script_read.specs.Sound.{names_in};
ghost use Rattle.script_run.specs.declared.outcome.Status.TheVariants.{BadScript, Usage};
ghost use Rattle.script_run.specs.Headline.{IsRun, nothing_done};
ghost use Rattle.script_run.specs.Ending.{ending_of, EndsReported, IsComplete};
ghost use Rattle.chart_words.specs.declared.Choices.{Choices};
ghost use Rattle.chart_run.specs.Drawing.{marks_in, drawn, picture_of};
ghost use Rattle.chart_run.specs.Ending.{usage_line, EndsLined, EndsShown, EndsUnread, EndsDrawn};
ghost use Rattle.chart_run.specs.Words.{AreOther, AskDraw, EndsAsked};

use chart_captions::tale;
use chart_marks::{Marks, marks};
use chart_text::{Window, plain, svg};
use chart_words::{Choices, Words, read_words};
use dtx_ports::{MemSink, Sink, Source, write_whole};
use dtx_values::{Duplicate, Listing, Name, Names};
use script_read::Command;
use script_run::{Outcome, Run, Status, run_source};
use std::alloc::{AllocError, Global};

/// The most bytes of a report that a run may print whose picture is drawn.
const REPORT_ROOM: usize = 16_777_216;

/// Adds the name of the node that a command makes, if it makes one.
fn take_name(alloc: Global, names: &mut Vec<Name>, command: &Command) -> Result<(), AllocError>
    ensures { OnOk result (names.new.items ≡ names.old.items ++ names_made command.now) }
{
    match command {
        Command::Node {
            name,
            strength: _strength,
            links: _links,
            undo: _undo,
        } => {
            names.push(name.copy(alloc)?)?;
            Ok(())
        }
        _ => Ok(()),
    }
}

fn names_of(alloc: Global, commands: &[Command]) -> Result<Names, AllocError>
    ensures { IfOk result (λ names. names ≡ names_in commands.now) }
{
    let mut names = Vec::new(alloc);
    for command in commands {
        take_name(alloc, &mut names, command)?;
    }
    Ok(Listing::of(names))
}

#[tactic(auto, unfolding(crate::specs::Drawing::marks_in))]
fn marks_of_run(alloc: Global, run: &Run) -> Result<Marks, AllocError>
    ensures { IfOk result (λ marks. marks ≡ marks_in run.now) }
{
    let names = names_of(alloc, run.commands.as_slice())?;
    let tale = tale(
        alloc,
        names.as_slice(),
        run.answers.as_slice(),
        run.commands.as_slice(),
    )?;
    marks(alloc, &names, &tale, run.trace.as_slice())
}

fn draw_marks(alloc: Global, wanted: Choices, marks: &Marks) -> Result<Vec<u8>, AllocError>
    ensures { IfOk result (λ picture. picture.items ≡ drawn wanted marks.now) }
{
    let window = Window::of(marks, wanted.first, wanted.last);
    if wanted.text {
        plain(alloc, window, marks)
    } else {
        svg(alloc, window, marks)
    }
}

/// The picture of a run. Fails where memory runs out.
#[tactic(auto, unfolding(crate::specs::Drawing::picture_of))]
fn picture(alloc: Global, wanted: Choices, run: &Run) -> Result<Vec<u8>, AllocError>
    ensures { IfOk result (λ picture. picture.items ≡ picture_of wanted run.now) }
{
    let marks = marks_of_run(alloc, run)?;
    draw_marks(alloc, wanted, &marks)
}

/// Writes the picture of a run.
fn draw<K: Sink>(alloc: Global, wanted: Choices, run: &Run, sink: &mut K) -> Status
    ensures { EndsReported (record { before = K.written sink.old; now = K.written sink.new; faults_before = K.faults sink.old; faults_now = K.faults sink.new }) (picture_of wanted run.now) result }
{
    match picture(alloc, wanted, run) {
        Ok(text) => match write_whole(sink, &text) {
            Ok(()) => Status::Done,
            Err(_) => Status::WriteFault,
        },
        Err(_) => Status::NoMemory,
    }
}

/// Writes the line of a bad script.
fn refuse<K: Sink>(line: &[u8], sink: &mut K) -> Status
    ensures { EndsLined BadScript (record { before = K.written sink.old; now = K.written sink.new; faults_before = K.faults sink.old; faults_now = K.faults sink.new }) line.now result }
{
    match write_whole(sink, line) {
        Ok(()) => Status::BadScript,
        Err(_) => Status::WriteFault,
    }
}

/// Writes how the program is called.
fn explain<K: Sink>(sink: &mut K) -> Status
    ensures { EndsLined Usage (record { before = K.written sink.old; now = K.written sink.new; faults_before = K.faults sink.old; faults_now = K.faults sink.new }) usage_line result }
{
    match write_whole(sink, b"usage: dtx_chart [--text] [--from N] [--to N]\n") {
        Ok(()) => Status::Usage,
        Err(_) => Status::WriteFault,
    }
}

/// Writes what is due of a run that ended with this status, and whose report lies in memory.
fn show<K: Sink>(
    alloc: Global,
    wanted: Choices,
    run: &Run,
    report: &[u8],
    ended: Status,
    sink: &mut K,
) -> Status
    ensures { EndsShown wanted run.now report.now ended (record { before = K.written sink.old; now = K.written sink.new; faults_before = K.faults sink.old; faults_now = K.faults sink.new }) result }
{
    match ended {
        Status::Done => draw(alloc, wanted, run, sink),
        Status::BadScript => refuse(report, sink),
        // the report has no room
        Status::WriteFault => Status::NoMemory,
        Status::Usage => Status::Usage,
        Status::NoMemory => Status::NoMemory,
        Status::ReadFault => Status::ReadFault,
        Status::TooLong => Status::TooLong,
    }
}

/// Runs the script of the source, with its report in memory, and writes the picture of the run.
#[tactic(auto, using(crate::proofs::EndingLemmas::endings))]
fn run_and_draw<S: Source, K: Sink>(
    alloc: Global,
    wanted: Choices,
    source: &mut S,
    sink: &mut K,
) -> Outcome
    ensures run { IsRun result.run (ending_of result.status) }
    ensures ends { EndsDrawn wanted (record { before = S.left source.old; now = S.left source.new; faults_before = S.faults source.old; faults_now = S.faults source.new })
        (record { before = K.written sink.old; now = K.written sink.new; faults_before = K.faults sink.old; faults_now = K.faults sink.new }) result.run result.status }
{
    let Ok(mut report) = MemSink::new(alloc, REPORT_ROOM, Vec::new(alloc)) else {
        return Outcome {
            status: Status::NoMemory,
            run: Run::empty(alloc),
        };
    };
    let Outcome { status, run } = run_source(alloc, false, source, &mut report);
    let status = show(alloc, wanted, &run, report.bytes(), status, sink);
    Outcome { status, run }
}

/// Refuses the words: nothing is run, and how the program is called is written.
fn refuse_words<K: Sink>(alloc: Global, sink: &mut K) -> Outcome
    ensures nothing { result.run ≡ nothing_done }
    ensures run { IsRun result.run (ending_of result.status) }
    ensures explained { EndsLined Usage (record { before = K.written sink.old; now = K.written sink.new; faults_before = K.faults sink.old; faults_now = K.faults sink.new }) usage_line result.status }
{
    let run = Run::empty(alloc);
    let status = explain(sink);
    Outcome { status, run }
}

/// Does what the words ask for.
fn draw_asked<S: Source, K: Sink>(
    alloc: Global,
    asked: Words,
    source: &mut S,
    sink: &mut K,
) -> Outcome
    ensures run { IsRun result.run (ending_of result.status) }
    ensures ends { EndsAsked asked (record { before = S.left source.old; now = S.left source.new; faults_before = S.faults source.old; faults_now = S.faults source.new })
        (record { before = K.written sink.old; now = K.written sink.new; faults_before = K.faults sink.old; faults_now = K.faults sink.new }) result.run result.status }
{
    match asked {
        Words::Draw(wanted) => run_and_draw(alloc, wanted, source, sink),
        Words::Usage => refuse_words(alloc, sink),
        Words::NoMemory => Outcome {
            status: Status::NoMemory,
            run: Run::empty(alloc),
        },
    }
}

/// Reads a script from the source, runs it, and writes the picture of its run to the sink. The words are those of the
/// command line after the program's name, as clap takes them: `--text` for plain text in place of SVG, `--from N` and `--to N`
/// for the commands from N or to N. For other words the usage line is written, and nothing is read. A bad script has its line
/// written, and no picture.
pub fn draw_script<S: Source, K: Sink>(
    alloc: Global,
    words: &Vec<String>,
    source: &mut S,
    sink: &mut K,
) -> Outcome
    // What was run, as dtx has it.
    ensures run { IsRun result.run (ending_of result.status) }

    // Each status has its cause, and what is written is the picture of the run.
    ensures words { AreOther (map string_bytes words.now.items)
        → EndsUnread (record { before = S.left source.old; now = S.left source.new; faults_before = S.faults source.old; faults_now = S.faults source.new })
        (record { before = K.written sink.old; now = K.written sink.new; faults_before = K.faults sink.old; faults_now = K.faults sink.new }) result.run result.status }
    ensures drawn { (wanted : Choices) → AskDraw wanted (map string_bytes words.now.items)
        → EndsDrawn wanted (record { before = S.left source.old; now = S.left source.new; faults_before = S.faults source.old; faults_now = S.faults source.new })
        (record { before = K.written sink.old; now = K.written sink.new; faults_before = K.faults sink.old; faults_now = K.faults sink.new }) result.run result.status }

    // Good words, bytes and ends give the picture, unless memory runs out.
    ensures complete { (wanted : Choices) → AskDraw wanted (map string_bytes words.now.items)
        → IsComplete (record { before = S.left source.old; now = S.left source.new; faults_before = S.faults source.old; faults_now = S.faults source.new })
        (record { before = K.written sink.old; now = K.written sink.new; faults_before = K.faults sink.old; faults_now = K.faults sink.new }) result.status }
{
    let asked = read_words(alloc, words.as_slice());
    draw_asked(alloc, asked, source, sink)
}
