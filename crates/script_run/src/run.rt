//! The top call: from the bytes of a script to the bytes of its report.
ghost use Rattle.std.specs.Prelude.{◌≡◌, ◌≤◌, ◌<◌, ◌^◌, ℕ, Bool, map, length, IfOk, OnOk};
ghost use Rattle.std.specs.List.{AllByRecursion};
ghost use Rattle.std.specs.String.{string_bytes};
ghost use Rattle.run_spell_laws.specs.ByteRuns.{AsksSpelled};
ghost use Rattle.dtx_values.specs.Limits.{script_limit};
ghost use Rattle.script_read.specs.Sound.{IsOfAScript};
ghost use Rattle.run_rules.specs.Reported.{All_run};
ghost use Rattle.run_rules.specs.Scripts.{places_of};
ghost use Rattle.world.specs.Ran.{IsRan};
ghost use Rattle.script_run.specs.Making.{EndsMade};
ghost use Rattle.script_run.specs.Words.{AreOther, AskMake, AskRun, EndsAsked};
ghost use Rattle.script_run.specs.Report.{output_of};
ghost use Rattle.script_run.specs.Headline.{IsRun};
ghost use Rattle.script_run.specs.Ending.{ending_of, EndsReported, EndsOn, EndsUnread, EndsRead, IsComplete, IsUnread};

use crate::making::run_made;
use crate::outcome::{Outcome, Run, Status};
use crate::output::output;
use crate::places::places;
use crate::refusing::{explain_line, refuse_words};
use dtx_ports::{ReadErr, Sink, Source, read_whole, write_whole};
use dtx_values::SCRIPT_LIMIT;
use script_read::{Commands, ScriptErr, read_script};
use sql_print::printed_statements_are_read;
use std::alloc::{AllocError, Global};
use words::{Words, read_words};
use world::{Ended, EndedRun};

/// Writes what a run prints.
fn write_output<K: Sink>(alloc: Global, with_book: bool, run: &Run, sink: &mut K) -> Status
    ensures { EndsReported (record { before = K.written sink.old; now = K.written sink.new; faults_before = K.faults sink.old; faults_now = K.faults sink.new }) (output_of with_book run.now) result }
{
    match output(alloc, with_book, run) {
        Ok(text) => match write_whole(sink, &text) {
            Ok(()) => Status::Done,
            Err(_) => Status::WriteFault,
        },
        Err(_) => Status::NoMemory,
    }
}

/// Runs commands over the nodes that they make. Fails where there is no memory to begin.
#[tactic(auto, using(crate::proofs::ScriptLemmas::script_steps, crate::proofs::AskLemmas::in_range))]
pub(crate) fn run_commands(alloc: Global, commands: Commands) -> Result<EndedRun, AllocError>
    requires sound { IsOfAScript commands }
    requires few { length commands < 2 ^ 18 }
    requires asks { AllByRecursion AsksSpelled commands }
    ensures places { IfOk result (λ ran. ran.recorded.places ≡ places_of commands) }
    ensures asked { IfOk result (λ ran. ran.recorded.asked ≡ commands) }
    ensures ran { IfOk result IsRan }
{
    let places = places(alloc, commands.as_slice())?;
    world::run(alloc, places, commands)
}

/// Writes the report of a run whose script was run to the end.
#[tactic(auto, using(crate::proofs::Headlines::whole_runs, crate::proofs::Endings::endings))]
fn report_run<K: Sink>(alloc: Global, with_book: bool, run: Run, sink: &mut K) -> Outcome
    requires run { IsRun run All_run }
    ensures is { result.run ≡ run }
    ensures run { IsRun result.run (ending_of result.status) }
    ensures reported { EndsReported (record { before = K.written sink.old; now = K.written sink.new; faults_before = K.faults sink.old; faults_now = K.faults sink.new }) (output_of with_book result.run) result.status }
{
    let status = write_output(alloc, with_book, &run, sink);
    Outcome { status, run }
}

/// Runs the script with these bytes, and writes the report.
#[tactic(auto, using(crate::proofs::AskLemmas::script_asks, crate::proofs::FewLemmas::few_commands, crate::proofs::Headlines::whole_runs, crate::proofs::Endings::endings))]
fn run_bytes<K: Sink>(alloc: Global, with_book: bool, bytes: &[u8], sink: &mut K) -> Outcome
    requires { length bytes.now ≤ script_limit }
    ensures run { IsRun result.run (ending_of result.status) }
    ensures ends { EndsOn bytes.now with_book (record { before = K.written sink.old; now = K.written sink.new; faults_before = K.faults sink.old; faults_now = K.faults sink.new }) result.run result.status }
{
    let commands = match read_script(alloc, bytes) {
        Ok(commands) => commands,
        Err(ScriptErr::NoMemory) => return Outcome {
            status: Status::NoMemory,
            run: Run::empty(alloc),
        },
        Err(ScriptErr::Bad { line, why }) => return Outcome {
            status: explain_line(line, why, sink),
            run: Run::empty(alloc),
        },
    };
    printed_statements_are_read();
    let Ok(ran) = run_commands(alloc, commands) else {
        return Outcome {
            status: Status::NoMemory,
            run: Run::empty(alloc),
        };
    };
    let ended = ran.ended;
    let run = Run::of(ran);
    match ended {
        Ended::AllRun => report_run(alloc, with_book, run, sink),
        Ended::OutOfMemory => Outcome {
            status: Status::NoMemory,
            run,
        },
    }
}

/// Reads a script from the source, runs it, and writes the report.
#[tactic(auto, using(crate::proofs::Headlines::whole_runs))]
pub fn run_source<S: Source, K: Sink>(
    alloc: Global,
    with_book: bool,
    source: &mut S,
    sink: &mut K,
) -> Outcome
    ensures run { IsRun result.run (ending_of result.status) }
    ensures ends { EndsRead with_book (record { before = S.left source.old; now = S.left source.new; faults_before = S.faults source.old; faults_now = S.faults source.new })
        (record { before = K.written sink.old; now = K.written sink.new; faults_before = K.faults sink.old; faults_now = K.faults sink.new }) result.run result.status }
{
    let status = match read_whole(alloc, source, SCRIPT_LIMIT) {
        Ok(bytes) => return run_bytes(alloc, with_book, &bytes, sink),
        Err(ReadErr::Fault) => Status::ReadFault,
        Err(ReadErr::TooLong) => Status::TooLong,
        Err(ReadErr::NoMemory) => Status::NoMemory,
    };
    Outcome {
        status,
        run: Run::empty(alloc),
    }
}

// Does what the words ask for.
fn run_asked<S: Source, K: Sink>(
    alloc: Global,
    asked: Words,
    source: &mut S,
    sink: &mut K,
) -> Outcome
    ensures run { IsRun result.run (ending_of result.status) }
    ensures ends { EndsAsked asked (record { before = S.left source.old; now = S.left source.new; faults_before = S.faults source.old; faults_now = S.faults source.new })
        (record { before = K.written sink.old; now = K.written sink.new; faults_before = K.faults sink.old; faults_now = K.faults sink.new }) result.run result.status }
{
    match asked {
        Words::Run { book } => run_source(alloc, book, source, sink),
        Words::Make { number, book } => run_made(alloc, number, book, sink),
        Words::Usage => refuse_words(alloc, sink),
        Words::NoMemory => Outcome {
            status: Status::NoMemory,
            run: Run::empty(alloc),
        },
    }
}

/// Runs what the words of the command line after the program's name ask for, as clap takes them. Without `--make` a script is
/// read from the source and run, and its report is written to the sink. With `--make` and a number from 1 to 65,535 no source
/// is read: the script of that number is run, and the summary of its run is written in place of the report. With `--book` the
/// book follows. For other words the usage line is written, and nothing is read.
pub fn run_script<S: Source, K: Sink>(
    alloc: Global,
    words: &Vec<String>,
    source: &mut S,
    sink: &mut K,
) -> Outcome
    // Each happening is the one that is due, and each line the one that the rules give; branches end as their site decided,
    // mixed outcomes are marked, and the SCN law holds. All of the script was run, or its first part where memory ran out.
    ensures run { IsRun result.run (ending_of result.status) }

    // Each status has its cause.
    ensures words { AreOther (map string_bytes words.now.items)
        → EndsUnread (record { before = S.left source.old; now = S.left source.new; faults_before = S.faults source.old; faults_now = S.faults source.new })
        (record { before = K.written sink.old; now = K.written sink.new; faults_before = K.faults sink.old; faults_now = K.faults sink.new }) result.run result.status }
    ensures read { (with_book : Bool) → AskRun with_book (map string_bytes words.now.items)
        → EndsRead with_book (record { before = S.left source.old; now = S.left source.new; faults_before = S.faults source.old; faults_now = S.faults source.new })
        (record { before = K.written sink.old; now = K.written sink.new; faults_before = K.faults sink.old; faults_now = K.faults sink.new }) result.run result.status }

    // The script of a number is run without a look at the source, and is never a bad one.
    ensures unread { (number : ℕ) (with_book : Bool) → AskMake number with_book (map string_bytes words.now.items)
        → IsUnread (record { before = S.left source.old; now = S.left source.new; faults_before = S.faults source.old; faults_now = S.faults source.new }) }
    ensures made { (number : ℕ) (with_book : Bool) → AskMake number with_book (map string_bytes words.now.items)
        → EndsMade number with_book (record { before = K.written sink.old; now = K.written sink.new; faults_before = K.faults sink.old; faults_now = K.faults sink.new }) result.run result.status }

    // Good words, bytes and ends give the report.
    ensures complete { (with_book : Bool) → AskRun with_book (map string_bytes words.now.items)
        → IsComplete (record { before = S.left source.old; now = S.left source.new; faults_before = S.faults source.old; faults_now = S.faults source.new })
        (record { before = K.written sink.old; now = K.written sink.new; faults_before = K.faults sink.old; faults_now = K.faults sink.new }) result.status }
{
    let asked = read_words(alloc, words.as_slice());
    run_asked(alloc, asked, source, sink)
}
