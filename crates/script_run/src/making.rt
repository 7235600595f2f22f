//! The run of a script that is made from a number.
ghost use Rattle.std.specs.Prelude.{◌≡◌, Ok, IfOk};
ghost use Rattle.script_read.specs.Asked.{asked};
ghost use Rattle.script_read.specs.Sound.{IsOfAScript};
ghost use Rattle.run_rules.specs.Reported.{All_run};
ghost use Rattle.run_rules.specs.Scripts.{places_of};
ghost use Rattle.make_script.specs.Script.{script_of};
ghost use Rattle.world.specs.Ran.{IsRan};
ghost use Rattle.script_run.specs.Headline.{IsRun};
ghost use Rattle.script_run.specs.Ending.{ending_of, EndsReported};
ghost use Rattle.script_run.specs.Making.{EndsMade, made_output, pending_at_end};

use crate::outcome::{Outcome, Run, Status};
use crate::output::put_book;
use crate::run::run_commands;
use dtx_ports::{Sink, write_whole};
use make_script::{made_commands, summary};
use sql_print::printed_statements_are_read;
use std::alloc::{AllocError, Global};
use world::{Ended, EndedRun};

/// What is printed of a number and its run. It is an error only where there is no memory.
fn output(
    alloc: Global,
    number: u16,
    with_book: bool,
    run: &Run,
    pending: u128,
) -> Result<Vec<u8>, AllocError>
    requires { pending ≡ pending_at_end run.now }
    ensures { IfOk result (λ text. text.items ≡ made_output number with_book run.now) }
{
    let mut out = summary(
        alloc,
        number,
        run.commands.as_slice(),
        run.answers.as_slice(),
        run.book.as_slice(),
        pending,
    )?;
    put_book(alloc, &mut out, with_book, run)?;
    Ok(out)
}

/// Writes what is printed of a number and its run.
fn write_output<K: Sink>(
    alloc: Global,
    number: u16,
    with_book: bool,
    run: &Run,
    pending: u128,
    sink: &mut K,
) -> Status
    requires { pending ≡ pending_at_end run.now }
    ensures { EndsReported (record { before = K.written sink.old; now = K.written sink.new; faults_before = K.faults sink.old; faults_now = K.faults sink.new }) (made_output number with_book run.now) result }
{
    match output(alloc, number, with_book, run, pending) {
        Ok(text) => match write_whole(sink, &text) {
            Ok(()) => Status::Done,
            Err(_) => Status::WriteFault,
        },
        Err(_) => Status::NoMemory,
    }
}

/// Writes the summary of a run whose script was run to the end.
#[tactic(auto, using(crate::proofs::Headlines::whole_runs))]
fn report_made<K: Sink>(
    alloc: Global,
    number: u16,
    with_book: bool,
    run: Run,
    pending: u128,
    sink: &mut K,
) -> Outcome
    requires run { IsRun run All_run }
    requires pending { pending ≡ pending_at_end run }
    ensures is { result.run ≡ run }
    ensures run { IsRun result.run (ending_of result.status) }
    ensures reported { EndsReported (record { before = K.written sink.old; now = K.written sink.new; faults_before = K.faults sink.old; faults_now = K.faults sink.new }) (made_output number with_book result.run) result.status }
{
    let status = write_output(alloc, number, with_book, &run, pending, sink);
    Outcome { status, run }
}

/// Runs the script of a number. Fails where there is no memory to begin.
#[tactic(auto, using(crate::proofs::AskLemmas::script_asks, crate::proofs::FewLemmas::few_commands))]
fn run_number(alloc: Global, number: u16) -> Result<EndedRun, AllocError>
    ensures asked { IfOk result (λ ran. asked (script_of number) ≡ Ok ran.recorded.asked) }
    ensures sound { IfOk result (λ ran. IsOfAScript ran.recorded.asked) }
    ensures places { IfOk result (λ ran. ran.recorded.places ≡ places_of ran.recorded.asked) }
    ensures ran { IfOk result IsRan }
{
    let commands = made_commands(alloc, number)?;
    printed_statements_are_read();
    run_commands(alloc, commands)
}

/// Makes the script of a number, runs it, and writes the summary of its run.
#[tactic(auto, using(crate::proofs::Headlines::whole_runs, crate::proofs::MadeLemmas::made_ends))]
pub fn run_made<K: Sink>(alloc: Global, number: u16, with_book: bool, sink: &mut K) -> Outcome
    ensures run { IsRun result.run (ending_of result.status) }
    ensures ends { EndsMade number with_book (record { before = K.written sink.old; now = K.written sink.new; faults_before = K.faults sink.old; faults_now = K.faults sink.new }) result.run result.status }
{
    let Ok(ran) = run_number(alloc, number) else {
        return Outcome {
            status: Status::NoMemory,
            run: Run::empty(alloc),
        };
    };
    let ended = ran.ended;
    let pending = ran.pending;
    let run = Run::of(ran);
    match ended {
        Ended::AllRun => report_made(alloc, number, with_book, run, pending, sink),
        Ended::OutOfMemory => Outcome {
            status: Status::NoMemory,
            run,
        },
    }
}
