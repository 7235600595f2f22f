//! `run_scripts` runs many scripts in one process, each over nodes of its own: it reads a list of jobs from standard input,
//! and writes the result of each, the exit status and the output that `dtx` would give.
//!
//! It is for tests of a program that is not proved: `rt try` takes about two minutes to build one, and more than a second to start it.
#![tactic(auto)]

mod jobs;
mod results;

use byte_format::take_u32;
use dtx_ports::{MemSink, MemSource, ReadPort, Sink, WritePort, read_whole, write_whole};
use jobs::{ListErr, take_job};
use results::result_text;
use script_run::run_script;
use std::alloc::Global;
use std::io;
use std::process::ExitCode;

/// The most bytes of a list.
const LIST_LIMIT: usize = 67_108_864;

/// The most bytes that a run can print. One that prints more ends with the status of a report that could not be written.
const ROOM: usize = 1_048_576;

/// Runs the job at the front, writes its result, and gives the bytes after it.
fn run_next<'a, K: Sink>(alloc: Global, list: &'a [u8], out: &mut K) -> Result<&'a [u8], ListErr> {
    let (job, rest) = take_job(alloc, list)?;
    let mut source = MemSource::new(job.script, Vec::new(alloc));
    let mut sink = MemSink::new(alloc, ROOM, Vec::new(alloc))?;
    let outcome = run_script(alloc, &job.words, &mut source, &mut sink);
    let text = result_text(alloc, outcome.status.code(), sink.bytes())?;
    write_whole(out, &text)?;
    Ok(rest)
}

/// Runs each job of a list.
fn run_all<K: Sink>(alloc: Global, list: &[u8], out: &mut K) -> Result<(), ListErr> {
    let (count, mut rest) = take_u32(list)?;
    for _ in 0..count {
        rest = run_next(alloc, rest, out)?;
    }
    Ok(())
}

fn main(rt: HostRuntime) -> ExitCode {
    let alloc = rt.alloc();
    let mut source = ReadPort::new(rt.reader());
    let mut sink = WritePort::new(io::writer(&rt));
    let Ok(list) = read_whole(alloc, &mut source, LIST_LIMIT) else {
        return ExitCode::from(2);
    };
    match run_all(alloc, &list, &mut sink) {
        Ok(()) => ExitCode::from(0),
        Err(error) => ExitCode::from(error.code()),
    }
}
