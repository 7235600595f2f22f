//! The lines that are written in place of a report.
ghost use Rattle.std.specs.Prelude.{◌≡◌, OnOk, OnErr};
ghost use Rattle.std.specs.Io.KnownBytes.{Appends};
ghost use Rattle.dtx_ports.specs.Causes.{HasCause};
ghost use Rattle.dtx_ports.specs.Whole.{AppendsPrefix};
ghost use Rattle.tran_ids.specs.Numbers.{decimal};
ghost use Rattle.script_run.specs.Headline.{IsRun, nothing_done};
ghost use Rattle.script_run.specs.Ending.{ending_of, EndsExplained, EndsRefused, refusal_line, why_text as text_of};

use crate::outcome::{Outcome, Run, Status};
use dtx_ports::{Failed, Sink, write_whole};
use itoa::Buffer;
use script_read::Why;
use std::alloc::Global;

/// Writes how the program is called.
fn explain_words<K: Sink>(sink: &mut K) -> Status
    ensures { EndsExplained (record { before = K.written sink.old; now = K.written sink.new; faults_before = K.faults sink.old; faults_now = K.faults sink.new }) result }
{
    match write_whole(sink, b"usage: dtx [--book] [--make N]\n") {
        Ok(()) => Status::Usage,
        Err(_) => Status::WriteFault,
    }
}

/// Refuses the words: nothing is run, and how the program is called is written.
pub fn refuse_words<K: Sink>(alloc: Global, sink: &mut K) -> Outcome
    ensures nothing { result.run ≡ nothing_done }
    ensures run { IsRun result.run (ending_of result.status) }
    ensures explained { EndsExplained (record { before = K.written sink.old; now = K.written sink.new; faults_before = K.faults sink.old; faults_now = K.faults sink.new }) result.status }
{
    let run = Run::empty(alloc);
    let status = explain_words(sink);
    Outcome { status, run }
}

/// Why a command is bad.
fn why_text(why: &Why) -> &[u8]
    ensures { result.now ≡ text_of why.now }
{
    match why {
        Why::Byte => b"bad byte",
        Why::Unended => b"unended command",
        Why::LateNode => b"node after other commands",
        Why::Form => b"bad command",
        Why::Twice => b"node named twice",
        Why::Many => b"more than 16 nodes",
        Why::Unknown => b"unknown node",
    }
}

// Writes a number in decimal.
#[tactic(auto, using(tran_ids::proofs::NumberLemmas::decimal_is))]
fn write_decimal<K: Sink>(sink: &mut K, number: u32) -> Result<(), Failed>
    ensures ok { OnOk result (Appends (K.written sink.old) (K.written sink.new) (decimal number)) }
    ensures err { OnErr result (AppendsPrefix (K.written sink.old) (K.written sink.new) (decimal number)) }
    ensures cause { HasCause (K.faults sink.old) (K.faults sink.new) result }
{
    write_whole(sink, Buffer::new().format(number).as_bytes())
}

// Writes which line is bad, and why, piece by piece, so that it takes no memory. At an error only a prefix was written.
fn write_refusal<K: Sink>(sink: &mut K, line: u32, why: Why) -> Result<(), Failed>
    ensures ok { OnOk result (Appends (K.written sink.old) (K.written sink.new) (refusal_line line why)) }
    ensures err { OnErr result (AppendsPrefix (K.written sink.old) (K.written sink.new) (refusal_line line why)) }
    ensures cause { HasCause (K.faults sink.old) (K.faults sink.new) result }
{
    write_whole(sink, b"line ")?;
    write_decimal(sink, line)?;
    write_whole(sink, b": ")?;
    write_whole(sink, why_text(&why))?;
    write_whole(sink, b"\n")
}

/// Writes which line is bad, and why. No memory is taken, so it is never out of memory.
pub fn explain_line<K: Sink>(line: u32, why: Why, sink: &mut K) -> Status
    ensures { EndsRefused (record { before = K.written sink.old; now = K.written sink.new; faults_before = K.faults sink.old; faults_now = K.faults sink.new }) line why result }
{
    match write_refusal(sink, line, why) {
        Ok(()) => Status::BadScript,
        Err(_) => Status::WriteFault,
    }
}
