//! How a run ends: words, and sources and sinks that fail.
use dtx_ports::{MemSink, MemSource};
use script_run::{Run, Status, run_script};
use std::alloc::{AllocError, Global};

/// How many bytes a sink takes.
const ROOM: usize = 131_072;

/// Five commands, each with its answer. Four are calls with a turn: a table is made, and a transaction decided.
const SCRIPT: &[u8] =
    b"NODE SALES; AT SALES SESSION 1: CREATE TABLE ORDERS (ID NUMBER PRIMARY KEY, QTY NUMBER); AT SALES SESSION 1: INSERT INTO ORDERS VALUES (1, 10); AT SALES SESSION 1: COMMIT; AT SALES SESSION 1: SELECT * FROM ORDERS WHERE ID = 1;";

const REPORT: &[u8] =
    b"1 ok\n2 Table created.\n3 1 row created.\n4 Commit complete.\n5 ID|QTY\n5 1|10\n5 1 row selected.\n";

/// The longest script, in bytes.
const LONGEST: usize = 1_048_576;

/// The end of a run, and how many answers, happenings and entries there are.
pub(crate) type Ended = (Status, [usize; 3]);

/// Of a run that does nothing.
const NOTHING: [usize; 3] = [0; 3];

/// The words of a command line.
fn words_of(alloc: Global, words: &[&str]) -> Result<Vec<String>, AllocError> {
    let mut owned = Vec::new(alloc);
    for word in words {
        owned.push(String::from_str(alloc, word)?)?;
    }
    Ok(owned)
}

fn counts(run: &Run) -> [usize; 3] {
    [
        run.answers.as_slice().len(),
        run.trace.as_slice().len(),
        run.book.as_slice().len(),
    ]
}

/// How a run of a script ends, where the calls of these numbers fail at the source and the sink, each but 0; nothing where
/// it writes other bytes than are due.
pub(crate) fn ended(
    alloc: Global,
    words: &[&str],
    script: &[u8],
    (read, write): (u32, u32),
    due: &[u8],
) -> Result<Option<Ended>, AllocError> {
    let words = words_of(alloc, words)?;
    let mut source = MemSource::new(script.to_vec(alloc)?, [read].to_vec(alloc)?);
    let mut sink = MemSink::new(alloc, ROOM, [write].to_vec(alloc)?)?;
    let outcome = run_script(alloc, &words, &mut source, &mut sink);
    let ended = (outcome.status, counts(&outcome.run));
    Ok(if sink.bytes() == due {
        Some(ended)
    } else {
        None
    })
}

#[test]
fn a_script_is_run_to_its_end(rt: HostRuntime) {
    let run = ended(rt.alloc(), &[], SCRIPT, (0, 0), REPORT);
    assert!(rt; run == Ok(Some((Status::Done, [5, 9, 2]))));
}

#[test]
fn a_read_that_fails_runs_nothing(rt: HostRuntime) {
    let run = ended(rt.alloc(), &[], SCRIPT, (2, 0), b"");
    assert!(rt; run == Ok(Some((Status::ReadFault, NOTHING))));
}

#[test]
fn a_write_that_fails_keeps_the_run(rt: HostRuntime) {
    let run = ended(rt.alloc(), &[], SCRIPT, (0, 1), b"");
    assert!(rt; run == Ok(Some((Status::WriteFault, [5, 9, 2]))));
}

#[test]
fn an_unknown_word_is_answered_by_the_usage_line(rt: HostRuntime) {
    let usage = b"usage: dtx [--book] [--make N]\n";
    let told = ended(rt.alloc(), &["--frob"], SCRIPT, (0, 0), usage);
    assert!(rt; told == Ok(Some((Status::Usage, NOTHING))));
    let untold = ended(rt.alloc(), &["--frob"], SCRIPT, (0, 1), b"");
    assert!(rt; untold == Ok(Some((Status::WriteFault, NOTHING))));
}

#[test]
fn a_bad_command_is_answered_by_its_line(rt: HostRuntime) {
    let told = ended(rt.alloc(), &[], b"FROB;", (0, 0), b"line 1: bad command\n");
    assert!(rt; told == Ok(Some((Status::BadScript, NOTHING))));
    let untold = ended(rt.alloc(), &[], b"FROB;", (0, 1), b"");
    assert!(rt; untold == Ok(Some((Status::WriteFault, NOTHING))));
}

/// How a run of so many blanks ends.
fn blanks_end(alloc: Global, length: usize) -> Result<Option<Ended>, AllocError> {
    let blanks = vec![in alloc; b' '; length]?;
    ended(alloc, &[], &blanks, (0, 0), b"")
}

#[test]
fn the_longest_script_is_read_and_no_longer_one(rt: HostRuntime) {
    let longest = blanks_end(rt.alloc(), LONGEST);
    assert!(rt; longest == Ok(Some((Status::Done, NOTHING))));
    let longer = blanks_end(rt.alloc(), LONGEST + 1);
    assert!(rt; longer == Ok(Some((Status::TooLong, NOTHING))));
}

/// The summary of the run of the script of 1.
const SUMMARY: &[u8] =
    b"make 1\ncommands 1624\ncomplete 450\nin-doubt 50\ndecided 500\nsealed 500\nended 500\npending 0\nrows 1000\n";

/// How the run of a made script ends over a source whose first read fails, and a sink whose call of this number does; nothing
/// where it writes other bytes than are due.
fn made_ends(
    alloc: Global,
    words: &[&str],
    write: u32,
    due: &[u8],
) -> Result<Option<Status>, AllocError> {
    let ended = ended(alloc, words, b"FROB;", (1, write), due)?;
    Ok(ended.map(|(status, _counts)| status))
}

#[test]
fn a_made_script_reads_no_source(rt: HostRuntime) {
    let least = made_ends(rt.alloc(), &["--make", "1"], 0, SUMMARY);
    assert!(rt; least == Ok(Some(Status::Done)));
}

#[test]
fn a_made_script_whose_summary_cannot_be_written(rt: HostRuntime) {
    let untold = made_ends(rt.alloc(), &["--make", "7"], 1, b"");
    assert!(rt; untold == Ok(Some(Status::WriteFault)));
}

#[test]
fn words_that_are_refused_read_no_source(rt: HostRuntime) {
    let usage = b"usage: dtx [--book] [--make N]\n";
    for words in [
        ["--book", "--book"],
        ["--make", "0"],
        ["--make", "65536"],
        ["--make", ""],
    ] {
        assert!(rt; made_ends(rt.alloc(), &words, 0, usage) == Ok(Some(Status::Usage)));
    }
}
