//! What is counted of the run of a made script.
ghost use Rattle.std.specs.Prelude.{◌≡◌, ◌<◌, ◌^◌, count_by};
ghost use Rattle.make_script.specs.Summary.{commit_count, count_in as count_in_said, ends_so as ends_so_by, is_answered as is_answered_by, is_commit as is_commit_command, is_committed as is_committed_by, is_of_kind as is_of_kind_by, number_in as number_in_cells, number_of as number_of_rows, pending_total as pending_total_by};

use book::{AnswerLine, Entry, Said};
use dtx_values::{Answer, Done, Row, Value};
use script_read::Command;
use sql_statement::Stmt;

/// How a COMMIT ended.
#[derive(Clone, Copy, Debug)]
pub enum CommitEnd {
    /// It was complete.
    Complete,
    /// The transaction is in doubt at some node.
    InDoubt,
}

/// The kinds of entries that are counted.
#[derive(Clone, Copy, Debug)]
pub enum EntryKind {
    /// A decision.
    Decided,
    /// A seal.
    Sealed,
    /// The end of a prepared branch.
    Ended,
}

fn is_commit(command: &Command) -> bool
    ensures { result ≡ is_commit_command command.now }
{
    match command {
        Command::At { statement, .. } => matches!(statement, Some(Stmt::Commit { .. })),
        _ => false,
    }
}

fn is_committed(done: Done) -> bool
    ensures { result ≡ is_committed_by done }
{
    matches!(done, Done::Committed)
}

fn ends_so(end: CommitEnd, said: &Said) -> bool
    ensures { result ≡ ends_so_by end said.now }
{
    match (end, said) {
        (CommitEnd::Complete, Said::Node(Answer::Did(done, _rows))) => is_committed(*done),
        (CommitEnd::InDoubt, Said::Node(Answer::Refused(refusal))) => refusal.code == 2053
            || refusal.code == 2054,
        _ => false,
    }
}

fn is_answered(end: CommitEnd, lines: &[AnswerLine], number: usize) -> bool
    ensures { result ≡ is_answered_by end lines.now number }
{
    lines.iter().any(|line| line.command as usize == number && ends_so(end, &line.said))
}

/// How many COMMITs among the commands were answered so.
pub fn count_commits(end: CommitEnd, commands: &[Command], lines: &[AnswerLine]) -> usize
    ensures { result ≡ commit_count end commands.now lines.now }
{
    let mut count = 0;
    for place in 0..commands.len() {
        if is_commit(&commands[place]) && is_answered(end, lines, place + 1) {
            count += 1;
        }
    }
    count
}

#[tactic(auto, unfolding(crate::specs::Summary::is_of_kind))]
fn is_of_kind(kind: EntryKind, entry: &Entry) -> bool
    ensures { result ≡ is_of_kind_by kind entry.now }
{
    match (kind, entry) {
        (EntryKind::Decided, Entry::Decided { .. }) => true,
        (EntryKind::Sealed, Entry::Sealed { .. }) => true,
        (EntryKind::Ended, Entry::Ended { .. }) => true,
        _ => false,
    }
}

/// How many entries of a kind the book has.
pub fn count_entries(kind: EntryKind, book: &[Entry]) -> usize
    ensures { result ≡ count_by (is_of_kind_by kind) book.now }
{
    let mut count = 0;
    for entry in book {
        if is_of_kind(kind, entry) {
            count += 1;
        }
    }
    count
}

fn number_in(cells: &[Value]) -> u128
    ensures is { result ≡ number_in_cells cells.now }
    ensures small { result < 2 ^ 63 }
{
    match cells {
        [Value::Number(number)] if 0 <= *number => *number as u128,
        _ => 0,
    }
}

fn number_of(rows: &[Row]) -> u128
    ensures is { result ≡ number_of_rows rows.now }
    ensures small { result < 2 ^ 63 }
{
    match rows {
        [row] => number_in(row.cells.as_slice()),
        _ => 0,
    }
}

fn count_in(said: &Said) -> u128
    ensures is { result ≡ count_in_said said.now }
    ensures small { result < 2 ^ 63 }
{
    match said {
        Said::Node(Answer::Found(found)) => number_of(found.rows.as_slice()),
        _ => 0,
    }
}

/// The counts of the last four answers, added up.
pub fn pending_total(lines: &[AnswerLine]) -> u128
    ensures { result ≡ pending_total_by lines.now }
{
    let mut sum = 0;
    for line in &lines[lines.len().saturating_sub(4)..] {
        sum += count_in(&line.said);
    }
    sum
}
