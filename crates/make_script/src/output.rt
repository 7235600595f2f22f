//! What is printed of the run of a made script.
ghost use Rattle.std.specs.Prelude.{◌≡◌, ◌++◌, IfOk, OnOk};
ghost use Rattle.make_script.specs.Summary.{count_line, summary_of};

use crate::counting::{CommitEnd, EntryKind, count_commits, count_entries, pending_total};
use book::{AnswerLine, Entry};
use itoa::Buffer;
use script_read::Command;
use std::alloc::{AllocError, Global};

// Adds a number with its name.
fn put_count(out: &mut Vec<u8>, name: &[u8], number: u128) -> Result<(), AllocError>
    ensures { OnOk result (out.new.items ≡ out.old.items ++ count_line name.now number) }
{
    out.extend_from_slice(name)?;
    out.push(b' ')?;
    out.extend_from_slice(Buffer::new().format(number).as_bytes())?;
    out.push(b'\n')?;
    Ok(())
}

/// The summary of the run of the script of a number, at whose end so many rows of pending transactions stand. It is an error only
/// where there is no memory.
#[tactic(auto, unfolding(crate::specs::Summary::summary_of))]
pub fn summary(
    alloc: Global,
    number: u16,
    commands: &[Command],
    lines: &[AnswerLine],
    book: &[Entry],
    pending: u128,
) -> Result<Vec<u8>, AllocError>
    ensures { IfOk result (λ text. text.items ≡ summary_of number commands.now lines.now book.now pending) }
{
    let mut out = Vec::new(alloc);
    put_count(&mut out, b"make", u128::from(number))?;
    put_count(&mut out, b"commands", commands.len() as u128)?;
    put_count(
        &mut out,
        b"complete",
        count_commits(CommitEnd::Complete, commands, lines) as u128,
    )?;
    put_count(
        &mut out,
        b"in-doubt",
        count_commits(CommitEnd::InDoubt, commands, lines) as u128,
    )?;
    put_count(
        &mut out,
        b"decided",
        count_entries(EntryKind::Decided, book) as u128,
    )?;
    put_count(
        &mut out,
        b"sealed",
        count_entries(EntryKind::Sealed, book) as u128,
    )?;
    put_count(
        &mut out,
        b"ended",
        count_entries(EntryKind::Ended, book) as u128,
    )?;
    put_count(&mut out, b"pending", pending)?;
    put_count(&mut out, b"rows", pending_total(lines))?;
    Ok(out)
}
