//! The book as text: a line for each entry.
ghost use Rattle.std.specs.Prelude.{◌≡◌, ◌++◌, IfOk, OnOk};
ghost use Rattle.book.specs.Texts.{commit_text, decision_text, mixed_text, branch_text, table_text, changes_text, outcome_text, verb as verb_of, object_text, entry_text as entry_text_of, book_lines as book_lines_of, shown_book, book_text as book_text_of};

use crate::Entry;
use dtx_values::{Bytes, Change, Listing, Name, Table, Texts};
use redo_record::Decision;
use std::alloc::{AllocError, Global};
use tran_ids::{BranchId, node_name, put_decimal, put_global, put_local};

fn put_decision(out: &mut Vec<u8>, decision: &Decision) -> Result<(), AllocError>
    ensures { OnOk result (out.new.items ≡ out.old.items ++ decision_text decision.now) }
{
    match decision {
        Decision::Commit(scn) => put_commit(out, *scn),
        Decision::Rollback => out.extend_from_slice(b" rollback"),
    }
}

fn put_commit(out: &mut Vec<u8>, scn: u64) -> Result<(), AllocError>
    ensures { OnOk result (out.new.items ≡ out.old.items ++ commit_text scn) }
{
    out.extend_from_slice(b" commit scn ")?;
    put_decimal(out, scn)?;
    Ok(())
}

fn put_mixed(out: &mut Vec<u8>, mixed: bool) -> Result<(), AllocError>
    ensures { OnOk result (out.new.items ≡ out.old.items ++ mixed_text mixed) }
{
    if mixed {
        out.extend_from_slice(b" mixed yes")
    } else {
        out.extend_from_slice(b" mixed no")
    }
}

fn put_branch(out: &mut Vec<u8>, names: &[Name], branch: &BranchId) -> Result<(), AllocError>
    ensures { OnOk result (out.new.items ≡ out.old.items ++ branch_text names.now branch.now) }
{
    out.extend_from_slice(node_name(names, branch.node))?;
    out.push(b' ')?;
    put_local(out, branch)
}

fn put_table(out: &mut Vec<u8>, names: &[Name], node: u8, table: &Table) -> Result<(), AllocError>
    ensures { OnOk result (out.new.items ≡ out.old.items ++ table_text names.now node table.now) }
{
    out.extend_from_slice(node_name(names, node))?;
    out.push(b' ')?;
    out.extend_from_slice(table.name.as_bytes())
}

fn put_changes(
    out: &mut Vec<u8>,
    names: &[Name],
    branch: &BranchId,
    global: &BranchId,
    scn: u64,
    changes: &[Change],
) -> Result<(), AllocError>
    ensures { OnOk result (out.new.items ≡ out.old.items
        ++ changes_text names.now branch.now global.now changes.now scn) }
{
    put_branch(out, names, branch)?;
    out.push(b' ')?;
    put_global(out, names, global)?;
    out.extend_from_slice(b" scn ")?;
    put_decimal(out, scn)?;
    out.extend_from_slice(b" changes ")?;
    put_decimal(out, changes.len() as u64)
}

fn put_outcome(
    out: &mut Vec<u8>,
    names: &[Name],
    branch: &BranchId,
    outcome: &Decision,
) -> Result<(), AllocError>
    ensures { OnOk result (out.new.items ≡ out.old.items
        ++ outcome_text names.now branch.now outcome.now) }
{
    put_branch(out, names, branch)?;
    put_decision(out, outcome)
}

fn verb(entry: &Entry) -> &[u8]
    ensures { result.now ≡ verb_of entry.now }
{
    match entry {
        Entry::Made { .. } => b"made ",
        Entry::Sealed { .. } => b"sealed ",
        Entry::Decided { .. } => b"decided ",
        Entry::Ended { .. } => b"ended ",
        Entry::Forced { .. } => b"forced ",
        Entry::Met { .. } => b"met ",
    }
}

fn put_object(out: &mut Vec<u8>, entry: &Entry, names: &[Name]) -> Result<(), AllocError>
    ensures { OnOk result (out.new.items ≡ out.old.items ++ object_text names.now entry.now) }
{
    match entry {
        Entry::Made { node, table } => put_table(out, names, *node, table),
        Entry::Sealed {
            branch,
            global,
            changes,
            scn,
        } => put_changes(out, names, branch, global, *scn, changes.as_slice()),
        Entry::Decided {
            branch,
            global,
            changes,
            scn,
        } => put_changes(out, names, branch, global, *scn, changes.as_slice()),
        Entry::Ended { branch, outcome } => put_outcome(out, names, branch, outcome),
        Entry::Forced { branch, outcome } => put_outcome(out, names, branch, outcome),
        Entry::Met {
            branch,
            decision,
            mixed,
        } => {
            put_outcome(out, names, branch, decision)?;
            put_mixed(out, *mixed)
        }
    }
}

fn put_entry(out: &mut Vec<u8>, entry: &Entry, names: &[Name]) -> Result<(), AllocError>
    ensures { OnOk result (out.new.items ≡ out.old.items ++ entry_text_of names.now entry.now) }
{
    out.extend_from_slice(verb(entry))?;
    put_object(out, entry, names)
}

/// An entry as text, such as `ended HQ 1.65.1 commit scn 2`. The names are those of the nodes, in the order of their
/// numbers; a number past them has an empty name. Fails where memory runs out.
pub fn entry_text(alloc: Global, entry: &Entry, names: &[Name]) -> Result<Bytes, AllocError>
    ensures { IfOk result (λ text. text ≡ entry_text_of names.now entry.now) }
{
    let mut out = Vec::new(alloc);
    put_entry(&mut out, entry, names)?;
    Ok(Listing::of(out))
}

fn lines(alloc: Global, book: &[Entry], names: &[Name]) -> Result<Texts, AllocError>
    ensures { IfOk result (λ lines. lines ≡ book_lines_of names.now book.now) }
{
    let mut lines = Vec::new(alloc);
    for entry in book {
        lines.push(entry_text(alloc, entry, names)?)?;
    }
    Ok(Listing::of(lines))
}

/// The book as SHOW BOOK prints it: a line for each entry, and `no entries` where there is none. Fails where memory
/// runs out.
pub fn book_lines(alloc: Global, book: &[Entry], names: &[Name]) -> Result<Texts, AllocError>
    ensures { IfOk result (λ lines. lines ≡ shown_book names.now book.now) }
{
    if book.is_empty() {
        let none = Listing::of(Vec::from_slice(alloc, b"no entries")?);
        return Ok(Listing::of(vec![in alloc; none]?));
    }
    lines(alloc, book, names)
}

/// The book as `--book` prints it after the report: each line with a line feed, and nothing where there is no entry.
/// Fails where memory runs out.
pub fn book_text(alloc: Global, book: &[Entry], names: &[Name]) -> Result<Bytes, AllocError>
    ensures { IfOk result (λ text. text ≡ book_text_of names.now book.now) }
{
    let mut out = Vec::new(alloc);
    for entry in book {
        put_entry(&mut out, entry, names)?;
        out.push(b'\n')?;
    }
    Ok(Listing::of(out))
}
