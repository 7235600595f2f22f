//! What no clause says of the book: that calls succeed, and the book of one commit over three nodes as it is to be
//! printed.
use crate::texts::is_text;
use book::{Entry, book_lines, book_text, entries, entry_text};
use dtx_values::{Change, Changes, Listing, Name, NameErr, Table, Texts, Value};
use redo_record::{Decision, RedoRecord};
use std::alloc::{AllocError, Global};
use tran_ids::BranchId;

const SALES: u8 = 1;

const WAREHOUSE: u8 = 2;

const HQ: u8 = 3;

/// The text of the book, where an order is entered at SALES for goods of WAREHOUSE, and HQ keeps the accounts.
const TEXT: &str = "made SALES ORDERS
made WAREHOUSE STOCK
decided WAREHOUSE 1.1.1 WAREHOUSE.00000002.1.1.1 scn 1 changes 1
made HQ LEDGER
sealed HQ 1.65.1 SALES.00000001.1.1.1 scn 1 changes 1
sealed SALES 1.1.1 SALES.00000001.1.1.1 scn 1 changes 1
decided WAREHOUSE 1.65.1 SALES.00000001.1.1.1 scn 2 changes 1
ended SALES 1.1.1 commit scn 2
ended HQ 1.65.1 commit scn 2
";

fn branch(node: u8, session: u32) -> BranchId {
    BranchId {
        node,
        boot: 1,
        session,
        seq: 1,
    }
}

/// The nodes by name.
const NODES: [&[u8]; 3] = [b"SALES", b"WAREHOUSE", b"HQ"];

/// Adds the name at the end.
fn put_name(alloc: Global, names: &mut Vec<Name>, text: &[u8]) -> Result<(), NameErr> {
    let name = Name::from_bytes(alloc, text)?;
    names.push(name)?;
    Ok(())
}

fn names(alloc: Global) -> Result<Vec<Name>, NameErr> {
    let mut names = Vec::new(alloc);
    for text in &NODES {
        put_name(alloc, &mut names, text)?;
    }
    Ok(names)
}

fn made(alloc: Global, node: u8, table: &[u8]) -> Result<Entry, NameErr> {
    let table = Table {
        name: Name::from_bytes(alloc, table)?,
        columns: Listing::new(alloc),
    };
    Ok(Entry::Made { node, table })
}

fn one_change(alloc: Global, table: &[u8]) -> Result<Changes, NameErr> {
    let change = Change {
        table: Name::from_bytes(alloc, table)?,
        key: Value::Number(1),
        after: None,
    };
    Ok(Listing::of(vec![in alloc; change]?))
}

fn sealed(alloc: Global, branch: BranchId, table: &[u8]) -> Result<Entry, NameErr> {
    Ok(Entry::Sealed {
        branch,
        global: branch_of_order(),
        changes: one_change(alloc, table)?,
        scn: 1,
    })
}

fn branch_of_order() -> BranchId {
    branch(SALES, 1)
}

fn decided(alloc: Global, branch: BranchId, global: BranchId, scn: u64) -> Result<Entry, NameErr> {
    Ok(Entry::Decided {
        branch,
        global,
        changes: one_change(alloc, b"STOCK")?,
        scn,
    })
}

fn ended(branch: BranchId) -> Entry {
    Entry::Ended {
        branch,
        outcome: Decision::Commit(2),
    }
}

/// Adds an entry at the end, and says whether there was one to add, and memory for it.
fn put(book: &mut Vec<Entry>, entry: Result<Entry, NameErr>) -> bool {
    match entry {
        Ok(entry) => book.push(entry).is_ok(),
        Err(_) => false,
    }
}

fn put_goods(alloc: Global, book: &mut Vec<Entry>) -> bool {
    let stock = branch(WAREHOUSE, 1);
    put(book, made(alloc, SALES, b"ORDERS"))
        && put(book, made(alloc, WAREHOUSE, b"STOCK"))
        && put(book, decided(alloc, stock, stock, 1))
}

fn put_order(alloc: Global, book: &mut Vec<Entry>) -> bool {
    put(book, made(alloc, HQ, b"LEDGER"))
        && put(book, sealed(alloc, branch(HQ, 65), b"LEDGER"))
        && put(book, sealed(alloc, branch_of_order(), b"ORDERS"))
}

fn put_commit(alloc: Global, book: &mut Vec<Entry>) -> bool {
    let decided = decided(alloc, branch(WAREHOUSE, 65), branch_of_order(), 2);
    put(book, decided)
        && put(book, Ok(ended(branch_of_order())))
        && put(book, Ok(ended(branch(HQ, 65))))
}

/// Whether there are so many lines.
fn are(lines: Result<Texts, AllocError>, count: usize) -> bool {
    match lines {
        Ok(lines) => lines.as_slice().len() == count,
        Err(_) => false,
    }
}

/// Whether a book is printed as this text, of so many lines.
fn is_book(alloc: Global, book: &[Entry], text: &str, count: usize) -> bool {
    match names(alloc) {
        Ok(names) => {
            is_text(book_text(alloc, book, &names), text.as_bytes())
                && are(book_lines(alloc, book, &names), count)
        }
        Err(_) => false,
    }
}

/// Whether the book of the order is printed as it is to be.
fn is_order_printed(alloc: Global) -> bool {
    let mut book = Vec::new(alloc);
    let is = put_goods(alloc, &mut book)
        && put_order(alloc, &mut book)
        && put_commit(alloc, &mut book)
        && is_book(alloc, &book, TEXT, 9);
    drop(book);
    is
}

#[test]
fn the_book_of_a_commit_is_printed(rt: HostRuntime) {
    assert!(rt; is_order_printed(rt.alloc()));
    // a book of no entry has a line that says so, but no text
    assert!(rt; is_book(rt.alloc(), &[], "", 1));
}

/// Whether an entry is printed as this text.
fn is_printed(alloc: Global, entry: Entry, due: &[u8]) -> bool {
    let is = match names(alloc) {
        Ok(names) => is_text(entry_text(alloc, &entry, &names), due),
        Err(_) => false,
    };
    drop(entry);
    is
}

#[test]
fn a_forced_outcome_is_printed(rt: HostRuntime) {
    let forced = Entry::Forced {
        branch: branch(HQ, 65),
        outcome: Decision::Rollback,
    };
    assert!(rt; is_printed(rt.alloc(), forced, b"forced HQ 1.65.1 rollback"));
}

#[test]
fn a_met_decision_is_printed(rt: HostRuntime) {
    let met = Entry::Met {
        branch: branch(HQ, 65),
        decision: Decision::Commit(2),
        mixed: true,
    };
    let due = b"met HQ 1.65.1 commit scn 2 mixed yes";
    assert!(rt; is_printed(rt.alloc(), met, due));
}

/// Whether a turn of HQ in which it wrote this record, or none, has so many entries.
fn has_entries(alloc: Global, wrote: Option<RedoRecord>, count: usize) -> bool {
    let entries = entries(alloc, HQ, &wrote);
    drop(wrote);
    match entries {
        Ok(entries) => {
            let is = entries.len() == count;
            drop(entries);
            is
        }
        Err(_) => false,
    }
}

/// Whether a turn of HQ in which its branch is rolled back has one entry.
fn is_end_an_entry(alloc: Global) -> bool {
    let ended = RedoRecord::Ended {
        me: branch(HQ, 65),
        decision: Decision::Rollback,
    };
    has_entries(alloc, Some(ended), 1)
}

/// Whether a turn of HQ in which its branch is forgotten has no entry.
fn is_forgetting_no_entry(alloc: Global) -> bool {
    has_entries(alloc, Some(RedoRecord::Forgot(branch(HQ, 65))), 0)
}

#[test]
fn a_turn_has_the_entry_of_its_outcome(rt: HostRuntime) {
    assert!(rt; has_entries(rt.alloc(), None, 0));
    assert!(rt; is_forgetting_no_entry(rt.alloc()));
    assert!(rt; is_end_an_entry(rt.alloc()));
}
