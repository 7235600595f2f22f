//! The entries of records.
ghost use Rattle.std.specs.Prelude.{◌≡◌, [], ◌∷◌, IfOk};
ghost use Rattle.book.specs.Entries.{sealed_entry, decided_entry, entry_of, entries_of};
ghost use Rattle.book.specs.declared.entry.Entry.TheVariants.{Met};

use crate::Entry;
use dtx_values::Duplicate;
use redo_record::{Decided, Decision, RedoRecord, Sealed};
use std::alloc::{AllocError, Global};
use tran_ids::BranchId;

/// The entries of what a node wrote in a turn: one for a record of a table, a seal, a decision, an end, a forced
/// outcome or its meeting with the decision, and none for any other. Fails where memory runs out.
pub fn entries(
    alloc: Global,
    node: u8,
    wrote: &Option<RedoRecord>,
) -> Result<Vec<Entry>, AllocError>
    ensures { IfOk result (λ entries. entries.items ≡ entries_of node wrote.now) }
{
    match wrote {
        None => Ok(Vec::new(alloc)),
        Some(item) => entries_of_record(alloc, node, item),
    }
}

// The book has no entry for links, synonyms, settings and starts, nor for what is forgotten or hidden.
fn entries_of_record(alloc: Global, node: u8, item: &RedoRecord) -> Result<Vec<Entry>, AllocError>
    ensures { IfOk result (λ entries. entries.items ≡ entry_of node item.now) }
{
    match item {
        RedoRecord::Table(table) => {
            let table = table.copy(alloc)?;
            one(alloc, Entry::Made { node, table })
        }
        RedoRecord::Sealed(sealed) => one(alloc, entry_of_sealed(alloc, sealed)?),
        RedoRecord::Decided(decided) => one(alloc, entry_of_decided(alloc, decided)?),
        RedoRecord::Ended { me, decision } => {
            let (branch, outcome) = (*me, *decision);
            one(alloc, Entry::Ended { branch, outcome })
        }
        RedoRecord::Forced {
            me,
            decision,
            given: _given,
        } => {
            let (branch, outcome) = (*me, *decision);
            one(alloc, Entry::Forced { branch, outcome })
        }
        RedoRecord::Met {
            me,
            decision,
            mixed,
        } => one(alloc, entry_of_met(*me, *decision, *mixed)),
        _ => Ok(Vec::new(alloc)),
    }
}

fn entry_of_sealed(alloc: Global, sealed: &Sealed) -> Result<Entry, AllocError>
    ensures { IfOk result (λ entry. entry ≡ sealed_entry sealed.now) }
{
    let changes = sealed.changes.copy(alloc)?;
    Ok(Entry::Sealed {
        branch: sealed.me,
        global: sealed.root,
        changes,
        scn: sealed.scn,
    })
}

fn entry_of_decided(alloc: Global, decided: &Decided) -> Result<Entry, AllocError>
    ensures { IfOk result (λ entry. entry ≡ decided_entry decided.now) }
{
    let changes = decided.changes.copy(alloc)?;
    Ok(Entry::Decided {
        branch: decided.me,
        global: decided.root,
        changes,
        scn: decided.scn,
    })
}

fn entry_of_met(branch: BranchId, decision: Decision, mixed: bool) -> Entry
    ensures { result ≡ Met branch decision mixed }
{
    Entry::Met {
        branch,
        decision,
        mixed,
    }
}

fn one(alloc: Global, entry: Entry) -> Result<Vec<Entry>, AllocError>
    ensures { IfOk result (λ entries. entries.items ≡ entry ∷ []) }
{
    Ok(vec![in alloc; entry]?)
}
