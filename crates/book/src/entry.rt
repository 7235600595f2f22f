//! The entries of the book.
ghost use Rattle.std.specs.Prelude.{◌≡◌, IfOk};
ghost use Rattle.book.specs.declared.entry.Entry.TheVariants.{Made, Sealed, Decided};

use dtx_values::{Changes, Duplicate, Listing, Table};
use redo_record::Decision;
use std::alloc::{AllocError, Global};
use tran_ids::BranchId;

/// What the book says of a redo record. An entry names a branch, and `global` is the root of its transaction, which
/// gives the transaction its global id.
pub enum Entry {
    /// A table was created.
    Made {
        /// The number of the table's node, from 1.
        node: u8,
        /// The table with its columns.
        table: Table,
    },
    /// A branch is prepared: its redo is on the disk, and it waits for the decision.
    Sealed {
        /// The prepared branch.
        branch: BranchId,
        /// The root of its transaction.
        global: BranchId,
        /// What it changed, in order.
        changes: Changes,
        /// The clock of its node.
        scn: u64,
    },
    /// The commit point site decided to commit.
    Decided {
        /// The branch at the commit point site.
        branch: BranchId,
        /// The root of its transaction.
        global: BranchId,
        /// What the branch changed, in order.
        changes: Changes,
        /// The commit SCN.
        scn: u64,
    },
    /// The decision reached a prepared branch.
    Ended {
        /// The branch.
        branch: BranchId,
        /// The decision.
        outcome: Decision,
    },
    /// An administrator forced the outcome of a prepared branch.
    Forced {
        /// The branch.
        branch: BranchId,
        /// The forced outcome.
        outcome: Decision,
    },
    /// The decision reached a branch whose outcome had been forced.
    Met {
        /// The branch.
        branch: BranchId,
        /// The decision.
        decision: Decision,
        /// Whether it differs from the forced outcome.
        mixed: bool,
    },
}

impl Drop for Entry {
    fn drop(self) {
        match self {
            Entry::Made { node: _node, table } => drop(table),
            Entry::Sealed {
                branch: _branch,
                global: _global,
                changes,
                scn: _scn,
            } => drop(changes),
            Entry::Decided {
                branch: _branch,
                global: _global,
                changes,
                scn: _scn,
            } => drop(changes),
            Entry::Ended {
                branch: _branch,
                outcome: _outcome,
            } => {}
            Entry::Forced {
                branch: _branch,
                outcome: _outcome,
            } => {}
            Entry::Met {
                branch: _branch,
                decision: _decision,
                mixed: _mixed,
            } => {}
        }
    }
}

/// Entries in the order in which their records came to the disks.
pub type Book = Listing<Entry>;

impl Duplicate for Entry {
    fn copy(&self, alloc: Global) -> Result<Entry, AllocError> {
        match self {
            Entry::Made { node, table } => made(alloc, *node, table),
            Entry::Sealed {
                branch,
                global,
                changes,
                scn,
            } => sealed(alloc, *branch, *global, changes, *scn),
            Entry::Decided {
                branch,
                global,
                changes,
                scn,
            } => decided(alloc, *branch, *global, changes, *scn),
            Entry::Ended { branch, outcome } => Ok(Entry::Ended {
                branch: *branch,
                outcome: *outcome,
            }),
            Entry::Forced { branch, outcome } => Ok(Entry::Forced {
                branch: *branch,
                outcome: *outcome,
            }),
            Entry::Met {
                branch,
                decision,
                mixed,
            } => Ok(Entry::Met {
                branch: *branch,
                decision: *decision,
                mixed: *mixed,
            }),
        }
    }
}

fn made(alloc: Global, node: u8, table: &Table) -> Result<Entry, AllocError>
    ensures { IfOk result (λ entry. entry ≡ Made node table.now) }
{
    let table = table.copy(alloc)?;
    Ok(Entry::Made { node, table })
}

fn sealed(
    alloc: Global,
    branch: BranchId,
    global: BranchId,
    changes: &Changes,
    scn: u64,
) -> Result<Entry, AllocError>
    ensures { IfOk result (λ entry. entry ≡ Sealed branch global changes.now scn) }
{
    let changes = changes.copy(alloc)?;
    Ok(Entry::Sealed {
        branch,
        global,
        changes,
        scn,
    })
}

fn decided(
    alloc: Global,
    branch: BranchId,
    global: BranchId,
    changes: &Changes,
    scn: u64,
) -> Result<Entry, AllocError>
    ensures { IfOk result (λ entry. entry ≡ Decided branch global changes.now scn) }
{
    let changes = changes.copy(alloc)?;
    Ok(Entry::Decided {
        branch,
        global,
        changes,
        scn,
    })
}
