//! The rows of kept branches, found by their branches' ids.
ghost use Rattle.std.specs.Prelude.{◌≡◌, [], true, find, is_some, IfNone, OnOk, OnErr};
ghost use Rattle.std.specs.Option.{option_copied};
ghost use Rattle.tran_ids.specs.Branch.{same};
ghost use Rattle.tran_ids.specs.Listed.{put_item};
ghost use Rattle.redo_record.specs.declared.durable.KeptRow.{KeptRow};
ghost use Rattle.redo_record.specs.Kept.{stands_at, kept_after};
ghost use Rattle.redo_record.specs.Leaving.{row_id};

use crate::kept::apply_record;
use crate::search::{Leaving, position_of, row_at};
use crate::{KeptRow, Kids, RedoRecord, State};
use dtx_values::{Duplicate, Listing};
use std::alloc::{AllocError, Global};
use std::marker::Model;
use std::mem;
use tran_ids::BranchId;

/// The rows of the branches that a node keeps, in the order of their ids. A row is found by halves.
pub struct KeptRows {
    rows: Vec<KeptRow>,
}

impl Drop for KeptRows {
    fn drop(self) {
        let KeptRows { rows } = self;
        drop(rows);
    }
}

impl Model for KeptRows {
    ghost use Rattle.std.specs.Prelude.{List};
    ghost use Rattle.redo_record.specs.declared.durable.KeptRow.{KeptRow};
    ghost use Rattle.redo_record.specs.Order.{AreInOrder};

    ghost Value = { List KeptRow };

    ghost view = { λ k. k.rows.items };

    ghost invariant = { λ k. AreInOrder k.rows.items };
}

impl KeptRows {
    /// No branch is kept.
    pub fn new(alloc: Global) -> KeptRows
        ensures { result ≡ [] }
    {
        KeptRows {
            rows: Vec::new(alloc),
        }
    }

    /// All rows, in the order of their branches.
    pub fn as_slice(&self) -> &[KeptRow]
        ensures { result.now ≡ self.now }
    {
        self.rows.as_slice()
    }

    /// The row of a branch, where it is kept.
    pub fn find(&self, branch: &BranchId) -> Option<&KeptRow>
        ensures { option_copied result ≡ find (stands_at branch.now) self.now }
    {
        match position_of(&self.rows, branch, Leaving::Any) {
            None => None,
            Some(place) => row_at(&self.rows, place),
        }
    }

    /// Takes one more record in. Fails where memory runs out, and then nothing changes.
    pub fn apply(&mut self, alloc: Global, item: &RedoRecord) -> Result<(), AllocError>
        ensures ok { OnOk result (self.new ≡ kept_after self.old item.now) }
        ensures err { OnErr result (self.new ≡ self.old) }
    {
        apply_record(&mut self.rows, alloc, item)
    }

    /// Lends the row of a branch, where it is kept. Until it is put back an empty row stands in its place. No memory is
    /// taken.
    pub fn lend(&mut self, alloc: Global, branch: &BranchId) -> Option<KeptRow>
        ensures row { result ≡ find (stands_at branch.now) self.old }

        // Once a row of the branch is put back, all is as if it had been put in place of the one that was lent.
        ensures place { (row : KeptRow) → row.me ≡ branch.now → put_item row_id self.new row ≡ put_item row_id self.old row }
        ensures kept { is_some (find (stands_at branch.now) self.new) ≡ is_some (find (stands_at branch.now) self.old) }
        ensures none { IfNone result (self.new ≡ self.old) }
    {
        match position_of(&self.rows, branch, Leaving::Any) {
            None => None,
            Some(place) => Some(mem::replace(&mut self.rows[place], empty_row(alloc, branch))),
        }
    }

    /// Puts a row in the place of that of its branch, which is kept.
    pub fn put(&mut self, row: KeptRow)
        requires { is_some (find (stands_at row.me) self.old) ≡ true }
        ensures { self.new ≡ put_item row_id self.old row }
    {
        if let Some(place) = position_of(&self.rows, &row.me, Leaving::Any) {
            self.rows[place] = row;
        }
    }
}

impl Duplicate for KeptRows {
    fn copy(&self, alloc: Global) -> Result<KeptRows, AllocError> {
        let held = self.rows.as_slice();
        let mut rows = Vec::with_capacity(alloc, held.len())?;
        for row in held {
            rows.push(row.copy(alloc)?)?;
        }
        Ok(KeptRows { rows })
    }
}

// A row that stands in the place of one that is lent.
fn empty_row(alloc: Global, me: &BranchId) -> KeptRow
    ensures { result.me ≡ me.now }
{
    KeptRow {
        me: *me,
        root: *me,
        scn: 0,
        parent: None,
        parent_acked: false,
        children: Kids::new(alloc),
        toward: None,
        advice: None,
        comment: Listing::new(alloc),
        state: State::Sealed,
        decision: None,
        mixed: false,
        forgot: false,
        hidden: false,
    }
}
