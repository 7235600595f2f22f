//! The locks of a node.
ghost use Rattle.std.specs.Prelude.{◌≡◌, ◌-◌, [], ◌&&◌, take, length, true, None, IfOk, OnOk, OnErr, IsErrOf};
ghost use Rattle.std.specs.List.{list_any};
ghost use Rattle.std.specs.Str.{bytes_eq};
ghost use Rattle.row_locks.specs.declared.lock_err.LockErr.TheVariants.{NoMemory};
ghost use Rattle.row_locks.specs.Back.{gone_back, kept_if, with_kept};
ghost use Rattle.row_locks.specs.Locks.{AreOnDistinctKeys, holder_of, other_holder, named_holder, taken, keys_held, in_doubt_from_now, without_reads, without};
ghost use Rattle.row_locks.specs.Numbered.{without_numbers, without_read_numbers, doubtful, changed_at};

use crate::LockErr;
use crate::by_branch::ByBranch;
use crate::held_key::HeldKey;
use crate::numbered_locks::NumberedLocks;
use dtx_values::{Change, Duplicate, Listing, Name, Value};
use savepoints::Note;
use std::alloc::{AllocError, Global};
use std::marker::Model;
use tran_ids::BranchId;

/// Keys in order.
pub type Keys = Listing<Value>;

/// Which branch holds which key of which table. What a branch does to its locks costs what it has, however many others there
/// are.
pub struct Locks {
    locks: NumberedLocks,
    by_branch: ByBranch,
}

impl Drop for Locks {
    fn drop(self) {
        let Locks { locks, by_branch } = self;
        drop(locks);
        drop(by_branch);
    }
}

impl Model for Locks {
    ghost use Rattle.std.specs.Prelude.{List};
    ghost use Rattle.row_locks.specs.Locks.{Lock};
    ghost use Rattle.row_locks.specs.Numbered.{locks_in};
    ghost use Rattle.row_locks.specs.ByBranch.{AreLinked};

    ghost Value = { List Lock };

    ghost view = { λ l. locks_in l.locks };

    ghost invariant = { λ l. AreLinked l.locks l.by_branch };
}

impl Locks {
    /// No lock.
    pub fn new(alloc: Global) -> Locks
        ensures { result ≡ [] }
    {
        Locks {
            locks: NumberedLocks::new(alloc),
            by_branch: ByBranch::new(alloc),
        }
    }

    /// The branch that holds a key, and whether it is in doubt.
    pub fn holder(&self, table: &Name, key: &Value) -> Option<(BranchId, bool)>
        ensures holder { result ≡ holder_of self.now table.now key.now }

        // Two locks are never on the same key.
        ensures distinct { AreOnDistinctKeys self.now }
    {
        let holder = self.locks.holder(table, key)?;
        Some((holder.branch, holder.in_doubt))
    }

    /// Every key of a table that a branch holds.
    pub fn keys(&self, alloc: Global, table: &Name) -> Result<Keys, AllocError>
        ensures { IfOk result (λ keys. keys ≡ keys_held self.now table.now) }
    {
        self.locks.keys(alloc, table)
    }

    /// Whether a branch in doubt holds a key of a table.
    pub fn has_doubt(&self, table: &Name) -> bool
        ensures { result ≡ list_any (λ l. l.in_doubt && bytes_eq l.table table.now) self.now }
    {
        self.locks.has_doubt(table)
    }

    /// How many keys are held.
    pub fn len(&self) -> usize
        ensures { result ≡ length self.now }
    {
        self.locks.len()
    }

    /// Takes a key for a branch, to write its row or only to read it. A key that the branch has stays where it is, and
    /// stays written once it was taken to be written.
    pub fn take(
        &mut self,
        alloc: Global,
        branch: &BranchId,
        table: &Name,
        key: &Value,
        writes: bool,
    ) -> Result<(), LockErr>
        ensures taken { OnOk result (self.new ≡ taken self.old branch.now table.now key.now writes) }
        ensures held { named_holder result ≡ other_holder self.old branch.now table.now key.now }

        // A key that the branch has is taken again without memory.
        ensures memory { IsErrOf result NoMemory → holder_of self.old table.now key.now ≡ None }

        // After an error nothing has changed.
        ensures err { OnErr result (self.new ≡ self.old) }
    {
        let Some(holder) = self.locks.holder(table, key) else {
            self.add(alloc, branch, table, key, writes)?;
            return Ok(());
        };
        if !holder.branch.is(branch) {
            return Err(LockErr::Held {
                by: holder.branch,
                in_doubt: holder.in_doubt,
            });
        }
        if writes {
            self.locks.mark_written(holder.number);
        }
        Ok(())
    }

    /// Puts a key under the name of a branch that writes its row, for a record that is taken in. A key that has a holder keeps
    /// it, and is written from then on.
    pub fn hold(
        &mut self,
        alloc: Global,
        branch: &BranchId,
        table: &Name,
        key: &Value,
    ) -> Result<(), AllocError>
        ensures held { OnOk result (self.new ≡ taken self.old branch.now table.now key.now true) }

        // A key that has a holder needs no memory.
        ensures memory { OnErr result (holder_of self.old table.now key.now ≡ None) }

        // After an error nothing has changed.
        ensures err { OnErr result (self.new ≡ self.old) }
    {
        let Some(holder) = self.locks.holder(table, key) else {
            return self.add(alloc, branch, table, key, true);
        };
        self.locks.mark_written(holder.number);
        Ok(())
    }

    /// A branch is in doubt from now on, and so are the keys that it has.
    pub fn mark_in_doubt(&mut self, branch: &BranchId)
        ensures { self.new ≡ in_doubt_from_now self.old branch.now }
    {
        let numbers = self.by_branch.numbers(branch);
        mark_in_doubt_all(&mut self.locks, numbers);
    }

    /// A branch gives back the keys that it only read.
    pub fn drop_reads(&mut self, branch: &BranchId)
        ensures { self.new ≡ without_reads self.old branch.now }
    {
        let numbers = self.by_branch.numbers(branch);
        remove_reads(&mut self.locks, numbers);
        self.by_branch.keep(branch, &self.locks);
    }

    /// A branch gives back all its keys.
    pub fn release(&mut self, branch: &BranchId)
        ensures { self.new ≡ without self.old branch.now }
    {
        if let Some(numbers) = self.by_branch.remove(branch) {
            remove_all(&mut self.locks, numbers.as_slice());
        }
    }

    /// A branch goes back to a savepoint, with these notes and changes left to it: it gives back the keys that no remaining
    /// statement wrote and at which no change is left. A key at which no change is left is only read from now on.
    pub fn go_back(&mut self, branch: &BranchId, notes: &[Note], changes: &[Change])
        ensures { self.new ≡ gone_back self.old branch.now notes.now changes.now }
    {
        // First each key that stays counts as written, so that the others go as keys that are only read.
        self.write_if_kept(branch, notes, changes);
        self.drop_reads(branch);
        self.write_if_kept(branch, &[], changes);
    }

    // The keys of a branch count as written where one of these notes has them, or one of these changes is at them.
    fn write_if_kept(&mut self, branch: &BranchId, notes: &[Note], changes: &[Change])
        ensures { self.new ≡ with_kept self.old branch.now notes.now changes.now }
    {
        let numbers = self.by_branch.numbers(branch);
        write_all_kept(&mut self.locks, numbers, notes, changes);
    }

    /// Gives back the keys that were taken last, but for the first so many.
    pub fn keep_first(&mut self, many: usize)
        ensures { self.new ≡ take many self.old }
    {
        let given_back = self.len().saturating_sub(many);
        for _ in 0..given_back {
            self.drop_last();
        }
    }

    // Gives back the key that was taken last.
    fn drop_last(&mut self)
        ensures { self.new ≡ take (length self.old - 1) self.old }
    {
        if let Some(last) = self.locks.last() {
            self.locks.remove(last.number);
            self.by_branch.pop(&last.branch);
        }
    }

    // Puts a key that is free under the name of a branch.
    fn add(
        &mut self,
        alloc: Global,
        branch: &BranchId,
        table: &Name,
        key: &Value,
        writes: bool,
    ) -> Result<(), AllocError>
        requires { holder_of self.old table.now key.now ≡ None }
        ensures ok { OnOk result (self.new ≡ taken self.old branch.now table.now key.now writes) }
        ensures err { OnErr result (self.new ≡ self.old) }
    {
        let lock = HeldKey {
            table: table.copy(alloc)?,
            key: key.copy(alloc)?,
            branch: *branch,
            writes,
            in_doubt: false,
        };
        let number = self.locks.push(alloc, lock)?;
        let noted = self.by_branch.push(alloc, branch, number);
        if noted.is_err() {
            self.locks.remove(number);
        }
        noted
    }
}

// Drops the locks with these numbers.
fn remove_all(locks: &mut NumberedLocks, numbers: &[u64])
    ensures { locks.new ≡ without_numbers numbers.now locks.old }
{
    for number in numbers {
        locks.remove(*number);
    }
}

// Drops those of the locks with these numbers whose keys are only read.
fn remove_reads(locks: &mut NumberedLocks, numbers: &[u64])
    ensures { locks.new ≡ without_read_numbers numbers.now locks.old }
{
    for number in numbers {
        locks.remove_read(*number);
    }
}

// The keys of the locks with these numbers count as written where they stay.
fn write_all_kept(locks: &mut NumberedLocks, numbers: &[u64], notes: &[Note], changes: &[Change])
    ensures { locks.new ≡ changed_at (kept_if notes.now changes.now) numbers.now locks.old }
{
    for number in numbers {
        locks.write_if_kept(*number, notes, changes);
    }
}

// The locks with these numbers are in doubt from now on.
fn mark_in_doubt_all(locks: &mut NumberedLocks, numbers: &[u64])
    ensures { locks.new ≡ changed_at doubtful numbers.now locks.old }
{
    for number in numbers {
        locks.mark_in_doubt(*number);
    }
}
