//! Which locks each branch has.
ghost use Rattle.std.specs.Prelude.{◌≡◌, ◌-◌, if◌then◌else◌, [], ◌∷◌, ◌++◌, take, length, filter, is_some, unwrap_or, OnOk, OnErr};
ghost use Rattle.std.specs.Map.{lookup};
ghost use Rattle.tran_ids.specs.declared.branch.BranchId.{BranchId as AnyBranch};
ghost use Rattle.tran_ids.specs.Branch.{same};
ghost use Rattle.row_locks.specs.Numbered.{is_number};
ghost use Rattle.row_locks.specs.ByBranch.{numbers_at};

use crate::numbered_locks::NumberedLocks;
use crate::numbers::Numbers;
use indexmap::IndexMap;
use std::alloc::{AllocError, Global};
use std::marker::Model;
use tran_ids::BranchId;

/// The numbers of each branch's locks, found by the branch's id.
pub(crate) struct ByBranch {
    numbers: IndexMap<BranchId, Numbers>,
}

impl Drop for ByBranch {
    fn drop(self) {
        let ByBranch { numbers } = self;
        drop(numbers);
    }
}

impl Model for ByBranch {
    ghost use Rattle.std.specs.Prelude.{List, ℕ};
    ghost use Rattle.tran_ids.specs.declared.branch.BranchId.{BranchId};

    ghost Value = { List (BranchId × List ℕ) };

    ghost view = { λ b. b.numbers.entries };
}

impl ByBranch {
    /// No branch has a lock.
    pub(crate) fn new(alloc: Global) -> ByBranch
        ensures { result ≡ [] }
    {
        ByBranch {
            numbers: IndexMap::new(alloc),
        }
    }

    /// The numbers of a branch's locks.
    pub(crate) fn numbers(&self, branch: &BranchId) -> &[u64]
        ensures { result.now ≡ numbers_at self.now branch.now }
    {
        match self.numbers.get(branch) {
            Some(numbers) => numbers.as_slice(),
            None => &[],
        }
    }

    /// Adds the number of one more lock of a branch.
    pub(crate) fn push(
        &mut self,
        alloc: Global,
        branch: &BranchId,
        number: u64,
    ) -> Result<(), AllocError>
        ensures ok { OnOk result ((b : AnyBranch) → numbers_at self.new b
            ≡ (if same branch.now b then numbers_at self.old b ++ number ∷ [] else numbers_at self.old b)) }
        ensures err { OnErr result (self.new ≡ self.old) }
    {
        if let Some(place) = self.numbers.get_index_of(branch) {
            return self.numbers[place].push(number);
        }
        let mut numbers = Numbers::new(alloc);
        numbers.push(number)?;
        drop(self.numbers.insert(*branch, numbers)?);
        Ok(())
    }

    /// Drops the last number of a branch, where it has one.
    pub(crate) fn pop(&mut self, branch: &BranchId)
        ensures { (b : AnyBranch) → numbers_at self.new b
            ≡ (if same branch.now b then take (length (numbers_at self.old b) - 1) (numbers_at self.old b) else numbers_at self.old b) }
    {
        if let Some(place) = self.numbers.get_index_of(branch) {
            self.numbers[place].pop();
        }
    }

    /// Drops a branch, and gives the numbers of its locks where it had some.
    pub(crate) fn remove(&mut self, branch: &BranchId) -> Option<Numbers>
        ensures numbers { unwrap_or result [] ≡ numbers_at self.old branch.now }
        ensures dropped { (b : AnyBranch) → numbers_at self.new b ≡ (if same branch.now b then [] else numbers_at self.old b) }
    {
        self.numbers.swap_remove(branch)
    }

    /// Keeps the numbers of a branch's locks that are there.
    pub(crate) fn keep(&mut self, branch: &BranchId, locks: &NumberedLocks)
        ensures { (b : AnyBranch) → numbers_at self.new b
            ≡ (if same branch.now b then filter (λ n. is_some (lookup (is_number n) locks.now)) (numbers_at self.old b)
            else numbers_at self.old b) }
    {
        if let Some(place) = self.numbers.get_index_of(branch) {
            self.numbers[place].keep(locks);
        }
    }
}
