//! The numbers of a branch's locks.
ghost use Rattle.std.specs.Prelude.{◌≡◌, ◌-◌, [], ◌∷◌, ◌++◌, take, length, filter, is_some, OnOk, OnErr};
ghost use Rattle.std.specs.Map.{lookup};
ghost use Rattle.row_locks.specs.Numbered.{is_number};

use crate::numbered_locks::NumberedLocks;
use std::alloc::{AllocError, Global};
use std::marker::Model;

/// The numbers of a branch's locks, in order.
pub(crate) struct Numbers {
    numbers: Vec<u64>,
}

impl Drop for Numbers {
    fn drop(self) {
        let Numbers { numbers } = self;
        drop(numbers);
    }
}

impl Model for Numbers {
    ghost use Rattle.std.specs.Prelude.{List, ℕ};
    ghost use Rattle.std.specs.Coded.{coded_list, coded_ℕ};

    ghost Value = { List ℕ };

    ghost coded = { coded_list coded_ℕ };

    ghost view = { λ n. n.numbers.items };
}

impl Numbers {
    /// No number.
    pub(crate) fn new(alloc: Global) -> Numbers
        ensures { result ≡ [] }
    {
        Numbers {
            numbers: Vec::new(alloc),
        }
    }

    /// The numbers in order.
    pub(crate) fn as_slice(&self) -> &[u64]
        ensures { result.now ≡ self.now }
    {
        self.numbers.as_slice()
    }

    /// Adds a number at the end.
    pub(crate) fn push(&mut self, number: u64) -> Result<(), AllocError>
        ensures ok { OnOk result (self.new ≡ self.old ++ number ∷ []) }
        ensures err { OnErr result (self.new ≡ self.old) }
    {
        self.numbers.push(number)?;
        Ok(())
    }

    /// Drops the last number, where there is one.
    pub(crate) fn pop(&mut self)
        ensures { self.new ≡ take (length self.old - 1) self.old }
    {
        self.numbers.pop();
    }

    /// Keeps the numbers of locks that are there.
    pub(crate) fn keep(&mut self, locks: &NumberedLocks)
        ensures { self.new ≡ filter (λ n. is_some (lookup (is_number n) locks.now)) self.old }
    {
        self.numbers.retain(
            |number: &u64| -> bool
                ensures { result ≡ is_some (lookup (is_number number.now) locks.entry.now) }
            { locks.has(*number) },
        );
    }
}
