//! A count of calls or faults.
ghost use Rattle.std.specs.Prelude.{◌≡◌, ◌≤◌};
ghost use Rattle.dtx_ports.specs.Causes.{risen};

use std::marker::Model;

/// A count that never falls and, once at 2^64 - 1, stays there.
#[derive(Drop)]
pub struct Count {
    number: u64,
}

impl Model for Count {
    ghost use Rattle.std.specs.Prelude.{ℕ};

    ghost Value = { ℕ };

    ghost view = { λ count. count.number };
}

impl Count {
    /// Nothing was counted yet.
    pub fn new() -> Count
        ensures { result ≡ 0 }
    {
        Count { number: 0 }
    }

    /// The number that was reached.
    pub fn get(&self) -> u64
        ensures { result ≡ self.now }
    {
        self.number
    }

    /// Counts one more.
    pub fn rise(&mut self)
        ensures risen { self.new ≡ risen self.old }
        ensures later { self.old ≤ self.new }
    {
        self.number = self.number.saturating_add(1);
    }
}
