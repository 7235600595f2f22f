//! The clock by which a node numbers its commits (Database Administrator's Guide, "Distributed Transactions
//! Concepts", on the commit phase and global database consistency).
ghost use Rattle.std.specs.Prelude.{◌≡◌, ◌+◌, ◌-◌, ◌<◌, ◌^◌, max};

use std::marker::Model;

/// A clock of system change numbers (SCNs), which have 48 bits. It never goes back.
#[derive(Drop)]
pub struct Clock {
    scn: u64,
}

impl Model for Clock {
    ghost use Rattle.std.specs.Prelude.{ℕ};

    ghost Value = { ℕ };

    ghost view = { λ clock. clock.scn };
}

impl Clock {
    /// A clock that has given no number yet: it stands at 0.
    pub fn new() -> Clock
        ensures { result ≡ 0 }
    {
        Clock { scn: 0 }
    }

    /// The greatest SCN that it gave or met.
    pub fn now(&self) -> u64
        ensures { result ≡ self.now }
    {
        self.scn
    }

    /// Meets an SCN of another node: the clock does not stand below it afterwards.
    pub fn meet(&mut self, scn: u64)
        ensures { self.new ≡ max self.old scn }
    {
        self.scn = self.scn.max(scn);
    }

    /// Gives the next SCN, one above the present.
    pub fn next(&mut self) -> u64
        requires { self.old < 2 ^ 48 - 1 }
        ensures given { result ≡ self.old + 1 }
        ensures moved { self.new ≡ self.old + 1 }
    {
        self.scn += 1;
        self.scn
    }
}
