//! Which calls of a source or a sink in memory are to fail.
ghost use Rattle.std.specs.Prelude.{◌≡◌, ◌↔◌, IsTrue};
ghost use Rattle.dtx_ports.specs.Memory.{IsNextListed, next_call};

use crate::count::Count;
use std::marker::Model;

/// The numbers of the calls that fail, counted from 1, and how many calls were made.
#[derive(Drop)]
pub struct CallPlan {
    fail: Vec<u32>,
    made: Count,
}

impl Model for CallPlan {
    ghost use Rattle.dtx_ports.specs.Memory.{Calls};

    ghost Value = { Calls };

    ghost view = { λ plan. record { fail = plan.fail.items; made = plan.made } };
}

impl CallPlan {
    /// No call was made yet, and those of these numbers are to fail.
    pub fn new(fail: Vec<u32>) -> CallPlan
        ensures fail { result.fail ≡ fail.items }
        ensures made { result.made ≡ 0 }
    {
        CallPlan {
            fail,
            made: Count::new(),
        }
    }

    /// Counts a call, and tells whether it is to fail.
    pub fn fails_next(&mut self) -> bool
        ensures listed { IsTrue result ↔ IsNextListed self.old }
        ensures counted { self.new ≡ next_call self.old }
    {
        self.made.rise();
        let call = self.made.get();
        self.fail.iter().any(|&listed| u64::from(listed) == call)
    }
}
