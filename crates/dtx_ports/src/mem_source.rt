//! A source in memory, which fails at the calls that a list names.
ghost use Rattle.std.specs.Prelude.{◌≡◌, ◌+◌, ◌-◌, ◌≤◌, ◌↔◌, Some, drop, min, length, vec_len, IfOk, IsErr};
ghost use Rattle.std.specs.Io.{ReadsAtMost};
ghost use Rattle.std.specs.Io.KnownBytes.{ReadConsumes};
ghost use Rattle.dtx_ports.specs.Causes.{HasCause, CountsFailure};
ghost use Rattle.dtx_ports.specs.Memory.{IsNextListed, next_call};

use crate::call_plan::CallPlan;
use crate::count::Count;
use crate::{Failed, Source};
use std::marker::Model;

/// Bytes in memory, given in as few reads as the buffers allow, but for the calls that are to fail.
#[derive(Drop)]
pub struct MemSource {
    bytes: Vec<u8>,
    read: usize,
    plan: CallPlan,
    faults: Count,
}

impl Model for MemSource {
    ghost use Rattle.std.specs.Prelude.{◌≤◌, drop, vec_len};
    ghost use Rattle.dtx_ports.specs.Memory.{SourceState};

    ghost Value = { SourceState };

    ghost view = { λ source. record {
      left = drop source.read source.bytes.items;
      calls = source.plan;
      faults = source.faults;
    } };

    ghost invariant = { λ source. source.read ≤ vec_len source.bytes };
}

impl MemSource {
    /// A source of these bytes, whose calls of these numbers fail, counted from 1.
    pub fn new(bytes: Vec<u8>, fail: Vec<u32>) -> MemSource
        ensures left { result.left ≡ bytes.items }
        ensures fail { result.calls.fail ≡ fail.items }
        ensures made { result.calls.made ≡ 0 }
        ensures faults { result.faults ≡ 0 }
    {
        MemSource {
            bytes,
            read: 0,
            plan: CallPlan::new(fail),
            faults: Count::new(),
        }
    }
}

impl Source for MemSource {
    ghost left = { λ source. Some source.left };

    ghost faults = { λ source. source.faults };

    fn read(&mut self, buffer: &mut [u8]) -> Result<usize, Failed>
        ensures bound { ReadsAtMost result buffer.new }
        ensures bytes { ReadConsumes (Some self.old.left) (Some self.new.left) result buffer.new }
        ensures cause { HasCause self.old.faults self.new.faults result }

        ensures fails { IsErr result ↔ IsNextListed self.old.calls }
        ensures counted { CountsFailure self.old.faults self.new.faults result }
        ensures calls { self.new.calls ≡ next_call self.old.calls }
        ensures full { IfOk result (λ count. count ≡ min (length self.old.left) (length buffer.old)) }
    {
        if self.plan.fails_next() {
            self.faults.rise();
            return Err(Failed);
        }
        let count = (self.bytes.len() - self.read).min(buffer.len());
        buffer[..count].copy_from_slice(&self.bytes[self.read..self.read + count]);
        self.read += count;
        Ok(count)
    }
}
